//! Notes, and the room that a task brings along for its own.

ghost use Rattle.std.specs.Prelude.{◌≡◌, ◌<◌, ◌≤◌, ◌+◌, ◌^◌, [], ◌∷◌, ◌++◌, true, false, None, length, IfOk, OnOk, OnErr};
ghost use Rattle.part_notes.specs.Families.{left_after};
ghost use Rattle.part_notes.specs.Notes.{first_path, flat, in_chunk, IsOne, IsSingle};
ghost use Rattle.part_notes.specs.declared.chunk.Chunk.TheVariants.{One};

use crate::chunk::{Chunk, left_in, put, put_all, put_into};
use jade_base::{Blame, Memory, Path};
use std::alloc::Global;
use std::collections::LinkedList;
use std::marker::Model;
use task_roll::PartNote;

// Behind so many notes none is added for which memory is taken.
const MOST_ADDED: usize = 1 << 62;

/// The room for one note of a task: a node of a list with one note, made where memory may be taken,
/// and used where none may be wanted. Contracts see the path that the note will have, and nothing of
/// its other parts.
#[derive(Drop)]
pub struct SpareNote {
    chunks: LinkedList<Chunk>,
}

impl Model for SpareNote {
    ghost use Rattle.std.specs.Prelude.{◌≡◌, ℕ, List, length};
    ghost use Rattle.part_notes.specs.Notes.{first_path, flat, IsSingle};

    ghost Value = { List ℕ };

    ghost view = { λ s. first_path (flat s.chunks) };

    ghost invariant = { λ s. IsSingle s.chunks };
}

impl SpareNote {
    /// The room for a note of the task of this path. The error is want of memory.
    pub fn of(alloc: Global, path: &Path) -> Result<SpareNote, Memory>
        ensures { IfOk result (λ spare. spare ≡ path.now) }
    {
        let note = PartNote {
            path: path.copy(alloc)?,
            children: 0,
            steps: 0,
            blame: None,
        };
        Ok(SpareNote {
            chunks: single(alloc, note)?,
        })
    }

    /// The same, in the room that another note has handed back, if there is such room. The error is want
    /// of memory.
    pub fn in_place(
        alloc: Global,
        used: Option<SpareNote>,
        path: &Path,
    ) -> Result<SpareNote, Memory>
        ensures { IfOk result (λ spare. spare ≡ path.now) }
    {
        match used {
            Some(used) => Ok(readdressed(used, path.copy(alloc)?)),
            None => SpareNote::of(alloc, path),
        }
    }
}

/// Notes, in the order in which they were left. Contracts see the list of them. A task brings along
/// the room for each of its notes, so that no method fails for want of memory but the ones that say
/// so: where a note is of the family of the one before it, and there is memory, it is put into the
/// last chunk, and its room is let go at once, to be used again; else its room is the next chunk.
#[derive(Drop)]
pub struct Notes {
    chunks: LinkedList<Chunk>,
    count: usize,
}

impl Model for Notes {
    ghost use Rattle.std.specs.Prelude.{◌≡◌, ◌<◌, ◌≤◌, ◌^◌, List, length};
    ghost use Rattle.task_roll.specs.declared.note.PartNote.{PartNote};
    ghost use Rattle.part_notes.specs.Notes.{flat};

    ghost Value = { List PartNote };

    ghost view = { λ n. flat n.chunks };

    ghost invariant = { λ n. (n.count ≡ length (flat n.chunks)) × (length n.chunks ≤ n.count) × (n.count < 2 ^ 63) };
}

impl Notes {
    /// No notes. It takes no memory.
    pub fn none(alloc: Global) -> Notes
        ensures { result ≡ [] }
    {
        Notes {
            chunks: LinkedList::new(alloc),
            count: 0,
        }
    }

    /// How many notes there are.
    pub fn len(&self) -> usize
        ensures value { result ≡ length self.now }
        ensures fits { result < 2 ^ 63 }
    {
        self.count
    }

    /// The note of one part more, which ended without a fault, where memory may be taken. The error is
    /// want of memory, and changes nothing.
    pub fn add(
        &mut self,
        alloc: Global,
        path: &Path,
        children: u32,
        steps: u64,
    ) -> Result<(), Memory>
        ensures added { OnOk result (self.new ≡ self.old ++ (record { path = path.now; children = children; steps = steps; blame = None }) ∷ []) }
        ensures unchanged { OnErr result (self.new ≡ self.old) }
    {
        if self.count >= MOST_ADDED {
            return Err(Memory);
        }
        add_last(alloc, &mut self.chunks, path, children, steps)?;
        self.count += 1;
        Ok(())
    }

    /// One note more, in the room that its task has brought along.
    pub fn push(&mut self, spare: SpareNote, children: u32, blame: Option<Blame>, steps: u64)
        requires { length self.old + 1 < 2 ^ 63 }
        ensures { self.new ≡ self.old ++ (record { path = spare; children = children; steps = steps; blame = blame }) ∷ [] }
    {
        let SpareNote { chunks } = spare;
        let mut chunks = chunks;
        fill(&mut chunks, children, blame, steps);
        take_over(&mut self.chunks, &mut chunks);
        self.count += 1;
    }

    /// Takes over all notes of a task that ends, and behind them the note of its last part, in the room
    /// that it has brought along. Where that note is put into the last chunk, its room is handed back.
    pub fn append_last(
        &mut self,
        other: Notes,
        spare: SpareNote,
        children: u32,
        blame: Option<Blame>,
        steps: u64,
    ) -> Option<SpareNote>
        requires { length self.old + length other + 1 < 2 ^ 63 }
        ensures { self.new ≡ self.old ++ (other ++ (record { path = spare; children = children; steps = steps; blame = blame }) ∷ []) }
    {
        if other.count > 0 {
            let mut more = other;
            self.append(&mut more);
        }
        let SpareNote { chunks } = spare;
        let mut chunks = chunks;
        fill(&mut chunks, children, blame, steps);
        self.count += 1;
        if copy_over(&mut self.chunks, &chunks) {
            return Some(SpareNote { chunks });
        }
        join(&mut self.chunks, &mut chunks);
        None
    }

    /// Takes over all notes of others, behind its own. Few of one family are copied into its last
    /// chunk, if that is of the same; else the chunks are taken over as they are, in the same time for
    /// any number.
    pub fn append(&mut self, other: &mut Notes)
        requires { length self.old + length other.old < 2 ^ 63 }
        ensures items { self.new ≡ self.old ++ other.old }
        ensures other { other.new ≡ [] }
    {
        take_over(&mut self.chunks, &mut other.chunks);
        self.count += other.count;
        other.count = 0;
    }

    /// What is left of so many steps after all these parts; `None` where one of them ended with a
    /// fault, and where they have more steps. It takes no memory.
    pub fn left_of(&self, steps: u64) -> Option<u64>
        ensures { result ≡ left_after steps self.now }
    {
        left_in_all(&self.chunks, steps)
    }

    /// The notes, in their order. The error is want of memory.
    pub fn into_vec(self, alloc: Global) -> Result<Vec<PartNote>, Memory>
        ensures { IfOk result (λ notes. notes.items ≡ self) }
    {
        collect(alloc, self.chunks, self.count)
    }
}

// The room for a note of the task of another path.
fn readdressed(spare: SpareNote, path: Path) -> SpareNote
    ensures { result ≡ path }
{
    let SpareNote { chunks } = spare;
    let mut chunks = chunks;
    address(&mut chunks, path);
    SpareNote { chunks }
}

// The note of the only chunk has this path.
fn address(chunks: &mut LinkedList<Chunk>, path: Path)
    requires { IsSingle chunks.old }
    ensures single { IsSingle chunks.new }
    ensures path { first_path (flat chunks.new) ≡ path }
{
    match chunks.front_mut() {
        Some(chunk) => address_chunk(chunk, path),
        None => unreachable!(),
    }
}

// The same of a chunk.
fn address_chunk(chunk: &mut Chunk, path: Path)
    requires { IsOne chunk.old }
    ensures single { IsOne chunk.new }
    ensures path { first_path (in_chunk chunk.new) ≡ path }
{
    match chunk {
        Chunk::One(note) => note.path = path,
        Chunk::Many(_) => unreachable!(),
    }
}

// One chunk, with this note.
fn single(alloc: Global, note: PartNote) -> Result<LinkedList<Chunk>, Memory>
    ensures { IfOk result (λ chunks. chunks ≡ One note ∷ []) }
{
    let mut chunks = LinkedList::new(alloc);
    match chunks.push_back(Chunk::One(note)) {
        Ok(()) => Ok(chunks),
        Err(_) => Err(Memory),
    }
}

// One note more behind those of chunks: in the last chunk, if there is one and it is of its family,
// or else in a new one.
fn add_last(
    alloc: Global,
    chunks: &mut LinkedList<Chunk>,
    path: &Path,
    children: u32,
    steps: u64,
) -> Result<(), Memory>
    ensures added { OnOk result (flat chunks.new ≡ flat chunks.old ++ (record { path = path.now; children = children; steps = steps; blame = None }) ∷ []) }
    ensures most { OnOk result (length chunks.new ≤ length chunks.old + 1) }
    ensures unchanged { OnErr result ((flat chunks.new ≡ flat chunks.old) × (length chunks.new ≡ length chunks.old)) }
{
    if put_last(alloc, chunks, path, children, steps) {
        return Ok(());
    }
    let note = PartNote {
        path: path.copy(alloc)?,
        children,
        steps,
        blame: None,
    };
    match chunks.push_back(Chunk::One(note)) {
        Ok(()) => Ok(()),
        Err(_) => Err(Memory),
    }
}

// Puts the note of a part into the last chunk, if there is one, it is of its family, and there is
// memory. The answer is whether it was put.
fn put_last(
    alloc: Global,
    chunks: &mut LinkedList<Chunk>,
    path: &Path,
    children: u32,
    steps: u64,
) -> bool
    ensures put { result ≡ true → flat chunks.new ≡ flat chunks.old ++ (record { path = path.now; children = children; steps = steps; blame = None }) ∷ [] }
    ensures unchanged { result ≡ false → flat chunks.new ≡ flat chunks.old }
    ensures chunks { length chunks.new ≡ length chunks.old }
{
    match chunks.back_mut() {
        Some(last) => put(alloc, last, path, children, steps),
        None => false,
    }
}

// Writes all but the path into the note of a chunk.
fn fill_chunk(chunk: &mut Chunk, children: u32, blame: Option<Blame>, steps: u64)
    requires { IsOne chunk.old }
    ensures { chunk.new ≡ One (record { path = first_path (in_chunk chunk.old); children = children; steps = steps; blame = blame }) }
{
    match chunk {
        Chunk::One(note) => {
            note.children = children;
            note.blame = blame;
            note.steps = steps;
        }
        Chunk::Many(_) => unreachable!(),
    }
}

// Writes all but the path into the note of the only chunk.
fn fill(chunks: &mut LinkedList<Chunk>, children: u32, blame: Option<Blame>, steps: u64)
    requires { IsSingle chunks.old }
    ensures { chunks.new ≡ One (record { path = first_path (flat chunks.old); children = children; steps = steps; blame = blame }) ∷ [] }
{
    match chunks.front_mut() {
        Some(chunk) => fill_chunk(chunk, children, blame, steps),
        None => unreachable!(),
    }
}

// Takes over all notes of other chunks, behind those of these.
fn take_over(chunks: &mut LinkedList<Chunk>, other: &mut LinkedList<Chunk>)
    requires { length chunks.old + length other.old < 2 ^ 63 }
    ensures notes { flat chunks.new ≡ flat chunks.old ++ flat other.old }
    ensures other { other.new ≡ [] }
    ensures most { length chunks.new ≤ length chunks.old + length other.old }
{
    if other.len() == 1 && copy_over(chunks, other) {
        other.clear();
    } else {
        join(chunks, other);
    }
}

// Copies the notes of the only chunk of others into the last of these chunks, if there is one and it
// is of their family, they are few, and there is memory. The answer is whether they were copied.
fn copy_over(chunks: &mut LinkedList<Chunk>, other: &LinkedList<Chunk>) -> bool
    requires { length other.now ≡ 1 }
    ensures copied { result ≡ true → flat chunks.new ≡ flat chunks.old ++ flat other.now }
    ensures unchanged { result ≡ false → flat chunks.new ≡ flat chunks.old }
    ensures chunks { length chunks.new ≡ length chunks.old }
{
    match other.front() {
        Some(chunk) => copy_chunk(*other.allocator(), chunks, chunk),
        None => unreachable!(),
    }
}

// The same of a chunk.
fn copy_chunk(alloc: Global, chunks: &mut LinkedList<Chunk>, chunk: &Chunk) -> bool
    ensures copied { result ≡ true → flat chunks.new ≡ flat chunks.old ++ in_chunk chunk.now }
    ensures unchanged { result ≡ false → flat chunks.new ≡ flat chunks.old }
    ensures chunks { length chunks.new ≡ length chunks.old }
{
    match chunks.back_mut() {
        Some(last) => put_all(alloc, last, chunk),
        None => false,
    }
}

// Moves the nodes of one list behind those of another.
fn join(list: &mut LinkedList<Chunk>, other: &mut LinkedList<Chunk>)
    requires { length list.old + length other.old < 2 ^ 63 }
    ensures items { list.new ≡ list.old ++ other.old }
    ensures other { other.new ≡ [] }
{
    match list.append(other) {
        Ok(()) => {}
        Err(_) => unreachable!(),
    }
}

// What is left of so many steps after the parts of all chunks, if all is well with them.
fn left_in_all(chunks: &LinkedList<Chunk>, steps: u64) -> Option<u64>
    ensures { result ≡ left_after steps (flat chunks.now) }
{
    let mut left = steps;
    for chunk in chunks {
        left = left_in(chunk, left)?;
    }
    Some(left)
}

// The notes of all chunks, which are so many.
fn collect(alloc: Global, chunks: LinkedList<Chunk>, count: usize) -> Result<Vec<PartNote>, Memory>
    ensures { IfOk result (λ notes. notes.items ≡ flat chunks) }
{
    let mut notes = Vec::with_capacity(alloc, count)?;
    let mut rest = chunks;
    'chunks: while let Some(chunk) = rest.pop_front() {
        put_into(alloc, chunk, &mut notes)?;
    }
    Ok(notes)
}
