//! A chunk of notes.

ghost use Rattle.std.specs.Prelude.{◌≡◌, [], ◌∷◌, ◌++◌, true, false, None, IfSome, OnOk};
ghost use Rattle.part_notes.specs.Families.{left_after};
ghost use Rattle.part_notes.specs.Notes.{in_chunk};

use crate::family::Family;
use jade_base::{Memory, Path};
use std::alloc::Global;
use task_roll::PartNote;

/// A note by itself, or those of a family.
#[derive(Drop)]
pub(crate) enum Chunk {
    One(PartNote),
    Many(Family),
}

/// Puts the note of a part that ended without a fault into a chunk, if it is of its family, and there
/// is memory. The answer is whether it was put.
pub(crate) fn put(alloc: Global, chunk: &mut Chunk, path: &Path, children: u32, steps: u64) -> bool
    ensures put { result ≡ true → in_chunk chunk.new ≡ in_chunk chunk.old ++ (record { path = path.now; children = children; steps = steps; blame = None }) ∷ [] }
    ensures unchanged { result ≡ false → in_chunk chunk.new ≡ in_chunk chunk.old }
{
    let begun = match chunk {
        Chunk::Many(family) => return family.add(path, children, steps),
        Chunk::One(one) => begin(alloc, one, path, children, steps),
    };
    match begun {
        Some(family) => {
            *chunk = Chunk::Many(family);
            true
        }
        None => false,
    }
}

// The family of two parts, if they are of one, neither ended with a fault, and there is memory.
fn begin(alloc: Global, one: &PartNote, path: &Path, children: u32, steps: u64) -> Option<Family>
    ensures { IfSome result (λ family. family
        ≡ one.now ∷ (record { path = path.now; children = children; steps = steps; blame = None }) ∷ []) }
{
    if one.blame.is_some() {
        return None;
    }
    match Family::of(alloc, one, path, children, steps) {
        Ok(family) => family,
        Err(_) => None,
    }
}

/// Puts the notes of a chunk behind those of another, if they are of one family and few, and there is
/// memory. The answer is whether they were put.
pub(crate) fn put_all(alloc: Global, chunk: &mut Chunk, other: &Chunk) -> bool
    ensures put { result ≡ true → in_chunk chunk.new ≡ in_chunk chunk.old ++ in_chunk other.now }
    ensures unchanged { result ≡ false → in_chunk chunk.new ≡ in_chunk chunk.old }
{
    match other {
        Chunk::One(note) => put_note(alloc, chunk, note),
        Chunk::Many(family) => match chunk {
            Chunk::Many(older) => older.extend(family),
            Chunk::One(_) => false,
        },
    }
}

// The same of one note.
fn put_note(alloc: Global, chunk: &mut Chunk, note: &PartNote) -> bool
    ensures put { result ≡ true → in_chunk chunk.new ≡ in_chunk chunk.old ++ note.now ∷ [] }
    ensures unchanged { result ≡ false → in_chunk chunk.new ≡ in_chunk chunk.old }
{
    if note.blame.is_some() {
        return false;
    }
    put(alloc, chunk, &note.path, note.children, note.steps)
}

/// What is left of so many steps after the parts of a chunk; `None` where one of them ended with a
/// fault, and where they have more.
pub(crate) fn left_in(chunk: &Chunk, steps: u64) -> Option<u64>
    ensures { result ≡ left_after steps (in_chunk chunk.now) }
{
    match chunk {
        Chunk::One(note) => left_past(note, steps),
        Chunk::Many(family) => family.left_of(steps),
    }
}

// The same after one part.
fn left_past(note: &PartNote, steps: u64) -> Option<u64>
    ensures { result ≡ left_after steps (note.now ∷ []) }
{
    if note.blame.is_some() {
        return None;
    }
    steps.checked_sub(note.steps)
}

/// Puts the notes of a chunk behind others. The error is want of memory.
pub(crate) fn put_into(alloc: Global, chunk: Chunk, notes: &mut Vec<PartNote>) -> Result<(), Memory>
    ensures { OnOk result (notes.new.items ≡ notes.old.items ++ in_chunk chunk) }
{
    match chunk {
        Chunk::One(note) => {
            notes.push(note)?;
            Ok(())
        }
        Chunk::Many(family) => family.put_into(alloc, notes),
    }
}
