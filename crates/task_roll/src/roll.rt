//! The live tasks and the notes.

ghost use Rattle.std.specs.Prelude.{◌≡◌, ◌<◌, ◌≤◌, [], ◌∷◌, ◌+◌, true, Some, None, length, map, slice_get, slice_index_or, vec_len};
ghost use Rattle.std.specs.Prelude.{vec_capacity, IfOk, OnOk, OnErr, IfSome, IfNone, MatchOption};
ghost use Rattle.std.specs.VecDeque.{deque_len};
ghost use Rattle.task_roll.specs.Order.{is_ordered, place_among, fits_at};
ghost use Rattle.task_roll.specs.Rolls.{started, enrolled, resigned, noting, on_roll};
ghost use Rattle.std.specs.List.{insert, remove};
ghost use Rattle.std.specs.VecDeque.{deque_capacity};

use crate::note::PartNote;
use crate::order::{fits_at, place_of};
use crate::rows::{make_room, one_row, push, put, take_out};
use jade_base::{Blame, Memory, Path};
use std::alloc::Global;
use std::collections::VecDeque;
use std::marker::Model;

/// The live tasks by their paths, in the serial order, in which a task stands before its creator;
/// and the notes of the parts that have ended, in the order in which they ended. There is always
/// room for the note of each live task, so that none wants memory when it ends. The rule is that of
/// Rinard and Lam (1998) for the order of tasks.
#[derive(Debug, Drop)]
pub struct Roll {
    live: VecDeque<Path>,
    notes: Vec<PartNote>,
}

impl Model for Roll {
    ghost use Rattle.std.specs.Prelude.{◌≡◌, ◌≤◌, ◌+◌, true, vec_len, vec_capacity};
    ghost use Rattle.std.specs.VecDeque.{deque_len};
    ghost use Rattle.task_roll.specs.Order.{is_ordered};
    ghost use Rattle.task_roll.specs.Rolls.{RollView};

    ghost Value = { RollView };

    ghost view = { λ r. record { live = r.live.items; notes = r.notes.items } };

    ghost invariant = { λ r. (is_ordered r.live.items ≡ true) × (vec_len r.notes + deque_len r.live ≤ vec_capacity r.notes) };
}

impl Roll {
    /// The root alone, with no note. The error is want of memory.
    pub fn start(alloc: Global) -> Result<Roll, Memory>
        ensures { IfOk result (λ roll. roll ≡ started) }
    {
        let live = one_row(alloc, Path::root(alloc)?)?;
        let mut notes = Vec::new(alloc);
        notes.reserve(1)?;
        Ok(Roll { live, notes })
    }

    /// A task makes its child of the number `children`, counted from 0, and begins a new part: the
    /// child stands directly before it, and its part that ends leaves a note with the steps begun in
    /// it. Where the task is not live, or its child would break the serial order, nothing changes.
    /// The error is want of memory, and changes nothing.
    pub fn enroll(
        &mut self,
        alloc: Global,
        parent: &Path,
        children: u32,
        steps: u64,
    ) -> Result<(), Memory>
        ensures done { OnOk result (self.new ≡ enrolled parent.now children steps self.old) }
        ensures unchanged { OnErr result (self.new ≡ self.old) }
    {
        enroll_in(
            &mut self.live,
            &mut self.notes,
            alloc,
            parent,
            children,
            steps,
        )
    }

    /// A task ends: it leaves the roll, and its last part leaves a note with the steps begun in it
    /// and the fault that ended it, if one did. Where the task is not live nothing changes. It takes
    /// no memory.
    pub fn resign(&mut self, path: &Path, children: u32, blame: Option<Blame>, steps: u64)
        ensures { self.new ≡ resigned path.now children blame steps self.old }
    {
        resign_in(
            &mut self.live,
            &mut self.notes,
            path,
            children,
            blame,
            steps,
        );
    }

    /// The path of the first live task. It takes no memory.
    pub fn first(&self) -> Option<&Path>
        ensures { MatchOption result (self.now.live ≡ []) (λ path. slice_get self.now.live 0 ≡ Some path.now) }
    {
        if self.live.len() > 0 {
            return Some(&self.live[0]);
        }
        None
    }

    /// The number of live tasks.
    pub fn len(&self) -> usize
        ensures { result ≡ length self.now.live }
    {
        self.live.len()
    }

    /// Whether no task is live.
    pub fn is_empty(&self) -> bool
        ensures yes { result ≡ true → self.now.live ≡ [] }
        ensures no { self.now.live ≡ [] → result ≡ true }
    {
        self.live.len() == 0
    }

    /// The path of the live task at a place, counted from the front.
    pub fn at(&self, place: usize) -> &Path
        requires { place < length self.now.live }
        ensures { slice_get self.now.live place ≡ Some result.now }
    {
        &self.live[place]
    }

    /// How many live tasks stand before a task; where it is not live, their number. It is found by
    /// halves and takes no memory.
    pub fn place(&self, path: &Path) -> usize
        ensures { result ≡ place_among path.now self.now.live }
    {
        place_in(&self.live, path)
    }

    /// The notes, in the order in which the parts ended.
    pub fn notes(&self) -> &[PartNote]
        ensures { result.now ≡ self.now.notes }
    {
        self.notes.as_slice()
    }

    /// The notes, for a caller that is done with the roll.
    pub fn into_notes(self) -> Vec<PartNote>
        ensures { result.items ≡ self.notes }
    {
        self.notes
    }
}

// How many live tasks stand before a task.
fn place_in(live: &VecDeque<Path>, path: &Path) -> usize
    requires { is_ordered live.now.items ≡ true }
    ensures { result ≡ place_among path.now live.now.items }
{
    place_of(live, path)
}

// Whether a child stands between the live task at a place and the one before it.
fn child_fits(live: &VecDeque<Path>, place: usize, child: &Path) -> bool
    requires { place < length live.now.items }
    ensures { result ≡ fits_at place child.now live.now.items }
{
    fits_at(live, place, child)
}

// Enters a child, and notes its parent's part that ends with it.
fn enroll_in(
    live: &mut VecDeque<Path>,
    notes: &mut Vec<PartNote>,
    alloc: Global,
    parent: &Path,
    children: u32,
    steps: u64,
) -> Result<(), Memory>
    requires ordered { is_ordered live.old.items ≡ true }
    requires room { vec_len notes.old + deque_len live.old ≤ vec_capacity notes.old }
    ensures done { OnOk result (on_roll live.new.items notes.new.items ≡ enrolled parent.now children steps (on_roll live.old.items notes.old.items)) }
    ensures unmoved { OnErr result (live.new.items ≡ live.old.items) }
    ensures unnoted { OnErr result (notes.new.items ≡ notes.old.items) }
    ensures order { is_ordered live.new.items ≡ true }
    ensures spare { vec_len notes.new + deque_len live.new ≤ vec_capacity notes.new }
{
    let place = place_in(live, parent);
    if place >= live.len() {
        return Ok(());
    }
    let child = parent.child(alloc, children)?;
    if !child_fits(live, place, &child) {
        return Ok(());
    }
    let path = parent.copy(alloc)?;
    make_room(live, notes)?;
    put(live, place, child);
    push(
        notes,
        PartNote {
            path,
            children,
            steps,
            blame: None,
        },
    );
    Ok(())
}

// A task leaves, and its last part leaves its note.
fn resign_in(
    live: &mut VecDeque<Path>,
    notes: &mut Vec<PartNote>,
    path: &Path,
    children: u32,
    blame: Option<Blame>,
    steps: u64,
)
    requires ordered { is_ordered live.old.items ≡ true }
    requires room { vec_len notes.old + deque_len live.old ≤ vec_capacity notes.old }
    ensures done { on_roll live.new.items notes.new.items ≡ resigned path.now children blame steps (on_roll live.old.items notes.old.items) }
    ensures order { is_ordered live.new.items ≡ true }
    ensures spare { vec_len notes.new + deque_len live.new ≤ vec_capacity notes.new }
{
    let place = place_in(live, path);
    if place >= live.len() {
        return;
    }
    let path = take_out(live, place);
    push(
        notes,
        PartNote {
            path,
            children,
            steps,
            blame,
        },
    );
}
