//! Rows of live tasks, and the notes for which there is room as long as they are live.

ghost use Rattle.std.specs.Prelude.{◌≡◌, ◌<◌, ◌≤◌, ◌+◌, [], ◌∷◌, length, slice_index_or, vec_len, vec_capacity, IfOk, OnOk};
ghost use Rattle.std.specs.List.{insert, remove};
ghost use Rattle.std.specs.VecDeque.{deque_len, deque_capacity};
ghost use Rattle.task_roll.specs.Rolls.{noting};

use crate::note::PartNote;
use jade_base::Memory;
use std::alloc::Global;
use std::collections::VecDeque;

/// One row alone. The error is want of memory.
pub fn one_row<T: Drop>(alloc: Global, row: T) -> Result<VecDeque<T>, Memory>
    ensures items { IfOk result (λ rows. rows.items ≡ row ∷ []) }
    ensures one { IfOk result (λ rows. deque_len rows ≡ 1) }
{
    let mut rows = VecDeque::new(alloc);
    match rows.push_back(row) {
        Ok(()) => Ok(rows),
        Err(_) => Err(Memory),
    }
}

/// Makes room for one row more, for its note and for one beside. The error is want of memory, and
/// changes nothing.
pub fn make_room<T: Drop>(rows: &mut VecDeque<T>, notes: &mut Vec<PartNote>) -> Result<(), Memory>
    ensures rows { rows.new.items ≡ rows.old.items }
    ensures notes { notes.new.items ≡ notes.old.items }
    ensures kept { vec_capacity notes.old ≤ vec_capacity notes.new }
    ensures place { OnOk result (deque_len rows.new < deque_capacity rows.new) }
    ensures room { OnOk result (vec_len notes.new + deque_len rows.new + 2 ≤ vec_capacity notes.new) }
{
    rows.reserve(1)?;
    notes.reserve(rows.len() + 2)?;
    Ok(())
}

/// Puts a row at a place, where there is room. It takes no memory.
pub fn put<T: Drop>(rows: &mut VecDeque<T>, place: usize, row: T)
    requires place { place < length rows.old.items }
    requires room { deque_len rows.old < deque_capacity rows.old }
    ensures { rows.new.items ≡ insert rows.old.items place row }
{
    match rows.insert(place, row) {
        Ok(()) => {}
        Err(_) => unreachable!(),
    }
}

// Takes the first row out, which moves no other.
fn first_out<T: Drop>(rows: &mut VecDeque<T>) -> T
    requires { 0 < length rows.old.items }
    ensures row { result ≡ slice_index_or rows.old.items 0 result }
    ensures rest { rows.new.items ≡ remove rows.old.items 0 }
    ensures fewer { deque_len rows.new + 1 ≡ deque_len rows.old }
{
    match rows.pop_front() {
        Some(row) => row,
        None => unreachable!(),
    }
}

/// Takes the row at a place out.
pub fn take_out<T: Drop>(rows: &mut VecDeque<T>, place: usize) -> T
    requires { place < length rows.old.items }
    ensures row { result ≡ slice_index_or rows.old.items place result }
    ensures rest { rows.new.items ≡ remove rows.old.items place }
    ensures fewer { deque_len rows.new + 1 ≡ deque_len rows.old }
{
    if place == 0 {
        return first_out(rows);
    }
    match rows.remove(place) {
        Some(row) => row,
        None => unreachable!(),
    }
}

/// Notes a part, where there is room. It takes no memory.
pub fn push(notes: &mut Vec<PartNote>, note: PartNote)
    requires { vec_len notes.old < vec_capacity notes.old }
    ensures notes { notes.new.items ≡ noting note notes.old.items }
    ensures kept { vec_capacity notes.old ≤ vec_capacity notes.new }
{
    match notes.push(note) {
        Ok(()) => {}
        Err(_) => unreachable!(),
    }
}
