//! The end of a run.

ghost use Rattle.std.specs.Prelude.{◌≡◌, ◌<◌, ◌≤◌, ◌+◌, [], ◌∷◌, ◌++◌, true, map, vec_len, vec_capacity, take, IfOk};
ghost use Rattle.std.specs.Mem.Slots.{slots_filled, slots_items, slots_len, IsFull};
ghost use Rattle.jade_meaning.specs.Plan.{RunPlan};
ghost use Rattle.object_table.specs.steps.Kept.{Laid, shown};
ghost use Rattle.object_table.specs.steps.Endings.{EndLaws, LastSlots, Emptied, cells_in, notes_in, turns_at};

use crate::ran::Ran;
use crate::slot::Slot;
use crate::task::Task;
use crate::view::{Sharing, View};
use atomic_table::{Closed, Table};
use jade_base::{CellLists, Memory, Numbers, Path, PathList, TurnLists};
use jade_list::sequence::Sequence;
use jade_meaning::Plan;
use part_notes::Notes;
use std::alloc::Global;

// What is true of every core at its end.
fn end_laws()
    ensures { (key : RunPlan) → EndLaws key }
{
    schedule_core::laws::reports_are_serial();
    schedule_core::laws::entries_are_owned();
}

/// What a run did, once a task knows that all is over.
pub(crate) fn finish_with<'c>(
    alloc: Global,
    table: Table<Slot, View, Plan<'c>, Sharing, Global>,
    plan: Plan<'c>,
    task: Task,
) -> Result<Ran<'c>, Memory>
    requires plan { plan ≡ table.shared.key }
    requires laid { Laid table.shared.table_id table.shared.key }
    requires mark { task.seat.table_id ≡ table.shared.table_id }
    requires over { (shown task).over ≡ true }
    ensures { IfOk result (λ ran. ran.plan ≡ plan.entry) }
{
    end_laws();
    let (slots, roll) = close(alloc, table, task)?;
    let objects = contents_of(alloc, slots.as_slice())?;
    let turns = turns_of(alloc, slots.as_slice())?;
    let notes = notes_of(alloc, roll);
    Ok(Ran {
        objects,
        turns,
        notes,
        plan,
    })
}

// The slots of the objects and that of the roll, once nobody shares them.
fn close<'c>(
    alloc: Global,
    table: Table<Slot, View, Plan<'c>, Sharing, Global>,
    task: Task,
) -> Result<(Vec<Slot>, Slot), Memory>
    requires laid { Laid table.shared.table_id table.shared.key }
    requires mark { task.seat.table_id ≡ table.shared.table_id }
    requires over { (shown task).over ≡ true }
    ensures { IfOk result (λ r. LastSlots table.entry.shared.key r.0.items r.1) }
{
    let count = table.slot_count() - 1;
    let mut slots = Vec::with_capacity(alloc, count)?;
    let Task {
        seat,
        path: _,
        spare: _,
        tickets: _,
        notes: _,
        children: _,
        events: _,
        touched: _,
        over: _,
    } = task;
    let mut closed = table.close_with(seat);
    collect(&mut closed, &mut slots, count);
    let roll = closed.take(count);
    closed.free();
    Ok((slots, roll))
}

// Takes the values of so many slots out.
fn collect(closed: &mut Closed<Slot, Global>, slots: &mut Vec<Slot>, count: usize)
    requires full { (count < slots_len closed.old.slots) × IsFull closed.old.slots }
    requires room { (slots.old.items ≡ []) × (vec_len slots.old ≡ 0) × (count ≤ vec_capacity slots.old) }
    ensures same { (slots_items closed.new.slots ≡ slots_items closed.old.slots) × (slots_len closed.new.slots ≡ slots_len closed.old.slots) }
    ensures filled { Emptied (slots_filled closed.new.slots) count (slots_len closed.new.slots) }
    ensures items { slots.new.items ≡ take count (slots_items closed.old.slots) }
{
    let mut i = 0;
    while i < count {
        let slot = closed.take(i);
        add(slots, slot);
        i += 1;
    }
}

// One value more, for which there is room.
fn add(slots: &mut Vec<Slot>, slot: Slot)
    requires { vec_len slots.old < vec_capacity slots.old }
    ensures items { slots.new.items ≡ slots.old.items ++ slot ∷ [] }
    ensures len { vec_len slots.new ≡ vec_len slots.old + 1 }
    ensures capacity { vec_capacity slots.old ≤ vec_capacity slots.new }
{
    match slots.push(slot) {
        Ok(()) => {}
        Err(_) => unreachable!(),
    }
}

// The contents at home in slots.
fn contents_of(alloc: Global, slots: &[Slot]) -> Result<CellLists, Memory>
    ensures { IfOk result (λ lists. lists ≡ map cells_in slots.now) }
{
    let mut lists = Sequence::empty(alloc);
    for slot in slots {
        let cells = cells_of(alloc, slot)?;
        match lists.push(cells) {
            Ok(()) => {}
            Err(_) => return Err(Memory),
        }
    }
    Ok(lists)
}

// The content at home in a slot.
fn cells_of(alloc: Global, slot: &Slot) -> Result<Numbers, Memory>
    ensures { IfOk result (λ cells. cells ≡ cells_in slot.now) }
{
    match slot {
        Slot::Object(shelf) => match shelf.cells(alloc)? {
            Some(cells) => Ok(cells),
            None => Ok(Sequence::empty(alloc)),
        },
        Slot::Away => Ok(Sequence::empty(alloc)),
        Slot::Roll(_) => Ok(Sequence::empty(alloc)),
    }
}

// The turns on the objects in slots.
fn turns_of(alloc: Global, slots: &[Slot]) -> Result<TurnLists, Memory>
    ensures { IfOk result (λ lists. lists ≡ map turns_at slots.now) }
{
    let mut lists = Sequence::empty(alloc);
    for slot in slots {
        let paths = turns_in_slot(alloc, slot)?;
        match lists.push(paths) {
            Ok(()) => {}
            Err(_) => return Err(Memory),
        }
    }
    Ok(lists)
}

// The turns on the object in a slot.
fn turns_in_slot(alloc: Global, slot: &Slot) -> Result<PathList, Memory>
    ensures { IfOk result (λ paths. paths ≡ turns_at slot.now) }
{
    match slot {
        Slot::Object(shelf) => paths_of(alloc, shelf.turns()),
        Slot::Away => Ok(Sequence::empty(alloc)),
        Slot::Roll(_) => Ok(Sequence::empty(alloc)),
    }
}

// The same paths once more.
fn paths_of(alloc: Global, paths: &[Path]) -> Result<PathList, Memory>
    ensures { IfOk result (λ list. list ≡ paths.now) }
{
    let mut list = Sequence::empty(alloc);
    for path in paths {
        let copy = path.copy(alloc)?;
        match list.push(copy) {
            Ok(()) => {}
            Err(_) => return Err(Memory),
        }
    }
    Ok(list)
}

// The notes in a slot.
fn notes_of(alloc: Global, slot: Slot) -> Notes
    ensures { result ≡ notes_in slot }
{
    match slot {
        Slot::Roll(tally) => tally.into_notes(),
        Slot::Away => Notes::none(alloc),
        Slot::Object(_) => Notes::none(alloc),
    }
}
