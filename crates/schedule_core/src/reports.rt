//! What there is to report of a run.

ghost use Rattle.std.specs.Prelude.{◌≡◌, length, IfOk};
ghost use Rattle.std.specs.Ordering.{is_lt};
ghost use Rattle.schedule_core.specs.Reports.{told_of};
ghost use Rattle.schedule_core.specs.steps.Ascending.{stands_before};
ghost use Rattle.task_roll.specs.Rolls.{by_key};

use crate::notes::{faults_of, steps_of};
use fault_order::key_is_before;
use jade_base::{CellLists, Memory, Report, TurnLists};
use std::alloc::Global;
use std::cmp::Ordering;
use task_roll::PartNote;

/// The report of these contents, turns and notes: steps and faults stand by ascending key, those of
/// equal keys as the notes stand. The error is want of memory.
pub fn report_of(
    alloc: Global,
    objects: CellLists,
    turns: TurnLists,
    notes: Vec<PartNote>,
) -> Result<Report, Memory>
    ensures { IfOk result (λ r. r ≡ told_of objects turns (by_key notes.items)) }
{
    let in_order = in_key_order(notes)?;
    let faults = faults_of(alloc, in_order.as_slice())?;
    let steps = steps_of(alloc, in_order)?;
    Ok(Report {
        objects,
        faults,
        turns,
        steps,
    })
}

// Notes by ascending key, those of equal keys as they stand.
fn in_key_order(notes: Vec<PartNote>) -> Result<Vec<PartNote>, Memory>
    ensures { IfOk result (λ r. r.items ≡ by_key notes.items) }
{
    let mut in_order = notes;
    match in_order.sort_by(|note, other| order_of(note, other)) {
        Ok(()) => Ok(in_order),
        Err(_) => Err(Memory),
    }
}

// Less where the first note has the lesser key.
fn order_of(note: &PartNote, other: &PartNote) -> Ordering
    ensures { is_lt result ≡ stands_before note.now other.now }
{
    if key_is_before(&note.path, note.children, &other.path, other.children) {
        return Ordering::Less;
    }
    Ordering::Greater
}
