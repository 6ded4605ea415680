//! Tries at a task, one after another, until it has created a child or has ended.

ghost use Rattle.std.specs.Prelude.{◌≡◌};

use crate::stop::Stop;
use object_table::ObjectTable;
use std::alloc::Global;
use std::hint::spin_loop;
use task_suspend::{Capsule, Resigned, RunName, Went, attempt, resign};

/// The longest pause before a try, in hints to the processor, is 2 to this.
const LONGEST_PAUSE: u32 = 3;

/// What tries at a task came to.
#[derive(Drop)]
enum Came<'c, N: RunName> {
    /// The task has created a child: the task, and the child at its begin.
    Parted(Capsule<'c, N>, Capsule<'c, N>),
    /// The task has ended.
    Ended(Resigned<'c, N>),
}

/// Another has a turn: the next try is made after a while. The answer is how often another had one
/// since the task last went on.
fn pause(busy: u32) -> u32 {
    for _ in 0..(1u32 << busy.min(LONGEST_PAUSE)) {
        spin_loop();
    }
    busy.saturating_add(1)
}

/// Tries a task until it has created a child or has ended.
fn drive<'c, N: RunName>(
    alloc: Global,
    table: &ObjectTable,
    task: Capsule<'c, N>,
) -> Result<Came<'c, N>, Stop>
    requires { (table.now.mark ≡ N.mark) × (table.now.plan ≡ N.plan) }
{
    let mut hand = task;
    let mut busy = 0;
    for _ in 0..u64::MAX {
        match attempt(alloc, table, hand) {
            Ok(Went::Ready(task)) => {
                hand = task;
                busy = 0;
            }
            Ok(Went::Freed(_, task)) => {
                hand = task;
                busy = 0;
            }
            Ok(Went::Busy(task)) => {
                hand = task;
                busy = pause(busy);
            }
            Ok(Went::Parted(parent, child)) => return Ok(Came::Parted(parent, child)),
            Ok(Went::Departed(departed)) => {
                return Ok(Came::Ended(resign(table, departed)));
            }
            Ok(Went::Waits(waiter)) => {
                drop(waiter);
                return Err(Stop::Waits);
            }
            Err(_) => return Err(Stop::Failed),
        }
    }
    Err(Stop::Failed)
}

/// Tries a task until it has created a child: the task, and the child at its begin.
pub(crate) fn next_child<'c, N: RunName>(
    alloc: Global,
    table: &ObjectTable,
    task: Capsule<'c, N>,
) -> Result<(Capsule<'c, N>, Capsule<'c, N>), Stop>
    requires { (table.now.mark ≡ N.mark) × (table.now.plan ≡ N.plan) }
{
    match drive(alloc, table, task) {
        Ok(Came::Parted(parent, child)) => Ok((parent, child)),
        Ok(Came::Ended(resigned)) => {
            drop(resigned);
            Err(Stop::Words)
        }
        Err(stop) => Err(stop),
    }
}

/// Tries a task that creates no child until it has ended: its pass.
pub(crate) fn end_of<'c, N: RunName>(
    alloc: Global,
    table: &ObjectTable,
    task: Capsule<'c, N>,
) -> Result<Resigned<'c, N>, Stop>
    requires { (table.now.mark ≡ N.mark) × (table.now.plan ≡ N.plan) }
{
    match drive(alloc, table, task) {
        Ok(Came::Ended(resigned)) => Ok(resigned),
        Ok(Came::Parted(parent, child)) => {
            drop(parent);
            drop(child);
            Err(Stop::Words)
        }
        Err(stop) => Err(stop),
    }
}
