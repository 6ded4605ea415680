//! The cycles of one thread.

ghost use Rattle.std.specs.Prelude.{◌≡◌};

use crate::stop::Stop;
use crate::tries::{end_of, next_child};
use object_table::ObjectTable;
use std::alloc::Global;
use task_suspend::{Capsule, Resigned, RunName};

/// What a thread has done: its task, the passes of the task's children that have ended, as one, and
/// how many these are.
#[derive(Drop)]
pub(crate) struct Done<'c, N: RunName> {
    pub task: Capsule<'c, N>,
    pub kept: Option<Resigned<'c, N>>,
    pub ended: u32,
}

/// Has a task create so many children, one after another, and tries each until it has ended, before
/// the next one is created.
pub(crate) fn run_cycles<'c, N: RunName>(
    alloc: Global,
    table: &ObjectTable,
    first: Capsule<'c, N>,
    count: u32,
) -> Result<Done<'c, N>, Stop>
    requires { (table.now.mark ≡ N.mark) × (table.now.plan ≡ N.plan) }
{
    let mut task = first;
    let mut kept = None;
    let mut ended: u32 = 0;
    for _ in 0..count {
        let (parent, child) = next_child(alloc, table, task)?;
        let resigned = end_of(alloc, table, child)?;
        keep(table, &mut kept, resigned);
        ended = ended.wrapping_add(1);
        task = parent;
    }
    Ok(Done { task, kept, ended })
}

/// Keeps one pass more.
fn keep<'c, N: RunName>(
    table: &ObjectTable,
    kept: &mut Option<Resigned<'c, N>>,
    more: Resigned<'c, N>,
)
    requires { (table.now.mark ≡ N.mark) × (table.now.plan ≡ N.plan) }
{
    match kept {
        Some(keeper) => merge(table, keeper, more),
        None => *kept = Some(more),
    }
}

/// Adds what one pass knows to another.
fn merge<'c, N: RunName>(table: &ObjectTable, keeper: &mut Resigned<'c, N>, more: Resigned<'c, N>)
    requires { (table.now.mark ≡ N.mark) × (table.now.plan ≡ N.plan) }
{
    let task = &mut *keeper.task;
    table.end(&mut task.pass, Box::into_inner(more.task).pass);
}
