//! The passes of the tasks that have ended, as one.

ghost use Rattle.std.specs.Prelude.{◌≡◌, true};
ghost use Rattle.object_table.specs.Calls.{IsGone};
ghost use Rattle.task_suspend.specs.steps.Facts.{Gone-prop};
ghost use Rattle.steal_workers.specs.steps.Facts.{Over-prop};

use crate::board::{Board, TaskWorker};
use object_table::TaskPass;
use std::marker::PhantomData;
use task_suspend::{Departed, Remains, Resigned, RunName, resign, retire};

/// A pass of the run whose task has ended, with what the passes that were taken into it had and knew.
#[derive(Drop)]
pub(crate) struct Kept<N: RunName> {
    pub pass: TaskPass,
    pub name: PhantomData<N>,
    pub ghost of: { (pass.mark ≡ N.mark) × IsGone pass.shows } by { Gone-prop N.mark pass.mark pass.shows },
}

/// A pass of the run that knows that all is over.
#[derive(Drop)]
pub(crate) struct Over<N: RunName> {
    pub pass: TaskPass,
    pub name: PhantomData<N>,
    pub ghost of: { (pass.mark ≡ N.mark) × (pass.shows.over ≡ true) } by { Over-prop pass N.mark },
}

// The pass of a task that has ended; what else the task had is let go.
fn pass_of<'c, N: RunName>(resigned: Resigned<'c, N>) -> Kept<N> {
    Kept {
        pass: Box::into_inner(resigned.task).pass,
        name: resigned.name,
    }
}

/// The pass, if it knows that all is over.
pub(crate) fn as_over<N: RunName>(kept: Kept<N>) -> Result<Over<N>, Kept<N>> {
    if !kept.pass.over() {
        return Err(kept);
    }
    let Kept { pass, name } = kept;
    Ok(Over { pass, name })
}

/// One try to hand in what the pass has. Another may have a turn, and then it keeps it.
pub(crate) fn handed_in<'c, N: RunName>(board: &Board<'c, N>, kept: Kept<N>) -> Kept<N> {
    let Kept { mut pass, name } = kept;
    board.table.hand_in(&mut pass);
    Kept { pass, name }
}

/// A task resigns whose entries have all left, and its pass is kept with the others, where they lie; what
/// else it had remains for a child.
pub(crate) fn keep_departed<'c, N: RunName>(
    board: &Board<'c, N>,
    worker: &mut TaskWorker<'c, N>,
    departed: Departed<'c, N>,
) {
    let (kept, remains) = worker.kept_and_remains();
    match kept {
        Some(kept) => retire_into(board, kept, departed, remains),
        None => worker.keep(pass_of(resign(&board.table, departed))),
    }
}

// The same where there is a pass with which it is kept.
fn retire_into<'c, N: RunName>(
    board: &Board<'c, N>,
    kept: &mut Kept<N>,
    departed: Departed<'c, N>,
    remains: &mut Remains,
) {
    retire(&board.table, &mut kept.pass, departed, remains);
}

/// A worker keeps one pass more: with the others, where they lie.
pub(crate) fn keep_too<'c, N: RunName>(
    board: &Board<'c, N>,
    worker: &mut TaskWorker<'c, N>,
    more: Kept<N>,
) {
    match worker.kept() {
        Some(kept) => take_over(board, kept, more),
        None => worker.keep(more),
    }
}

// Takes one pass more into another.
fn take_over<'c, N: RunName>(board: &Board<'c, N>, kept: &mut Kept<N>, more: Kept<N>) {
    let Kept {
        pass: other,
        name: _,
    } = more;
    board.table.end(&mut kept.pass, other);
}
