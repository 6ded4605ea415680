//! The workers of a run, each in a thread of its own where one can be made.

ghost use Rattle.std.specs.Thread.{IsSend, IsSync};

use crate::board::{Board, TaskWorker};
use crate::gate::Gate;
use crate::keeper::{Over, as_over, keep_too};
use crate::work::work;
use std::alloc::Global;
use std::sync::Wait;
use std::thread;
use std::thread::Threads;
use task_suspend::RunName;

/// Each worker works in a thread of its own where one can be made, and the caller is one of them. It
/// takes no memory between the first start and the last, and a worker whose thread can't be made is
/// run by the caller.
#[cycle(crew)]
pub(crate) fn crew<'c, N: RunName + Send + Sync, G: Gate, R: Threads + Wait + Sync>(
    rt: &R,
    alloc: Global,
    board: &Board<'c, N>,
    gate: &G,
    worker: TaskWorker<'c, N>,
    mut rest: Vec<TaskWorker<'c, N>>,
) -> TaskWorker<'c, N> {
    let Some(next) = rest.pop() else {
        return work(rt, alloc, board, gate, worker);
    };
    let mine = move || work(rt, alloc, board, gate, worker);
    let theirs = move ||
        requires { IsSync R.row × IsSync G.row × IsSend N.row × IsSync N.row }
    { crew(rt, alloc, board, gate, next, rest) };
    let (one, other) = thread::join(rt, theirs, mine);
    both(board, one, other)
}

// One worker, with what another kept.
fn both<'c, N: RunName>(
    board: &Board<'c, N>,
    mut one: TaskWorker<'c, N>,
    mut other: TaskWorker<'c, N>,
) -> TaskWorker<'c, N> {
    match other.hand_over() {
        Some(more) => keep_too(board, &mut one, more),
        None => {}
    }
    one
}

/// The pass that knows that all is over; none where memory is wanting. Where none of the workers saw
/// the end, the caller goes on with the work.
pub(crate) fn seen_out<'c, N: RunName, G: Gate, R: Wait>(
    rt: &R,
    alloc: Global,
    board: &Board<'c, N>,
    gate: &G,
    mut worker: TaskWorker<'c, N>,
) -> Option<Over<N>> {
    for _ in rt.forever() {
        match over_in(&mut worker) {
            Some(over) => return Some(over),
            None => {}
        }
        if board.signals.is_stopped() {
            return None;
        }
        board.signals.go_on();
        worker = work(rt, alloc, board, gate, worker);
    }
    None
}

// The pass that knows that all is over, if the worker kept it.
fn over_in<'c, N: RunName>(worker: &mut TaskWorker<'c, N>) -> Option<Over<N>> {
    match as_over(worker.hand_over()?) {
        Ok(over) => Some(over),
        Err(kept) => {
            worker.keep(kept);
            None
        }
    }
}
