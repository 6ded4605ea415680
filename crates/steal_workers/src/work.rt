//! The work of one worker.

ghost use Rattle.std.specs.Prelude.{◌≡◌};

use crate::board::{Board, TaskWorker};
use crate::gate::Gate;
use crate::idle::next_task;
use crate::letting::{Wish, freed};
use crate::settle::{Hand, holds, settle};
use jade_base::Memory;
use std::alloc::Global;
use std::sync::Wait;
use task_machine::Ask;
use task_suspend::{
    Capsule, RunName, Went, to_ask, try_change, try_create, try_end, try_give_back, try_take,
};

/// Works until all is over, or memory is wanting.
pub(crate) fn work<'c, N: RunName, G: Gate, R: Wait>(
    rt: &R,
    alloc: Global,
    board: &Board<'c, N>,
    gate: &G,
    mut worker: TaskWorker<'c, N>,
) -> TaskWorker<'c, N> {
    for _ in rt.forever() {
        match next_task(rt, board, &mut worker) {
            Some(task) => carry(rt, alloc, board, gate, &mut worker, task),
            None => break,
        }
    }
    worker
}

// Goes on with a task until it ends, waits or is given out of hand, or memory is wanting.
fn carry<'c, N: RunName, G: Gate, R: Wait>(
    rt: &R,
    alloc: Global,
    board: &Board<'c, N>,
    gate: &G,
    worker: &mut TaskWorker<'c, N>,
    task: Capsule<'c, N>,
) {
    holds(board, worker, false);
    worker.set_born(false);
    let mut hand = Hand::of(task);
    for _ in rt.forever() {
        if board.signals.is_stopped() {
            break;
        }
        match turn(rt, alloc, board, gate, worker, hand) {
            Some(next) => hand = next,
            None => match worker.take_next() {
                Some(task) => {
                    holds(board, worker, false);
                    worker.set_born(false);
                    hand = Hand::of(task);
                }
                None => return,
            },
        }
    }
}

// One try at what a task asks for, at its next ask where none stands; the task, if it stays in hand.
#[inline(always)]
fn turn<'c, N: RunName, G: Gate, R: Wait>(
    rt: &R,
    alloc: Global,
    board: &Board<'c, N>,
    gate: &G,
    worker: &mut TaskWorker<'c, N>,
    hand: Hand<'c, N>,
) -> Option<Hand<'c, N>> {
    let Hand { task, tries } = hand;
    let Ok((task, ask)) = to_ask(alloc, task) else {
        board.signals.stop();
        return None;
    };
    let task = through(rt, gate, task);
    let wish = Wish::of(ask);
    if wish.ends() {
        holds(board, worker, false);
    }
    let went = match ask {
        Ask::Take(object, mode) => try_take(alloc, &board.table, task, object, mode),
        Ask::GiveBack(object) => try_give_back(&board.table, task, object),
        Ask::Create => create(rt, alloc, board, worker, task),
        Ask::Change => try_change(&board.table, task),
        Ask::End | Ask::Fault(_) => end(rt, board, worker, task),
    };
    match settle(rt, board, worker, went, tries, wish) {
        Ok(next) => next,
        Err(_) => {
            board.signals.stop();
            None
        }
    }
}

// A try for each entry of a child and for its enrolment, one after another, up to the first that comes to
// something else than an entry.
#[inline(always)]
fn create<'c, N: RunName, R: Wait>(
    rt: &R,
    alloc: Global,
    board: &Board<'c, N>,
    worker: &mut TaskWorker<'c, N>,
    first: Capsule<'c, N>,
) -> Result<Went<'c, N>, Memory> {
    let mut task = first;
    for _ in rt.forever() {
        let Some(Ask::Create) = task.asked() else {
            return Ok(Went::Ready(task));
        };
        match try_create(alloc, &board.table, task, worker.remains()) {
            Ok(Went::Ready(entered)) => task = entered,
            other => return other,
        }
    }
    Err(Memory)
}

// A try for each entry of a task that ends, one after another, up to the first by which none leaves.
#[inline(always)]
fn end<'c, N: RunName, R: Wait>(
    rt: &R,
    board: &Board<'c, N>,
    worker: &mut TaskWorker<'c, N>,
    first: Capsule<'c, N>,
) -> Result<Went<'c, N>, Memory> {
    let mut task = first;
    for _ in rt.forever() {
        if !task.is_ending() {
            return Ok(Went::Ready(task));
        }
        match try_end(&board.table, task) {
            Ok(Went::Freed(place, left)) => {
                freed(rt, board, worker, place.object, Wish::End)?;
                task = left;
            }
            other => return other,
        }
    }
    Err(Memory)
}

// Calls the gate before the first try at an ask.
fn through<'c, N: RunName, G: Gate, R: Wait>(
    rt: &R,
    gate: &G,
    mut task: Capsule<'c, N>,
) -> Capsule<'c, N>
    ensures { result.task.value.machine ≡ task.entry.task.value.machine }
{
    if !task.passed() {
        gate.pass(rt, task.path(), task.ask_number());
        task.set_passed();
    }
    task
}
