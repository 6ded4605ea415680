//! A worker that has no task.

use crate::board::{Board, TaskWorker};
use crate::keeper::handed_in;
use crate::settle::requeue;
use jade_base::{Memory, ObjectId};
use std::hint::spin_loop;
use std::sync::Wait;
use std::thread::yield_now;
use std::time::Duration;
use task_suspend::{Capsule, RunName};

/// Up to this round in vain a worker looks again at once.
const SPIN_ROUNDS: u32 = 32;

/// Up to this round it lets others run, and then it sleeps.
const YIELD_ROUNDS: u32 = 64;

/// The longest sleep, in milliseconds, is 2 to this.
const LONGEST_SLEEP: u32 = 5;

/// After so many sleeps a worker drains the rooms. No task should lie there that may go on, since the
/// one that put it there looked whether its object was freed meanwhile.
const SLEEPS_BETWEEN: u32 = 8;

/// The next task for a worker; none where all is over, or memory is wanting.
pub(crate) fn next_task<'c, N: RunName, R: Wait>(
    rt: &R,
    board: &Board<'c, N>,
    worker: &mut TaskWorker<'c, N>,
) -> Option<Capsule<'c, N>> {
    if board.signals.is_over() {
        return None;
    }
    match search(rt, board, worker) {
        Some(task) => Some(task),
        None => {
            board.signals.idle_begins();
            let task = await_task(rt, board, worker);
            board.signals.idle_ends();
            task
        }
    }
}

// Looks until there is a task, or all is over. First of all the worker hands in what it has of tasks
// that have ended: who hands in the last of it all sees the end.
fn await_task<'c, N: RunName, R: Wait>(
    rt: &R,
    board: &Board<'c, N>,
    worker: &mut TaskWorker<'c, N>,
) -> Option<Capsule<'c, N>> {
    for _ in rt.forever() {
        hand_in(board, worker);
        if board.signals.is_over() {
            return None;
        }
        match look_again(rt, board, worker) {
            Some(task) => return Some(task),
            None => {}
        }
    }
    None
}

// One try to hand in what the worker keeps; where nothing may come any more with it, all are told.
fn hand_in<'c, N: RunName>(board: &Board<'c, N>, worker: &mut TaskWorker<'c, N>) {
    match worker.hand_over() {
        Some(kept) => {
            let kept = handed_in(board, kept);
            let over = kept.pass.over();
            worker.keep(kept);
            if over {
                board.signals.finish();
            }
        }
        None => {}
    }
}

// One round in vain more: rests a while, and looks.
fn look_again<'c, N: RunName, R: Wait>(
    rt: &R,
    board: &Board<'c, N>,
    worker: &mut TaskWorker<'c, N>,
) -> Option<Capsule<'c, N>> {
    let rounds = worker.count_in_vain();
    if rounds > YIELD_ROUNDS || board.signals.is_narrow() {
        return sleep(rt, board, worker, rounds);
    }
    if rounds > SPIN_ROUNDS {
        yield_now();
    } else {
        spin_loop();
    }
    search(rt, board, worker)
}

// A ready task: the worker's own, another's, or one that was held back and may go on.
fn search<'c, N: RunName, R: Wait>(
    rt: &R,
    board: &Board<'c, N>,
    worker: &mut TaskWorker<'c, N>,
) -> Option<Capsule<'c, N>> {
    match worker.take() {
        Some(task) => return Some(task),
        None => {}
    }
    match worker.steal(board.others.as_slice()) {
        Some(task) => return Some(task),
        None => {}
    }
    if board.signals.may_let_go() {
        return let_go(rt, board);
    }
    None
}

// A task that was held back.
fn let_go<'c, N: RunName, R: Wait>(rt: &R, board: &Board<'c, N>) -> Option<Capsule<'c, N>> {
    let task = board.held_back.lock(rt).take_first()?;
    board.signals.task_let_go();
    Some(task)
}

// Looks everywhere, and sleeps where there is nothing: until it is called, or a time has passed that
// grows with the rounds in vain.
fn sleep<'c, N: RunName, R: Wait>(
    rt: &R,
    board: &Board<'c, N>,
    worker: &mut TaskWorker<'c, N>,
    rounds: u32,
) -> Option<Capsule<'c, N>> {
    let heard = board.signals.lie_down();
    let mut found = look_everywhere(rt, board, worker, rounds);
    if found.is_none() && !board.signals.is_over() {
        found = rest(rt, board, worker, heard, rounds);
    }
    board.signals.get_up();
    found
}

// Sleeps for a while; where others are not called for parents, one of the workers that sleep looks about
// after a short time, and the others sleep long.
fn rest<'c, N: RunName, R: Wait>(
    rt: &R,
    board: &Board<'c, N>,
    worker: &mut TaskWorker<'c, N>,
    heard: u32,
    rounds: u32,
) -> Option<Capsule<'c, N>> {
    if !board.signals.is_narrow() {
        board.signals.sleep(rt, heard, rest_time(rounds));
        return None;
    }
    if !board.signals.begins_to_scout() {
        board.signals.sleep(rt, heard, rest_time(u32::MAX));
        return None;
    }
    board.signals.sleep(rt, heard, board.signals.nap());
    let found = search(rt, board, worker);
    board.signals.ends_scouting();
    if found.is_none() {
        board.signals.scouted_in_vain();
    }
    found
}

// How long a worker sleeps after so many rounds in vain.
fn rest_time(rounds: u32) -> Duration {
    let doublings = rounds.saturating_sub(YIELD_ROUNDS).min(LONGEST_SLEEP);
    Duration::from_millis(1u64 << doublings)
}

// A ready task, now and then one that waits in a room, or one that was held back.
fn look_everywhere<'c, N: RunName, R: Wait>(
    rt: &R,
    board: &Board<'c, N>,
    worker: &mut TaskWorker<'c, N>,
    rounds: u32,
) -> Option<Capsule<'c, N>> {
    match search(rt, board, worker) {
        Some(task) => return Some(task),
        None => {}
    }
    if rounds % SLEEPS_BETWEEN == 0 {
        match drain_rooms(rt, board, worker) {
            Ok(()) => {}
            Err(_) => board.signals.stop(),
        }
    }
    match worker.take() {
        Some(task) => Some(task),
        None if rounds % SLEEPS_BETWEEN == 0 => let_go(rt, board),
        None => None,
    }
}

// Makes all tasks ready that wait in rooms.
fn drain_rooms<'c, N: RunName, R: Wait>(
    rt: &R,
    board: &Board<'c, N>,
    worker: &mut TaskWorker<'c, N>,
) -> Result<(), Memory> {
    if !board.signals.has_waiting() {
        return Ok(());
    }
    for object in 0..board.objects {
        let tasks = board.rooms.drain(rt, ObjectId(object));
        match requeue(board, worker, tasks) {
            Ok(()) => {}
            Err(_) => return Err(Memory),
        }
    }
    Ok(())
}
