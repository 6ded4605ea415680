//! What a worker does after a try.

use crate::board::{Board, TaskWorker};
use crate::keeper::keep_departed;
use crate::letting::{How, Wish, freed, goes_next, let_first_go, offer, taken};
use jade_base::Memory;
use std::hint::spin_loop;
use std::sync::Wait;
use std::thread::yield_now;
use task_suspend::{Capsule, CapsuleLine, Modes, RunName, Waiter, Went};

/// So often a task is tried again where another has a turn. A turn is short, so it pays to stay.
const BUSY_TRIES: u32 = 40;

/// The longest pause before a try, in hints to the processor, is 2 to this: about as long as a word
/// takes from one processor to another.
const LONGEST_PAUSE: u32 = 3;

/// The tries in vain since the task last went on: how often another had a turn, and whether it was
/// seen to wait, in which case it is counted as waiting, and how often its object was freed before.
#[derive(Clone, Copy)]
pub(crate) struct Tries {
    busy: u32,
    waited: Option<u64>,
}

impl Tries {
    /// No try in vain.
    pub fn none() -> Tries {
        Tries {
            busy: 0,
            waited: None,
        }
    }
}

/// A task in a worker's hand.
#[derive(Drop)]
pub(crate) struct Hand<'c, N: RunName> {
    pub task: Capsule<'c, N>,
    pub tries: Tries,
}

impl<'c, N: RunName> Hand<'c, N> {
    /// A task that goes on.
    pub fn of(task: Capsule<'c, N>) -> Hand<'c, N> {
        Hand {
            task,
            tries: Tries::none(),
        }
    }
}

/// Does what a try asks for; the task that stays in hand, if one does. The error is want of memory.
pub(crate) fn settle<'c, N: RunName, R: Wait>(
    rt: &R,
    board: &Board<'c, N>,
    worker: &mut TaskWorker<'c, N>,
    went: Result<Went<'c, N>, Memory>,
    tries: Tries,
    wish: Wish,
) -> Result<Option<Hand<'c, N>>, Memory> {
    match went {
        Ok(Went::Waits(waiter)) => wait(rt, board, worker, waiter, tries),
        Ok(Went::Busy(task)) => pause(board, worker, task, tries),
        Ok(went) => {
            no_longer_waits(board, tries);
            if wish.takes() {
                took(board, worker);
            }
            go_on(rt, board, worker, went, wish)
        }
        Err(_) => Err(Memory),
    }
}

// A task that was seen to wait is not counted as waiting any more.
fn no_longer_waits<'c, N: RunName>(board: &Board<'c, N>, tries: Tries) {
    if tries.waited.is_some() {
        board.signals.task_left();
    }
}

// A take that was not in vain. Where it is the first one of a task that was created just now, it pays that more than one
// worker works.
fn took<'c, N: RunName>(board: &Board<'c, N>, worker: &mut TaskWorker<'c, N>) {
    holds(board, worker, true);
    if worker.was_born() && !board.signals.is_alone() && board.have_contents(worker.place(), 1) {
        board.signals.eases();
    }
}

/// Tells the others, if there are any, whether the worker's task has a content.
pub(crate) fn holds<'c, N: RunName>(
    board: &Board<'c, N>,
    worker: &mut TaskWorker<'c, N>,
    holds: bool,
) {
    if board.signals.is_only() {
        return;
    }
    match worker.holds(holds) {
        Some(place) => board.note_holds(place, holds),
        None => {}
    }
}

// After a try that was not in vain; `settle` answers the other two itself.
fn go_on<'c, N: RunName, R: Wait>(
    rt: &R,
    board: &Board<'c, N>,
    worker: &mut TaskWorker<'c, N>,
    went: Went<'c, N>,
    wish: Wish,
) -> Result<Option<Hand<'c, N>>, Memory> {
    worker.goes_on();
    match went {
        Went::Freed(place, task) => {
            freed(rt, board, worker, place.object, wish)?;
            Ok(Some(Hand::of(task)))
        }
        Went::Parted(parent, child) => {
            part(rt, board, worker, parent)?;
            worker.set_born(true);
            Ok(Some(Hand::of(child)))
        }
        Went::Departed(departed) => {
            keep_departed(board, worker, departed);
            Ok(None)
        }
        Went::Ready(task) => {
            taken(rt, board, worker, wish)?;
            Ok(Some(Hand::of(task)))
        }
        Went::Busy(task) => Ok(Some(Hand::of(task))),
        Went::Waits(waiter) => Ok(Some(Hand::of(waiter.capsule))),
    }
}

// The worker goes on with the child. The parent is ready, and an only worker goes on with it next; where
// a crowd of tasks waits, it is held back, so that it does not run ahead of its children.
fn part<'c, N: RunName, R: Wait>(
    rt: &R,
    board: &Board<'c, N>,
    worker: &mut TaskWorker<'c, N>,
    parent: Capsule<'c, N>,
) -> Result<(), Memory> {
    if !board.signals.is_crowded() {
        return if board.signals.is_only() {
            goes_next(worker, parent)
        } else {
            offer(board, worker, parent)
        };
    }
    board.signals.task_held_back();
    match board.held_back.lock(rt).put(parent) {
        Ok(()) => Ok(()),
        Err(_) => Err(Memory),
    }
}

/// Makes the tasks of a room ready, the first of them last, which is the one that the worker takes first.
/// Most of them will wait again, so one sleeper at most is called. The error is want of memory.
pub(crate) fn requeue<'c, N: RunName>(
    board: &Board<'c, N>,
    worker: &mut TaskWorker<'c, N>,
    mut tasks: CapsuleLine<'c, N>,
) -> Result<(), Memory> {
    for count in 0..u64::MAX {
        let Some(task) = tasks.take_last() else {
            if count > 0 {
                board.signals.call_one();
            }
            return Ok(());
        };
        board.signals.task_left();
        match worker.put(task) {
            Ok(()) => {}
            Err(_) => return Err(Memory),
        }
    }
    Ok(())
}

// The task waits for an object. It is counted as waiting and tried once more, and goes then to the
// object's room. Where the object was freed since before the second try, nobody else may know that it
// waits, so the first of the room is let go.
fn wait<'c, N: RunName, R: Wait>(
    rt: &R,
    board: &Board<'c, N>,
    worker: &mut TaskWorker<'c, N>,
    waiter: Waiter<'c, N>,
    tries: Tries,
) -> Result<Option<Hand<'c, N>>, Memory> {
    let object = waiter.place.object;
    let Some(before) = tries.waited else {
        board.signals.task_waits();
        if worker.was_born() && !board.have_contents(worker.place(), 2) {
            board.signals.created_in_vain();
        }
        let tries = Tries {
            busy: tries.busy,
            waited: Some(board.times_freed(object)),
        };
        let task = waiter.capsule;
        return Ok(Some(Hand { task, tries }));
    };
    if board.rooms.put(rt, waiter).is_err() {
        return Err(Memory);
    }
    if board.times_freed(object) != before {
        let_first_go(rt, board, worker, object, Modes::ALL, How::Next)?;
    }
    Ok(None)
}

// Another has a turn: the task is tried again after a while. After some tries others are let run, and it
// is given out of hand, where nobody is called for it, since it may go no further than here.
fn pause<'c, N: RunName>(
    board: &Board<'c, N>,
    worker: &mut TaskWorker<'c, N>,
    task: Capsule<'c, N>,
    tries: Tries,
) -> Result<Option<Hand<'c, N>>, Memory> {
    if tries.busy >= BUSY_TRIES {
        no_longer_waits(board, tries);
        yield_now();
        return match worker.put(task) {
            Ok(()) => Ok(None),
            Err(_) => Err(Memory),
        };
    }
    for _ in 0..(1u32 << tries.busy.min(LONGEST_PAUSE)) {
        spin_loop();
    }
    let tries = Tries {
        busy: tries.busy + 1,
        waited: tries.waited,
    };
    Ok(Some(Hand { task, tries }))
}
