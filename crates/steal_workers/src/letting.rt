//! Whom a try lets go.

ghost use Rattle.std.specs.Prelude.{◌<◌};
ghost use Rattle.object_table.specs.Views.{count_of};

use crate::board::{Board, TaskWorker};
use jade_base::{Memory, Mode, ObjectId};
use std::sync::Wait;
use task_machine::Ask;
use task_suspend::{Capsule, Modes, RunName};

/// How a task is let go.
#[derive(Clone, Copy)]
pub(crate) enum How {
    /// The worker goes on with it next, and no other sees it.
    Next,
    /// It is ready; where creations were in vain, nobody is called for it.
    Offered,
    /// It is ready, and one that sleeps is called.
    Called,
}

/// What a task asks for before a try, as far as it tells whom the try may let go.
#[derive(Clone, Copy)]
pub(crate) enum Wish {
    /// An object's content for reading. A version is kept for it, past which others may change the object.
    Read(ObjectId),
    /// A content to change it.
    Change,
    /// A content goes back, which one that commutes may then have.
    Give,
    /// A child: its entries are made.
    Child,
    /// The task ends: its entries leave.
    End,
    /// Something else.
    Other,
}

impl Wish {
    /// What is wished by this ask.
    pub fn of(ask: Ask) -> Wish {
        match ask {
            Ask::Take(object, Mode::Reading) => Wish::Read(object),
            Ask::Take(_, _) => Wish::Change,
            Ask::GiveBack(_) => Wish::Give,
            Ask::End | Ask::Fault(_) => Wish::End,
            Ask::Create => Wish::Child,
            Ask::Change => Wish::Other,
        }
    }

    /// Whether a content is asked for.
    pub fn takes(self) -> bool {
        matches!(self, Wish::Read(_) | Wish::Change)
    }

    /// Whether a child is created.
    pub fn creates(self) -> bool {
        matches!(self, Wish::Child)
    }

    /// Whether the task ends.
    pub fn ends(self) -> bool {
        matches!(self, Wish::End)
    }
}

/// A content was taken, if that was asked for. Where it was for reading, the first that waits for the
/// object is let go, if it is to change the object.
pub(crate) fn taken<'c, N: RunName, R: Wait>(
    rt: &R,
    board: &Board<'c, N>,
    worker: &mut TaskWorker<'c, N>,
    wish: Wish,
) -> Result<(), Memory> {
    match wish {
        Wish::Read(object) if object.0 < board.objects => {
            first_of_some(rt, board, worker, object, Modes::CHANGING, How::Called)
        }
        _ => Ok(()),
    }
}

/// An object was freed. Where its content came back, the first that waits for it is let go if it is to
/// commute, and else in any case. The worker goes on with it next where its own task ends and has passed
/// its last gate.
#[inline(always)]
pub(crate) fn freed<'c, N: RunName, R: Wait>(
    rt: &R,
    board: &Board<'c, N>,
    worker: &mut TaskWorker<'c, N>,
    object: ObjectId,
    wish: Wish,
) -> Result<(), Memory>
    requires { object.0 < count_of N.plan }
{
    match wish {
        Wish::Give => first_of_some(rt, board, worker, object, Modes::COMMUTING, How::Offered),
        Wish::End => first_of_some(rt, board, worker, object, Modes::ALL, How::Next),
        _ => first_of_some(rt, board, worker, object, Modes::ALL, How::Called),
    }
}

// Lets the first that waits for an object go, if some wait. Where no task is counted as waiting, none lies
// in a room, and one that is counted from now on is tried once more before it goes there.
#[inline(always)]
fn first_of_some<'c, N: RunName, R: Wait>(
    rt: &R,
    board: &Board<'c, N>,
    worker: &mut TaskWorker<'c, N>,
    object: ObjectId,
    modes: Modes,
    how: How,
) -> Result<(), Memory>
    requires { object.0 < count_of N.plan }
{
    if !board.signals.has_waiting() {
        return Ok(());
    }
    board.count_freed(object);
    let_first_go(rt, board, worker, object, modes, how)
}

/// Lets the first of the tasks in an object's room go, if it asks for the content in one of these modes;
/// and where it is to read, the readers right behind it, of which others are told.
pub(crate) fn let_first_go<'c, N: RunName, R: Wait>(
    rt: &R,
    board: &Board<'c, N>,
    worker: &mut TaskWorker<'c, N>,
    object: ObjectId,
    modes: Modes,
    how: How,
) -> Result<(), Memory>
    requires { object.0 < count_of N.plan }
{
    let Some(first) = board.rooms.first(rt, object, modes) else {
        return Ok(());
    };
    let reads = first.asks_in(Modes::READING);
    board.signals.task_left();
    put_first(board, worker, first, how)?;
    if reads {
        return let_readers_go(rt, board, worker, object);
    }
    Ok(())
}

// Lets the readers go that come before others in an object's room.
fn let_readers_go<'c, N: RunName, R: Wait>(
    rt: &R,
    board: &Board<'c, N>,
    worker: &mut TaskWorker<'c, N>,
    object: ObjectId,
) -> Result<(), Memory>
    requires { object.0 < count_of N.plan }
{
    for _ in 0..u64::MAX {
        let Some(task) = board.rooms.first(rt, object, Modes::READING) else {
            return Ok(());
        };
        board.signals.task_left();
        make_ready(board, worker, task)?;
    }
    Ok(())
}

// Lets a task go.
fn put_first<'c, N: RunName>(
    board: &Board<'c, N>,
    worker: &mut TaskWorker<'c, N>,
    task: Capsule<'c, N>,
    how: How,
) -> Result<(), Memory> {
    match how {
        How::Next if board.signals.is_only() => goes_next(worker, task),
        How::Next => match worker.put_next(task) {
            Ok(()) => Ok(()),
            Err(task) => make_ready(board, worker, task),
        },
        How::Offered => offer(board, worker, task),
        How::Called => make_ready(board, worker, task),
    }
}

/// An only worker goes on with this task next, and after it with the one that it was to go on with.
pub(crate) fn goes_next<'c, N: RunName>(
    worker: &mut TaskWorker<'c, N>,
    task: Capsule<'c, N>,
) -> Result<(), Memory> {
    match worker.put_ahead(task) {
        Ok(()) => Ok(()),
        Err(_) => Err(Memory),
    }
}

/// Makes a task ready. Where creations were in vain, nobody is called for it.
pub(crate) fn offer<'c, N: RunName>(
    board: &Board<'c, N>,
    worker: &mut TaskWorker<'c, N>,
    task: Capsule<'c, N>,
) -> Result<(), Memory> {
    if !board.signals.is_narrow() {
        return make_ready(board, worker, task);
    }
    match worker.put(task) {
        Ok(()) => Ok(()),
        Err(_) => Err(Memory),
    }
}

/// Makes a task ready, where other workers find it too.
pub(crate) fn make_ready<'c, N: RunName>(
    board: &Board<'c, N>,
    worker: &mut TaskWorker<'c, N>,
    task: Capsule<'c, N>,
) -> Result<(), Memory> {
    match worker.put(task) {
        Ok(()) => {
            board.signals.call_one();
            Ok(())
        }
        Err(_) => Err(Memory),
    }
}
