//! The tasks of a run.

ghost use Rattle.std.specs.Prelude.{◌≡◌, ◌<◌, length, IfSome};

use crate::stop::Stop;
use crate::words::{given_word, try_word};
use jade_base::{Memory, ObjectId};
use object_table::ObjectTable;
use std::alloc::Global;
use std::sync::Wait;
use task_suspend::{Capsule, Departed, Resigned, Rooms, RunName, Waiter, Went, resign};

/// What came of a try.
#[derive(Clone, Copy)]
pub(crate) enum Answer {
    /// It is done, and the task goes on.
    Done,
    /// Another had a turn.
    Busy,
    /// An earlier task keeps the object.
    Waits(ObjectId),
    /// An earlier task keeps the object, and the task lies in the object's room.
    Lies(ObjectId),
    /// It is done, and who waits for the object may go on.
    Freed(ObjectId),
    /// A child begins.
    Parted,
    /// The task has ended.
    Ended,
    /// The task has ended, and with what it handed in nothing may come any more.
    Over,
}

/// The live tasks of a run, at hand or in the rooms of the objects that they wait for, and the passes
/// of those that have ended, as one.
#[derive(Drop)]
pub(crate) struct Tasks<'c, N: RunName> {
    live: Vec<Capsule<'c, N>>,
    rooms: Rooms<'c, N>,
    last: Option<Resigned<'c, N>>,
}

/// The place of the task of a path.
fn place_of<'c, N: RunName>(live: &[Capsule<'c, N>], path: &[u32]) -> Option<usize>
    ensures { IfSome result (λ place. place < length live.now) }
{
    for place in 0..live.len() {
        if live[place].path().numbers() == path {
            return Some(place);
        }
    }
    None
}

/// Two passes as one.
fn merged<'c, N: RunName>(
    table: &ObjectTable,
    mut kept: Resigned<'c, N>,
    more: Resigned<'c, N>,
) -> Resigned<'c, N>
    requires { (table.now.mark ≡ N.mark) × (table.now.plan ≡ N.plan) }
{
    let task = &mut *kept.task;
    table.end(&mut task.pass, Box::into_inner(more.task).pass);
    kept
}

/// The pass, once what it has is handed in.
fn handed_in<'c, N: RunName>(table: &ObjectTable, mut kept: Resigned<'c, N>) -> Resigned<'c, N>
    requires { (table.now.mark ≡ N.mark) × (table.now.plan ≡ N.plan) }
{
    let task = &mut *kept.task;
    table.hand_in(&mut task.pass);
    kept
}

impl<'c, N: RunName> Tasks<'c, N> {
    /// No task, and so many rooms.
    pub fn with_rooms(alloc: Global, objects: u32) -> Result<Tasks<'c, N>, Stop> {
        let rooms = Rooms::new(alloc, objects)?;
        Ok(Tasks {
            live: Vec::new(alloc),
            rooms,
            last: None,
        })
    }

    /// Puts a task among those at hand.
    pub fn put(&mut self, task: Capsule<'c, N>) -> Result<(), Stop> {
        match self.live.push(task) {
            Ok(()) => Ok(()),
            Err(_) => Err(Stop::Failed),
        }
    }

    /// Takes out the task of a path.
    pub fn take(&mut self, path: &[u32]) -> Result<Capsule<'c, N>, Stop> {
        match place_of(self.live.as_slice(), path) {
            Some(place) => Ok(self.live.remove(place)),
            None => Err(Stop::Schedule),
        }
    }

    /// What the task of a path is at, in words.
    pub fn word(&self, alloc: Global, path: &[u32]) -> Result<String, Stop> {
        match place_of(self.live.as_slice(), path) {
            Some(place) => try_word(alloc, &self.live[place]),
            None => Err(Stop::Schedule),
        }
    }

    /// Puts back what came of a try, and answers what it was.
    pub fn settle<R: Wait>(
        &mut self,
        rt: &R,
        table: &ObjectTable,
        went: Result<Went<'c, N>, Memory>,
    ) -> Result<Answer, Stop>
        requires { (table.now.mark ≡ N.mark) × (table.now.plan ≡ N.plan) }
    {
        match went {
            Ok(Went::Ready(task)) => self.keep(task, Answer::Done),
            Ok(Went::Busy(task)) => self.keep(task, Answer::Busy),
            Ok(Went::Waits(waiter)) => self.wait(rt, waiter),
            Ok(Went::Freed(place, task)) => self.keep(task, Answer::Freed(place.object)),
            Ok(Went::Parted(parent, child)) => self.part(parent, child),
            Ok(Went::Departed(departed)) => Ok(self.end(table, departed)),
            Err(_) => Err(Stop::Failed),
        }
    }

    /// Puts a task back, with this answer.
    fn keep(&mut self, task: Capsule<'c, N>, answer: Answer) -> Result<Answer, Stop> {
        self.put(task)?;
        Ok(answer)
    }

    /// Puts a task that waits into the object's room, or back where there is none.
    fn wait<R: Wait>(&mut self, rt: &R, waiter: Waiter<'c, N>) -> Result<Answer, Stop> {
        let object = waiter.place.object;
        if object.0 as usize >= self.rooms.len() {
            return self.keep(waiter.capsule, Answer::Waits(object));
        }
        match self.rooms.put(rt, waiter) {
            Ok(()) => Ok(Answer::Lies(object)),
            Err(_) => Err(Stop::Failed),
        }
    }

    /// Takes all tasks out of the object's room, and puts them behind those at hand; how many were
    /// at hand before.
    pub fn drain<R: Wait>(&mut self, rt: &R, object: ObjectId) -> Result<usize, Stop> {
        let before = self.live.len();
        if (object.0 as usize) < self.rooms.len() {
            let mut list = self.rooms.drain(rt, object);
            while let Some(task) = list.take_last() {
                self.put(task)?;
            }
        }
        Ok(before)
    }

    /// The words for the tasks at hand from a place on, which the object's room gave.
    pub fn given(&self, alloc: Global, object: ObjectId, from: usize) -> Result<String, Stop> {
        let mut text = String::new(alloc);
        for place in from..self.live.len() {
            let line = given_word(alloc, object, self.live[place].path())?;
            text.push_str(line.as_str())?;
        }
        Ok(text)
    }

    /// Puts a task and its new child among the others.
    fn part(&mut self, parent: Capsule<'c, N>, child: Capsule<'c, N>) -> Result<Answer, Stop> {
        self.put(parent)?;
        self.put(child)?;
        Ok(Answer::Parted)
    }

    /// A task that is to end resigns; its pass is kept, and what it has is handed in.
    fn end(&mut self, table: &ObjectTable, departed: Departed<'c, N>) -> Answer
        requires { (table.now.mark ≡ N.mark) × (table.now.plan ≡ N.plan) }
    {
        let resigned = resign(table, departed);
        let kept = match self.last.take() {
            Some(kept) => merged(table, kept, resigned),
            None => resigned,
        };
        let kept = handed_in(table, kept);
        let over = kept.task.pass.over();
        self.last = Some(kept);
        if over { Answer::Over } else { Answer::Ended }
    }

    /// The passes of the tasks that have ended, as one, if one did.
    pub fn last(self) -> Option<Resigned<'c, N>> {
        self.last
    }
}
