//! One worker.

use crossbeam_deque::Steal;
use std::alloc::Global;
use std::mem;
use task_deque::{Owner, Thief, put_task, steal_task, take_task, visit};
use task_suspend::Remains;

/// A worker: its place among the workers, for how many rounds it has found nothing that goes on, the
/// task that it goes on with next, which others don't see, its ready tasks, whether the others see that
/// its task has a content, whether its task was created just now and has taken nothing yet, the passes
/// of tasks that have ended, as one, with all that they have to hand in, and what the last of them left
/// for a child.
#[derive(Drop)]
pub(crate) struct Worker<T: Drop, P: Drop> {
    place: usize,
    vain: u32,
    next: Option<T>,
    holds: bool,
    born: bool,
    local: Owner<T>,
    kept: Option<P>,
    remains: Remains,
}

impl<T: Drop, P: Drop> Worker<T, P> {
    /// A worker with these tasks.
    pub fn new(alloc: Global, place: usize, local: Owner<T>) -> Worker<T, P> {
        Worker {
            place,
            vain: 0,
            next: None,
            holds: false,
            born: false,
            local,
            kept: None,
            remains: Remains::none(alloc),
        }
    }

    /// Its place among the workers.
    pub fn place(&mut self) -> usize {
        self.place
    }

    /// Notes whether the others see that its task has a content; its place, where they saw it otherwise.
    pub fn holds(&mut self, holds: bool) -> Option<usize> {
        if self.holds == holds {
            return None;
        }
        self.holds = holds;
        Some(self.place)
    }

    /// Notes whether its task was created just now.
    pub fn set_born(&mut self, born: bool) {
        self.born = born;
    }

    /// Whether its task was created just now, and has taken nothing yet; it is tried at a take now.
    pub fn was_born(&mut self) -> bool {
        mem::replace(&mut self.born, false)
    }

    /// One round more in which it found nothing that goes on; how many there are now.
    pub fn count_in_vain(&mut self) -> u32 {
        self.vain = self.vain.saturating_add(1);
        self.vain
    }

    /// A task went on.
    pub fn goes_on(&mut self) {
        self.vain = 0;
    }

    /// Makes a task ready. The error is want of memory, and hands it back.
    pub fn put(&mut self, task: T) -> Result<(), T> {
        put_task(&mut self.local, task)
    }

    /// Goes on with this task next, unless there is one already: then it hands it back.
    pub fn put_next(&mut self, task: T) -> Result<(), T> {
        if self.next.is_some() {
            return Err(task);
        }
        self.next = Some(task);
        Ok(())
    }

    /// Goes on with this task next; one that it was to go on with next is made ready. The error is want
    /// of memory, and hands that one back.
    pub fn put_ahead(&mut self, task: T) -> Result<(), T> {
        match self.next.replace(task) {
            Some(older) => put_task(&mut self.local, older),
            None => Ok(()),
        }
    }

    /// Takes the task that it goes on with next.
    pub fn take_next(&mut self) -> Option<T> {
        self.next.take()
    }

    /// Takes the task that it goes on with next, or a ready one of its own.
    pub fn take(&mut self) -> Option<T> {
        match self.next.take() {
            Some(task) => Some(task),
            None => take_task(&mut self.local),
        }
    }

    /// Takes a ready task of another worker: the next one after its own place is the first to be asked.
    pub fn steal(&mut self, others: &[Thief<T>]) -> Option<T> {
        steal_after(self.place, others)
    }

    /// Keeps this of the tasks that have ended.
    pub fn keep(&mut self, pass: P) {
        self.kept = Some(pass);
    }

    /// What it keeps, where it lies.
    pub fn kept(&mut self) -> Option<&mut P> {
        self.kept.as_mut()
    }

    /// What it keeps, where it lies, and what the last task that ended left for a child.
    pub fn kept_and_remains(&mut self) -> (Option<&mut P>, &mut Remains) {
        (self.kept.as_mut(), &mut self.remains)
    }

    /// What the last task that ended left for a child.
    pub fn remains(&mut self) -> &mut Remains {
        &mut self.remains
    }

    /// Hands over what it kept.
    pub fn hand_over(&mut self) -> Option<P> {
        self.kept.take()
    }
}

// A task of one of these deques, of which the next one after this place is the first to be asked.
fn steal_after<T: Drop>(place: usize, others: &[Thief<T>]) -> Option<T> {
    let count = others.len();
    for i in 1..count {
        let other = &others[place.wrapping_add(i) % count];
        let mut visit = visit(other);
        match steal_task(other, &mut visit) {
            Steal::Success(task) => return Some(task),
            Steal::Empty => {}
            Steal::Retry => {}
        }
    }
    None
}
