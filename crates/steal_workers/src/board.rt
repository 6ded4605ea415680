//! What the workers of a run share.

ghost use Rattle.std.specs.Prelude.{◌≡◌, ◌<◌, vec_len};
ghost use Rattle.object_table.specs.Views.{count_of};
ghost use Rattle.steal_workers.specs.steps.Facts.{Of-prop};

use crate::keeper::Kept;
use crate::signals::Signals;
use crate::worker::Worker;
use crossbeam_utils::CachePadded;
use jade_base::ObjectId;
use object_table::ObjectTable;
use std::sync::Mutex;
use std::sync::atomic::{AtomicU64, Ordering};
use task_deque::Thief;
use task_suspend::{Capsule, CapsuleLine, Rooms, RunName};

/// A worker of the run.
pub(crate) type TaskWorker<'c, N> = Worker<Capsule<'c, N>, Kept<N>>;

/// The ready tasks of one worker, as the others see them.
pub(crate) type OtherDeque<'c, N> = Thief<Capsule<'c, N>>;

/// The table of the run, how many objects it has, a room for each object with the tasks that wait for it, how often each
/// object was freed, the tasks that are held back, the first of them last, by worker 1 where its task has a content and
/// else 0, the deques as thieves see them, and the signals.
#[derive(Drop)]
pub(crate) struct Board<'c, N: RunName> {
    pub table: ObjectTable<'c>,
    pub objects: u32,
    pub rooms: Rooms<'c, N>,
    pub freed: Vec<CachePadded<AtomicU64>>,
    pub held_back: Mutex<CapsuleLine<'c, N>>,
    pub holding: Vec<CachePadded<AtomicU64>>,
    pub others: Vec<OtherDeque<'c, N>>,
    pub signals: Signals,
    pub ghost of: { (table.mark ≡ N.mark) × (table.plan ≡ N.plan) } by { Of-prop table.mark N.mark table.plan N.plan },
    pub ghost all: { objects ≡ count_of N.plan },
    pub ghost seats: { rooms ≡ count_of N.plan },
    pub ghost counts: { vec_len freed ≡ count_of N.plan },
}

impl<'c, N: RunName> Board<'c, N> {
    /// How often the object was freed, modulo 2^64.
    pub fn times_freed(&self, object: ObjectId) -> u64
        requires { object.0 < count_of N.plan }
    {
        self.freed[object.0 as usize].load(Ordering::SeqCst)
    }

    /// Tells the others whether the task of the worker at this place has a content.
    pub fn note_holds(&self, place: usize, holds: bool) {
        match self.holding.get(place) {
            Some(mark) => mark.store(holds as u64, Ordering::SeqCst),
            None => {}
        }
    }

    /// Whether the tasks of so many workers have a content, other than the one at this place.
    pub fn have_contents(&self, place: usize, many: u64) -> bool {
        let mut count = 0u64;
        for other in 0..self.holding.len() {
            if other != place {
                count = count.saturating_add(self.holding[other].load(Ordering::SeqCst));
            }
            if count >= many {
                return true;
            }
        }
        false
    }

    /// The object was freed once more.
    pub fn count_freed(&self, object: ObjectId)
        requires { object.0 < count_of N.plan }
    {
        self.freed[object.0 as usize].fetch_add(1, Ordering::SeqCst);
    }
}
