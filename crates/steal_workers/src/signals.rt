//! What workers tell one another. All of it is advice: nothing is claimed of it.

use crossbeam_utils::CachePadded;
use std::sync::Wait;
use std::sync::atomic::{AtomicBool, AtomicU64, Ordering};
use std::time::Duration;

/// So many tasks may wait in the rooms before those that create more are held back.
const WAITING_TASKS: u64 = 16;

/// Where so many more creations were in vain than not, others are not called for parents.
const NARROW: u64 = 8;

/// The greatest count of creations in vain.
const NARROWEST: u64 = 48;

/// The shortest time in microseconds after which a scout looks about.
const SHORTEST_NAP: u64 = 50;

/// Flags, counts and a bell. What is written in a run has a cache line of its own, since all workers
/// read the flags before each try.
#[derive(Drop)]
pub(crate) struct Signals {
    workers: u64,
    // Memory was wanting.
    stopped: AtomicBool,
    // A worker has seen the end.
    done: AtomicBool,
    // How many tasks wait in the rooms, and how many are held back.
    waiting: CachePadded<AtomicU64>,
    held_back: CachePadded<AtomicU64>,
    // How many workers have no task, and how many of these sleep or are about to.
    idle: CachePadded<AtomicU64>,
    asleep: CachePadded<AtomicU64>,
    // How often those that sleep were called.
    bell: CachePadded<AtomicU64>,
    // How many creations were in vain of late, and whether a scout is out.
    vain: CachePadded<AtomicU64>,
    scout: AtomicBool,
}

/// A count that stands at 0, with a cache line of its own.
pub(crate) fn padded_count() -> CachePadded<AtomicU64> {
    CachePadded::new(AtomicU64::new(0))
}

impl Signals {
    /// All quiet, among so many workers.
    pub fn new(workers: u64) -> Signals {
        Signals {
            workers,
            stopped: AtomicBool::new(false),
            done: AtomicBool::new(false),
            waiting: padded_count(),
            held_back: padded_count(),
            idle: padded_count(),
            asleep: padded_count(),
            bell: padded_count(),
            vain: padded_count(),
            scout: AtomicBool::new(false),
        }
    }

    /// Tells that memory was wanting.
    pub fn stop(&self) {
        self.stopped.store(true, Ordering::SeqCst);
        self.call_all();
    }

    /// Whether memory was wanting.
    pub fn is_stopped(&self) -> bool {
        self.stopped.load(Ordering::SeqCst)
    }

    /// Tells that the end was seen.
    pub fn finish(&self) {
        self.done.store(true, Ordering::SeqCst);
        self.call_all();
    }

    /// Takes back that the end was seen.
    pub fn go_on(&self) {
        self.done.store(false, Ordering::SeqCst);
    }

    /// Whether there is nothing more to do.
    pub fn is_over(&self) -> bool {
        self.done.load(Ordering::SeqCst) || self.is_stopped()
    }

    /// One more task waits in a room.
    pub fn task_waits(&self) {
        self.waiting.fetch_add(1, Ordering::SeqCst);
    }

    /// A task has left its room.
    pub fn task_left(&self) {
        self.waiting.fetch_sub(1, Ordering::SeqCst);
    }

    /// Whether a task waits in a room.
    pub fn has_waiting(&self) -> bool {
        self.waiting.load(Ordering::SeqCst) > 0
    }

    /// Whether so many tasks wait that no more are to be created just now.
    pub fn is_crowded(&self) -> bool {
        self.waiting.load(Ordering::SeqCst) >= WAITING_TASKS
    }

    /// One more task is held back.
    pub fn task_held_back(&self) {
        self.held_back.fetch_add(1, Ordering::SeqCst);
    }

    /// A task is held back no longer.
    pub fn task_let_go(&self) {
        self.held_back.fetch_sub(1, Ordering::SeqCst);
    }

    // Whether no more tasks are to wait: a crowd does, or where creations were in vain any.
    fn is_full(&self) -> bool {
        if self.is_narrow() {
            self.has_waiting()
        } else {
            self.is_crowded()
        }
    }

    /// Whether a task that is held back may go on: no crowd waits, or no worker has a task.
    pub fn may_let_go(&self) -> bool {
        self.has_held_back()
            && (!self.is_full() || self.idle.load(Ordering::SeqCst) >= self.workers)
    }

    /// Whether a task is held back.
    pub fn has_held_back(&self) -> bool {
        self.held_back.load(Ordering::SeqCst) > 0
    }

    /// Whether there is one worker only, so that there is nobody to be told of a task, or called.
    pub fn is_only(&self) -> bool {
        self.workers <= 1
    }

    /// Whether all other workers have no task.
    pub fn is_alone(&self) -> bool {
        self.idle.load(Ordering::SeqCst).saturating_add(1) >= self.workers
    }

    /// A task that was created waited at its first take, while no two others had contents.
    pub fn created_in_vain(&self) {
        if self.vain.load(Ordering::SeqCst) < NARROWEST {
            self.vain.fetch_add(1, Ordering::SeqCst);
        }
    }

    /// A scout found nothing.
    pub fn scouted_in_vain(&self) {
        let vain = self.vain.load(Ordering::SeqCst);
        if vain > 0 {
            self.vain.store(vain - 1, Ordering::SeqCst);
        }
    }

    /// A task that was created went on, while another had a content.
    pub fn eases(&self) {
        let vain = self.vain.load(Ordering::SeqCst);
        if vain > 0 {
            self.vain.store(vain / 2, Ordering::SeqCst);
            if vain >= NARROW {
                self.call_one();
            }
        }
    }

    /// Whether creations were in vain, so that one worker is as fast as more.
    pub fn is_narrow(&self) -> bool {
        self.vain.load(Ordering::SeqCst) >= NARROW
    }

    /// Whether the caller is the scout from now on: there was none.
    pub fn begins_to_scout(&self) -> bool {
        !self.scout.swap(true, Ordering::SeqCst)
    }

    /// The scout is back.
    pub fn ends_scouting(&self) {
        self.scout.store(false, Ordering::SeqCst);
    }

    /// How long a scout sleeps before it looks about.
    pub fn nap(&self) -> Duration {
        let level = (self.vain.load(Ordering::SeqCst) / NARROW).min(NARROWEST / NARROW);
        Duration::from_micros(SHORTEST_NAP << level)
    }

    /// A worker has no task.
    pub fn idle_begins(&self) {
        self.idle.fetch_add(1, Ordering::SeqCst);
    }

    /// It has one, or leaves.
    pub fn idle_ends(&self) {
        self.idle.fetch_sub(1, Ordering::SeqCst);
    }

    /// A worker is about to sleep; how often the sleepers were called, modulo 2^32.
    pub fn lie_down(&self) -> u32 {
        self.asleep.fetch_add(1, Ordering::SeqCst);
        (self.bell.load(Ordering::SeqCst) % (1 << 32)) as u32
    }

    /// Sleeps until the sleepers are called once more than so often, or the time has passed.
    pub fn sleep<R: Wait>(&self, rt: &R, heard: u32, time: Duration) {
        self.bell.park_timeout(rt, heard, time);
    }

    /// It does not sleep any more.
    pub fn get_up(&self) {
        self.asleep.fetch_sub(1, Ordering::SeqCst);
    }

    /// Calls one of those that sleep.
    pub fn call_one(&self) {
        if self.asleep.load(Ordering::SeqCst) > 0 {
            self.bell.fetch_add(1, Ordering::SeqCst);
            self.bell.wake_one();
        }
    }

    // Calls all that sleep.
    fn call_all(&self) {
        self.bell.fetch_add(1, Ordering::SeqCst);
        self.bell.wake_all();
    }
}
