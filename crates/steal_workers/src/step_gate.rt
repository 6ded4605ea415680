//! A gate that holds tasks back, for tests of schedules.

ghost use Rattle.std.specs.Prelude.{◌≡◌, ◌≤◌, ◌<◌, ◌&&◌, ◌^◌, nat_eq, length, vec_len, IfOk, slice_get, Some, count_by};
ghost use Rattle.jade_base.specs.Places.{same_path};
ghost use Rattle.steal_workers.specs.Holds.{holds_back};

use crate::gate::Gate;
use jade_base::{Memory, Path};
use jade_list::sequence::Sequence;
use std::alloc::Global;
use std::hint::spin_loop;
use std::marker::Model;
use std::sync::Wait;
use std::sync::atomic::{AtomicBool, AtomicU64, Ordering};
use std::thread::yield_now;

/// So many looks are made at a mark before others are let run.
const LOOKS_AT_ONCE: u64 = 64;

/// The task of a path waits before it carries out one of its asks, until the task of another path has
/// come to one of its own. Asks are numbered from 0 for each task.
#[derive(Drop)]
pub struct Hold {
    pub path: Path,
    pub ask: u64,
    pub until: Path,
    pub until_ask: u64,
}

/// A list of holds.
pub type HoldList = Sequence<Hold>;

impl Hold {
    // Whether it holds this task back at this ask.
    fn holds(&self, path: &Path, ask: u64) -> bool
        ensures { result ≡ holds_back path.now ask self.now }
    {
        self.path.is_same(path) && self.ask == ask
    }

    // Whether it ends with this task at this ask.
    fn ends(&self, path: &Path, ask: u64) -> bool
        ensures { result ≡ same_path self.now.until path.now && nat_eq self.now.until_ask ask }
    {
        self.until.is_same(path) && self.until_ask == ask
    }
}

/// The gate that holds back the tasks of some holds. No hold lasts longer than a number of looks, so
/// that a run never hangs at it. Contracts see the holds and that number; what the gate did to a run is
/// told by no contract.
#[derive(Drop)]
pub struct StepGate {
    holds: HoldList,
    // By hold, whether it has ended.
    ended: Vec<AtomicBool>,
    turns: u64,
    missed: AtomicU64,
}

impl Model for StepGate {
    ghost use Rattle.std.specs.Prelude.{◌≡◌, length, vec_len};
    ghost use Rattle.steal_workers.specs.Holds.{StepGateView};
    ghost use Rattle.steal_workers.specs.Encodings.{coded_step_gate};

    ghost Value = { StepGateView };

    ghost coded = { coded_step_gate };

    ghost view = { λ g. record { holds = g.holds; turns = g.turns } };

    ghost invariant = { λ g. vec_len g.ended ≡ length g.holds };
}

// So many marks, none of which is set.
fn marks(alloc: Global, count: usize) -> Result<Vec<AtomicBool>, Memory>
    ensures { IfOk result (λ marks. vec_len marks ≡ count) }
{
    let mut marks = Vec::new(alloc);
    for _ in 0..count {
        if marks.push(AtomicBool::new(false)).is_err() {
            return Err(Memory);
        }
    }
    Ok(marks)
}

// Looks at a mark until it is set, or so many looks were made; whether it was seen set.
fn is_seen_set(mark: &AtomicBool, turns: u64) -> bool {
    for look in 0..turns {
        if mark.load(Ordering::SeqCst) {
            return true;
        }
        if look % LOOKS_AT_ONCE == LOOKS_AT_ONCE - 1 {
            yield_now();
        } else {
            spin_loop();
        }
    }
    false
}

impl StepGate {
    /// The gate of these holds, none of which has ended; each is given up after so many looks. The
    /// error is want of memory.
    pub fn new(alloc: Global, holds: HoldList, turns: u64) -> Result<StepGate, Memory>
        requires turns { (1 ≤ turns) × (turns < 2 ^ 32) }
        ensures { IfOk result (λ gate. gate ≡ record { holds = holds; turns = turns }) }
    {
        let ended = marks(alloc, holds.len())?;
        Ok(StepGate {
            holds,
            ended,
            turns,
            missed: AtomicU64::new(0),
        })
    }

    /// The task of this path is at its ask of this number: the holds that end with it end, and then
    /// those that hold it back are waited for, one after another, each for at most the number of looks.
    /// It takes no memory. No clause tells what it did: the marks and the count of what was given up
    /// are words that other threads change at any time.
    pub fn hold(&self, path: &Path, ask: u64) {
        for i in 0..self.holds.len() {
            if self.holds.at(i).ends(path, ask) {
                self.ended[i].store(true, Ordering::SeqCst);
            }
        }
        self.missed
            .fetch_add(self.give_up(path, ask), Ordering::SeqCst);
    }

    // Waits for the holds that hold this task back at this ask; how many of these it gave up.
    fn give_up(&self, path: &Path, ask: u64) -> u64
        ensures { result ≤ count_by (holds_back path.now ask) self.now.holds }
    {
        let mut count = 0;
        'looks: for i in 0..self.holds.len() {
            if self.holds.at(i).holds(path, ask) && !is_seen_set(&self.ended[i], self.turns) {
                count += 1;
            }
        }
        count
    }

    /// How many holds were given up, modulo 2^64: the sum of what the calls of `hold` gave up so far. It
    /// takes no memory.
    pub fn missed(&self) -> u64 {
        self.missed.load(Ordering::SeqCst)
    }
}

impl Gate for StepGate {
    fn pass<R: Wait>(&self, _rt: &R, path: &Path, ask: u64) {
        self.hold(path, ask);
    }
}
