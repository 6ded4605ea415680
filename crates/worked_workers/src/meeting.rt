//! Two tasks that meet: each waits at its first ask until it has seen the other.

use crate::case::outcome;
use crate::holds::{LOOKS, path_of};
use jade_base::Path;
use std::alloc::Global;
use std::hint::spin_loop;
use std::sync::Wait;
use std::sync::atomic::{AtomicBool, AtomicU64, Ordering};
use std::thread::{Threads, yield_now};
use steal_workers::Gate;
use worked_case::Stop;

/// Two tasks that have no object in common.
const APART: &str =
    "object s : 1; object t : 1; main { withonly { wr(s); } do () { s[0] = 1; } withonly { wr(t); } do () { t[0] = 2; } }";

/// A gate at which two tasks raise a flag before their first ask, and then look for the other's flag.
/// Tasks that run one after another can't both see it.
#[derive(Drop)]
struct Meeting {
    first: Path,
    second: Path,
    looks: u64,
    first_came: AtomicBool,
    second_came: AtomicBool,
    // How many of the two saw the other's flag.
    met: AtomicU64,
}

impl Meeting {
    // Raises the flag of one task, and looks for the other's.
    fn meet(&self, own: &AtomicBool, other: &AtomicBool) {
        own.store(true, Ordering::SeqCst);
        for look in 0..self.looks {
            if other.load(Ordering::SeqCst) {
                self.met.fetch_add(1, Ordering::SeqCst);
                return;
            }
            if look % 64 == 63 {
                yield_now();
            } else {
                spin_loop();
            }
        }
    }
}

impl Gate for Meeting {
    fn pass<R: Wait>(&self, _rt: &R, path: &Path, ask: u64) {
        if ask == 0 && path.is_same(&self.first) {
            self.meet(&self.first_came, &self.second_came);
        }
        if ask == 0 && path.is_same(&self.second) {
            self.meet(&self.second_came, &self.first_came);
        }
    }
}

// Runs the two tasks by so many workers, and prints how many of them saw the other's flag and what
// the run wrote.
fn meet<R: Threads + Wait + Sync + Print>(
    rt: &R,
    alloc: Global,
    words: &str,
    looks: u64,
) -> Result<(), Stop> {
    let gate = Meeting {
        first: path_of(alloc, "0.0")?,
        second: path_of(alloc, "0.1")?,
        looks,
        first_came: AtomicBool::new(false),
        second_came: AtomicBool::new(false),
        met: AtomicU64::new(0),
    };
    let written = outcome(rt, alloc, words, APART.as_bytes(), &gate)?;
    let met = gate.met.load(Ordering::SeqCst);
    println!(rt; "{words}: {met} of 2 tasks saw the other\n{written}")?;
    Ok(())
}

/// Two workers let two tasks meet; one worker alone, which has few looks so that it does not last, lets
/// only the later one see that the other was there.
pub fn run<R: Threads + Wait + Sync + Print>(rt: &R, alloc: Global) -> Result<(), Stop> {
    meet(rt, alloc, "run 2 100", LOOKS)?;
    meet(rt, alloc, "run 1 100", 100)
}
