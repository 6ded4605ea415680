//! The program `jade`: the words after its name, standard input and standard output.
//!
//! Floor `command`, over `jade_base` and `jade_run`.
#![tactic(auto)]

use jade_base::{StdSink, StdSource, Word};
use jade_run::{EmptyGate, NoWitness, Status, jade_main};
use std::alloc::Global;
use std::env::{Env, FillError};
use std::process::ExitCode;

/// Why the words of a call are not at hand.
#[derive(Clone, Copy, Debug, PartialEq, Eq)]
enum NoWords {
    /// The system does not give them.
    System,
    /// Memory was wanting.
    Memory,
}

/// The status with which the program ends where the system does not give the words; no call of the
/// library answers it.
const NO_WORDS: u8 = 9;

/// The room in which a word is first read, in bytes.
const FIRST_ROOM: usize = 256;

/// How often that room is doubled, up to 1 GiB. A word that does not fit then is one that the system
/// does not give.
const DOUBLINGS: u32 = 22;

/// So many bytes of room for a word.
fn room(alloc: Global, doublings: u32) -> Result<Vec<u8>, NoWords> {
    let size = FIRST_ROOM.checked_shl(doublings).ok_or(NoWords::System)?;
    let mut room = Vec::new(alloc);
    room.resize(size, 0).map_err(|_| NoWords::Memory)?;
    Ok(room)
}

/// The argument of this number, whatever its bytes are, or none where there are fewer. The first
/// is the program's name.
fn argument<E: Env>(system: &E, alloc: Global, number: usize) -> Result<Option<Word>, NoWords> {
    for doublings in 0..=DOUBLINGS {
        let mut room = room(alloc, doublings)?;
        match system.arg(number, &mut room) {
            Ok(length) => {
                let word = Word::of(alloc, &room[..length]).map_err(|_| NoWords::Memory)?;
                return Ok(Some(word));
            }
            Err(FillError::NotPresent) => return Ok(None),
            Err(FillError::TooLong) => {}
        }
    }
    Err(NoWords::System)
}

/// The words after the program's name.
fn words<E: Env>(system: &E, alloc: Global) -> Result<Vec<Word>, NoWords> {
    let mut words = Vec::new(alloc);
    for number in 1..usize::MAX {
        match argument(system, alloc, number)? {
            Some(word) => words.push(word).map_err(|_| NoWords::Memory)?,
            None => break,
        }
    }
    Ok(words)
}

fn main(rt: HostRuntime) -> ExitCode {
    let alloc = rt.alloc();
    match words(&rt, alloc) {
        Ok(words) => {
            let mut source = StdSource::new(rt.stdin());
            let mut sink = StdSink::new(rt.stdout());
            let status = jade_main(
                &rt,
                alloc,
                &words,
                &mut source,
                &mut sink,
                &EmptyGate,
                &mut NoWitness,
            );
            ExitCode::from(status.number())
        }
        Err(NoWords::Memory) => ExitCode::from(Status::Memory.number()),
        Err(NoWords::System) => ExitCode::from(NO_WORDS),
    }
}
