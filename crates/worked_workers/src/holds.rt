//! Holds, read from a line, and the gate that has them.

ghost use Rattle.std.specs.Prelude.{◌≤◌, ◌<◌, ◌^◌};

use jade_base::Path;
use std::alloc::Global;
use steal_workers::{Hold, HoldList, StepGate};
use worked_case::Stop;

/// So many looks are made at a hold.
pub const LOOKS: u64 = 50_000_000;

/// The path that is written with dots.
pub fn path_of(alloc: Global, written: &str) -> Result<Path, Stop> {
    let mut path = None;
    for piece in written.split('.') {
        let number = piece.parse::<u32>()?;
        path = match &path {
            Some(parent) => Some(child(alloc, parent, number)?),
            None => Some(Path::root(alloc)?),
        };
    }
    path.ok_or(Stop::Line)
}

// The path of a child.
fn child(alloc: Global, parent: &Path, number: u32) -> Result<Path, Stop> {
    Ok(parent.child(alloc, number)?)
}

// The task and the ask that are written `PATH@ASK`.
fn moment_of(alloc: Global, written: &str) -> Result<(Path, u64), Stop> {
    let Some((path, ask)) = written.split_once('@') else {
        return Err(Stop::Line);
    };
    let ask = ask.parse::<u64>()?;
    Ok((path_of(alloc, path)?, ask))
}

// The hold that is written `PATH@ASK<PATH@ASK`.
fn hold_of(alloc: Global, written: &str) -> Result<Hold, Stop> {
    let Some((held, end)) = written.split_once('<') else {
        return Err(Stop::Line);
    };
    let (path, ask) = moment_of(alloc, held)?;
    let (until, until_ask) = moment_of(alloc, end)?;
    Ok(Hold {
        path,
        ask,
        until,
        until_ask,
    })
}

/// The gate of the holds that are written with a space between two, each given up after so many looks.
pub fn gate_of(alloc: Global, written: &str, looks: u64) -> Result<StepGate, Stop>
    requires looks { (1 ≤ looks) × (looks < 2 ^ 32) }
{
    let mut holds = HoldList::empty(alloc);
    for piece in written.split(' ') {
        if !piece.is_empty() && holds.push(hold_of(alloc, piece)?).is_err() {
            return Err(Stop::Failed);
        }
    }
    Ok(StepGate::new(alloc, holds, looks)?)
}

/// One hold of three looks, on one thread: it is given up where nobody ends it, and is not once it has
/// ended. Prints how many holds were given up after each of the three calls.
pub fn script<R: Print>(rt: &R, alloc: Global) -> Result<(), Stop> {
    let gate = gate_of(alloc, "0.0@0<0@4", 3)?;
    let root = path_of(alloc, "0")?;
    let first = path_of(alloc, "0.0")?;
    gate.hold(&first, 0);
    let alone = gate.missed();
    gate.hold(&root, 4);
    let ended = gate.missed();
    gate.hold(&first, 0);
    println!(rt; "missed {alone}, then {ended}, then {}", gate.missed())?;
    Ok(())
}
