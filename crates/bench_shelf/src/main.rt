//! Enters, takes, gives and leaves so many entries of one object: `bench_shelf ENTRIES ROUNDS`, and
//! without words a few numbers of them once each. With a third word, 1, the entries are readers that
//! all hold at once, and each asks what keeps it from the object; with 2 each is asked for what
//! would keep it from writing. `bench/shelf` times it.
//!
//! Floor `bench`, over `jade_base` and `object_shelf`.
#![tactic(auto)]

use jade_base::{Memory, Mode, Path, Right, Rights};
use object_shelf::Shelf;
use std::alloc::Global;
use std::env;
use std::process::ExitCode;

/// Rights to write at once.
const WRITES: Rights = Rights {
    reads: Right::Absent,
    writes: Right::Immediate,
    commutes: Right::Absent,
};

/// Rights to read at once.
const READS: Rights = Rights {
    reads: Right::Immediate,
    writes: Right::Absent,
    commutes: Right::Absent,
};

/// An object with so many tasks that read, all at once: each enters, then each asks what keeps it
/// from a hold in this mode, and takes and gives the content; then each leaves. The answer is how
/// many had the content.
fn readers(alloc: Global, entries: u32, mode: Mode) -> Result<u32, Memory> {
    let root = Path::root(alloc)?;
    let mut shelf = Shelf::start(alloc, &root, WRITES, 4)?;
    let mut paths = Vec::new(alloc);
    for k in 0..entries {
        let child = root.child(alloc, k)?;
        shelf.enter(&root, child.copy(alloc)?, READS)?;
        paths.push(child)?;
    }
    let mut had: u32 = 0;
    for path in paths.iter() {
        if shelf.blocker(path, mode).is_none() {
            if let Some(content) = shelf.take(alloc, path, Mode::Reading)? {
                shelf.give(path, content);
                had = had.wrapping_add(1);
            }
        }
    }
    for path in paths.iter() {
        shelf.leave(path);
    }
    Ok(had)
}

/// An object with so many tasks that write, one after another: each enters, then each takes the
/// content, gives it back and leaves. The answer is how many had the content.
fn round(alloc: Global, entries: u32) -> Result<u32, Memory> {
    let root = Path::root(alloc)?;
    let mut shelf = Shelf::start(alloc, &root, WRITES, 4)?;
    let mut paths = Vec::new(alloc);
    for k in 0..entries {
        let child = root.child(alloc, k)?;
        shelf.enter(&root, child.copy(alloc)?, WRITES)?;
        paths.push(child)?;
    }
    let mut had: u32 = 0;
    for path in paths.iter() {
        if shelf.blocker(path, Mode::Writing).is_none() {
            if let Some(content) = shelf.take(alloc, path, Mode::Writing)? {
                shelf.give(path, content);
                had = had.wrapping_add(1);
            }
        }
        shelf.leave(path);
    }
    Ok(had)
}

/// One round: of writers one after another, or of readers at once.
fn round_of(alloc: Global, entries: u32, kind: u32) -> Result<u32, Memory> {
    match kind {
        1 => readers(alloc, entries, Mode::Reading),
        2 => readers(alloc, entries, Mode::Writing),
        _ => round(alloc, entries),
    }
}

/// The numbers of the words.
fn numbers(rt: &HostRuntime) -> Option<(u32, u32, u32)> {
    let words = env::args(rt).ok()?;
    let mut found = Vec::new(rt.alloc());
    for word in words.skip(1) {
        found.push(word.parse::<u32>().ok()?).ok()?;
    }
    match found.len() {
        2 => Some((found[0], found[1], 0)),
        3 => Some((found[0], found[1], found[2])),
        _ => None,
    }
}

/// Runs rounds of so many entries.
fn run(rt: &HostRuntime, entries: u32, rounds: u32, kind: u32) -> Result<(), Memory> {
    let mut had: u32 = 0;
    for _ in 0..rounds {
        had = had.wrapping_add(round_of(rt.alloc(), entries, kind)?);
    }
    println!(rt; "entries {entries}, rounds {rounds}: {had} had the content").map_err(|_| Memory)
}

/// A few numbers of entries of each kind, once each.
fn run_some(rt: &HostRuntime) -> Result<(), Memory> {
    for kind in 0..3 {
        run(rt, 100, 1, kind)?;
        run(rt, 1000, 1, kind)?;
    }
    Ok(())
}

fn main(rt: HostRuntime) -> ExitCode {
    let ended = match numbers(&rt) {
        Some((entries, rounds, kind)) => run(&rt, entries, rounds, kind),
        None => run_some(&rt),
    };
    match ended {
        Ok(()) => ExitCode::SUCCESS,
        Err(_) => ExitCode::from(1),
    }
}
