//! Runs programs by workers whose tasks are held back, or many times, and prints what no contract
//! says: that two tasks meet, how many holds were given up, and how many runs came out as the serial
//! one. A case of standard input begins with a line `> COUNT times WORDS : PATH@ASK<PATH@ASK ..`:
//! the words of a `run` or a `drill`, and the holds, each of a task at an ask of its own until
//! another is at one of its own. The lines up to the next one are its text, with a line feed between
//! two lines. A line `* N PIECE` stands for N times the piece.
//!
//! Floor `worked`, over `jade_base`, `jade_gen`, `jade_run`, `steal_workers` and `worked_case`.
#![tactic(auto)]

mod case;
mod holds;
mod meeting;

use crate::case::Case;
use jade_base::{StdSource, read_text};
use std::alloc::Global;
use std::process::ExitCode;
use std::str;
use std::sync::Wait;
use std::thread::Threads;
use worked_case::{Stop, cases_of};

/// Runs the cases of a text.
fn run_cases<R: Threads + Wait + Sync + Print>(
    rt: &R,
    alloc: Global,
    text: &str,
) -> Result<(), Stop> {
    for lines in cases_of(alloc, text, "> ")? {
        println!(rt; "> {}", lines.head)?;
        let case = Case::of(lines.head, lines.text)?;
        case.run(rt, alloc)?;
    }
    Ok(())
}

fn main(rt: HostRuntime) -> ExitCode {
    let alloc = rt.alloc();
    let mut source = StdSource::new(rt.stdin());
    let Ok(bytes) = read_text(alloc, &mut source) else {
        return ExitCode::from(2);
    };
    let Ok(text) = str::from_utf8(&bytes) else {
        return ExitCode::from(2);
    };
    if meeting::run(&rt, alloc).is_err() || holds::script(&rt, alloc).is_err() {
        return ExitCode::from(1);
    }
    match run_cases(&rt, alloc, text) {
        Ok(()) => ExitCode::SUCCESS,
        Err(_) => ExitCode::from(1),
    }
}
