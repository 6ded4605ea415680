//! Runs each case of standard input as a whole call of `jade_main`, and prints what it writes and
//! its status. A case begins with a line `> WORDS`; the lines up to the next one are its text, with
//! a line feed between two lines and none at the end. A line `* N PIECE` stands for N times the
//! piece, with no line feed before or after it. Before the cases it runs one program over a source
//! and a sink of which a call fails, and other commands, and prints how many runs were shown to the
//! witness.
//!
//! Floor `worked`, over `jade_base`, `jade_run` and `worked_case`.
#![tactic(auto)]

ghost use Rattle.std.specs.Prelude.{None};

use jade_base::{
    Memory, MemorySink, MemorySource, StdSource, SureSink, SureSource, Word, read_text,
};
use jade_run::{EmptyGate, Ran, Witness, jade_main, run_in_memory};
use std::alloc::Global;
use std::process::ExitCode;
use std::str;
use std::sync::Wait;
use std::thread::Threads;
use worked_case::{CaseText, Stop, cases_of};

/// The most bytes that a case writes.
const ROOM: usize = 65_536;

/// A program that writes `s = 7`.
const SEVEN: &str = "object s : 1; main { withonly { wr(s); } do () { s[0] = 7; } }";

/// A case: the words of its call, and its text.
#[derive(Drop)]
struct Case {
    words: Vec<Word>,
    text: CaseText,
}

impl Case {
    /// The case of a line of words, and its text.
    fn of(alloc: Global, line: &str, text: CaseText) -> Result<Case, Memory> {
        let mut words = Vec::new(alloc);
        for piece in line.split(' ') {
            if !piece.is_empty() {
                words.push(Word::of(alloc, piece.as_bytes())?)?;
            }
        }
        Ok(Case { words, text })
    }

    /// Runs the case, and prints what it writes and its status.
    fn run<R: Threads + Wait + Sync + Print>(self, rt: &R, alloc: Global) -> Result<(), Stop> {
        let mut source = SureSource::new(self.text.into_bytes());
        let mut sink = SureSink::new(alloc, ROOM)?;
        let status = run_in_memory(rt, alloc, &self.words, &mut source, &mut sink, &EmptyGate);
        let written = str::from_utf8(sink.taken())?;
        println!(rt; "{}status {}", written, status.number())?;
        Ok(())
    }
}

/// Runs the cases of a text.
fn run_cases<R: Threads + Wait + Sync + Print>(
    rt: &R,
    alloc: Global,
    text: &str,
) -> Result<(), Stop> {
    for lines in cases_of(alloc, text, "> ")? {
        println!(rt; "> {}", lines.head)?;
        let case = Case::of(alloc, lines.head, lines.text)?;
        case.run(rt, alloc)?;
    }
    Ok(())
}

/// Counts the runs that it is shown.
#[derive(Drop)]
struct Count {
    runs: u64,
}

impl Witness for Count {
    ghost seen = { λ _. None };

    fn see(&mut self, _ran: &Ran<'_>) {
        self.runs = self.runs.saturating_add(1);
    }
}

/// A list of one call, or of none.
fn calls(alloc: Global, failing: Option<u64>) -> Result<Vec<u64>, Stop> {
    let mut calls = Vec::new(alloc);
    if let Some(call) = failing {
        calls.push(call)?;
    }
    Ok(calls)
}

/// Calls with these words on `SEVEN`, over a source that gives 4 bytes a call and a sink that takes 3,
/// and prints what the sink took, the status, and how many runs were shown. The calls of these numbers
/// fail.
fn call_failing<R: Threads + Wait + Sync + Print>(
    rt: &R,
    alloc: Global,
    words: &str,
    read: Option<u64>,
    write: Option<u64>,
) -> Result<(), Stop> {
    let case = Case::of(alloc, words, CaseText::new(alloc))?;
    let text = Vec::from_slice(alloc, SEVEN.as_bytes())?;
    let mut source = MemorySource::new(text, 4, calls(alloc, read)?);
    let mut sink = MemorySink::new(alloc, 3, calls(alloc, write)?, 1024)?;
    let mut witness = Count { runs: 0 };
    let status = jade_main(
        rt,
        alloc,
        &case.words,
        &mut source,
        &mut sink,
        &EmptyGate,
        &mut witness,
    );
    let taken = str::from_utf8(sink.taken())?;
    println!(rt;
        "{words}: {:?} was taken, status {}, runs shown: {}",
        taken,
        status.number(),
        witness.runs
    )?;
    Ok(())
}

/// Runs over a source that fails, a sink that fails, and over both without a fault; then commands of
/// which some run nothing by workers.
fn call_all_failing<R: Threads + Wait + Sync + Print>(rt: &R, alloc: Global) -> Result<(), Stop> {
    call_failing(rt, alloc, "run 4 100", None, None)?;
    call_failing(rt, alloc, "run 4 100", None, Some(1))?;
    call_failing(rt, alloc, "run 4 100", Some(1), None)?;
    call_failing(rt, alloc, "run 4 1", None, None)?;
    call_failing(rt, alloc, "run 4 100 5", None, None)?;
    call_failing(rt, alloc, "serial 100", None, None)?;
    call_failing(rt, alloc, "check", None, None)?;
    call_failing(rt, alloc, "drill 3 2", None, None)?;
    call_failing(rt, alloc, "walk", None, None)
}

fn main(rt: HostRuntime) -> ExitCode {
    let alloc = rt.alloc();
    let mut source = StdSource::new(rt.stdin());
    let Ok(bytes) = read_text(alloc, &mut source) else {
        return ExitCode::from(2);
    };
    let Ok(text) = str::from_utf8(&bytes) else {
        return ExitCode::from(2);
    };
    if call_all_failing(&rt, alloc).is_err() {
        return ExitCode::from(1);
    }
    match run_cases(&rt, alloc, text) {
        Ok(()) => ExitCode::SUCCESS,
        Err(_) => ExitCode::from(1),
    }
}
