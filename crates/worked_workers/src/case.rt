//! A case: a program that is run so many times, and what comes of it.

use crate::holds::{LOOKS, gate_of};
use jade_base::{Memory, SureSink, SureSource, Word};
use jade_gen::drill_text;
use jade_run::run_in_memory;
use std::alloc::Global;
use std::str;
use std::sync::Wait;
use std::thread::Threads;
use steal_workers::{EmptyGate, Gate};
use worked_case::{CaseText, Stop};

/// The most bytes that a call writes.
const ROOM: usize = 65_536;

/// The words that are written in a line.
fn words_of(alloc: Global, line: &str) -> Result<Vec<Word>, Memory> {
    let mut words = Vec::new(alloc);
    for piece in line.split(' ') {
        if !piece.is_empty() {
            words.push(Word::of(alloc, piece.as_bytes())?)?;
        }
    }
    Ok(words)
}

/// What a call with these words writes on a text, and its status.
pub fn outcome<R: Threads + Wait + Sync, G: Gate>(
    rt: &R,
    alloc: Global,
    words: &str,
    text: &[u8],
    gate: &G,
) -> Result<String, Stop> {
    let words = words_of(alloc, words)?;
    let mut source = SureSource::new(Vec::from_slice(alloc, text)?);
    let mut sink = SureSink::new(alloc, ROOM)?;
    let status = run_in_memory(rt, alloc, &words, &mut source, &mut sink, gate);
    let written = str::from_utf8(sink.taken())?;
    Ok(format!(in alloc; "{}status {}", written, status.number())?)
}

/// The sum of all cells that a serial run wrote.
fn sum_of(written: &str) -> Result<i64, Stop> {
    let mut sum = 0i64;
    for line in written.lines() {
        let Some((_, cells)) = line.split_once(" = ") else {
            continue;
        };
        for cell in cells.split(' ') {
            sum = sum.wrapping_add(cell.parse::<i64>()?);
        }
    }
    Ok(sum)
}

/// A case: how often it is run, its words, its holds, and its text.
#[derive(Drop)]
pub struct Case<'t> {
    count: u32,
    words: &'t str,
    holds: &'t str,
    text: CaseText,
}

impl<'t> Case<'t> {
    /// The case that begins with a line, and its text.
    pub fn of(head: &'t str, text: CaseText) -> Result<Case<'t>, Stop> {
        let Some((count, rest)) = head.split_once(" times ") else {
            return Err(Stop::Line);
        };
        let count = count.parse::<u32>()?;
        let (words, holds) = match rest.split_once(" : ") {
            Some((words, holds)) => (words, holds),
            None => (rest, ""),
        };
        Ok(Case {
            count,
            words,
            holds,
            text,
        })
    }

    // What its words write where they run by `serial`, and the status.
    fn serial<R: Threads + Wait + Sync>(&self, rt: &R, alloc: Global) -> Result<String, Stop> {
        match self.words.strip_prefix("drill ") {
            Some(rest) => self.serial_drill(rt, alloc, rest),
            None => {
                let Some((_, rest)) = self.words.split_once(' ') else {
                    return Err(Stop::Line);
                };
                let Some((_, rest)) = rest.split_once(' ') else {
                    return Err(Stop::Line);
                };
                let words = format!(in alloc; "serial {rest}")?;
                outcome(rt, alloc, words.as_str(), self.text.bytes(), &EmptyGate)
            }
        }
    }

    // What a drill writes by the sum of the cells that its text comes to serially.
    fn serial_drill<R: Threads + Wait + Sync>(
        &self,
        rt: &R,
        alloc: Global,
        rest: &str,
    ) -> Result<String, Stop> {
        let Some((tasks, _)) = rest.split_once(' ') else {
            return Err(Stop::Line);
        };
        let tasks = tasks.parse::<u32>()?;
        if tasks < 1 || tasks > 10_000 {
            return Err(Stop::Line);
        }
        let text = drill_text(alloc, tasks)?;
        let written = outcome(rt, alloc, "serial 4294967295", text.as_slice(), &EmptyGate)?;
        let sum = sum_of(written.as_str())?;
        Ok(format!(in alloc; "tasks {tasks} sum {sum}\nstatus 0")?)
    }

    /// Runs the case as often as it says, and prints what a serial run writes, how many of the runs
    /// wrote the same, how many holds were given up, and what the last run wrote that wrote something
    /// else.
    pub fn run<R: Threads + Wait + Sync + Print>(self, rt: &R, alloc: Global) -> Result<(), Stop> {
        let serial = self.serial(rt, alloc)?;
        let mut same = 0u32;
        let mut missed = 0u64;
        let mut other: Option<String> = None;
        for _ in 0..self.count {
            let gate = gate_of(alloc, self.holds, LOOKS)?;
            let written = outcome(rt, alloc, self.words, self.text.bytes(), &gate)?;
            if written == serial {
                same = same.wrapping_add(1);
            } else {
                other = Some(written);
            }
            missed = missed.wrapping_add(gate.missed());
        }
        println!(rt;
            "{serial}\n{same} of {} runs wrote this, missed {missed}",
            self.count
        )?;
        match &other {
            Some(written) => println!(rt; "another wrote\n{written}")?,
            None => {}
        }
        Ok(())
    }
}
