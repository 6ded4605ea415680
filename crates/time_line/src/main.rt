//! Runs a program by workers, and prints when each task came to each of its asks, and in which thread;
//! after that the objects. The words are WORKERS LIMIT NUMBER*, the text is read from standard input.
//! The times are measured, and nothing is proved of them. `tools/timeline.py` says what each line
//! means, and draws them. After the word `untimed`, times and threads are left out.
//!
//! Floor `pictures`, over `code_keeps`, `jade_base`, `jade_meaning`, `jade_syntax`, `object_table`,
//! `picture_base`, `steal_workers` and `task_codegen`.
#![tactic(auto)]

mod answer;
mod gate;
mod words;

use crate::answer::tell_objects;
use crate::gate::TimeGate;
use crate::words::{Words, given};
use code_keeps::Compiled;
use jade_base::{Source, StdSource};
use object_table::Ran;
use picture_base::{Stop, read_program};
use std::alloc::Global;
use std::env::Env;
use std::process::ExitCode;
use std::sync::Wait;
use std::thread::Threads;
use steal_workers::{Gate, run_tasks};
use task_codegen::compile;

/// Runs the program, if its words are right.
fn run<'c, R: Threads + Wait + Sync, G: Gate>(
    rt: &R,
    alloc: Global,
    compiled: &'c Compiled,
    words: &'c Words,
    gate: &G,
) -> Result<Ran<'c>, Stop> {
    let numbers = words.numbers.as_slice();
    let Words { workers, limit, .. } = *words;
    if numbers.len() != compiled.checked().inputs() as usize || limit < 1 {
        return Err(Stop::Words);
    }
    if workers < 1 || workers > 64 {
        return Err(Stop::Words);
    }
    Ok(run_tasks(rt, alloc, compiled, numbers, workers, limit, gate)?)
}

/// Runs the program of a source, and prints its notes and its objects.
fn tell_all<R: Threads + Wait + Sync + Env + Print, S: Source>(
    rt: &R,
    alloc: Global,
    source: &mut S,
    gate: &TimeGate,
) -> Result<(), Stop> {
    let words = given(rt, alloc)?;
    let compiled = compile(alloc, read_program(alloc, source)?)?;
    let ran = run(rt, alloc, &compiled, &words, gate)?;
    let Some(cells) = ran.cells(words.limit) else {
        return Err(Stop::Fault);
    };
    gate.tell(rt, words.is_timed)?;
    tell_objects(rt, alloc, compiled.checked(), cells)
}

fn main(rt: HostRuntime) -> ExitCode {
    let alloc = rt.alloc();
    let mut source = StdSource::new(rt.stdin());
    let told = match TimeGate::new(&rt, alloc) {
        Ok(gate) => tell_all(&rt, alloc, &mut source, &gate),
        Err(stop) => Err(stop),
    };
    match told {
        Ok(()) => ExitCode::SUCCESS,
        Err(stop) => ExitCode::from(stop.number()),
    }
}
