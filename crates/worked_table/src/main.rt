//! Runs one program by four schedules on the table of objects, one try after another at what a
//! task asks for. It prints of each try the task, how many events it has done, what it asks for,
//! what came of the try, and which tasks come out of a room; then the report. The schedules differ,
//! the reports don't.
//!
//! Floor `worked`, over `code_keeps`, `jade_base`, `jade_meaning`, `jade_syntax`, `object_table`,
//! `task_codegen`, `task_machine`, `task_suspend` and `worked_case`.
#![tactic(auto)]

mod run;
mod schedules;
mod stop;
mod tasks;
mod words;

use crate::run::run_by;
use crate::schedules::{SCHEDULES, Schedule, TEXT};
use crate::stop::Stop;
use code_keeps::Compiled;
use std::alloc::Global;
use std::process::ExitCode;
use std::sync::Wait;
use task_codegen::compile;
use worked_case::checked;

/// Runs the program by a schedule, and prints the tries and the report, which is answered.
fn show<R: Wait + Print>(
    rt: &R,
    alloc: Global,
    compiled: &Compiled,
    schedule: &Schedule,
) -> Result<String, Stop> {
    println!(rt; "# {}", schedule.title)?;
    if compiled.checked().inputs() != 0 {
        return Err(Stop::Program);
    }
    let report = run_by(rt, alloc, compiled, schedule)?;
    print!(rt; "{report}")?;
    Ok(report)
}

/// Runs the program by all schedules, and says whether the reports are the same.
fn show_all<R: Wait + Print>(rt: &R, alloc: Global) -> Result<(), Stop> {
    let Some(checked) = checked(alloc, TEXT.as_bytes()) else {
        return Err(Stop::Program);
    };
    let compiled = compile(alloc, checked)?;
    let [serial, ahead, vain, rooms] = &SCHEDULES;
    let first = show(rt, alloc, &compiled, serial)?;
    let second = show(rt, alloc, &compiled, ahead)?;
    let third = show(rt, alloc, &compiled, vain)?;
    let fourth = show(rt, alloc, &compiled, rooms)?;
    let same = first == second && first == third && first == fourth;
    println!(rt; "the reports are the same: {same}")?;
    Ok(())
}

fn main(rt: HostRuntime) -> ExitCode {
    match show_all(&rt, rt.alloc()) {
        Ok(()) => ExitCode::SUCCESS,
        Err(stop) => ExitCode::from(stop.number()),
    }
}
