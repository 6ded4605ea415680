//! Prints the tasks of a program, by a serial run of it: what each declares, each of its asks with the
//! steps that it has begun by then, and the line of its `withonly`. The words are LIMIT NUMBER*, the
//! text is read from standard input. `tools/graph.py` says what each line means, and draws them.
//!
//! Floor `pictures`, over `access_spec`, `code_keeps`, `code_meaning`, `jade_base`, `jade_syntax`,
//! `picture_base`, `task_code`, `task_codegen` and `task_machine`.
#![tactic(auto)]

mod creations;
mod store;
mod told;
mod walk;

use crate::creations::lines_of_creations;
use crate::told::tell_objects;
use crate::walk::tell_tasks;
use jade_base::StdSource;
use picture_base::{Stop, count_at, numbers_from, read_program};
use std::process::ExitCode;
use task_codegen::compile;

/// Prints all of the program on standard input.
fn tell_all(rt: &HostRuntime) -> Result<(), Stop> {
    let alloc = rt.alloc();
    let limit = count_at(rt, alloc, 1)?;
    let numbers = numbers_from(rt, alloc, 2)?;
    let checked = read_program(alloc, &mut StdSource::new(rt.stdin()))?;
    tell_objects(rt, &checked)?;
    let compiled = compile(alloc, checked)?;
    let lines = lines_of_creations(alloc, &compiled, &numbers, limit)?;
    tell_tasks(rt, &compiled, &numbers, limit, &lines)
}

fn main(rt: HostRuntime) -> ExitCode {
    match tell_all(&rt) {
        Ok(()) => ExitCode::SUCCESS,
        Err(stop) => ExitCode::from(stop.number()),
    }
}
