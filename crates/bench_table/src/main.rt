//! Creates tasks at the table of shared objects and runs them to their end, and does nothing else:
//! `bench_table THREADS LIVE CYCLES`, and without words a few numbers of them once each. Each
//! thread has a task with an object of its own. In a cycle this task creates a child that reads the
//! object, and the child takes the object, gives it back, leaves it and ends. So many other tasks
//! are live all the while, and no try is made at them. There are no workers, and no report is made
//! in the end. `bench/table` times it.
//!
//! Floor `bench`, over `code_keeps`, `jade_base`, `jade_meaning`, `jade_syntax`, `object_table`,
//! `task_codegen`, `task_suspend` and `worked_case`.
#![tactic(auto)]

mod cycles;
mod run;
mod stop;
mod tries;

use crate::run::{Load, run_load};
use crate::stop::Stop;
use code_keeps::Compiled;
use std::alloc::Global;
use std::env;
use std::process::ExitCode;
use std::thread::Threads;
use task_codegen::compile;
use worked_case::checked;

/// The program: four tasks, each with an object of its own and many children that read it.
const TEXT: &str = "objects s[4] : 1;
main {
    for i in 0 .. 4 {
        withonly { rd(s[i]); } do (i) {
            for k in 0 .. 1000000 {
                withonly { rd(s[i]); } do () { }
            }
        }
    }
}
";

/// What is run where there are no words.
const SOME: [Load; 4] = [
    Load {
        threads: 1,
        live: 1,
        cycles: 100,
    },
    Load {
        threads: 1,
        live: 100,
        cycles: 100,
    },
    Load {
        threads: 2,
        live: 2,
        cycles: 100,
    },
    Load {
        threads: 4,
        live: 4,
        cycles: 100,
    },
];

/// The load of the words.
fn load_of(rt: &HostRuntime) -> Option<Load> {
    let words = env::args(rt).ok()?;
    let mut found = Vec::new(rt.alloc());
    for word in words.skip(1) {
        found.push(word.parse::<u32>().ok()?).ok()?;
    }
    match found.len() {
        3 => Some(Load {
            threads: found[0],
            live: found[1],
            cycles: found[2],
        }),
        _ => None,
    }
}

/// Does the cycles of a load, and prints how many were done.
fn show<R: Threads + Print + Sync>(
    rt: &R,
    alloc: Global,
    compiled: &Compiled,
    load: Load,
) -> Result<(), Stop> {
    if compiled.checked().inputs() != 0 {
        return Err(Stop::Program);
    }
    let Load {
        threads,
        live,
        cycles,
    } = run_load(rt, alloc, compiled, load)?;
    println!(rt; "{threads} threads, {live} live: {cycles} cycles")?;
    Ok(())
}

/// Does the cycles of this load, or of a few where there is none.
fn show_all<R: Threads + Print + Sync>(
    rt: &R,
    alloc: Global,
    given: Option<Load>,
) -> Result<(), Stop> {
    let Some(checked) = checked(alloc, TEXT.as_bytes()) else {
        return Err(Stop::Program);
    };
    let compiled = compile(alloc, checked)?;
    if let Some(load) = given {
        return show(rt, alloc, &compiled, load);
    }
    for load in SOME {
        show(rt, alloc, &compiled, load)?;
    }
    Ok(())
}

fn main(rt: HostRuntime) -> ExitCode {
    match show_all(&rt, rt.alloc(), load_of(&rt)) {
        Ok(()) => ExitCode::SUCCESS,
        Err(stop) => ExitCode::from(stop.number()),
    }
}
