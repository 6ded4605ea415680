//! The pieces of the low crates at small examples: paths, specifications, contents, sources, sinks,
//! names and trees. It prints what each comes to.
//!
//! Floor `worked`, over `jade_base`, `jade_list` and `jade_syntax`.
#![tactic(auto)]

mod bytes;
mod trees;
mod values;

use std::alloc::{AllocError, AllocFailed};
use std::io;
use std::process::ExitCode;

/// Memory was wanting, or a line could not be written.
#[derive(Clone, Copy, Debug, PartialEq, Eq)]
pub struct Stop;

impl From<jade_base::Memory> for Stop {
    fn from(_error: jade_base::Memory) -> Stop {
        Stop
    }
}

impl From<io::Error> for Stop {
    fn from(_error: io::Error) -> Stop {
        Stop
    }
}

impl From<AllocError> for Stop {
    fn from(_error: AllocError) -> Stop {
        Stop
    }
}

impl<T: Copy> From<AllocFailed<T>> for Stop {
    fn from(_error: AllocFailed<T>) -> Stop {
        Stop
    }
}

fn run(rt: &HostRuntime) -> Result<(), Stop> {
    values::paths(rt)?;
    values::specifications(rt)?;
    values::contents(rt)?;
    bytes::sources(rt)?;
    bytes::long_texts(rt)?;
    bytes::sinks(rt)?;
    bytes::sure_sinks(rt)?;
    trees::names(rt)?;
    trees::programs(rt)
}

fn main(rt: HostRuntime) -> ExitCode {
    match run(&rt) {
        Ok(()) => ExitCode::SUCCESS,
        Err(Stop) => ExitCode::from(1),
    }
}
