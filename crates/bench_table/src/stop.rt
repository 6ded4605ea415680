//! Why not all cycles were done.

use jade_base::Memory;
use std::alloc::AllocError;
use std::io;

/// Why not all cycles were done.
#[derive(Clone, Copy, Debug, PartialEq, Eq)]
pub(crate) enum Stop {
    /// The text has fewer tasks than the words ask for, or none are asked for.
    Words,
    /// The text is no program, or has inputs.
    Program,
    /// A task has to wait for an object, though all tasks read.
    Waits,
    /// Memory was wanting, or a line could not be printed.
    Failed,
}

impl Stop {
    /// The status with which the program ends.
    pub(crate) fn number(self) -> u8 {
        match self {
            Stop::Words => 1,
            Stop::Program => 2,
            Stop::Waits => 3,
            Stop::Failed => 7,
        }
    }
}

impl From<Memory> for Stop {
    fn from(_error: Memory) -> Stop {
        Stop::Failed
    }
}

impl From<AllocError> for Stop {
    fn from(_error: AllocError) -> Stop {
        Stop::Failed
    }
}

impl From<io::Error> for Stop {
    fn from(_error: io::Error) -> Stop {
        Stop::Failed
    }
}
