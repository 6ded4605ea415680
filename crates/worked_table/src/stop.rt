//! Why not all is printed.

use jade_base::Memory;
use std::alloc::AllocError;
use std::io;

/// Why not all is printed.
#[derive(Clone, Copy, Debug, PartialEq, Eq)]
pub(crate) enum Stop {
    /// A schedule names a task that is not live, or ends before all is over.
    Schedule,
    /// The text is no program, or has inputs.
    Program,
    /// Memory was wanting, or a line could not be printed.
    Failed,
}

impl Stop {
    /// The status with which the program ends.
    pub(crate) fn number(self) -> u8 {
        match self {
            Stop::Schedule => 1,
            Stop::Program => 2,
            Stop::Failed => 7,
        }
    }
}

impl From<Memory> for Stop {
    fn from(_error: Memory) -> Stop {
        Stop::Failed
    }
}

impl From<AllocError> for Stop {
    fn from(_error: AllocError) -> Stop {
        Stop::Failed
    }
}

impl From<io::Error> for Stop {
    fn from(_error: io::Error) -> Stop {
        Stop::Failed
    }
}
