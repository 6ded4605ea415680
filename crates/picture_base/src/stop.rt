//! Why not all is printed.

ghost use Rattle.std.specs.Prelude.{◌≡◌};

use jade_base::Memory;
use std::alloc::{AllocError, AllocFailed};
use std::io;

/// Why not all is printed.
#[derive(Clone, Copy, Debug, PartialEq, Eq)]
pub enum Stop {
    /// A task faults.
    Fault,
    /// The text is no program, or could not be read.
    Text,
    /// The words are not those of the program, with a number for each input.
    Words,
    /// Memory was wanting, or a line could not be printed.
    Failed,
}

impl Stop {
    /// The status with which the program ends.
    pub fn number(self) -> u8
        ensures fault { self ≡ Stop.Fault → result ≡ 1 }
        ensures text { self ≡ Stop.Text → result ≡ 2 }
        ensures words { self ≡ Stop.Words → result ≡ 3 }
        ensures failed { self ≡ Stop.Failed → result ≡ 7 }
    {
        match self {
            Stop::Fault => 1,
            Stop::Text => 2,
            Stop::Words => 3,
            Stop::Failed => 7,
        }
    }
}

impl From<Memory> for Stop {
    fn from(_error: Memory) -> Stop
        ensures { result ≡ Stop.Failed }
    {
        Stop::Failed
    }
}

impl From<io::Error> for Stop {
    fn from(_error: io::Error) -> Stop
        ensures { result ≡ Stop.Failed }
    {
        Stop::Failed
    }
}

impl From<AllocError> for Stop {
    fn from(_error: AllocError) -> Stop
        ensures { result ≡ Stop.Failed }
    {
        Stop::Failed
    }
}

impl<T: Copy> From<AllocFailed<T>> for Stop {
    fn from(_error: AllocFailed<T>) -> Stop
        ensures { result ≡ Stop.Failed }
    {
        Stop::Failed
    }
}
