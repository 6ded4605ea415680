//! Why a text is not expanded.

ghost use Rattle.std.specs.Prelude.{◌≡◌};
ghost use Rattle.proc_expand.specs.declared.error.ExpandError.TheVariants.{Memory};

use jade_base::{Memory, Pos};
use std::alloc::AllocFailed;

/// Why a text with procedures is not expanded. The position of a refusal is that of a token of the
/// source, or of its end.
#[derive(Clone, Copy, Debug, PartialEq, Eq)]
pub enum ExpandError {
    /// Where the form of a procedure or of a call is broken.
    Shape(Pos),
    /// The name of a call of what is no procedure before it.
    Unknown(Pos),
    /// The name of a call with another number of arguments than its procedure has parameters.
    Count(Pos),
    /// A name that two procedures have, or two parameters of one procedure.
    Twice(Pos),
    /// The expanded text would be longer than 1,048,576 bytes.
    Grown,
    /// Want of memory, which says nothing of the text.
    Memory,
}

impl From<Memory> for ExpandError {
    ghost from_gives = { λ _ error. error ≡ Memory };

    fn from(_error: Memory) -> ExpandError {
        ExpandError::Memory
    }
}

impl<T: Drop> From<AllocFailed<T>> for ExpandError {
    ghost from_gives = { λ _ error. error ≡ Memory };

    fn from(_error: AllocFailed<T>) -> ExpandError {
        ExpandError::Memory
    }
}
