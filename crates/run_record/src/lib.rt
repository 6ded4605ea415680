//! The recording of a run as text: written, and read.
//!
//! Floor `command`, over `jade_alphabet`, `jade_base`, `jade_list` and `number_words`, with `itoa`
//! and `smallvec` of the kit.
#![tactic(auto)]

mod labels;
pub mod laws;
mod lines;
mod paths;
pub mod pieces;
pub mod read;
pub mod recorded;
pub mod turns;
pub mod write;

pub use pieces::first_line;
pub use read::{ReadError, read_record};
pub use recorded::{Lines, Record};
pub use turns::{LabelledTurn, LabelledTurns};
pub use write::{RecordError, write_record};
