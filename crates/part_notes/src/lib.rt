//! The notes of parts that have ended, packed by families: where the tasks of notes that stand one
//! behind another have one parent, its path lies there once for all of them.
//!
//! Floor `running`, over `jade_base` and `task_roll`.
#![tactic(auto)]

mod chunk;
mod family;
pub mod notes;

pub use notes::{Notes, SpareNote};
