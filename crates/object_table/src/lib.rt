//! The running objects: threads share them, each by a word and a slot of its own.
//!
//! Floor `running`, over `jade_base`, `jade_list`, `jade_meaning`, `jade_syntax`, `object_shelf`,
//! `part_notes`, `schedule_core` and `task_roll`, with `atomic_table` of the kit.
#![tactic(auto)]

mod answers;
mod finish;
pub mod laws;
mod pass;
mod ran;
mod room;
mod slot;
mod table;
mod tally;
mod task;
mod turns;
mod view;

pub use answers::{Taken, Tried};
pub use pass::TaskPass;
pub use ran::Ran;
pub use room::PassRoom;
pub use table::ObjectTable;
