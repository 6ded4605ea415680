//! Lines of those that wait for an object, in the serial order of their tasks, and the laws that say
//! why it suffices to let the first of a line go, and where it is to read the readers right behind it.
//!
//! Floor `schedule`, over `jade_base`, `object_shelf` and `task_roll`.
#![tactic(auto)]

pub mod laws;
pub mod line;

pub use line::Line;
