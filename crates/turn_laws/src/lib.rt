//! Laws on turn lists: which are used up entry by entry, and that a task's talk tells its turn.
//!
//! Floor `meaning`, over `jade_base`, `jade_meaning` and `jade_syntax`.
#![tactic(auto)]

pub mod laws;
