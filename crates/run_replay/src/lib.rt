//! A recorded run again: a program is run by the turns that its tasks took then.
//!
//! Floor `schedule`, over `core_laws`, `jade_base`, `jade_list`, `jade_meaning`, `jade_syntax`,
//! `object_shelf`, `schedule_core` and `task_roll`.
#![tactic(auto)]

pub mod following;
mod steps;

pub use following::{FollowError, follow};
