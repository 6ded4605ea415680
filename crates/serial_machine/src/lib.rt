//! Runs the code of a whole program serially, each child whole where it is created, and stops where
//! the answer is known.
//!
//! Floor `code`, over `access_spec`, `code_keeps`, `code_meaning`, `jade_base`, `jade_list`,
//! `jade_meaning`, `jade_syntax`, `task_code`, `task_machine` and `task_translation`.
#![tactic(auto)]

mod answer;
mod going;
mod level;
mod ownership;
mod stack;

pub use answer::{RunAnswer, run_serial};
