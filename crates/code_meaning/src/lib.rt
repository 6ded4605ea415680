//! The instructions of a task, and what they mean: the course that a task with such a body takes.
//!
//! Floor `code`, over `jade_base`, `jade_meaning` and `jade_syntax`.
#![tactic(auto)]

pub mod code;
pub mod laws;

pub use code::{BinaryOp, Body, Instruction, Logic, Operand};
