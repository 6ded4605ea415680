//! The code of a program, as a definition, and the law that it does what the program does.
//!
//! Floor `code`, over `code_meaning`, `jade_base`, `jade_meaning` and `jade_syntax`.
#![tactic(auto)]

pub mod laws;
