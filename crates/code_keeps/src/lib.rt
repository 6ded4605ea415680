//! A checked program with its code, and laws: the code of a checked program keeps all rules, and that of
//! every program the rules on beginnings, on slots and on places.
//!
//! Floor `code`, over `code_meaning`, `erased_places`, `jade_base`, `jade_meaning`, `jade_syntax`,
//! `task_code` and `task_translation`.
#![tactic(auto)]

pub mod compiled;
pub mod laws;

pub use compiled::Compiled;
