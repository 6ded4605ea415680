//! The abstract syntax of a program is its syntax with all places, less the places that its meaning
//! does not need.
//!
//! Floor `text`, over `jade_base` and `jade_syntax`.
#![tactic(auto)]

pub mod laws;
