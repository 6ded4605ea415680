//! Trees whose names and places are replaced by others.
//!
//! Floor `text`, over `jade_alphabet`, `jade_base`, `jade_lexer`, `jade_parser`, `jade_reading` and
//! `jade_syntax`.
#![tactic(auto)]

pub mod laws;
