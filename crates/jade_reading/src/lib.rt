//! What is proved of the trees that texts, tokens and printed texts read as.
//!
//! Floor `text`, over `jade_alphabet`, `jade_base`, `jade_layout`, `jade_lexer`, `jade_list`,
//! `jade_parser` and `jade_syntax`.
#![tactic(auto)]

pub mod laws;
pub mod round_trip;

pub use round_trip::read_back;
