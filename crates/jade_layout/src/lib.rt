//! The printed layout of programs.
//!
//! Floor `text`, over `jade_alphabet`, `jade_base`, `jade_lexer`, `jade_list` and `jade_syntax`.
#![tactic(auto)]

mod expressions;
pub mod laws;
mod printer;
mod statements;
mod tokens;

pub use statements::print_program;
