//! The lexical grammar: a text cut into its tokens, or its first refused place.
//!
//! Floor `text`, over `jade_alphabet` and `jade_base`.
#![tactic(auto)]

mod alphabet;
pub mod laws;
pub mod lexeme;
pub mod lexer;

pub use lexeme::{LexError, Lexeme, Tokens};
pub use lexer::tokens;
