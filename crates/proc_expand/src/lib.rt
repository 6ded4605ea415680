//! Procedures: what refuses a text with them, and the text without them, each token with the place from
//! which it comes.
//!
//! Floor `text`, over `jade_alphabet`, `jade_base`, `jade_lexer`, `jade_list`, `jade_syntax` and
//! `name_scope`, with `itoa` of the kit.
#![tactic(auto)]

mod brackets;
mod called;
mod calls;
mod error;
mod expanding;
mod frame;
mod fresh;
mod known;
mod marks;
mod naming;
mod outer;
mod pen;
mod places;
pub mod procedures;
pub mod refusal;
mod scan;
mod sheet;
pub mod sign;
mod source;
mod taken;
mod twice;
mod write;

pub use error::ExpandError;
pub use expanding::{Expanded, expand, has_proc};
