//! What the programs behind the pictures share: how they read their words and their text, the labels
//! of objects, and why they stop.
//!
//! Floor `pictures`, over `jade_base`, `jade_lexer`, `jade_parser`, `jade_syntax` and `jade_types`.
#![tactic(auto)]

mod objects;
mod stop;
mod text;
mod words;

pub use objects::labels;
pub use stop::Stop;
pub use text::read_program;
pub use words::{count_at, numbers_from, word_at};
