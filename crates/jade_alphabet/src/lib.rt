//! The bytes that words are made of, and the limits of words, numbers, brackets and expressions.
//!
//! Floor `base`, over no crate.
#![tactic(auto)]

pub mod letters;

pub use letters::{is_letter, is_letter_or_digit, is_word};

/// The most bytes of a word.
pub const WORD_LIMIT: usize = 64;

/// The most brackets that are open at one place.
pub const DEPTH_LIMIT: usize = 64;

/// The most tokens of an expression that lies in no other.
pub const EXPRESSION_LIMIT: usize = 256;

/// The greatest number.
pub const GREATEST_NUMBER: u64 = 9_223_372_036_854_775_807;
