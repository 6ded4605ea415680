//! Numbers as they are spelled: in decimal, without a needless zero.
//!
//! Floor `base`, with `itoa` of the kit.
#![tactic(auto)]

pub mod numbers;

pub use numbers::{number_of, signed_of};
