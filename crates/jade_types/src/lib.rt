//! What is wrong with a program before it runs, and what its names stand for.
//!
//! Floor `text`, over `jade_base`, `jade_list`, `jade_syntax` and `name_scope`.
#![tactic(auto)]

pub mod checker;
mod faults;
mod item_map;
mod numbers;

pub use checker::{TypeError, check};
