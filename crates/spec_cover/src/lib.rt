//! Whether a parent's specification covers that of its child.
//!
//! Floor `base`, over `jade_base`.
#![tactic(auto)]

pub mod cover;

pub use cover::uncovered;
