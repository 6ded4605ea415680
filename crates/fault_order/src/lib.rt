//! Which fault of a run comes first, and in which part a run passes its limit of steps.
//!
//! Floor `base`, over `jade_base` and `jade_list`.
#![tactic(auto)]

pub mod limit;
pub mod note;

pub use limit::limit_place;
pub use note::{first, key_is_before};
