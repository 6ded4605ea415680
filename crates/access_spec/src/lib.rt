//! How a task changes its own rights: it changes a working copy, and the copy takes the place of
//! its specification, or is given up. Also the mode in which rights hold an object, and when a
//! hold is given up for a child.
//!
//! Floor `base`, over `jade_base`.
#![tactic(auto)]

pub mod change;
pub mod modes;
pub mod working_copy;

pub use change::{Change, NoRight};
pub use modes::{gives_way, mode_of};
pub use working_copy::WorkingCopy;
