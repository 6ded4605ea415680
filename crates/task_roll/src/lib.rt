//! The live tasks in serial order, and what the parts of tasks leave.
//!
//! Floor `schedule`, over `jade_base` and `jade_list`.
#![tactic(auto)]

pub mod note;
pub mod order;
pub mod roll;
pub mod rows;

pub use note::PartNote;
pub use order::OnPath;
pub use roll::Roll;
