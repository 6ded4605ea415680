//! Runs the code of a task, up to the next thing that the task asks for.
//!
//! Floor `code`, over `access_spec`, `code_meaning`, `jade_base`, `jade_meaning`, `jade_syntax`,
//! `spec_cover` and `task_code`.
#![tactic(auto)]

mod alone;
mod entries;
pub mod execution;
pub mod frame;
mod halves;
mod hold;
pub mod holdings;
mod known;
pub mod laws;
pub mod machine;
pub mod next;
mod numbers;
mod often;
pub mod play;
pub mod room;
pub mod section;
mod slots;

pub use execution::Execution;
pub use frame::Pause;
pub use machine::{Ask, Machine};
pub use next::{Phase, next_object};
pub use room::MachineRoom;
