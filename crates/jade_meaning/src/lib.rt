//! The meaning of programs: what each task says of itself, the serial run, and the answer.
//!
//! Floor `meaning`, over `access_spec`, `jade_base`, `jade_list` and `jade_syntax`.
#![tactic(auto)]

pub mod commuting;
mod configuration;
mod dense_spec;
mod draft;
mod frames;
mod holds;
pub mod laws;
pub mod numbers;
pub mod plan;
pub mod ready;
pub mod resolve;
mod run_state;
mod scope;
pub mod section_words;
pub mod serial;
mod setting;
mod source;
mod statements;
mod stop;
mod tally;
pub mod values;
pub mod walker;

pub use plan::Plan;
pub use ready::can_run;
pub use serial::{serial_program, serial_run};
pub use walker::{Act, Carried, Walker};
