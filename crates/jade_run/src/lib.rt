//! The commands: from words and bytes to a text and a status.
//!
//! Floor `command`, over `code_keeps`, `erased_places`, `fault_order`, `jade_base`, `jade_gen`,
//! `jade_layout`, `jade_lexer`, `jade_list`, `jade_meaning`, `jade_parser`, `jade_reading`,
//! `jade_syntax`, `jade_types`, `number_words`, `object_table`, `proc_expand`, `record_parts`,
//! `run_record`, `run_replay`, `serial_machine`, `steal_workers` and `task_codegen`, with `itoa` of
//! the kit.
#![tactic(auto)]

pub mod answer;
pub mod call;
pub mod drill;
pub mod laws;
pub mod record;
pub mod replay;
pub mod run;
mod standing;
pub mod status;
pub mod sums;
pub mod sure;
pub mod texts;
pub mod witness;
pub mod words;

pub use call::jade_main;
pub use object_table::Ran;
pub use status::Status;
pub use steal_workers::{EmptyGate, Gate};
pub use sure::run_in_memory;
pub use witness::{NoWitness, Witness};
