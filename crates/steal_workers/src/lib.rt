//! Workers that run the tasks of a program on many threads, and steal from one another. They know no
//! talk: `task_suspend` says what a try at a task does, and this crate says who tries next.
//!
//! Floor `running`, over `code_keeps`, `jade_base`, `jade_list`, `jade_meaning`, `jade_syntax`,
//! `object_table`, `task_deque`, `task_machine` and `task_suspend`, with `atomic_table`,
//! `crossbeam_deque` and `crossbeam_utils` of the kit.
#![tactic(auto)]

mod board;
mod crew;
mod gate;
mod idle;
mod keeper;
mod letting;
mod run;
mod settle;
mod signals;
mod step_gate;
mod work;
mod worker;

pub use gate::{EmptyGate, Gate};
pub use run::run_tasks;
pub use step_gate::{Hold, HoldList, StepGate};
