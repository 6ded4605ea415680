//! The tasks of a run in the hands of its workers: a capsule with a pass and a machine, one try
//! after another, and a room for each object, where the capsules lie that wait for it.
//!
//! Floor `running`, over `access_spec`, `code_keeps`, `code_meaning`, `jade_base`, `jade_meaning`,
//! `jade_syntax`, `object_shelf`, `object_table`, `schedule_core`, `task_code`, `task_machine`,
//! `task_roll`, `task_translation` and `waiting_line`, with `atomic_table` of the kit.
#![tactic(auto)]

pub mod capsule;
pub mod laws;
pub mod line;
pub mod modes;
pub mod name;
pub mod remains;
pub mod room;
pub mod rooms;
pub mod tries;
pub mod waiting;
pub mod went;

pub use capsule::{Capsule, Running};
pub use line::CapsuleLine;
pub use modes::Modes;
pub use name::RunName;
pub use remains::Remains;
pub use rooms::Rooms;
pub use tries::{
    attempt, resign, retire, to_ask, try_change, try_create, try_end, try_give_back, try_take,
};
pub use went::{Departed, Place, Resigned, Waiter, Went};
