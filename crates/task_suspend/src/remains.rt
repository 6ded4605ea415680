//! What a task that has ended leaves for another.

use object_table::PassRoom;
use std::alloc::Global;
use task_machine::MachineRoom;

/// What a task that has ended leaves for the next child of its worker: the room of its machine and that
/// of its pass, in which the child takes less memory. It says nothing of what was in it.
#[derive(Drop)]
pub struct Remains {
    pub machine: MachineRoom,
    pub pass: PassRoom,
}

impl Remains {
    /// No remains. It takes no memory.
    pub fn none(alloc: Global) -> Remains {
        Remains {
            machine: MachineRoom::none(alloc),
            pass: PassRoom::none(),
        }
    }
}
