//! What a pass that was taken into another leaves.

use part_notes::SpareNote;

/// Room that the pass of a task which has ended leaves for that of the next child: that of its last
/// note, where the note lies with others. It says nothing of what was in it.
#[derive(Drop)]
pub struct PassRoom {
    pub(crate) spare: Option<SpareNote>,
}

impl PassRoom {
    /// No room. It takes no memory.
    pub fn none() -> PassRoom {
        PassRoom { spare: None }
    }
}
