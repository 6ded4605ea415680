//! What a pass has at run time.

use crate::slot::Slot;
use crate::view::View;
use atomic_table::Seat;
use jade_base::Path;
use part_notes::{Notes, SpareNote};

/// The token of a task: its seat at the table, its path, the room for the note of its last part while
/// it is live, its tickets and the notes that it has in hand, how many of its events are done, how many
/// touches of them came after the last other one, how many children it made, and whether it knows that
/// nothing may still come. A field of one byte stands beside one of four, since seven bytes between
/// fields are copied in two pieces that overlap, which a processor reads back slowly.
#[derive(Drop)]
pub(crate) struct Task {
    pub(crate) seat: Seat<Slot, View>,
    pub(crate) path: Path,
    pub(crate) spare: Option<SpareNote>,
    pub(crate) tickets: u64,
    pub(crate) notes: Notes,
    pub(crate) events: u64,
    pub(crate) touched: u64,
    pub(crate) children: u32,
    pub(crate) over: bool,
}
