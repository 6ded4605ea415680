//! What the slots of a table hold.

use crate::tally::Tally;
use object_shelf::Shelf;

/// The value of a slot: that of an object its shelf, and that of the roll its tally. Away stands for
/// what a pass has not seen; no slot has it.
#[derive(Drop)]
pub(crate) enum Slot {
    Away,
    Object(Shelf),
    Roll(Tally),
}
