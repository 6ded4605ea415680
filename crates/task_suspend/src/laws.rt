//! The queues of runs stand as the laws of lines want them.

ghost use Rattle.std.specs.Prelude.{ℕ, ℤ, List};
ghost use Rattle.jade_syntax.specs.declared.tree.Program.{Program};
ghost use Rattle.object_shelf.specs.Views.{ObjectView};
ghost use Rattle.schedule_core.specs.ByNumber.{shelf_at};
ghost use Rattle.schedule_core.specs.Plain.{Reached};
ghost use Rattle.schedule_core.specs.declared.steps.Seat.{Seat};
ghost use Rattle.task_roll.specs.declared.note.PartNote.{PartNote};
ghost use Rattle.waiting_line.specs.Waiters.{Standing};

use schedule_core::laws::{entries_stand, in_serial_order};

/// In every core that events reach, the entries of each object stand in the serial order, and before one
/// with a version none that may change the object. So the laws of `waiting_line` speak of these queues.
pub fn queues_stand()
    ensures { (p : Program) (ns : List ℤ) (limit k : ℕ) (roll : List Seat) (ss : List ObjectView) (notes : List PartNote) → Reached p ns limit k roll ss notes
        → (o : ℕ) → Standing (shelf_at ss o).queue }
{
    in_serial_order();
    entries_stand();
}
