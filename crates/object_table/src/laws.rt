//! What is true of every table, whatever its passes did, in words of the plain data that words, slots
//! and passes show.

ghost use Rattle.jade_meaning.specs.Plan.{RunPlan};
ghost use Rattle.object_table.specs.Apart.{HeldApart};
ghost use Rattle.object_table.specs.Tries.{EventsMoveSeats, TriesChangeNothing};

/// Of two passes of live tasks that hold an object, one for writing or for commuting, the other holds
/// it for reading, and its task stands before.
pub fn held_apart()
    ensures { (key : RunPlan) → HeldApart key }
{
    schedule_core::laws::core_tells();
    schedule_core::laws::held_alone();
}

/// A try that finds another's turn, one that gets the turn, and a turn that is left with what was
/// found put back change no object, task or note.
pub fn tries_change_nothing()
    ensures { (key : RunPlan) → TriesChangeNothing key }
{}

/// No step of a pass takes back an event of its task; and one after which the pass has as many events
/// done as before changes no object, no task and no note. So a call that leaves the pass's seat as it
/// was has done no event.
pub fn events_move_seats()
    ensures { (key : RunPlan) → EventsMoveSeats key }
{
    crate::turns::core_laws();
}
