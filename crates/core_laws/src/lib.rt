//! What is proved of cores beside the laws of schedule_core: that picks decide what is played, what is
//! left of a run and in which order it stands, contents by the place of a task in the serial order,
//! that full turn lists can be played to their end, and that a task's children can be counted.
//!
//! Floor `schedule`, over `jade_base`, `jade_list`, `jade_meaning`, `jade_syntax`, `object_shelf`,
//! `schedule_core` and `task_roll`.
#![tactic(auto)]

ghost use Rattle.std.specs.Prelude.{◌≡◌, ◌↔◌, false, ℕ, ℤ, List};
ghost use Rattle.jade_syntax.specs.declared.tree.Program.{Program};
ghost use Rattle.jade_syntax.specs.Abstract.{AbstractProgram};
ghost use Rattle.jade_syntax.specs.Image.{program};
ghost use Rattle.jade_meaning.specs.Serial.{Path};
ghost use Rattle.jade_meaning.specs.Turns.{marks_by};
ghost use Rattle.jade_meaning.specs.Uncommuting.{uses_cm};
ghost use Rattle.object_shelf.specs.Views.{ObjectView};
ghost use Rattle.schedule_core.specs.declared.steps.Seat.{Seat};
ghost use Rattle.schedule_core.specs.Remains.{Remains};
ghost use Rattle.schedule_core.specs.Soundness.{and_then};
ghost use Rattle.core_laws.specs.ByPlace.{ContentsByPlace};
ghost use Rattle.core_laws.specs.FullListsGoOn.{FullListsGoOn};
ghost use Rattle.core_laws.specs.KeyOrder.{WorksStandByKey};
ghost use Rattle.core_laws.specs.LeftOrder.{SomeLeftInOrder};
ghost use Rattle.core_laws.specs.OnePlay.{PicksDecide};
ghost use Rattle.core_laws.specs.PlainContents.{PlainContents};
ghost use Rattle.core_laws.specs.PlainSchedule.{PlainSchedule};
ghost use Rattle.core_laws.specs.ReadOrder.{ReadsStandByKey};
ghost use Rattle.core_laws.specs.Room.{ChildrenAreFew};
ghost use Rattle.core_laws.specs.WhatIsLeft.{SomeIsLeft, WhatIsLeft};

/// Picks decide a schedule: the states that the same picks reach by as many events have the same
/// objects and notes, and their live tasks stand alike; there is one number of events after which no
/// task is live, and one report. So the report of `play` is pinned by its picks.
pub fn picks_decide()
    ensures { (p : Program) (ns : List ℤ) (limit : ℕ) (picks : List ℕ) → PicksDecide p ns limit picks }
{}

/// What is left of a run is what live tasks, and those that they have yet to bring about, do there;
/// the writes and turns on an object that are gone come first among the run's, and make its content
/// of zeros. In other words this is `Remains`.
pub fn some_is_left()
    ensures what { (p : Program) (ns : List ℤ) (limit : ℕ) → SomeIsLeft p ns limit }
    ensures same { (p : Program) (ns : List ℤ) (limit : ℕ) (roll : List Seat) (ss : List ObjectView) (rest : ℕ → List Path)
        → Remains p ns limit roll ss rest ↔ WhatIsLeft p (marks_by (program p) ns limit (and_then ss rest)) roll ss }
{
    schedule_core::laws::writes_go_first();
}

/// What a live task holds of an object on which it does not commute, has kept or may take next is
/// the meaning's content at its place: what the writes of parts with lesser keys and its own so far
/// make of zeros. So is the version that is kept for its next child, at the place where this child
/// begins.
pub fn contents_by_place()
    ensures { (p : Program) (ns : List ℤ) (limit : ℕ) → ContentsByPlace p ns limit }
{
    jade_meaning::laws::keeps();
    schedule_core::laws::contents_are_serial();
}

/// For a program in which the word `cm` does not stand what is left, the contents, the version that
/// is kept for a task's next child, and the value that a live task is to read next are those of the
/// plain serial run; no object ever has turns, and no live task has a right to commute. How such a
/// program goes on says `plain_schedule`.
pub fn plain_contents()
    ensures { (p : Program) (ns : List ℤ) (limit : ℕ) → uses_cm (program p) ≡ false → PlainContents p ns limit }
{
    jade_meaning::laws::keeps();
    jade_meaning::laws::without_cm();
    jade_meaning::laws::runs_plainly();
    schedule_core::laws::entries_have_rights();
    schedule_core::laws::tasks_are_serial();
    schedule_core::laws::reads_are_serial();
    some_is_left();
    contents_by_place();
}

/// For a program in which the word `cm` does not stand the first live task, if there is one, may
/// always go on itself, and no more events are done than the tasks of the plain serial run have.
pub fn plain_schedule()
    ensures { (p : Program) (ns : List ℤ) (limit : ℕ) → uses_cm (program p) ≡ false → PlainSchedule p ns limit }
{
    jade_meaning::laws::keeps();
    jade_meaning::laws::without_cm();
    jade_meaning::laws::runs_plainly();
    schedule_core::laws::tasks_are_serial();
    schedule_core::laws::never_stuck();
    schedule_core::laws::bounded();
}

/// A live task has made no more children than it may begin steps, and fewer where it is to make one
/// next. So the number of its children has room wherever the limit has.
pub fn children_are_few()
    ensures { (p : Program) (ns : List ℤ) (limit : ℕ) → ChildrenAreFew p ns limit }
{
    jade_meaning::laws::more_answers();
}

/// In the meaning, by any turn lists, the writes and turns on an object stand in the serial order of
/// their parts, but those of tasks that commute on it.
pub fn works_stand_by_key()
    ensures { (p : AbstractProgram) (ns : List ℤ) (limit : ℕ) (turns : ℕ → List Path) → WorksStandByKey p ns limit turns }
{
    jade_meaning::laws::keeps();
}

/// In the meaning, by any turn lists, a read of a task that does not commute stands behind the works
/// on its object of parts before its own, and before those of parts behind it. So where a live task
/// that does not commute has yet to read, its read stands among the works by the key of its part.
pub fn reads_stand_by_key()
    ensures { (p : AbstractProgram) (ns : List ℤ) (limit : ℕ) (turns : ℕ → List Path) → ReadsStandByKey p ns limit turns }
{
    jade_meaning::laws::keeps();
}

/// A work that is left to a live task, or to one that it has yet to bring about, stands in the meaning
/// before those left to tasks later on the roll, unless both are of tasks that commute on the object.
pub fn left_in_order()
    ensures { (p : Program) (ns : List ℤ) (limit : ℕ) → SomeLeftInOrder p ns limit }
{
    jade_meaning::laws::keeps();
    schedule_core::laws::in_serial_order();
    works_stand_by_key();
}

/// Full turn lists that begin with the turns so far can be played to their end: while some task is
/// live, one can go on in step with them, its next event allowed and, if that takes an object for
/// commuting, its own turn the next one there; and once none is live, they are the turns so far.
pub fn full_lists_go_on()
    ensures { (p : Program) (ns : List ℤ) (limit : ℕ) → FullListsGoOn p ns limit }
{
    jade_meaning::laws::keeps();
}
