//! What is proved of executions, for whoever stands on them.

ghost use Rattle.std.specs.Prelude.{ℕ, ◌+◌, ◌*◌, ◌-◌, ◌^◌, ◌<◌, ◌≤◌, ℤ, List, length, Option};
ghost use Rattle.jade_base.specs.declared.report.Blame.{Blame};
ghost use Rattle.jade_base.specs.declared.rights.Mode.{Mode};
ghost use Rattle.jade_meaning.specs.Specification.{Specification};
ghost use Rattle.jade_meaning.specs.Course.{Course};
ghost use Rattle.jade_meaning.specs.Talk.{Holds, Task};
ghost use Rattle.jade_base.specs.declared.place.ObjectId.{ObjectId};
ghost use Rattle.jade_base.specs.declared.rights.Rights.{Rights};
ghost use Rattle.code_meaning.specs.Meaning.{Slots, Children};
ghost use Rattle.task_code.specs.Rules.{TaskCode};
ghost use Rattle.task_machine.specs.Executions.{Execution, IsBegun};
ghost use Rattle.task_machine.specs.Machines.{BeginsItsTalk, BeginsChild, BeginsCode};
ghost use Rattle.task_machine.specs.Playing.{Contents, touches};
ghost use Rattle.task_machine.specs.Stages.{Stage, ahead};
ghost use Rattle.task_machine.specs.Telling.{Agrees, TellsAsPlayed};
ghost use Rattle.task_machine.specs.Left.{Due, BeginsDue, StartsLeast, StartsOwn, StartsOn, TakesLeast, TellsOn, TakesTouched, GivesForChild, Enters};
ghost use Rattle.task_machine.specs.Machines.{Machine, NoDue, IsOrdered, PlaysOn, AdvancedGoesOn};
ghost use Rattle.task_machine.specs.Machines.{StartsDue, TakesDue, WantedIsTaken, GivesAndCreates, GivesAndChanges, GivesAndEnds};
ghost use Rattle.task_machine.specs.Left.{ChangesFirst, GivesForChange, Shifts, GivesAtEnd, Resigns};

use code_meaning::laws::{children_are, root_is};

/// What a task tells of its course is told by what it plays of it with what it holds.
pub fn tells_as_played()
    ensures { (c : Course) (spec : Specification) (h : Holds) (k : Contents) (n e : ℕ) → Agrees spec h k → TellsAsPlayed c spec h k n e }
{}

/// When a task begins, everything that it has a mode for is due.
pub fn begins_due()
    ensures { (due : Due) (t : Task) → BeginsDue due t }
{}

/// When a task begins, what is due is taken by ascending number, but that on which the task commutes
/// last, and then the course is told.
pub fn starts_in_order()
    ensures least { (due : Due) (c : Course) (spec : Specification) (h : Holds) (n o : ℕ) (m : Mode) → StartsLeast due c spec h n o m }
    ensures own { (due : Due) (c : Course) (spec : Specification) (h : Holds) (n o : ℕ) (m : Mode) → StartsOwn due c spec h n o m }
    ensures on { (due : Due) (c : Course) (spec : Specification) (h : Holds) (n : ℕ) → StartsOn due c spec h n }
{}

/// What is due is taken by ascending number; where nothing is left to take, the course is told; an
/// object that is touched and not held is taken first.
pub fn takes_in_order()
    ensures least { (due : Due) (c : Course) (spec : Specification) (h : Holds) (n o : ℕ) (m : Mode) → TakesLeast due c spec h n o m }
    ensures on { (due : Due) (c : Course) (spec : Specification) (h : Holds) (n : ℕ) → TellsOn due c spec h n }
    ensures touched { (c : Course) (spec : Specification) (h : Holds) (n o : ℕ) (m : Mode) → TakesTouched c spec h n o m }
{}

/// What is given up for a child is given up by ascending number, and then the child enters.
pub fn creates_in_order()
    ensures gives { (made : Specification) (body on : Course) (spec : Specification) (h : Holds) (n o : ℕ)
        → GivesForChild made body on spec h n o }
    ensures enters { (made : Specification) (body on : Course) (spec : Specification) (h : Holds) (n : ℕ) → Enters made body on spec h n }
{}

/// What is given up for a change of rights is given up by ascending number, and then the entries
/// follow the rights, and what is due is taken.
pub fn changes_in_order()
    ensures first { (new : Specification) (on : Course) (old : Specification) (h : Holds) (n : ℕ) → ChangesFirst new on old h n }
    ensures gives { (due : Due) (new : Specification) (on : Course) (old : Specification) (h : Holds) (n o : ℕ)
        → GivesForChange due new on old h n o }
    ensures shifts { (due : Due) (new : Specification) (on : Course) (old : Specification) (h : Holds) (n : ℕ) → Shifts due new on old h n }
{}

/// What is held at the end is given up by ascending number, and then the task leaves.
pub fn ends_in_order()
    ensures gives { (b : Option Blame) (spec : Specification) (h : Holds) (n o : ℕ) → GivesAtEnd b spec h n o }
    ensures leaves { (b : Option Blame) (spec : Specification) (h : Holds) (n : ℕ) → Resigns b spec h n }
{}

/// The least object that is due is taken next, and where there is none, the course is told; an
/// object that is touched and not held is taken next.
pub fn takes_next()
    ensures starts { (m : Machine) → IsOrdered m → StartsDue m }
    ensures due { (m : Machine) → IsOrdered m → TakesDue m }
    ensures wanted { (m : Machine) → IsOrdered m → NoDue m → WantedIsTaken m }
{}

/// At a creation, at a change of rights and at the end the least object that has to be given up is
/// given up next, and where there is none, the creation, the change or the end comes next.
pub fn gives_next()
    ensures creation { (m : Machine) → IsOrdered m → NoDue m → GivesAndCreates m }
    ensures change { (m : Machine) → IsOrdered m → GivesAndChanges m }
    ensures end { (m : Machine) → IsOrdered m → NoDue m → GivesAndEnds m }
{}

/// Where nothing is due, what is left is told by what is played with what is held, and a task that
/// goes on to a pause has the same left.
pub fn plays_on()
    ensures plays { (m : Machine) → IsOrdered m → NoDue m → PlaysOn m }
    ensures pauses { (m : Machine) → IsOrdered m → NoDue m → AdvancedGoesOn m }
{}

/// How many cells a task touches before its next event is bounded by its code and its steps: each
/// step goes over the code once at most, and each instruction touches one cell at most. So it is
/// below 2^64.
pub fn touches_few()
    ensures bound { (child : Children) (s : Stage) (k : Contents)
        → length (touches (ahead child s) k) ≤ s.left * (length s.code + 1) + (length s.code - s.place) }
    ensures below { (child : Children) (s : Stage) (k : Contents) → s.left < 2 ^ 32 → length s.code < 2 ^ 32
        → length (touches (ahead child s) k) < 2 ^ 64 }
{}

/// What is left where an execution begins is its talk.
pub fn begins_its_talk()
    ensures { (c : TaskCode) (zs : List ℤ) (limit body : ℕ) (slots : Slots) (entries : List (ObjectId × Rights)) (e : Execution)
        → IsBegun c zs limit body slots entries e → BeginsItsTalk e }
{}

/// The child of an execution does what the creator's course says, and the execution of the first
/// body does what the whole code does.
pub fn begins_its_course()
    ensures child { (creator : Execution) (number : ℕ) (e : Execution) → BeginsChild creator number e }
    ensures code { (c : TaskCode) (zs : List ℤ) (limit : ℕ) (entries : List (ObjectId × Rights)) (e : Execution) → BeginsCode c zs limit entries e }
{
    children_are();
    root_is();
}
