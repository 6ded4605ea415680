//! What is proved of the outcome of words and a text, for whoever stands on it.

ghost use Rattle.std.specs.Prelude.{◌≡◌, ◌≤◌, ℕ, ℤ, List, length};
ghost use Rattle.jade_base.specs.declared.place.Pos.{Pos};
ghost use Rattle.jade_gen.specs.Drill.{drill_text};
ghost use Rattle.jade_meaning.specs.Turns.{turns_in};
ghost use Rattle.jade_syntax.specs.declared.tree.Program.{Program};
ghost use Rattle.jade_syntax.specs.Image.{program};
ghost use Rattle.jade_syntax.specs.Objects.{sizes};
ghost use Rattle.run_record.specs.Recording.{Recorded, recording};
ghost use Rattle.jade_run.specs.declared.status.Status.{Status};
ghost use Rattle.jade_run.specs.Answered.{input_count, IsAnswered, IsGood, IsPlain, TurnLists};
ghost use Rattle.jade_run.specs.Outcome.{IsOutcome, SameOutcome};
ghost use Rattle.jade_run.specs.Recordings.{IsRecordingOf, IsReplayed, IsRight, IsRightRecording, ListsByObject};
ghost use Rattle.jade_run.specs.Texts.{same_text};

use erased_places::laws::erased_is_program;
use jade_lexer::laws::reading_is_cut;
use jade_meaning::laws::{runs_plainly, without_cm};
use jade_parser::laws::one_reading;
use jade_reading::laws::{one_tree, read_is_shaped, spelled_alike};

/// By the same turn lists words and a text come to one text and one status.
pub fn one_outcome()
    ensures { (words : List (List ℕ)) (bytes : List ℕ) (turns : TurnLists) (t u : List ℕ) (s r : Status) → IsOutcome words bytes turns t s
        → IsOutcome words bytes turns u r → SameOutcome t s u r }
{
    one_tree();
    erased_is_program();
    one_reading();
    spelled_alike();
    read_is_shaped();
}

/// A text in whose program the word `cm` does not stand comes to the same by all turn lists.
pub fn plain_texts_have_one_answer()
    ensures { (bytes : List ℕ) (numbers : List ℤ) (limit : ℕ) (turns others : TurnLists) (text : List ℕ) (status : Status) → IsPlain bytes
        → IsAnswered bytes numbers limit turns text status → IsAnswered bytes numbers limit others text status }
{
    without_cm();
    runs_plainly();
}

/// In the program of a drill the word `cm` does not stand.
pub fn drills_are_plain()
    ensures { (tasks : ℕ) → tasks ≤ 10000 → IsPlain (drill_text tasks) }
{
    reading_is_cut();
}

/// A recording that is replayed comes to `same` exactly where it is right.
pub fn same_where_right()
    ensures only { (bytes text : List ℕ) → IsReplayed bytes text Status.Good → IsRightRecording bytes × (text ≡ same_text) }
    ensures always { (bytes text : List ℕ) (status : Status) → length bytes ≤ 1048576 → IsRightRecording bytes → IsReplayed bytes text status
        → SameOutcome text status same_text Status.Good }
{
    one_tree();
    erased_is_program();
    one_reading();
    spelled_alike();
    read_is_shaped();
}

/// What is recorded of a run, whose turns one list for each object tells, is right.
pub fn recordings_are_right()
    ensures { (bytes : List ℕ) (tree : Program) (home : Pos → Pos) (numbers : List ℤ) (limit : ℕ) (lists : ListsByObject) (r : Recorded)
        → IsGood bytes tree home → length numbers ≡ input_count tree → length lists ≡ length (sizes (program tree).items)
        → IsRecordingOf bytes tree home numbers limit (turns_in lists) r → IsRight (recording r) r tree home lists }
{}
