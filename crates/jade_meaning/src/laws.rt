//! What is proved of the meaning, for whoever stands on it.

ghost use Rattle.std.specs.Prelude.{◌≡◌, false, ℕ, ℤ, List, ◌++◌};
ghost use Rattle.jade_base.specs.declared.place.ObjectId.{ObjectId};
ghost use Rattle.jade_base.specs.declared.rights.Rights.{Rights};
ghost use Rattle.jade_syntax.specs.Abstract.{AbstractProgram};
ghost use Rattle.jade_meaning.specs.Answer.{PartsStandByKey, StoppingAgrees, StopsInOrder};
ghost use Rattle.jade_meaning.specs.AtOnce.{ReportsAtOnce};
ghost use Rattle.jade_meaning.specs.Course.{root_spec, root_course};
ghost use Rattle.jade_meaning.specs.Laws.{TalkFollowsSerial, Extends, NoneCommutes, RunsPlainly, ContentsFollow};
ghost use Rattle.jade_meaning.specs.Proper.{Proper};
ghost use Rattle.jade_meaning.specs.Report.{ByItsTurns, ReportAscends};
ghost use Rattle.jade_meaning.specs.Serial.{Path};
ghost use Rattle.jade_meaning.specs.Spread.{SpreadAgrees};
ghost use Rattle.jade_meaning.specs.Talk.{Task, talk};
ghost use Rattle.jade_meaning.specs.ReportAnswer.{ReportTells};
ghost use Rattle.jade_meaning.specs.Turns.{Full, fill};
ghost use Rattle.jade_meaning.specs.Uncommuting.{uses_cm};

/// Each task of the serial run by turn lists says by itself what it does there, when its reads are
/// answered as they are there.
pub fn talk_follows_serial()
    ensures { (p : AbstractProgram) (numbers : List ℤ) (limit : ℕ) (turns : ℕ → List Path) → TalkFollowsSerial p numbers limit turns }
{}

/// More answers change no event that is there already.
pub fn more_answers()
    ensures { (t : Task) (vs ws : List ℤ) → Extends (talk t vs) (talk t (vs ++ ws)) }
{}

/// Turn lists that are filled are full.
pub fn fills()
    ensures { (p : AbstractProgram) (numbers : List ℤ) (limit : ℕ) (turns : ℕ → List Path) → Full p numbers limit (fill p numbers limit turns) }
{}

/// The contents after a run are those after its writes.
pub fn contents_follow()
    ensures { (p : AbstractProgram) (numbers : List ℤ) (limit : ℕ) (turns : ℕ → List Path) → ContentsFollow p numbers limit turns }
{}

/// A program in which the word `cm` does not stand creates no task that commutes.
pub fn without_cm()
    ensures { (p : AbstractProgram) (numbers : List ℤ) (limit : ℕ) (turns : ℕ → List Path) → uses_cm p ≡ false → NoneCommutes p numbers limit turns }
{}

/// A run in which no task that commutes is created is the plain serial run, whatever the turn lists.
pub fn runs_plainly()
    ensures { (p : AbstractProgram) (numbers : List ℤ) (limit : ℕ) (turns : ℕ → List Path) → NoneCommutes p numbers limit turns
        → RunsPlainly p numbers limit turns }
{}

/// Where no task that commutes is created, a run that stops at the first fault, or at the first
/// step beyond the limit, has the answer of the serial run, and does what the serial run does
/// first.
pub fn stopping_agrees()
    ensures { (p : AbstractProgram) (numbers : List ℤ) (limit : ℕ) (turns : ℕ → List Path) → NoneCommutes p numbers limit turns
        → StoppingAgrees p numbers limit turns }
{}

/// Each task touches and hands on only what its specification allows, and a task that commutes
/// creates no task and makes no change.
pub fn keeps()
    ensures { (p : AbstractProgram) (numbers : List ℤ) (limit : ℕ) → Proper (root_spec p) (root_course p numbers limit) }
{}

/// The parts of a serial run in which no task commutes stand by ascending key already.
pub fn parts_stand_by_key()
    ensures { (p : AbstractProgram) (numbers : List ℤ) (limit : ℕ) → PartsStandByKey p numbers limit }
{}

/// A report has its parts and its faults by ascending key.
pub fn report_ascends()
    ensures { (p : AbstractProgram) (numbers : List ℤ) (limit : ℕ) (turns : ℕ → List Path) → ReportAscends p numbers limit turns }
{}

/// A report is that of the run by its own turn lists.
pub fn by_its_turns()
    ensures { (p : AbstractProgram) (numbers : List ℤ) (limit : ℕ) (turns : ℕ → List Path) → ByItsTurns p numbers limit turns }
{}

/// The report of the serial run tells the answer.
pub fn report_tells()
    ensures { (p : AbstractProgram) (numbers : List ℤ) (limit : ℕ) (turns : ℕ → List Path) → ReportTells p numbers limit turns }
{}

/// The report of the run in the order of creation is that of the run in which each commuting task
/// has its turn where it is created.
pub fn reports_at_once()
    ensures { (p : AbstractProgram) (numbers : List ℤ) (limit : ℕ) → ReportsAtOnce p numbers limit }
{}

/// A run that stops at the first fault, or at the first step beyond the limit, and in which each
/// commuting task runs where it is created, has the answer of the serial run in the order of
/// creation.
pub fn stops_in_order()
    ensures { (p : AbstractProgram) (numbers : List ℤ) (limit : ℕ) → StopsInOrder p numbers limit }
{}

/// A specification by its objects and the same by object number have the same rights, and cover
/// the same.
pub fn spread_agrees()
    ensures { (n : ℕ) (parent child : List (ObjectId × Rights)) → SpreadAgrees n parent child }
{}
