//! What is proved of the meaning by turn lists, beside the laws of `jade_meaning`.

ghost use Rattle.std.specs.Prelude.{◌≡◌, ◌↔◌, ℕ, ℤ, List, Some};
ghost use Rattle.jade_syntax.specs.Abstract.{AbstractProgram};
ghost use Rattle.jade_meaning.specs.Turns.{Full};
ghost use Rattle.jade_meaning.specs.Serial.{Path};
ghost use Rattle.turn_laws.specs.Spending.{Lists, Spent, SpendsAsItRuns, UsedUp, whole_run_spending};
ghost use Rattle.turn_laws.specs.Told.{TurnIsTold};

use jade_meaning::laws::{keeps, talk_follows_serial};

/// Turn lists are used up exactly where they are full.
pub fn used_up_where_full()
    ensures { (p : AbstractProgram) (numbers : List ℤ) (limit : ℕ) (turns : Lists) → UsedUp p numbers limit turns ↔ Full p numbers limit turns }
{}

/// Where each settling finds its arrangement among the next entries, the run is the run by these
/// turn lists, and each list is the turns taken, followed by what is left.
pub fn spends_as_it_runs()
    ensures { (p : AbstractProgram) (numbers : List ℤ) (limit : ℕ) (turns : Lists) (r : Spent) → whole_run_spending p numbers limit turns ≡ Some r
        → SpendsAsItRuns p numbers limit turns r }
{}

/// Each task of the serial run by turn lists tells of all that it does there, when its reads are
/// answered as they are there: the take for commuting tells of the turn, which is the first deed of
/// a task that commutes and its only turn, and no other task tells of one.
pub fn turn_is_told()
    ensures { (p : AbstractProgram) (numbers : List ℤ) (limit : ℕ) (turns : ℕ → List Path) → TurnIsTold p numbers limit turns }
{
    keeps();
    talk_follows_serial();
}
