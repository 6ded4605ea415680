ghost use Rattle.std.specs.Prelude.{◌≡◌, MatchResult, None, Some};
ghost use Rattle.jade_base.specs.Rights.{at_once};
ghost use Rattle.access_spec.specs.Amended.{amended};

use jade_base::{Right, Rights};

/// A change of one's own rights on an object: a deferred right that becomes immediate, or a right
/// that is given up.
#[derive(Clone, Copy, Debug, PartialEq, Eq)]
pub enum Change {
    Reads,
    Writes,
    Both,
    NoReads,
    NoWrites,
    Neither,
}

/// A change asks for a right that is not there.
#[derive(Clone, Copy, Debug, PartialEq, Eq)]
pub struct NoRight;

impl Change {
    /// The rights after this change; the error, that it asks for a right that is not there.
    pub fn amend(self, rights: Rights) -> Result<Rights, NoRight>
        ensures { MatchResult result (λ after. amended self rights ≡ Some after) (λ _. amended self rights ≡ None) }
    {
        let mut after = rights;
        match self {
            Change::Reads => after.reads = asked(rights.reads)?,
            Change::Writes => after.writes = asked(rights.writes)?,
            Change::Both => {
                after.reads = asked(rights.reads)?;
                after.writes = asked(rights.writes)?;
            }
            Change::NoReads => after.reads = Right::Absent,
            Change::NoWrites => after.writes = Right::Absent,
            Change::Neither => {
                after.reads = Right::Absent;
                after.writes = Right::Absent;
            }
        }
        Ok(after)
    }
}

// The right that is asked for at once.
fn asked(right: Right) -> Result<Right, NoRight>
    ensures { MatchResult result (λ after. at_once right ≡ Some after) (λ _. at_once right ≡ None) }
{
    match right.at_once() {
        Some(right) => Ok(right),
        None => Err(NoRight),
    }
}
