//! What the words of a section mean.

ghost use Rattle.std.specs.Prelude.{◌≡◌};
ghost use Rattle.jade_meaning.specs.Changes.{declared, change_of};

use access_spec::Change;
use jade_base::{Right, Rights};
use jade_syntax::tree::DeclareWord;

fn rights(reads: Right, writes: Right) -> Rights
    ensures { result ≡ record { reads = reads; writes = writes; commutes = Right.Absent } }
{
    Rights {
        reads,
        writes,
        commutes: Right::Absent,
    }
}

/// The rights that a word gives a child.
pub fn declared(word: DeclareWord) -> Rights
    ensures { result ≡ declared word }
{
    match word {
        DeclareWord::Rd => rights(Right::Immediate, Right::Absent),
        DeclareWord::Wr => rights(Right::Absent, Right::Immediate),
        DeclareWord::RdWr => rights(Right::Immediate, Right::Immediate),
        DeclareWord::DfRd => rights(Right::Deferred, Right::Absent),
        DeclareWord::DfWr => rights(Right::Absent, Right::Deferred),
        DeclareWord::DfRdWr => rights(Right::Deferred, Right::Deferred),
        DeclareWord::Cm => Rights {
            commutes: Right::Immediate,
            ..Rights::NONE
        },
        DeclareWord::NoRd | DeclareWord::NoWr | DeclareWord::NoRdWr => Rights::NONE,
    }
}

/// The change that a word of a `with` asks for; a deferred or a commuting declaration asks for
/// none.
pub fn change_of(word: DeclareWord) -> Option<Change>
    ensures { result ≡ change_of word }
{
    match word {
        DeclareWord::Rd => Some(Change::Reads),
        DeclareWord::Wr => Some(Change::Writes),
        DeclareWord::RdWr => Some(Change::Both),
        DeclareWord::NoRd => Some(Change::NoReads),
        DeclareWord::NoWr => Some(Change::NoWrites),
        DeclareWord::NoRdWr => Some(Change::Neither),
        DeclareWord::DfRd | DeclareWord::DfWr | DeclareWord::DfRdWr | DeclareWord::Cm => None,
    }
}
