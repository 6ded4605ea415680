//! What a word begins where a statement may stand.

ghost use Rattle.std.specs.Prelude.{◌≡◌};
ghost use Rattle.jade_parser.specs.steps.Ops.{declare_of};
ghost use Rattle.jade_parser.specs.steps.Begins.{declaration_of, main_only, begin_of};

use crate::Sign;
use jade_syntax::shapes::place::{BlockKind, declares};
use jade_syntax::tree::{DeclareWord, ValueKind};

/// What a word begins: a statement, the end of the block, or nothing.
#[derive(Clone, Copy, Debug, PartialEq, Eq)]
pub enum Begin {
    Local(ValueKind),
    If,
    For,
    Withonly,
    With,
    Declare(DeclareWord),
    Closing,
    Nothing,
}

/// The word of a declaration.
fn declare_of(sign: Sign) -> Option<DeclareWord>
    ensures { result ≡ declare_of sign }
{
    match sign {
        Sign::RdWord => Some(DeclareWord::Rd),
        Sign::WrWord => Some(DeclareWord::Wr),
        Sign::RdWrWord => Some(DeclareWord::RdWr),
        Sign::DfRdWord => Some(DeclareWord::DfRd),
        Sign::DfWrWord => Some(DeclareWord::DfWr),
        Sign::DfRdWrWord => Some(DeclareWord::DfRdWr),
        Sign::CmWord => Some(DeclareWord::Cm),
        Sign::NoRdWord => Some(DeclareWord::NoRd),
        Sign::NoWrWord => Some(DeclareWord::NoWr),
        Sign::NoRdWrWord => Some(DeclareWord::NoRdWr),
        _ => None,
    }
}

/// A declaration, where one with this word may stand.
fn declaration_of(place: BlockKind, word: Option<DeclareWord>) -> Begin
    ensures { result ≡ declaration_of place word }
{
    match word {
        Some(word) => {
            if declares(place, word) {
                Begin::Declare(word)
            } else {
                Begin::Nothing
            }
        }
        None => Begin::Nothing,
    }
}

/// What begins only statements of a body.
fn main_only(place: BlockKind, begin: Begin) -> Begin
    ensures { result ≡ main_only place begin }
{
    match place {
        BlockKind::Main => begin,
        BlockKind::Section => Begin::Nothing,
        BlockKind::Amends => Begin::Nothing,
    }
}

/// What a word begins there.
pub fn begin_of(place: BlockKind, sign: Sign) -> Begin
    ensures { result ≡ begin_of place sign }
{
    match sign {
        Sign::RightBrace => Begin::Closing,
        Sign::IntWord => Begin::Local(ValueKind::Int),
        Sign::BoolWord => Begin::Local(ValueKind::Bool),
        Sign::IfWord => Begin::If,
        Sign::ForWord => Begin::For,
        Sign::WithonlyWord => main_only(place, Begin::Withonly),
        Sign::WithWord => main_only(place, Begin::With),
        _ => declaration_of(place, declare_of(sign)),
    }
}
