//! What is read in place of a text: itself, or the text without its procedures.

ghost use Rattle.std.specs.Prelude.{◌≡◌, ◌≤◌, length, IfErr, IfOk};
ghost use Rattle.jade_lexer.specs.Reading.{reading, Whole};
ghost use Rattle.jade_run.specs.Answered.{OnRefused};
ghost use Rattle.jade_meaning.specs.Moved.{moved_blame, moved_pos};
ghost use Rattle.jade_run.specs.Standing.{IsToldAs, NotExpanded, NotLexed};
ghost use Rattle.jade_run.specs.steps.Homes.{home_of, IsStanding};

use crate::answer::ReadError;
use jade_base::{Blame, Pos};
use jade_lexer::{LexError, Tokens, tokens};
use proc_expand::{ExpandError, Expanded, expand, has_proc};
use std::alloc::Global;

/// Where every text begins.
pub(crate) const FIRST_PLACE: Pos = Pos { line: 1, column: 1 };

/// What is read in place of a text: its own tokens, where none is the word `proc`, or the text to
/// which it expands.
#[derive(Drop)]
pub(crate) enum Standing<'t> {
    Itself(Tokens<'t>),
    Expanded(Expanded),
}

/// Where the places of a text that is read come from: they are those of the text that was given, or
/// places of the text to which that expands.
#[derive(Drop)]
pub(crate) enum Home {
    Here,
    There(Expanded),
}

impl Home {
    /// The place in the text that was given from which a place comes. It takes no memory.
    pub(crate) fn place(&self, at: Pos) -> Pos
        ensures { result ≡ home_of self.now at }
    {
        match self {
            Home::Here => at,
            Home::There(expanded) => expanded.origin(at),
        }
    }

    /// The same of a place that may be missing.
    fn place_if(&self, at: Option<Pos>) -> Option<Pos>
        ensures { result ≡ moved_pos (home_of self.now) at }
    {
        match at {
            Some(at) => Some(self.place(at)),
            None => None,
        }
    }

    /// A blame with the place from which its own comes.
    pub(crate) fn blame(&self, blame: Blame) -> Blame
        ensures { result ≡ moved_blame (home_of self.now) blame }
    {
        Blame {
            kind: blame.kind,
            pos: self.place_if(blame.pos),
        }
    }
}

/// The tokens of a text.
pub(crate) fn tokens_of(alloc: Global, text: &[u8]) -> Result<Tokens<'_>, ReadError>
    requires { length text.now ≤ 1048576 }
    ensures whole { IfOk result (λ found. reading text.now ≡ Whole found) }
    ensures refused { IfErr result (λ e. OnRefused e (NotLexed text.now)) }
{
    match tokens(alloc, text) {
        Ok(tokens) => Ok(tokens),
        Err(LexError::Byte(pos)) => Err(ReadError::Refused(pos, b"byte")),
        Err(LexError::Number(pos)) => Err(ReadError::Refused(pos, b"number")),
        Err(LexError::Deep(pos)) => Err(ReadError::Refused(pos, b"deep")),
        Err(LexError::Memory) => Err(ReadError::Memory),
    }
}

/// The place at which procedures are refused, and the word for it.
fn told(error: ExpandError) -> ReadError
    ensures { OnRefused result (IsToldAs error) }
{
    match error {
        ExpandError::Shape(pos) => ReadError::Refused(pos, b"proc"),
        ExpandError::Unknown(pos) => ReadError::Refused(pos, b"noproc"),
        ExpandError::Count(pos) => ReadError::Refused(pos, b"count"),
        ExpandError::Twice(pos) => ReadError::Refused(pos, b"twice"),
        ExpandError::Grown => ReadError::Refused(FIRST_PLACE, b"grown"),
        ExpandError::Memory => ReadError::Memory,
    }
}

/// What is read in place of a text of at most 1,048,576 bytes.
pub(crate) fn standing_of(alloc: Global, text: &[u8]) -> Result<Standing<'_>, ReadError>
    requires { length text.now ≤ 1048576 }
    ensures standing { IfOk result (IsStanding text.now) }
    ensures refused { IfErr result (λ e. OnRefused e (NotExpanded text.now)) }
{
    let tokens = match tokens_of(alloc, text) {
        Ok(tokens) => tokens,
        Err(error) => return Err(error),
    };
    if !has_proc(&tokens) {
        return Ok(Standing::Itself(tokens));
    }
    match expand(alloc, &tokens) {
        Ok(expanded) => Ok(Standing::Expanded(expanded)),
        Err(error) => Err(told(error)),
    }
}
