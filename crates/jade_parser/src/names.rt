ghost use Rattle.std.specs.Prelude.{◌≡◌, ◌+◌, [], ◌∷◌, MatchResult};
ghost use Rattle.jade_parser.specs.steps.Reads.{Known, Whole, OnOther, place_at};
ghost use Rattle.jade_parser.specs.steps.Machine.{NameIs, NumberIs};
ghost use Rattle.jade_parser.specs.Spelled.{Called, marked, number_part};

use crate::{Kind, Seen, Stop};
use jade_syntax::tree::Number;
use jade_syntax::{Name, NameError};
use std::alloc::Global;

/// The name that stands at the place.
pub fn name_at(alloc: Global, tokens: &[Seen<'_>], at: usize) -> Result<Name, Stop>
    requires { Known tokens.now }
    ensures { MatchResult result (λ name. Whole tokens.now at (NameIs ∷ []) (at + 1) [] (marked (Called name) (place_at tokens.now at) ∷ []))
        (λ e. OnOther e tokens.now at (NameIs ∷ [])) }
{
    if at >= tokens.len() {
        return Err(Stop::Token(at));
    }
    match tokens[at].kind {
        Kind::Called(text) => match Name::of(alloc, text) {
            Ok(name) => Ok(name),
            Err(NameError::Memory) => Err(Stop::Memory),
            Err(NameError::Shape) => unreachable!(),
        },
        Kind::Fixed(_) => Err(Stop::Token(at)),
        Kind::Counted(_) => Err(Stop::Token(at)),
        Kind::Unknown => Err(Stop::Token(at)),
    }
}

/// The number that stands at the place.
pub fn number_at(tokens: &[Seen<'_>], at: usize) -> Result<Number, Stop>
    ensures { MatchResult result (λ number. Whole tokens.now at (NumberIs ∷ []) (at + 1) [] (number_part number ∷ []))
        (λ e. OnOther e tokens.now at (NumberIs ∷ [])) }
{
    if at >= tokens.len() {
        return Err(Stop::Token(at));
    }
    let pos = tokens[at].pos;
    match tokens[at].kind {
        Kind::Counted(value) => Ok(Number { value, pos }),
        Kind::Fixed(_) => Err(Stop::Token(at)),
        Kind::Called(_) => Err(Stop::Token(at)),
        Kind::Unknown => Err(Stop::Token(at)),
    }
}
