ghost use Rattle.std.specs.Prelude.{◌≤◌, length};
ghost use Rattle.jade_parser.specs.steps.Reads.{Known};
ghost use Rattle.jade_parser.specs.steps.Parts.{ParsedOuter};

use crate::expressions::parse_expr;
use crate::{Seen, Stop};
use jade_alphabet::EXPRESSION_LIMIT;
use jade_syntax::tree::Expr;
use std::alloc::Global;

/// An expression that lies in no other.
pub fn parse_outer(alloc: Global, tokens: &[Seen<'_>], start: usize) -> Result<(Expr, usize), Stop>
    requires within { start ≤ length tokens.now }
    requires known { Known tokens.now }
    ensures { ParsedOuter tokens.now start result }
{
    match parse_expr(alloc, tokens, start) {
        Ok((x, at)) => {
            if at - start <= EXPRESSION_LIMIT {
                Ok((x, at))
            } else {
                Err(Stop::Long(start + EXPRESSION_LIMIT))
            }
        }
        Err(Stop::Token(at)) => {
            if at - start <= EXPRESSION_LIMIT {
                Err(Stop::Token(at))
            } else {
                Err(Stop::Long(start + EXPRESSION_LIMIT))
            }
        }
        Err(Stop::Long(at)) => Err(Stop::Long(at)),
        Err(Stop::Memory) => Err(Stop::Memory),
    }
}
