//! Statements that hold no others: locals, assignments, stores and declarations.

ghost use Rattle.std.specs.Prelude.{◌≡◌, ◌+◌, ◌≤◌, [], ◌∷◌, ◌++◌, drop, length, true, None};
ghost use Rattle.jade_parser.specs.steps.Reads.{Known, head_sign, kinds, place_at, Whole};
ghost use Rattle.jade_syntax.specs.Shapes.{declares, is_main};
ghost use Rattle.jade_parser.specs.steps.Machine.{Must, NameIs, Second, Body, expr_in};
ghost use Rattle.jade_parser.specs.Spelled.{Called, plain, marked, fixed};
ghost use Rattle.jade_parser.specs.Statements.{statement_parts, kind_word, declare_word};
ghost use Rattle.jade_parser.specs.steps.Parts.{ParsedIn};
ghost use Rattle.jade_parser.specs.Programs.{Fits};
ghost use Rattle.jade_parser.specs.steps.Forms.{Came};
ghost use Rattle.jade_syntax.specs.declared.shapes.place.BlockKind.TheVariants.{Main};
ghost use Rattle.jade_parser.specs.declared.Sign.TheVariants.{LeftParen, RightParen, LeftBracket, RightBracket, Semicolon, Becomes};

use crate::leaves::{expect, pos_at};
use crate::names::name_at;
use crate::pieces::{is_at, parse_declared, parse_ended, parse_indexes};
use crate::{Seen, Sign, Stop};
use jade_base::Pos;
use jade_syntax::Name;
use jade_syntax::shapes::place::{BlockKind, is_main};
use jade_syntax::tree::{CellRef, DeclareWord, Statement, ValueKind};
use std::alloc::Global;

/// A local, whose word was read.
pub fn parse_local(
    alloc: Global,
    tokens: &[Seen<'_>],
    start: usize,
    kind: ValueKind,
    place: BlockKind,
) -> Result<(Statement, usize), Stop>
    requires read { Whole tokens.now start (Body place ∷ []) (start + 1)
        (NameIs ∷ Must Becomes ∷ expr_in ++ Must Semicolon ∷ Body place ∷ []) (plain (kind_word kind) ∷ []) }
    requires known { Known tokens.now }
    ensures { ParsedIn (Fits place) statement_parts tokens.now start (Body place ∷ []) (Body place ∷ []) result }
{
    let named = start + 1;
    let pos = pos_at(tokens, named);
    let name = name_at(alloc, tokens, named)?;
    let at = expect(tokens, named + 1, Sign::Becomes)?;
    let (value, end) = parse_ended(alloc, tokens, at, Sign::Semicolon)?;
    Ok((
        Statement::Local {
            kind,
            name,
            pos,
            value,
        },
        end,
    ))
}

/// A declaration, whose word was read.
pub fn parse_declare(
    alloc: Global,
    tokens: &[Seen<'_>],
    start: usize,
    word: DeclareWord,
    place: BlockKind,
) -> Result<(Statement, usize), Stop>
    requires stands { declares place word ≡ true }
    requires read { Whole tokens.now start (Body place ∷ []) (start + 1) (Must LeftParen ∷ NameIs ∷ Second ∷ Must RightParen ∷ Must Semicolon ∷ Body place ∷ [])
        (marked (declare_word word) (place_at tokens.now start) ∷ []) }
    requires known { Known tokens.now }
    ensures { ParsedIn (Fits place) statement_parts tokens.now start (Body place ∷ []) (Body place ∷ []) result }
{
    let pos = pos_at(tokens, start);
    let (object, end) = parse_declared(alloc, tokens, start + 1)?;
    Ok((Statement::Declare { word, pos, object }, end))
}

/// An assignment, whose name and sign were read.
fn parse_assign(
    alloc: Global,
    tokens: &[Seen<'_>],
    start: usize,
    next: usize,
    name: Name,
    pos: Pos,
    place: BlockKind,
) -> Result<(Statement, usize), Stop>
    requires further { start + 1 ≤ next }
    requires read { Came tokens.now start (Body place ∷ []) next (expr_in ++ Must Semicolon ∷ Body place ∷ []) (marked (Called name) pos ∷ fixed Becomes ∷ []) }
    requires known { Known tokens.now }
    ensures { ParsedIn (Fits place) statement_parts tokens.now start (Body place ∷ []) (Body place ∷ []) result }
{
    let (value, end) = parse_ended(alloc, tokens, next, Sign::Semicolon)?;
    Ok((Statement::Assign { name, pos, value }, end))
}

/// A store, whose name and first bracket were read.
fn parse_store(
    alloc: Global,
    tokens: &[Seen<'_>],
    start: usize,
    next: usize,
    name: Name,
    pos: Pos,
    place: BlockKind,
) -> Result<(Statement, usize), Stop>
    requires main { is_main place ≡ true }
    requires further { start + 1 ≤ next }
    requires read { Came tokens.now start (Body place ∷ []) next
        (expr_in ++ Must RightBracket ∷ Second ∷ Must Becomes ∷ expr_in ++ Must Semicolon ∷ Body place ∷ [])
        (marked (Called name) pos ∷ fixed LeftBracket ∷ []) }
    requires known { Known tokens.now }
    ensures { ParsedIn (Fits place) statement_parts tokens.now start (Body place ∷ []) (Body place ∷ []) result }
{
    let ((family, cell), closed) = parse_indexes(alloc, tokens, next)?;
    let at = expect(tokens, closed, Sign::Becomes)?;
    let (value, end) = parse_ended(alloc, tokens, at, Sign::Semicolon)?;
    let target = CellRef {
        name,
        pos,
        family,
        cell,
    };
    Ok((Statement::Store { target, value }, end))
}

/// A statement that begins with a name.
pub fn parse_named(
    alloc: Global,
    tokens: &[Seen<'_>],
    start: usize,
    place: BlockKind,
) -> Result<(Statement, usize), Stop>
    requires within { start ≤ length tokens.now }
    requires no_sign { None ≡ head_sign (drop start (kinds tokens.now)) }
    requires known { Known tokens.now }
    ensures { ParsedIn (Fits place) statement_parts tokens.now start (Body place ∷ []) (Body place ∷ []) result }
{
    let pos = pos_at(tokens, start);
    let name = name_at(alloc, tokens, start)?;
    let at = start + 1;
    if is_at(tokens, at, Sign::Becomes) {
        return parse_assign(alloc, tokens, start, at + 1, name, pos, place);
    }
    if is_main(place) && is_at(tokens, at, Sign::LeftBracket) {
        return parse_store(alloc, tokens, start, at + 1, name, pos, place);
    }
    Err(Stop::Token(at))
}
