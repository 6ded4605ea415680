//! Blocks, and the statements that hold blocks.

ghost use Rattle.std.specs.Prelude.{◌≡◌, ◌+◌, ◌≤◌, [], ◌∷◌, drop, length, None, MatchOption};
ghost use Rattle.jade_parser.specs.steps.Reads.{Known, Whole, head_sign, kinds, place_at};
ghost use Rattle.jade_parser.specs.steps.Parts.{ParsedIn};
ghost use Rattle.jade_parser.specs.Programs.{Fits, FitsAll};
ghost use Rattle.jade_parser.specs.steps.Machine.{Body};
ghost use Rattle.jade_parser.specs.Spelled.{Fixed, fixed, marked};
ghost use Rattle.jade_parser.specs.Statements.{statement_parts, block_parts};
ghost use Rattle.jade_parser.specs.steps.Compound.{block_in, if_in, for_in, withonly_in, with_in, BeginAt, StatementAt};
ghost use Rattle.jade_syntax.specs.declared.shapes.place.BlockKind.TheVariants.{Main};
ghost use Rattle.jade_parser.specs.declared.Sign.TheVariants.{IfWord, ForWord, WithonlyWord, WithWord};

use crate::begins::{Begin, begin_of};
use crate::growing::put;
use crate::leaves::{expect, pos_at, sign_at};
use crate::names::name_at;
use crate::outer::parse_outer;
use crate::pieces::{is_at, parse_ended, parse_names};
use crate::simple::{parse_declare, parse_local, parse_named};
use crate::{Seen, Sign, Stop};
use jade_syntax::shapes::place::BlockKind;
use jade_syntax::tree::{Block, Statement};
use std::alloc::Global;

/// What begins at the place, unless a name, a number or nothing stands there.
fn begin_at(tokens: &[Seen<'_>], at: usize, place: BlockKind) -> Option<Begin>
    ensures { MatchOption result (None ≡ head_sign (drop at (kinds tokens.now))) (BeginAt place tokens.now at) }
{
    match sign_at(tokens, at) {
        Some(sign) => Some(begin_of(place, sign)),
        None => None,
    }
}

/// A block, from its brace to its brace.
#[cycle(statement)]
pub fn parse_block(
    alloc: Global,
    tokens: &[Seen<'_>],
    start: usize,
    place: BlockKind,
) -> Result<(Block, usize), Stop>
    requires within { start ≤ length tokens.now }
    requires known { Known tokens.now }
    ensures { ParsedIn (FitsAll place) block_parts tokens.now start (block_in place) [] result }
{
    let mut at = expect(tokens, start, Sign::LeftBrace)?;
    let mut all = Block::empty(alloc);
    'statements: loop {
        match parse_statement(alloc, tokens, at, place)? {
            None => return Ok((all, at + 1)),
            Some((next, after)) => {
                put(&mut all, next)?;
                at = after;
            }
        }
    }
}

/// The statement that begins at the place, and the number of the token after it. There is none
/// where the brace stands that ends the block.
#[cycle(statement)]
fn parse_statement(
    alloc: Global,
    tokens: &[Seen<'_>],
    start: usize,
    place: BlockKind,
) -> Result<Option<(Statement, usize)>, Stop>
    requires within { start ≤ length tokens.now }
    requires known { Known tokens.now }
    ensures { StatementAt place tokens.now start result }
{
    match begin_at(tokens, start, place) {
        None => parse_named(alloc, tokens, start, place).map(Some),
        Some(Begin::Closing) => Ok(None),
        Some(Begin::Nothing) => Err(Stop::Token(start)),
        Some(Begin::Local(kind)) => parse_local(alloc, tokens, start, kind, place).map(Some),
        Some(Begin::Declare(word)) => parse_declare(alloc, tokens, start, word, place).map(Some),
        Some(Begin::If) => parse_if(alloc, tokens, start, place).map(Some),
        Some(Begin::For) => parse_for(alloc, tokens, start, place).map(Some),
        Some(Begin::Withonly) => parse_withonly(alloc, tokens, start).map(Some),
        Some(Begin::With) => parse_with(alloc, tokens, start).map(Some),
    }
}

/// An `if`, whose word was read.
#[cycle(statement)]
fn parse_if(
    alloc: Global,
    tokens: &[Seen<'_>],
    start: usize,
    place: BlockKind,
) -> Result<(Statement, usize), Stop>
    requires read { Whole tokens.now start (Body place ∷ []) (start + 1) (if_in place) (fixed IfWord ∷ []) }
    requires known { Known tokens.now }
    ensures { ParsedIn (Fits place) statement_parts tokens.now start (Body place ∷ []) (Body place ∷ []) result }
{
    let (test, tested) = parse_outer(alloc, tokens, start + 1)?;
    let (then, at) = parse_block(alloc, tokens, tested, place)?;
    if is_at(tokens, at, Sign::ElseWord) {
        let (other, end) = parse_block(alloc, tokens, at + 1, place)?;
        let otherwise = Some(other);
        Ok((
            Statement::If {
                test,
                then,
                otherwise,
            },
            end,
        ))
    } else {
        let otherwise = None;
        Ok((
            Statement::If {
                test,
                then,
                otherwise,
            },
            at,
        ))
    }
}

/// A `for`, whose word was read.
#[cycle(statement)]
fn parse_for(
    alloc: Global,
    tokens: &[Seen<'_>],
    start: usize,
    place: BlockKind,
) -> Result<(Statement, usize), Stop>
    requires read { Whole tokens.now start (Body place ∷ []) (start + 1) (for_in place) (fixed ForWord ∷ []) }
    requires known { Known tokens.now }
    ensures { ParsedIn (Fits place) statement_parts tokens.now start (Body place ∷ []) (Body place ∷ []) result }
{
    let pos = pos_at(tokens, start + 1);
    let name = name_at(alloc, tokens, start + 1)?;
    let begun = expect(tokens, start + 2, Sign::InWord)?;
    let (low, middle) = parse_ended(alloc, tokens, begun, Sign::DotDot)?;
    let (high, at) = parse_outer(alloc, tokens, middle)?;
    let (body, end) = parse_block(alloc, tokens, at, place)?;
    Ok((
        Statement::For {
            name,
            pos,
            low,
            high,
            body,
        },
        end,
    ))
}

/// A `withonly`, whose word was read.
#[cycle(statement)]
fn parse_withonly(
    alloc: Global,
    tokens: &[Seen<'_>],
    start: usize,
) -> Result<(Statement, usize), Stop>
    requires read { Whole tokens.now start (Body Main ∷ []) (start + 1) withonly_in (marked (Fixed WithonlyWord) (place_at tokens.now start) ∷ []) }
    requires known { Known tokens.now }
    ensures { ParsedIn (Fits Main) statement_parts tokens.now start (Body Main ∷ []) (Body Main ∷ []) result }
{
    let pos = pos_at(tokens, start);
    let (section, closed) = parse_block(alloc, tokens, start + 1, BlockKind::Section)?;
    let done = expect(tokens, closed, Sign::DoWord)?;
    let opened = expect(tokens, done, Sign::LeftParen)?;
    let (names, at) = parse_names(alloc, tokens, opened)?;
    let (body, end) = parse_block(alloc, tokens, at, BlockKind::Main)?;
    Ok((
        Statement::Withonly {
            pos,
            section,
            names,
            body,
        },
        end,
    ))
}

/// A `with`, whose word was read.
#[cycle(statement)]
fn parse_with(alloc: Global, tokens: &[Seen<'_>], start: usize) -> Result<(Statement, usize), Stop>
    requires read { Whole tokens.now start (Body Main ∷ []) (start + 1) with_in (marked (Fixed WithWord) (place_at tokens.now start) ∷ []) }
    requires known { Known tokens.now }
    ensures { ParsedIn (Fits Main) statement_parts tokens.now start (Body Main ∷ []) (Body Main ∷ []) result }
{
    let pos = pos_at(tokens, start);
    let (section, closed) = parse_block(alloc, tokens, start + 1, BlockKind::Amends)?;
    let done = expect(tokens, closed, Sign::ContWord)?;
    let end = expect(tokens, done, Sign::Semicolon)?;
    Ok((Statement::With { pos, section }, end))
}
