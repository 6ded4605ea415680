//! The pieces of statements: expressions with what ends them, indexes, objects and lists of names.

ghost use Rattle.std.specs.Prelude.{◌≡◌, ◌+◌, ◌≤◌, ◌<◌, [], ◌∷◌, ◌++◌, drop, length, Some, IsTrue, IsFalse};
ghost use Rattle.jade_parser.specs.steps.Reads.{Known, head_sign, kinds, Whole};
ghost use Rattle.jade_parser.specs.steps.Machine.{Must, NameIs, Names, Second, expr_in};
ghost use Rattle.jade_parser.specs.Statements.{object_parts};
ghost use Rattle.jade_parser.specs.steps.Forms.{ParsedAs, NoHead, ended, indexes, declared, named_list};
ghost use Rattle.jade_parser.specs.declared.Sign.TheVariants.{LeftParen, RightParen, RightBracket, Semicolon};

use crate::growing::put;
use crate::leaves::{bracket, expect, pos_at, same, sign_at};
use crate::names::name_at;
use crate::outer::parse_outer;
use crate::{Seen, Sign, Stop};
use jade_syntax::tree::{Expr, NameList, Named, ObjectRef};
use std::alloc::Global;

/// Whether the sign stands there.
pub fn is_at(tokens: &[Seen<'_>], at: usize, wanted: Sign) -> bool
    ensures yes { IsTrue result → Some wanted ≡ head_sign (drop at (kinds tokens.now)) }
    ensures no { IsFalse result → NoHead wanted tokens.now at }
{
    match sign_at(tokens, at) {
        Some(sign) => same(wanted, sign),
        None => false,
    }
}

/// An outermost expression and the sign that ends it.
pub fn parse_ended(
    alloc: Global,
    tokens: &[Seen<'_>],
    start: usize,
    closer: Sign,
) -> Result<(Expr, usize), Stop>
    requires within { start ≤ length tokens.now }
    requires known { Known tokens.now }
    ensures { ParsedAs (ended closer) tokens.now start (expr_in ++ Must closer ∷ []) result }
{
    let (inner, at) = parse_outer(alloc, tokens, start)?;
    let at = expect(tokens, at, closer)?;
    Ok((inner, at))
}

/// The indexes of a target, whose first bracket was read: the member's, if there are two, and the
/// cell's.
pub fn parse_indexes(
    alloc: Global,
    tokens: &[Seen<'_>],
    start: usize,
) -> Result<((Option<Expr>, Expr), usize), Stop>
    requires within { start ≤ length tokens.now }
    requires known { Known tokens.now }
    ensures { ParsedAs indexes tokens.now start (expr_in ++ Must RightBracket ∷ Second ∷ []) result }
{
    let (first, at) = parse_ended(alloc, tokens, start, Sign::RightBracket)?;
    if bracket(tokens, at) {
        let (cell, at) = parse_ended(alloc, tokens, at + 1, Sign::RightBracket)?;
        Ok(((Some(first), cell), at))
    } else {
        Ok(((None, first), at))
    }
}

/// An object: a name, and an index where it is a member of a family.
pub fn parse_object(
    alloc: Global,
    tokens: &[Seen<'_>],
    start: usize,
) -> Result<(ObjectRef, usize), Stop>
    requires within { start ≤ length tokens.now }
    requires known { Known tokens.now }
    ensures { ParsedAs object_parts tokens.now start (NameIs ∷ Second ∷ []) result }
{
    let pos = pos_at(tokens, start);
    let name = name_at(alloc, tokens, start)?;
    let at = start + 1;
    if bracket(tokens, at) {
        let (member, at) = parse_ended(alloc, tokens, at + 1, Sign::RightBracket)?;
        Ok((
            ObjectRef {
                name,
                pos,
                member: Some(member),
            },
            at,
        ))
    } else {
        Ok((
            ObjectRef {
                name,
                pos,
                member: None,
            },
            at,
        ))
    }
}

/// What follows the word of a declaration: an object in parentheses and a semicolon.
pub fn parse_declared(
    alloc: Global,
    tokens: &[Seen<'_>],
    start: usize,
) -> Result<(ObjectRef, usize), Stop>
    requires within { start ≤ length tokens.now }
    requires known { Known tokens.now }
    ensures { ParsedAs declared tokens.now start (Must LeftParen ∷ NameIs ∷ Second ∷ Must RightParen ∷ Must Semicolon ∷ []) result }
{
    let opened = expect(tokens, start, Sign::LeftParen)?;
    let (object, named) = parse_object(alloc, tokens, opened)?;
    let closed = expect(tokens, named, Sign::RightParen)?;
    let at = expect(tokens, closed, Sign::Semicolon)?;
    Ok((object, at))
}

/// The names of a `do` list, whose parenthesis was read, and the one that ends them.
pub fn parse_names(
    alloc: Global,
    tokens: &[Seen<'_>],
    start: usize,
) -> Result<(NameList, usize), Stop>
    requires within { start ≤ length tokens.now }
    requires known { Known tokens.now }
    ensures { ParsedAs named_list tokens.now start (Names ∷ []) result }
{
    let mut all = NameList::empty(alloc);
    if is_at(tokens, start, Sign::RightParen) {
        return Ok((all, start + 1));
    }
    let pos = pos_at(tokens, start);
    let name = name_at(alloc, tokens, start)?;
    put(&mut all, Named { name, pos })?;
    let mut at = start + 1;
    'names: while !is_at(tokens, at, Sign::RightParen) {
        if !is_at(tokens, at, Sign::Comma) {
            return Err(Stop::Token(at));
        }
        let pos = pos_at(tokens, at + 1);
        let name = name_at(alloc, tokens, at + 1)?;
        put(&mut all, Named { name, pos })?;
        at += 2;
    }
    Ok((all, at + 1))
}
