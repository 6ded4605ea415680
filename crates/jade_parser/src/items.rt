//! The items of a program, before its `main`.

ghost use Rattle.std.specs.Prelude.{◌≡◌, ◌+◌, [], ◌∷◌, ◌++◌, ◌≤◌, length, MatchResult};
ghost use Rattle.jade_parser.specs.steps.Reads.{Known, Whole};
ghost use Rattle.jade_parser.specs.steps.Parts.{ParsedIn, Any};
ghost use Rattle.jade_parser.specs.steps.Machine.{Must, NameIs, NumberIs, Items as ItemsIn};
ghost use Rattle.jade_parser.specs.Spelled.{fixed};
ghost use Rattle.jade_parser.specs.Programs.{between_parts, item_parts, head_parts};
ghost use Rattle.jade_parser.specs.steps.Openings.{opening_of, OpeningAt, ItemAt, size_in, count_in, body_in};
ghost use Rattle.jade_parser.specs.declared.Sign.TheVariants.{InputWord, ObjectWord, ObjectsWord, Semicolon};

use crate::growing::put;
use crate::leaves::{expect, pos_at, sign_at};
use crate::names::{name_at, number_at};
use crate::{Seen, Sign, Stop};
use jade_syntax::tree::{Item, Items, Number};
use std::alloc::Global;

/// What a word begins: an item, the body of the program, or nothing.
#[derive(Clone, Copy, Debug, PartialEq, Eq)]
pub enum Opening {
    Input,
    Single,
    Family,
    Body,
    Nothing,
}

fn opening_of(sign: Sign) -> Opening
    ensures { result ≡ opening_of sign }
{
    match sign {
        Sign::InputWord => Opening::Input,
        Sign::ObjectWord => Opening::Single,
        Sign::ObjectsWord => Opening::Family,
        Sign::MainWord => Opening::Body,
        _ => Opening::Nothing,
    }
}

/// What begins at the place.
pub fn opening_at(tokens: &[Seen<'_>], at: usize) -> Opening
    ensures { OpeningAt tokens.now at result }
{
    match sign_at(tokens, at) {
        Some(sign) => opening_of(sign),
        None => Opening::Nothing,
    }
}

/// A number between two signs.
fn parse_between(
    tokens: &[Seen<'_>],
    start: usize,
    opener: Sign,
    closer: Sign,
) -> Result<(Number, usize), Stop>
    requires { start ≤ length tokens.now }
    ensures { ParsedIn Any (between_parts opener closer) tokens.now start (Must opener ∷ NumberIs ∷ Must closer ∷ []) [] result }
{
    let at = expect(tokens, start, opener)?;
    let number = number_at(tokens, at)?;
    let at = expect(tokens, at + 1, closer)?;
    Ok((number, at))
}

/// An input, whose word was read.
fn parse_input(alloc: Global, tokens: &[Seen<'_>], start: usize) -> Result<(Item, usize), Stop>
    requires read { Whole tokens.now start (ItemsIn ∷ []) (start + 1) (NameIs ∷ Must Semicolon ∷ ItemsIn ∷ []) (fixed InputWord ∷ []) }
    requires known { Known tokens.now }
    ensures { ParsedIn Any item_parts tokens.now start (ItemsIn ∷ []) (ItemsIn ∷ []) result }
{
    let pos = pos_at(tokens, start + 1);
    let name = name_at(alloc, tokens, start + 1)?;
    let at = expect(tokens, start + 2, Sign::Semicolon)?;
    Ok((Item::Input { name, pos }, at))
}

/// A single object, whose word was read.
fn parse_single(alloc: Global, tokens: &[Seen<'_>], start: usize) -> Result<(Item, usize), Stop>
    requires read { Whole tokens.now start (ItemsIn ∷ []) (start + 1) (NameIs ∷ size_in ++ ItemsIn ∷ []) (fixed ObjectWord ∷ []) }
    requires known { Known tokens.now }
    ensures { ParsedIn Any item_parts tokens.now start (ItemsIn ∷ []) (ItemsIn ∷ []) result }
{
    let pos = pos_at(tokens, start + 1);
    let name = name_at(alloc, tokens, start + 1)?;
    let (size, at) = parse_between(tokens, start + 2, Sign::Colon, Sign::Semicolon)?;
    Ok((Item::Single { name, pos, size }, at))
}

/// A family of objects, whose word was read.
fn parse_family(alloc: Global, tokens: &[Seen<'_>], start: usize) -> Result<(Item, usize), Stop>
    requires read { Whole tokens.now start (ItemsIn ∷ []) (start + 1) (NameIs ∷ count_in ++ size_in ++ ItemsIn ∷ []) (fixed ObjectsWord ∷ []) }
    requires known { Known tokens.now }
    ensures { ParsedIn Any item_parts tokens.now start (ItemsIn ∷ []) (ItemsIn ∷ []) result }
{
    let pos = pos_at(tokens, start + 1);
    let name = name_at(alloc, tokens, start + 1)?;
    let (count, at) = parse_between(tokens, start + 2, Sign::LeftBracket, Sign::RightBracket)?;
    let (size, at) = parse_between(tokens, at, Sign::Colon, Sign::Semicolon)?;
    let item = Item::Family {
        name,
        pos,
        count,
        size,
    };
    Ok((item, at))
}

/// The item that begins at the place, and the number of the token after it. There is none where
/// `main` stands.
fn parse_item(
    alloc: Global,
    tokens: &[Seen<'_>],
    start: usize,
) -> Result<Option<(Item, usize)>, Stop>
    requires within { start ≤ length tokens.now }
    requires known { Known tokens.now }
    ensures { ItemAt tokens.now start result }
{
    match opening_at(tokens, start) {
        Opening::Input => {
            let read = parse_input(alloc, tokens, start)?;
            Ok(Some(read))
        }
        Opening::Single => {
            let read = parse_single(alloc, tokens, start)?;
            Ok(Some(read))
        }
        Opening::Family => {
            let read = parse_family(alloc, tokens, start)?;
            Ok(Some(read))
        }
        Opening::Body => Ok(None),
        Opening::Nothing => Err(Stop::Token(start)),
    }
}

/// The items and `main`, and the number of the token after it.
pub fn parse_items(alloc: Global, tokens: &[Seen<'_>]) -> Result<(Items, usize), Stop>
    requires { Known tokens.now }
    ensures { ParsedIn Any head_parts tokens.now 0 (ItemsIn ∷ []) body_in result }
{
    let mut all = Items::empty(alloc);
    let mut at = 0;
    'items: loop {
        match parse_item(alloc, tokens, at)? {
            None => return Ok((all, at + 1)),
            Some((item, after)) => {
                put(&mut all, item)?;
                at = after;
            }
        }
    }
}
