ghost use Rattle.std.specs.Prelude.{◌≡◌, ℕ, ◌+◌, ◌<◌, ◌≤◌, [], ◌∷◌, ◌++◌, drop, length, MatchResult, Some};
ghost use Rattle.std.specs.List.{flat_map};
ghost use Rattle.jade_parser.specs.steps.Reads.{Known, Parsed, Whole, NoUnary, OnToken, closed, head_sign, kinds, place_at};
ghost use Rattle.jade_parser.specs.steps.Machine.{Need, First, Second, Must, expr_in, and_in, compare_in, sum_in, product_in, unary_in};
ghost use Rattle.jade_parser.specs.Spelled.{expr_parts, and_parts, compare_parts, sum_parts, product_parts, unary_parts, atom_parts, cell_parts, sign_part};
ghost use Rattle.jade_parser.specs.Spelled.{Called, marked, fixed};
ghost use Rattle.jade_parser.specs.declared.Sign.TheVariants.{LeftBracket, RightBracket};

use crate::growing::put;
use crate::leaves::{
    and_op, bracket, expect, or_op, pos_at, product_op, relation, sum_op, unary_op,
};
use crate::{Kind, Seen, Sign, Stop};
use jade_base::Pos;
use jade_syntax::tree::{
    AndExpr, AndExprs, Atom, CellRef, Compare, Compares, Expr, Number, Product, Products, Signs,
    Sum, Unaries, Unary,
};
use jade_syntax::{Name, NameError};
use std::alloc::Global;

/// The signs in front of an atom.
fn signs(alloc: Global, tokens: &[Seen<'_>], start: usize) -> Result<(Signs, usize), Stop>
    requires { start ≤ length tokens.now }
    ensures { MatchResult result (λ r. Whole tokens.now start (Need ∷ []) r.1 (Need ∷ []) (flat_map sign_part r.0) × NoUnary tokens.now r.1)
        (λ e. OnToken e (λ _. ⊥)) }
{
    let mut all = Signs::empty(alloc);
    let mut at = start;
    while let Some(op) = unary_op(tokens, at) {
        let pos = pos_at(tokens, at);
        put(&mut all, (op, pos))?;
        at += 1;
    }
    Ok((all, at))
}

#[cycle(expr)]
pub(crate) fn parse_expr(
    alloc: Global,
    tokens: &[Seen<'_>],
    start: usize,
) -> Result<(Expr, usize), Stop>
    requires within { start ≤ length tokens.now }
    requires known { Known tokens.now }
    ensures { Parsed expr_parts tokens.now start expr_in result }
{
    let (first, mut at) = parse_and(alloc, tokens, start)?;
    let mut rest = AndExprs::empty(alloc);
    'chain: while or_op(tokens, at) {
        let pos = pos_at(tokens, at);
        let (next, after) = parse_and(alloc, tokens, at + 1)?;
        put(&mut rest, (pos, next))?;
        at = after;
    }
    Ok((Expr { first, rest }, at))
}

#[cycle(expr)]
fn parse_and(alloc: Global, tokens: &[Seen<'_>], start: usize) -> Result<(AndExpr, usize), Stop>
    requires within { start ≤ length tokens.now }
    requires known { Known tokens.now }
    ensures { Parsed and_parts tokens.now start and_in result }
{
    let (first, mut at) = parse_compare(alloc, tokens, start)?;
    let mut rest = Compares::empty(alloc);
    'chain: while and_op(tokens, at) {
        let pos = pos_at(tokens, at);
        let (next, after) = parse_compare(alloc, tokens, at + 1)?;
        put(&mut rest, (pos, next))?;
        at = after;
    }
    Ok((AndExpr { first, rest }, at))
}

#[cycle(expr)]
fn parse_compare(alloc: Global, tokens: &[Seen<'_>], start: usize) -> Result<(Compare, usize), Stop>
    requires within { start ≤ length tokens.now }
    requires known { Known tokens.now }
    ensures { Parsed compare_parts tokens.now start compare_in result }
{
    let (left, at) = parse_sum(alloc, tokens, start)?;
    match relation(tokens, at) {
        None => Ok((Compare { left, right: None }, at)),
        Some(op) => {
            let pos = pos_at(tokens, at);
            let (right, after) = parse_sum(alloc, tokens, at + 1)?;
            Ok((
                Compare {
                    left,
                    right: Some((op, pos, right)),
                },
                after,
            ))
        }
    }
}

#[cycle(expr)]
fn parse_sum(alloc: Global, tokens: &[Seen<'_>], start: usize) -> Result<(Sum, usize), Stop>
    requires within { start ≤ length tokens.now }
    requires known { Known tokens.now }
    ensures { Parsed sum_parts tokens.now start sum_in result }
{
    let (first, mut at) = parse_product(alloc, tokens, start)?;
    let mut rest = Products::empty(alloc);
    'chain: while let Some(op) = sum_op(tokens, at) {
        let pos = pos_at(tokens, at);
        let (next, after) = parse_product(alloc, tokens, at + 1)?;
        put(&mut rest, (op, pos, next))?;
        at = after;
    }
    Ok((Sum { first, rest }, at))
}

#[cycle(expr)]
fn parse_product(alloc: Global, tokens: &[Seen<'_>], start: usize) -> Result<(Product, usize), Stop>
    requires within { start ≤ length tokens.now }
    requires known { Known tokens.now }
    ensures { Parsed product_parts tokens.now start product_in result }
{
    let (first, mut at) = parse_unary(alloc, tokens, start)?;
    let mut rest = Unaries::empty(alloc);
    'chain: while let Some(op) = product_op(tokens, at) {
        let pos = pos_at(tokens, at);
        let (next, after) = parse_unary(alloc, tokens, at + 1)?;
        put(&mut rest, (op, pos, next))?;
        at = after;
    }
    Ok((Product { first, rest }, at))
}

#[cycle(expr)]
fn parse_unary(alloc: Global, tokens: &[Seen<'_>], start: usize) -> Result<(Unary, usize), Stop>
    requires within { start ≤ length tokens.now }
    requires known { Known tokens.now }
    ensures { Parsed unary_parts tokens.now start unary_in result }
{
    let (signs, at) = signs(alloc, tokens, start)?;
    let (atom, after) = parse_atom(alloc, tokens, at)?;
    Ok((Unary { signs, atom }, after))
}

#[cycle(expr)]
fn parse_atom(alloc: Global, tokens: &[Seen<'_>], start: usize) -> Result<(Atom, usize), Stop>
    requires within { start ≤ length tokens.now }
    requires no_sign { NoUnary tokens.now start }
    requires known { Known tokens.now }
    ensures { Parsed atom_parts tokens.now start unary_in result }
{
    if start < tokens.len() {
        let pos = tokens[start].pos;
        match tokens[start].kind {
            Kind::Counted(value) => Ok((Atom::Whole(Number { value, pos }), start + 1)),
            Kind::Called(text) => parse_named(alloc, tokens, start, text),
            Kind::Fixed(sign) => parse_fixed(alloc, tokens, start, sign),
            Kind::Unknown => Err(Stop::Token(start)),
        }
    } else {
        Err(Stop::Token(start))
    }
}

/// An atom that begins with a sign.
#[cycle(expr)]
fn parse_fixed(
    alloc: Global,
    tokens: &[Seen<'_>],
    start: usize,
    sign: Sign,
) -> Result<(Atom, usize), Stop>
    requires here { Some sign ≡ head_sign (drop start (kinds tokens.now)) }
    requires no_sign { NoUnary tokens.now start }
    requires known { Known tokens.now }
    ensures { Parsed atom_parts tokens.now start unary_in result }
{
    match sign {
        Sign::TrueWord => Ok((Atom::Truth(true, pos_at(tokens, start)), start + 1)),
        Sign::FalseWord => Ok((Atom::Truth(false, pos_at(tokens, start)), start + 1)),
        Sign::LeftParen => {
            let pos = pos_at(tokens, start);
            let (inner, at) = parse_closed(alloc, tokens, start + 1, Sign::RightParen)?;
            match Box::new(alloc, inner) {
                Ok(inner) => Ok((Atom::Group(pos, inner), at)),
                Err(_) => Err(Stop::Memory),
            }
        }
        _ => Err(Stop::Token(start)),
    }
}

/// An expression and the sign that closes it.
#[cycle(expr)]
pub(crate) fn parse_closed(
    alloc: Global,
    tokens: &[Seen<'_>],
    start: usize,
    closer: Sign,
) -> Result<(Expr, usize), Stop>
    requires within { start ≤ length tokens.now }
    requires known { Known tokens.now }
    ensures { Parsed (closed closer) tokens.now start (expr_in ++ Must closer ∷ []) result }
{
    let (inner, at) = parse_expr(alloc, tokens, start)?;
    let at = expect(tokens, at, closer)?;
    Ok((inner, at))
}

/// A name, or the cell that it begins.
#[cycle(expr)]
fn parse_named(
    alloc: Global,
    tokens: &[Seen<'_>],
    start: usize,
    text: &[u8],
) -> Result<(Atom, usize), Stop>
    requires read { Whole tokens.now start (Need ∷ []) (start + 1) (First ∷ []) (marked (Called text.now) (place_at tokens.now start) ∷ []) }
    requires known { Known tokens.now }
    ensures { Parsed atom_parts tokens.now start unary_in result }
{
    let pos = pos_at(tokens, start);
    let name = match Name::of(alloc, text) {
        Ok(name) => name,
        Err(NameError::Memory) => return Err(Stop::Memory),
        Err(NameError::Shape) => unreachable!(),
    };
    if bracket(tokens, start + 1) {
        let (cell, at) = parse_cell(alloc, tokens, start, name, pos)?;
        match Box::new(alloc, cell) {
            Ok(cell) => Ok((Atom::Cell(cell), at)),
            Err(_) => Err(Stop::Memory),
        }
    } else {
        Ok((Atom::Named(name, pos), start + 1))
    }
}

/// The indexes of a cell whose name and first bracket were read.
#[cycle(expr)]
fn parse_cell(
    alloc: Global,
    tokens: &[Seen<'_>],
    start: usize,
    name: Name,
    pos: Pos,
) -> Result<(CellRef, usize), Stop>
    requires read { Whole tokens.now start (Need ∷ []) (start + 2)
        (expr_in ++ Must RightBracket ∷ Second ∷ []) (marked (Called name) pos ∷ fixed LeftBracket ∷ []) }
    requires known { Known tokens.now }
    ensures { Parsed cell_parts tokens.now start unary_in result }
{
    let (first, at) = parse_closed(alloc, tokens, start + 2, Sign::RightBracket)?;
    if bracket(tokens, at) {
        let (cell, at) = parse_closed(alloc, tokens, at + 1, Sign::RightBracket)?;
        Ok((
            CellRef {
                name,
                pos,
                family: Some(first),
                cell,
            },
            at,
        ))
    } else {
        Ok((
            CellRef {
                name,
                pos,
                family: None,
                cell: first,
            },
            at,
        ))
    }
}
