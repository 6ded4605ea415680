//! Indexes whose values are kept in slots of their own.

ghost use Rattle.std.specs.Prelude.{◌≡◌, map, nat_eq, nat_lt, not, Some, IfOk};
ghost use Rattle.std.specs.Option.{option_map};
ghost use Rattle.jade_syntax.specs.Image.{expression, and_expression, compare_expression, sum_expression, product_expression, unary_expression};
ghost use Rattle.task_translation.specs.Compile.{key_of};
ghost use Rattle.task_translation.specs.Keys.{Both, same_key, same_operand, same_op, sum_number, product_number, all_slots, among, is_new, look, joined};
ghost use Rattle.task_codegen.specs.Variables.{key_shown, kept_here};

use crate::expressions::variable;
use crate::names::Names;
use code_meaning::code::{BinaryOp, Operand};
use jade_base::Memory;
use jade_syntax::tree::{AndExpr, Atom, Compare, Expr, Product, ProductOp, Sum, SumOp, Unary};
use std::alloc::Global;

/// So many keys are kept in a loop at most.
const MOST: usize = 16;

/// A sum or a product of operands, wherever in the text it stands.
#[derive(Debug, Drop)]
pub(crate) enum Key {
    Leaf(Operand),
    Both(BinaryOp, Box<Key>, Box<Key>),
}

/// A key, and the slot that has its value.
#[derive(Debug, Drop)]
pub(crate) struct Kept {
    pub key: Key,
    pub slot: u32,
}

fn sum_number(op: SumOp) -> u32
    ensures { result ≡ sum_number op }
{
    match op {
        SumOp::Plus => 0,
        SumOp::Minus => 1,
    }
}

fn product_number(op: ProductOp) -> u32
    ensures { result ≡ product_number op }
{
    match op {
        ProductOp::Times => 0,
        ProductOp::Over => 1,
        ProductOp::Remainder => 2,
    }
}

fn same_op(a: BinaryOp, b: BinaryOp) -> bool
    ensures { result ≡ same_op a b }
{
    match a {
        BinaryOp::Relates(_) => false,
        BinaryOp::Adds(s) => match b {
            BinaryOp::Adds(r) => sum_number(s) == sum_number(r),
            BinaryOp::Relates(_) | BinaryOp::Multiplies(_) => false,
        },
        BinaryOp::Multiplies(s) => match b {
            BinaryOp::Multiplies(r) => product_number(s) == product_number(r),
            BinaryOp::Relates(_) | BinaryOp::Adds(_) => false,
        },
    }
}

fn same_operand(a: Operand, b: Operand) -> bool
    ensures { result ≡ same_operand a b }
{
    match a {
        Operand::Slot(x) => match b {
            Operand::Slot(y) => x == y,
            Operand::Whole(_) | Operand::Truth(_) => false,
        },
        Operand::Whole(x) => match b {
            Operand::Whole(y) => x == y,
            Operand::Slot(_) | Operand::Truth(_) => false,
        },
        Operand::Truth(_) => false,
    }
}

/// Two keys are the same.
pub(crate) fn same_key(a: &Key, b: &Key) -> bool
    ensures { result ≡ same_key (key_shown a.now) (key_shown b.now) }
{
    match a {
        Key::Leaf(x) => match b {
            Key::Leaf(y) => same_operand(*x, *y),
            Key::Both(..) => false,
        },
        Key::Both(op, first, second) => match b {
            Key::Leaf(_) => false,
            Key::Both(other, left, right) => {
                same_op(*op, *other) && same_key(first, left) && same_key(second, right)
            }
        },
    }
}

/// Each slot in a key is below one. It takes no memory.
pub(crate) fn all_below(key: &Key, n: u32) -> bool
    ensures { result ≡ all_slots (λ k. nat_lt k n) (key_shown key.now) }
{
    match key {
        Key::Leaf(Operand::Slot(slot)) => *slot < n,
        Key::Leaf(_) => true,
        Key::Both(_, first, second) => all_below(first, n) && all_below(second, n),
    }
}

/// A slot stands in a key. It takes no memory.
pub(crate) fn has_slot(key: &Key, slot: u32) -> bool
    ensures { result ≡ not (all_slots (λ k. not (nat_eq k slot)) (key_shown key.now)) }
{
    match key {
        Key::Leaf(Operand::Slot(own)) => *own == slot,
        Key::Leaf(_) => false,
        Key::Both(_, first, second) => has_slot(first, slot) || has_slot(second, slot),
    }
}

/// A key is among these. It takes no memory.
fn among(seen: &Vec<Key>, key: &Key) -> bool
    ensures { result ≡ among (key_shown key.now) (map key_shown seen.now.items) }
{
    for i in 0..seen.len() {
        if same_key(key, &seen[i]) {
            return true;
        }
    }
    false
}

/// A key may be kept beside these. It takes no memory.
pub(crate) fn is_new(seen: &Vec<Key>, key: &Key) -> bool
    ensures { result ≡ is_new (map key_shown seen.now.items) (Some (key_shown key.now)) }
{
    seen.len() < MOST && !among(seen, key)
}

/// The slot that has the value of a key. It takes no memory.
pub(crate) fn look(kept: &Vec<Kept>, key: &Key) -> Option<u32>
    ensures { result ≡ look (key_shown key.now) (kept_here kept.now.items) }
{
    for i in 0..kept.len() {
        let one = &kept[i];
        if same_key(key, &one.key) {
            return Some(one.slot);
        }
    }
    None
}

/// The key of a sum or a product of two.
fn both(alloc: Global, op: BinaryOp, first: Key, second: Key) -> Result<Key, Memory>
    ensures { IfOk result (λ k. key_shown k ≡ Both op (key_shown first) (key_shown second)) }
{
    let Ok(first) = Box::new(alloc, first) else {
        return Err(Memory);
    };
    let Ok(second) = Box::new(alloc, second) else {
        return Err(Memory);
    };
    Ok(Key::Both(op, first, second))
}

/// The key of a sum or a product, where both sides have one.
fn joined(
    alloc: Global,
    op: BinaryOp,
    first: Option<Key>,
    second: Option<Key>,
) -> Result<Option<Key>, Memory>
    ensures { IfOk result (λ k. option_map key_shown k ≡ joined op (option_map key_shown first) (option_map key_shown second)) }
{
    match first {
        None => Ok(None),
        Some(first) => match second {
            None => Ok(None),
            Some(second) => Ok(Some(both(alloc, op, first, second)?)),
        },
    }
}

/// The key of an expression, where it is a sum or a product of operands.
#[cycle(key)]
pub(crate) fn key_of(alloc: Global, names: &Names, e: &Expr) -> Result<Option<Key>, Memory>
    ensures { IfOk result (λ k. option_map key_shown k ≡ key_of names.now.scope (expression e.now)) }
{
    if e.rest.len() > 0 {
        return Ok(None);
    }
    and_key(alloc, names, &e.first)
}

#[cycle(key)]
fn and_key(alloc: Global, names: &Names, e: &AndExpr) -> Result<Option<Key>, Memory>
    ensures { IfOk result (λ k. option_map key_shown k ≡ key_of names.now.scope (and_expression e.now)) }
{
    if e.rest.len() > 0 {
        return Ok(None);
    }
    compare_key(alloc, names, &e.first)
}

#[cycle(key)]
fn compare_key(alloc: Global, names: &Names, e: &Compare) -> Result<Option<Key>, Memory>
    ensures { IfOk result (λ k. option_map key_shown k ≡ key_of names.now.scope (compare_expression e.now)) }
{
    match &e.right {
        None => sum_key(alloc, names, &e.left),
        Some(_) => Ok(None),
    }
}

#[cycle(key)]
fn sum_key(alloc: Global, names: &Names, e: &Sum) -> Result<Option<Key>, Memory>
    ensures { IfOk result (λ k. option_map key_shown k ≡ key_of names.now.scope (sum_expression e.now)) }
{
    let mut all = product_key(alloc, names, &e.first)?;
    for i in 0..e.rest.len() {
        let (op, _, product) = e.rest.at(i);
        let next = product_key(alloc, names, product)?;
        all = joined(alloc, BinaryOp::Adds(*op), all, next)?;
    }
    Ok(all)
}

#[cycle(key)]
fn product_key(alloc: Global, names: &Names, e: &Product) -> Result<Option<Key>, Memory>
    ensures { IfOk result (λ k. option_map key_shown k ≡ key_of names.now.scope (product_expression e.now)) }
{
    let mut all = unary_key(alloc, names, &e.first)?;
    for i in 0..e.rest.len() {
        let (op, _, factor) = e.rest.at(i);
        let next = unary_key(alloc, names, factor)?;
        all = joined(alloc, BinaryOp::Multiplies(*op), all, next)?;
    }
    Ok(all)
}

#[cycle(key)]
fn unary_key(alloc: Global, names: &Names, e: &Unary) -> Result<Option<Key>, Memory>
    ensures { IfOk result (λ k. option_map key_shown k ≡ key_of names.now.scope (unary_expression e.now)) }
{
    if e.signs.len() > 0 {
        return Ok(None);
    }
    match &e.atom {
        Atom::Whole(number) => Ok(Some(Key::Leaf(Operand::Whole(number.value)))),
        Atom::Truth(truth, _) => Ok(Some(Key::Leaf(Operand::Truth(*truth)))),
        Atom::Group(_, inner) => key_of(alloc, names, inner),
        Atom::Named(name, _) => Ok(Some(Key::Leaf(variable(names, name)))),
        Atom::Cell(_) => Ok(None),
    }
}
