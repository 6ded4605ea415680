//! The indexes that a loop may keep.

ghost use Rattle.std.specs.Prelude.{◌≡◌, [], map, IfOk, OnOk};
ghost use Rattle.jade_syntax.specs.Image.{expression, and_expression, compare_expression, sum_expression, product_expression, unary_expression};
ghost use Rattle.jade_syntax.specs.Image.{atom_expression, reference, action, block as actions_of};
ghost use Rattle.task_translation.specs.Compile.{is_candidate, index_wanted, wanted, wanted_all, distinct, is_flat, all_flat, candidates};
ghost use Rattle.task_codegen.specs.Wanting.{Lists, Begins, cell_wanted};

use crate::keys::{Key, all_below, is_new, key_of};
use crate::names::Names;
use jade_base::Memory;
use jade_syntax::tree::{
    AndExpr, Atom, Block, CellRef, Compare, Expr, Product, Statement, Sum, Unary,
};
use std::alloc::Global;

/// An index is listed, where a loop with these own slots may keep it.
fn index_wanted<'p>(
    alloc: Global,
    names: &Names,
    n: u32,
    e: &'p Expr,
    list: &mut Vec<&'p Expr>,
) -> Result<(), Memory>
    ensures { OnOk result (Lists (map (λ x. expression x.now) list.old.items) (map (λ x. expression x.now) list.new.items)
        (index_wanted (is_candidate names.now.scope n) (expression e.now))) }
{
    match key_of(alloc, names, e)? {
        None => Ok(()),
        Some(Key::Leaf(_)) => Ok(()),
        Some(own) => {
            if all_below(&own, n) {
                list.push(e)?;
            }
            Ok(())
        }
    }
}

/// Those indexes in an expression are listed that are evaluated wherever it is, and which a loop with
/// these own slots may keep.
#[cycle(wanted)]
fn wanted<'p>(
    alloc: Global,
    names: &Names,
    n: u32,
    e: &'p Expr,
    list: &mut Vec<&'p Expr>,
) -> Result<(), Memory>
    ensures { OnOk result (Lists (map (λ x. expression x.now) list.old.items) (map (λ x. expression x.now) list.new.items)
        (wanted (is_candidate names.now.scope n) (expression e.now))) }
{
    wanted_and(alloc, names, n, &e.first, list)
}

#[cycle(wanted)]
fn wanted_and<'p>(
    alloc: Global,
    names: &Names,
    n: u32,
    e: &'p AndExpr,
    list: &mut Vec<&'p Expr>,
) -> Result<(), Memory>
    ensures { OnOk result (Lists (map (λ x. expression x.now) list.old.items) (map (λ x. expression x.now) list.new.items)
        (wanted (is_candidate names.now.scope n) (and_expression e.now))) }
{
    wanted_compare(alloc, names, n, &e.first, list)
}

#[cycle(wanted)]
fn wanted_compare<'p>(
    alloc: Global,
    names: &Names,
    n: u32,
    e: &'p Compare,
    list: &mut Vec<&'p Expr>,
) -> Result<(), Memory>
    ensures { OnOk result (Lists (map (λ x. expression x.now) list.old.items) (map (λ x. expression x.now) list.new.items)
        (wanted (is_candidate names.now.scope n) (compare_expression e.now))) }
{
    wanted_sum(alloc, names, n, &e.left, list)?;
    match &e.right {
        None => Ok(()),
        Some((_, _, right)) => wanted_sum(alloc, names, n, right, list),
    }
}

#[cycle(wanted)]
fn wanted_sum<'p>(
    alloc: Global,
    names: &Names,
    n: u32,
    e: &'p Sum,
    list: &mut Vec<&'p Expr>,
) -> Result<(), Memory>
    ensures { OnOk result (Lists (map (λ x. expression x.now) list.old.items) (map (λ x. expression x.now) list.new.items)
        (wanted (is_candidate names.now.scope n) (sum_expression e.now))) }
{
    wanted_product(alloc, names, n, &e.first, list)?;
    for i in 0..e.rest.len() {
        let (_, _, product) = e.rest.at(i);
        wanted_product(alloc, names, n, product, list)?;
    }
    Ok(())
}

#[cycle(wanted)]
fn wanted_product<'p>(
    alloc: Global,
    names: &Names,
    n: u32,
    e: &'p Product,
    list: &mut Vec<&'p Expr>,
) -> Result<(), Memory>
    ensures { OnOk result (Lists (map (λ x. expression x.now) list.old.items) (map (λ x. expression x.now) list.new.items)
        (wanted (is_candidate names.now.scope n) (product_expression e.now))) }
{
    wanted_unary(alloc, names, n, &e.first, list)?;
    for i in 0..e.rest.len() {
        let (_, _, factor) = e.rest.at(i);
        wanted_unary(alloc, names, n, factor, list)?;
    }
    Ok(())
}

#[cycle(wanted)]
fn wanted_unary<'p>(
    alloc: Global,
    names: &Names,
    n: u32,
    e: &'p Unary,
    list: &mut Vec<&'p Expr>,
) -> Result<(), Memory>
    ensures { OnOk result (Lists (map (λ x. expression x.now) list.old.items) (map (λ x. expression x.now) list.new.items)
        (wanted (is_candidate names.now.scope n) (unary_expression e.now))) }
{
    wanted_atom(alloc, names, n, &e.atom, list)
}

#[cycle(wanted)]
fn wanted_atom<'p>(
    alloc: Global,
    names: &Names,
    n: u32,
    e: &'p Atom,
    list: &mut Vec<&'p Expr>,
) -> Result<(), Memory>
    ensures { OnOk result (Lists (map (λ x. expression x.now) list.old.items) (map (λ x. expression x.now) list.new.items)
        (wanted (is_candidate names.now.scope n) (atom_expression e.now))) }
{
    match e {
        Atom::Whole(_) | Atom::Truth(..) | Atom::Named(..) => Ok(()),
        Atom::Group(_, inner) => wanted(alloc, names, n, inner, list),
        Atom::Cell(cell) => wanted_cell(alloc, names, n, cell, list),
    }
}

#[cycle(wanted)]
fn wanted_cell<'p>(
    alloc: Global,
    names: &Names,
    n: u32,
    cell: &'p CellRef,
    list: &mut Vec<&'p Expr>,
) -> Result<(), Memory>
    ensures { OnOk result (Lists (map (λ x. expression x.now) list.old.items) (map (λ x. expression x.now) list.new.items)
        (cell_wanted (is_candidate names.now.scope n) (reference cell.now))) }
{
    match &cell.family {
        None => wanted(alloc, names, n, &cell.cell, list),
        Some(index) => {
            index_wanted(alloc, names, n, index, list)?;
            wanted(alloc, names, n, index, list)?;
            wanted(alloc, names, n, &cell.cell, list)
        }
    }
}

/// No loop and no creation stands in a statement.
#[cycle(flat)]
fn is_flat(statement: &Statement) -> bool
    ensures { result ≡ is_flat (action statement.now) }
{
    match statement {
        Statement::Local { .. } => true,
        Statement::Assign { .. } => true,
        Statement::Store { .. } => true,
        Statement::If {
            then,
            otherwise,
            ..
        } => match otherwise {
            None => all_flat(then),
            Some(other) => all_flat(then) && all_flat(other),
        },
        Statement::For { .. } => false,
        Statement::Withonly { .. } => false,
        Statement::With { .. } => false,
        Statement::Declare { .. } => false,
    }
}

/// No loop and no creation stands in these statements.
#[cycle(flat)]
fn all_flat(block: &Block) -> bool
    ensures { result ≡ all_flat (actions_of block.now) }
{
    for i in 0..block.len() {
        if !is_flat(block.at(i)) {
            return false;
        }
    }
    true
}

/// The indexes in a store or an assignment are listed, and it is told whether it was one.
fn wanted_of<'p>(
    alloc: Global,
    names: &Names,
    n: u32,
    statement: &'p Statement,
    list: &mut Vec<&'p Expr>,
) -> Result<bool, Memory>
    ensures { IfOk result (λ r. Begins (is_candidate names.now.scope n) (map (λ x. expression x.now) list.old.items)
        (map (λ x. expression x.now) list.new.items) (action statement.now) r) }
{
    match statement {
        Statement::Store { target, value } => {
            wanted_cell(alloc, names, n, target, list)?;
            wanted(alloc, names, n, value, list)?;
            Ok(true)
        }
        Statement::Assign { value, .. } => {
            wanted(alloc, names, n, value, list)?;
            Ok(true)
        }
        Statement::Local { .. } => Ok(false),
        Statement::If { .. } => Ok(false),
        Statement::For { .. } => Ok(false),
        Statement::Withonly { .. } => Ok(false),
        Statement::With { .. } => Ok(false),
        Statement::Declare { .. } => Ok(false),
    }
}

/// The indexes in the stores and assignments with which statements begin are listed.
fn wanted_all<'p>(
    alloc: Global,
    names: &Names,
    n: u32,
    body: &'p Block,
    list: &mut Vec<&'p Expr>,
) -> Result<(), Memory>
    ensures { OnOk result (Lists (map (λ x. expression x.now) list.old.items) (map (λ x. expression x.now) list.new.items)
        (wanted_all (is_candidate names.now.scope n) (actions_of body.now))) }
{
    for i in 0..body.len() {
        if !wanted_of(alloc, names, n, body.at(i), list)? {
            return Ok(());
        }
    }
    Ok(())
}

/// Of these indexes the first of each key.
fn distinct<'p>(alloc: Global, names: &Names, all: &Vec<&'p Expr>) -> Result<Vec<&'p Expr>, Memory>
    ensures { IfOk result (λ list. map (λ x. expression x.now) list.items
        ≡ distinct names.now.scope [] (map (λ x. expression x.now) all.now.items)) }
{
    let mut list = Vec::new(alloc);
    let mut seen = Vec::new(alloc);
    for i in 0..all.len() {
        match key_of(alloc, names, all[i])? {
            None => {}
            Some(key) => {
                if is_new(&seen, &key) {
                    list.push(all[i])?;
                    seen.push(key)?;
                }
            }
        }
    }
    Ok(list)
}

/// The indexes that a loop with these own slots may keep: those of an innermost loop.
pub(crate) fn candidates<'p>(
    alloc: Global,
    names: &Names,
    n: u32,
    body: &'p Block,
) -> Result<Vec<&'p Expr>, Memory>
    ensures { IfOk result (λ list. map (λ x. expression x.now) list.items ≡ candidates names.now.scope n (actions_of body.now)) }
{
    let mut all = Vec::new(alloc);
    if !all_flat(body) {
        return Ok(all);
    }
    wanted_all(alloc, names, n, body, &mut all)?;
    distinct(alloc, names, &all)
}
