//! Measuring trees.

ghost use Rattle.jade_syntax.specs.Shapes.{signs, ◌⊕◌, in_brackets, name_extent, expr_extent, and_extent, compare_extent, sum_extent, product_extent};
ghost use Rattle.jade_syntax.specs.Shapes.{unary_extent, atom_extent, cell_extent, inner_index, outermost, outer_index, target_extent, object_extent};
ghost use Rattle.jade_syntax.specs.Shapes.{names_extent, statement_extent, block_extent, item_extent, program_extent};
ghost use Rattle.jade_syntax.specs.Measured.{Measures};

use crate::Name;
use crate::shapes::extent::Extent;
use crate::tree::{
    AndExpr, Atom, Block, CellRef, Compare, Expr, Item, Items, NameList, ObjectRef, Product,
    Statement, Sum, Unary,
};

#[cycle(measure)]
fn expr_extent(e: &Expr) -> Extent
    ensures { Measures result (expr_extent e.now) }
{
    let mut total = and_extent(&e.first);
    for i in 0..e.rest.len() {
        let (_, conjunction) = e.rest.at(i);
        total = total.then(Extent::signs(1).then(and_extent(conjunction)));
    }
    total
}

#[cycle(measure)]
fn and_extent(e: &AndExpr) -> Extent
    ensures { Measures result (and_extent e.now) }
{
    let mut total = compare_extent(&e.first);
    for i in 0..e.rest.len() {
        let (_, comparison) = e.rest.at(i);
        total = total.then(Extent::signs(1).then(compare_extent(comparison)));
    }
    total
}

#[cycle(measure)]
fn compare_extent(e: &Compare) -> Extent
    ensures { Measures result (compare_extent e.now) }
{
    let left = sum_extent(&e.left);
    match &e.right {
        None => left.then(Extent::nothing()),
        Some((_, _, right)) => left.then(Extent::signs(1).then(sum_extent(right))),
    }
}

#[cycle(measure)]
fn sum_extent(e: &Sum) -> Extent
    ensures { Measures result (sum_extent e.now) }
{
    let mut total = product_extent(&e.first);
    for i in 0..e.rest.len() {
        let (_, _, product) = e.rest.at(i);
        total = total.then(Extent::signs(1).then(product_extent(product)));
    }
    total
}

#[cycle(measure)]
fn product_extent(e: &Product) -> Extent
    ensures { Measures result (product_extent e.now) }
{
    let mut total = unary_extent(&e.first);
    for i in 0..e.rest.len() {
        let (_, _, factor) = e.rest.at(i);
        total = total.then(Extent::signs(1).then(unary_extent(factor)));
    }
    total
}

#[cycle(measure)]
fn unary_extent(e: &Unary) -> Extent
    ensures { Measures result (unary_extent e.now) }
{
    Extent::signs(e.signs.len()).then(atom_extent(&e.atom))
}

#[cycle(measure)]
fn atom_extent(e: &Atom) -> Extent
    ensures { Measures result (atom_extent e.now) }
{
    match e {
        Atom::Whole(number) => Extent::number(number),
        Atom::Truth(_, _) => Extent::signs(1),
        Atom::Group(_, inner) => expr_extent(inner).in_brackets(),
        Atom::Named(name, _) => Extent::name(name),
        Atom::Cell(cell) => cell_extent(cell),
    }
}

#[cycle(measure)]
fn cell_extent(e: &CellRef) -> Extent
    ensures { Measures result (cell_extent e.now) }
{
    let index = inner_index(&e.family);
    let cell = expr_extent(&e.cell).in_brackets();
    Extent::name(&e.name).then(index).then(cell)
}

#[cycle(measure)]
fn inner_index(index: &Option<Expr>) -> Extent
    ensures { Measures result (inner_index index.now) }
{
    match index {
        None => Extent::nothing(),
        Some(index) => expr_extent(index).in_brackets(),
    }
}

fn outermost(e: &Expr) -> Extent
    ensures { Measures result (outermost e.now) }
{
    expr_extent(e).limited()
}

fn outer_index(index: &Option<Expr>) -> Extent
    ensures { Measures result (outer_index index.now) }
{
    match index {
        None => Extent::nothing(),
        Some(index) => outermost(index).in_brackets(),
    }
}

fn target_extent(target: &CellRef) -> Extent
    ensures { Measures result (target_extent target.now) }
{
    let index = outer_index(&target.family);
    let cell = outermost(&target.cell).in_brackets();
    Extent::name(&target.name).then(index).then(cell)
}

fn object_extent(object: &ObjectRef) -> Extent
    ensures { Measures result (object_extent object.now) }
{
    Extent::name(&object.name).then(outer_index(&object.member))
}

fn names_extent(names: &NameList) -> Extent
    ensures { Measures result (names_extent names.now) }
{
    let mut total = Extent::nothing();
    for i in 0..names.len() {
        total = total.then(Extent::name(&names.at(i).name));
    }
    total.then(Extent::signs_between(names.len()))
}

/// So many signs, a name and an expression.
fn named_value(count: usize, name: &Name, value: &Expr) -> Extent
    ensures { Measures result (signs count ⊕ name_extent name.now ⊕ outermost value.now) }
{
    Extent::signs(count)
        .then(Extent::name(name))
        .then(outermost(value))
}

fn store_extent(target: &CellRef, value: &Expr) -> Extent
    ensures { Measures result (signs 2 ⊕ target_extent target.now ⊕ outermost value.now) }
{
    Extent::signs(2)
        .then(target_extent(target))
        .then(outermost(value))
}

/// What stands before the first branch.
fn test_extent(test: &Expr) -> Extent
    ensures { Measures result (signs 1 ⊕ outermost test.now) }
{
    Extent::signs(1).then(outermost(test))
}

/// What stands before the body of a loop.
fn bounds_extent(name: &Name, low: &Expr, high: &Expr) -> Extent
    ensures { Measures result (signs 3 ⊕ name_extent name.now ⊕ outermost low.now ⊕ outermost high.now) }
{
    named_value(3, name, low).then(outermost(high))
}

fn declare_extent(object: &ObjectRef) -> Extent
    ensures { Measures result (signs 2 ⊕ in_brackets (object_extent object.now)) }
{
    Extent::signs(2).then(object_extent(object).in_brackets())
}

#[cycle(blocks)]
fn statement_extent(statement: &Statement) -> Extent
    ensures { Measures result (statement_extent statement.now) }
{
    match statement {
        Statement::Local { name, value, .. } => named_value(3, name, value),
        Statement::Assign { name, value, .. } => named_value(2, name, value),
        Statement::Store { target, value } => store_extent(target, value),
        Statement::If {
            test,
            then,
            otherwise,
        } => {
            let first = test_extent(test).then(block_extent(then));
            match otherwise {
                None => first.then(Extent::nothing()),
                Some(block) => first.then(Extent::signs(1).then(block_extent(block))),
            }
        }
        Statement::For {
            name,
            pos: _,
            low,
            high,
            body,
        } => bounds_extent(name, low, high).then(block_extent(body)),
        Statement::Withonly {
            pos: _,
            section,
            names,
            body,
        } => {
            let made = Extent::signs(2).then(block_extent(section));
            let handed = made.then(names_extent(names).in_brackets());
            handed.then(block_extent(body))
        }
        Statement::With { section, .. } => Extent::signs(3).then(block_extent(section)),
        Statement::Declare { object, .. } => declare_extent(object),
    }
}

#[cycle(blocks)]
fn block_extent(block: &Block) -> Extent
    ensures { Measures result (block_extent block.now) }
{
    let mut total = Extent::nothing();
    for i in 0..block.len() {
        total = total.then(statement_extent(block.at(i)));
    }
    total.in_brackets()
}

fn item_extent(item: &Item) -> Extent
    ensures { Measures result (item_extent item.now) }
{
    match item {
        Item::Input { name, .. } => Extent::signs(2).then(Extent::name(name)),
        Item::Single { name, size, .. } => {
            Extent::signs(3)
                .then(Extent::name(name))
                .then(Extent::number(size))
        }
        Item::Family {
            name,
            pos: _,
            count,
            size,
        } => {
            let members = Extent::number(count).in_brackets();
            Extent::signs(3)
                .then(Extent::name(name))
                .then(members)
                .then(Extent::number(size))
        }
    }
}

/// How far a program reaches.
pub(crate) fn program_extent(items: &Items, main: &Block) -> Extent
    ensures { Measures result (program_extent items.now main.now) }
{
    let mut total = Extent::nothing();
    for i in 0..items.len() {
        total = total.then(item_extent(items.at(i)));
    }
    total.then(Extent::signs(1)).then(block_extent(main))
}
