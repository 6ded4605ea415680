//! What the names of expressions stand for.

ghost use Rattle.std.specs.Prelude.{[], ◌∷◌, OnOk};
ghost use Rattle.jade_syntax.specs.Image.{expression, and_expression, compare_expression, sum_expression, product_expression, unary_expression};
ghost use Rattle.jade_syntax.specs.Image.{atom_expression, reference, member};
ghost use Rattle.jade_syntax.specs.Numbering.{stand_of, expression_stands};
ghost use Rattle.jade_types.specs.steps.Bodies.{Puts, names_in, cell_stands, member_stands};

use crate::numbers::body::Body;
use jade_base::Memory;
use jade_syntax::tree::{AndExpr, Atom, CellRef, Compare, Expr, Product, Sum, Unary};
use jade_syntax::{Name, Stand, Stands};

/// Puts a stand last.
pub(crate) fn put(stands: &mut Stands, stand: Stand) -> Result<(), Memory>
    ensures { OnOk result (Puts stands.old stands.new (stand ∷ [])) }
{
    match stands.push(stand) {
        Ok(()) => Ok(()),
        Err(_) => Err(Memory),
    }
}

/// Puts last what a name stands for.
pub(crate) fn number_name(body: &Body, stands: &mut Stands, name: &Name) -> Result<(), Memory>
    ensures { OnOk result (Puts stands.old stands.new (stand_of name.now (names_in body.now) ∷ [])) }
{
    put(stands, body.stand_of(name))
}

#[cycle(expr)]
pub(crate) fn number_expr(body: &Body, stands: &mut Stands, e: &Expr) -> Result<(), Memory>
    ensures { OnOk result (Puts stands.old stands.new (expression_stands (names_in body.now) (expression e.now))) }
{
    number_and(body, stands, &e.first)?;
    for i in 0..e.rest.len() {
        let (_, conjunction) = e.rest.at(i);
        number_and(body, stands, conjunction)?;
    }
    Ok(())
}

#[cycle(expr)]
fn number_and(body: &Body, stands: &mut Stands, e: &AndExpr) -> Result<(), Memory>
    ensures { OnOk result (Puts stands.old stands.new (expression_stands (names_in body.now) (and_expression e.now))) }
{
    number_compare(body, stands, &e.first)?;
    for i in 0..e.rest.len() {
        let (_, comparison) = e.rest.at(i);
        number_compare(body, stands, comparison)?;
    }
    Ok(())
}

#[cycle(expr)]
fn number_compare(body: &Body, stands: &mut Stands, e: &Compare) -> Result<(), Memory>
    ensures { OnOk result (Puts stands.old stands.new (expression_stands (names_in body.now) (compare_expression e.now))) }
{
    number_sum(body, stands, &e.left)?;
    match &e.right {
        None => Ok(()),
        Some((_, _, right)) => number_sum(body, stands, right),
    }
}

#[cycle(expr)]
fn number_sum(body: &Body, stands: &mut Stands, e: &Sum) -> Result<(), Memory>
    ensures { OnOk result (Puts stands.old stands.new (expression_stands (names_in body.now) (sum_expression e.now))) }
{
    number_product(body, stands, &e.first)?;
    for i in 0..e.rest.len() {
        let (_, _, product) = e.rest.at(i);
        number_product(body, stands, product)?;
    }
    Ok(())
}

#[cycle(expr)]
fn number_product(body: &Body, stands: &mut Stands, e: &Product) -> Result<(), Memory>
    ensures { OnOk result (Puts stands.old stands.new (expression_stands (names_in body.now) (product_expression e.now))) }
{
    number_unary(body, stands, &e.first)?;
    for i in 0..e.rest.len() {
        let (_, _, factor) = e.rest.at(i);
        number_unary(body, stands, factor)?;
    }
    Ok(())
}

#[cycle(expr)]
fn number_unary(body: &Body, stands: &mut Stands, e: &Unary) -> Result<(), Memory>
    ensures { OnOk result (Puts stands.old stands.new (expression_stands (names_in body.now) (unary_expression e.now))) }
{
    number_atom(body, stands, &e.atom)
}

#[cycle(expr)]
fn number_atom(body: &Body, stands: &mut Stands, e: &Atom) -> Result<(), Memory>
    ensures { OnOk result (Puts stands.old stands.new (expression_stands (names_in body.now) (atom_expression e.now))) }
{
    match e {
        Atom::Whole(_) => Ok(()),
        Atom::Truth(_, _) => Ok(()),
        Atom::Group(_, inner) => number_expr(body, stands, inner),
        Atom::Named(name, _) => number_name(body, stands, name),
        Atom::Cell(cell) => number_cell(body, stands, cell),
    }
}

#[cycle(expr)]
pub(crate) fn number_cell(body: &Body, stands: &mut Stands, e: &CellRef) -> Result<(), Memory>
    ensures { OnOk result (Puts stands.old stands.new (cell_stands (names_in body.now) (reference e.now))) }
{
    number_name(body, stands, &e.name)?;
    number_member(body, stands, &e.family)?;
    number_expr(body, stands, &e.cell)
}

#[cycle(expr)]
pub(crate) fn number_member(
    body: &Body,
    stands: &mut Stands,
    index: &Option<Expr>,
) -> Result<(), Memory>
    ensures { OnOk result (Puts stands.old stands.new (member_stands (names_in body.now) (member index.now))) }
{
    match index {
        None => Ok(()),
        Some(index) => number_expr(body, stands, index),
    }
}
