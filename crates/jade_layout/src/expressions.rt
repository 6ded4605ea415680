//! Printing expressions.

ghost use Rattle.std.specs.Prelude.{◌≡◌, [], ◌∷◌, OnOk};
ghost use Rattle.jade_layout.specs.Spelling.{expr_tokens, and_tokens, compare_tokens, sum_tokens, product_tokens, unary_tokens, atom_tokens, cell_tokens};
ghost use Rattle.jade_layout.specs.Spelling.{product_sign, relation_sign, sum_sign, unary_sign, truth_word, number_token, bracketed, object_index};
ghost use Rattle.jade_layout.specs.Printed.{Adds};

use crate::printer::Printer;
use jade_base::Memory;
use jade_syntax::Name;
use jade_syntax::tree::{
    AndExpr, Atom, CellRef, Compare, Expr, Number, Product, ProductOp, Relation, Sum, SumOp, Unary,
    UnaryOp,
};

fn relation_text(sign: Relation) -> &'static [u8]
    ensures { result.now ≡ relation_sign sign }
{
    match sign {
        Relation::Equal => b"==",
        Relation::Unequal => b"!=",
        Relation::Less => b"<",
        Relation::LessEqual => b"<=",
        Relation::Greater => b">",
        Relation::GreaterEqual => b">=",
    }
}

fn put_relation(printer: &mut Printer, sign: Relation) -> Result<(), Memory>
    ensures { OnOk result (Adds printer.old printer.new (relation_sign sign ∷ [])) }
{
    printer.put(relation_text(sign))
}

fn sum_text(sign: SumOp) -> &'static [u8]
    ensures { result.now ≡ sum_sign sign }
{
    match sign {
        SumOp::Plus => b"+",
        SumOp::Minus => b"-",
    }
}

fn put_sum_sign(printer: &mut Printer, sign: SumOp) -> Result<(), Memory>
    ensures { OnOk result (Adds printer.old printer.new (sum_sign sign ∷ [])) }
{
    printer.put(sum_text(sign))
}

fn product_text(sign: ProductOp) -> &'static [u8]
    ensures { result.now ≡ product_sign sign }
{
    match sign {
        ProductOp::Times => b"*",
        ProductOp::Over => b"/",
        ProductOp::Remainder => b"%",
    }
}

fn put_product_sign(printer: &mut Printer, sign: ProductOp) -> Result<(), Memory>
    ensures { OnOk result (Adds printer.old printer.new (product_sign sign ∷ [])) }
{
    printer.put(product_text(sign))
}

fn sign_text(sign: UnaryOp) -> &'static [u8]
    ensures { result.now ≡ unary_sign sign }
{
    match sign {
        UnaryOp::Negative => b"-",
        UnaryOp::Not => b"!",
    }
}

fn put_sign(printer: &mut Printer, sign: UnaryOp) -> Result<(), Memory>
    ensures { OnOk result (Adds printer.old printer.new (unary_sign sign ∷ [])) }
{
    printer.put(sign_text(sign))
}

pub(crate) fn put_name(printer: &mut Printer, name: &Name) -> Result<(), Memory>
    ensures { OnOk result (Adds printer.old printer.new (name.now ∷ [])) }
{
    printer.put(name.bytes())
}

pub(crate) fn put_number(printer: &mut Printer, number: &Number) -> Result<(), Memory>
    ensures { OnOk result (Adds printer.old printer.new (number_token number.now ∷ [])) }
{
    printer.put_decimal(number.value)
}

fn put_truth(printer: &mut Printer, truth: bool) -> Result<(), Memory>
    ensures { OnOk result (Adds printer.old printer.new (truth_word truth ∷ [])) }
{
    if truth {
        printer.put(b"true")
    } else {
        printer.put(b"false")
    }
}

#[cycle(expr)]
pub(crate) fn put_expr(printer: &mut Printer, e: &Expr) -> Result<(), Memory>
    ensures { OnOk result (Adds printer.old printer.new (expr_tokens e.now)) }
{
    put_and(printer, &e.first)?;
    for i in 0..e.rest.len() {
        let (_, conjunction) = e.rest.at(i);
        printer.put(b"||")?;
        put_and(printer, conjunction)?;
    }
    Ok(())
}

#[cycle(expr)]
pub(crate) fn put_and(printer: &mut Printer, e: &AndExpr) -> Result<(), Memory>
    ensures { OnOk result (Adds printer.old printer.new (and_tokens e.now)) }
{
    put_compare(printer, &e.first)?;
    for i in 0..e.rest.len() {
        let (_, comparison) = e.rest.at(i);
        printer.put(b"&&")?;
        put_compare(printer, comparison)?;
    }
    Ok(())
}

#[cycle(expr)]
pub(crate) fn put_compare(printer: &mut Printer, e: &Compare) -> Result<(), Memory>
    ensures { OnOk result (Adds printer.old printer.new (compare_tokens e.now)) }
{
    put_sum(printer, &e.left)?;
    match &e.right {
        None => Ok(()),
        Some((relation, _, right)) => {
            put_relation(printer, *relation)?;
            put_sum(printer, right)
        }
    }
}

#[cycle(expr)]
pub(crate) fn put_sum(printer: &mut Printer, e: &Sum) -> Result<(), Memory>
    ensures { OnOk result (Adds printer.old printer.new (sum_tokens e.now)) }
{
    put_product(printer, &e.first)?;
    for i in 0..e.rest.len() {
        let (op, _, product) = e.rest.at(i);
        put_sum_sign(printer, *op)?;
        put_product(printer, product)?;
    }
    Ok(())
}

#[cycle(expr)]
pub(crate) fn put_product(printer: &mut Printer, e: &Product) -> Result<(), Memory>
    ensures { OnOk result (Adds printer.old printer.new (product_tokens e.now)) }
{
    put_unary(printer, &e.first)?;
    for i in 0..e.rest.len() {
        let (op, _, factor) = e.rest.at(i);
        put_product_sign(printer, *op)?;
        put_unary(printer, factor)?;
    }
    Ok(())
}

#[cycle(expr)]
pub(crate) fn put_unary(printer: &mut Printer, e: &Unary) -> Result<(), Memory>
    ensures { OnOk result (Adds printer.old printer.new (unary_tokens e.now)) }
{
    for i in 0..e.signs.len() {
        let (sign, _) = e.signs.at(i);
        put_sign(printer, *sign)?;
    }
    put_atom(printer, &e.atom)
}

#[cycle(expr)]
pub(crate) fn put_atom(printer: &mut Printer, e: &Atom) -> Result<(), Memory>
    ensures { OnOk result (Adds printer.old printer.new (atom_tokens e.now)) }
{
    match e {
        Atom::Whole(number) => put_number(printer, number),
        Atom::Truth(truth, _) => put_truth(printer, *truth),
        Atom::Group(_, inner) => {
            printer.put(b"(")?;
            put_expr(printer, inner)?;
            printer.put(b")")
        }
        Atom::Named(name, _) => put_name(printer, name),
        Atom::Cell(cell) => put_cell(printer, cell),
    }
}

#[cycle(expr)]
pub(crate) fn put_cell(printer: &mut Printer, e: &CellRef) -> Result<(), Memory>
    ensures { OnOk result (Adds printer.old printer.new (cell_tokens e.now)) }
{
    put_name(printer, &e.name)?;
    put_member(printer, &e.family)?;
    put_index(printer, &e.cell)
}

#[cycle(expr)]
pub(crate) fn put_member(printer: &mut Printer, index: &Option<Expr>) -> Result<(), Memory>
    ensures { OnOk result (Adds printer.old printer.new (object_index index.now)) }
{
    match index {
        None => Ok(()),
        Some(index) => put_index(printer, index),
    }
}

#[cycle(expr)]
pub(crate) fn put_index(printer: &mut Printer, index: &Expr) -> Result<(), Memory>
    ensures { OnOk result (Adds printer.old printer.new (bracketed (expr_tokens index.now))) }
{
    printer.put(b"[")?;
    put_expr(printer, index)?;
    printer.put(b"]")
}
