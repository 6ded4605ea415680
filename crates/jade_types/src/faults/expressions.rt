//! The faults of expressions.

ghost use Rattle.std.specs.Prelude.{◌≡◌, [], ◌∷◌, Some};
ghost use Rattle.jade_syntax.specs.PlacedImage.{term, and_term, compare_term, sum_term, product_term, unary_term, atom_term, reference, named_object, member};
ghost use Rattle.jade_syntax.specs.Placed.{Cell};
ghost use Rattle.jade_syntax.specs.StaticFaults.{Uses, found, object_sites, needed, sign_kind};
ghost use Rattle.jade_types.specs.steps.Meanings.{used};
ghost use Rattle.jade_types.specs.steps.Noted.{Noted, Visited};
ghost use Rattle.jade_types.specs.steps.Scoped.{in_scope};

use crate::faults::names::{Scope, Use, kind_of_name, wrong_use};
use crate::faults::notes::{Notes, Seen};
use jade_base::Pos;
use jade_syntax::Name;
use jade_syntax::tree::{
    AndExpr, Atom, CellRef, Compare, Expr, Product, Sum, Unary, UnaryOp, ValueKind,
};

/// What a sign needs, which is what it gives.
fn sign_kind(sign: UnaryOp) -> ValueKind
    ensures { result ≡ sign_kind sign }
{
    match sign {
        UnaryOp::Negative => ValueKind::Int,
        UnaryOp::Not => ValueKind::Bool,
    }
}

/// Goes through the use of a name.
pub(crate) fn visit_use(notes: &mut Notes, scope: &Scope<'_, '_>, how: Use, name: &Name, pos: Pos)
    ensures { Noted notes.old notes.new (Uses (used how) name.now pos (in_scope scope.now) ∷ []) }
{
    notes.note(pos, wrong_use(how, scope.found(name)));
}

#[cycle(expr)]
pub(crate) fn visit_expr(notes: &mut Notes, scope: &Scope<'_, '_>, e: &Expr) -> Seen
    ensures { Visited notes.old notes.new result (in_scope scope.now) (term e.now) }
{
    let first = visit_and(notes, scope, &e.first);
    if e.rest.len() == 0 {
        return first;
    }
    notes.needs(ValueKind::Bool, first);
    for i in 0..e.rest.len() {
        let (_, operand) = e.rest.at(i);
        let seen = visit_and(notes, scope, operand);
        notes.needs(ValueKind::Bool, seen);
    }
    Seen {
        kind: Some(ValueKind::Bool),
        pos: first.pos,
    }
}

#[cycle(expr)]
fn visit_and(notes: &mut Notes, scope: &Scope<'_, '_>, e: &AndExpr) -> Seen
    ensures { Visited notes.old notes.new result (in_scope scope.now) (and_term e.now) }
{
    let first = visit_compare(notes, scope, &e.first);
    if e.rest.len() == 0 {
        return first;
    }
    notes.needs(ValueKind::Bool, first);
    for i in 0..e.rest.len() {
        let (_, operand) = e.rest.at(i);
        let seen = visit_compare(notes, scope, operand);
        notes.needs(ValueKind::Bool, seen);
    }
    Seen {
        kind: Some(ValueKind::Bool),
        pos: first.pos,
    }
}

#[cycle(expr)]
fn visit_compare(notes: &mut Notes, scope: &Scope<'_, '_>, e: &Compare) -> Seen
    ensures { Visited notes.old notes.new result (in_scope scope.now) (compare_term e.now) }
{
    let left = visit_sum(notes, scope, &e.left);
    match &e.right {
        None => left,
        Some((_, _, right)) => {
            notes.needs(ValueKind::Int, left);
            let right = visit_sum(notes, scope, right);
            notes.needs(ValueKind::Int, right);
            Seen {
                kind: Some(ValueKind::Bool),
                pos: left.pos,
            }
        }
    }
}

#[cycle(expr)]
fn visit_sum(notes: &mut Notes, scope: &Scope<'_, '_>, e: &Sum) -> Seen
    ensures { Visited notes.old notes.new result (in_scope scope.now) (sum_term e.now) }
{
    let first = visit_product(notes, scope, &e.first);
    if e.rest.len() == 0 {
        return first;
    }
    notes.needs(ValueKind::Int, first);
    for i in 0..e.rest.len() {
        let (_, _, operand) = e.rest.at(i);
        let seen = visit_product(notes, scope, operand);
        notes.needs(ValueKind::Int, seen);
    }
    Seen {
        kind: Some(ValueKind::Int),
        pos: first.pos,
    }
}

#[cycle(expr)]
fn visit_product(notes: &mut Notes, scope: &Scope<'_, '_>, e: &Product) -> Seen
    ensures { Visited notes.old notes.new result (in_scope scope.now) (product_term e.now) }
{
    let first = visit_unary(notes, scope, &e.first);
    if e.rest.len() == 0 {
        return first;
    }
    notes.needs(ValueKind::Int, first);
    for i in 0..e.rest.len() {
        let (_, _, operand) = e.rest.at(i);
        let seen = visit_unary(notes, scope, operand);
        notes.needs(ValueKind::Int, seen);
    }
    Seen {
        kind: Some(ValueKind::Int),
        pos: first.pos,
    }
}

#[cycle(expr)]
fn visit_unary(notes: &mut Notes, scope: &Scope<'_, '_>, e: &Unary) -> Seen
    ensures { Visited notes.old notes.new result (in_scope scope.now) (unary_term e.now) }
{
    let mut seen = visit_atom(notes, scope, &e.atom);
    let mut left = e.signs.len();
    while left > 0 {
        left -= 1;
        let (sign, pos) = e.signs.at(left);
        let kind = sign_kind(*sign);
        notes.needs(kind, seen);
        seen = Seen {
            kind: Some(kind),
            pos: *pos,
        };
    }
    seen
}

#[cycle(expr)]
fn visit_atom(notes: &mut Notes, scope: &Scope<'_, '_>, e: &Atom) -> Seen
    ensures { Visited notes.old notes.new result (in_scope scope.now) (atom_term e.now) }
{
    match e {
        Atom::Whole(number) => Seen {
            kind: Some(ValueKind::Int),
            pos: number.pos,
        },
        Atom::Truth(_, pos) => Seen {
            kind: Some(ValueKind::Bool),
            pos: *pos,
        },
        Atom::Group(pos, inner) => {
            let seen = visit_expr(notes, scope, inner);
            Seen {
                kind: seen.kind,
                pos: *pos,
            }
        }
        Atom::Named(name, pos) => {
            visit_use(notes, scope, Use::Value, name, *pos);
            Seen {
                kind: kind_of_name(scope.found(name)),
                pos: *pos,
            }
        }
        Atom::Cell(cell) => visit_cell(notes, scope, cell),
    }
}

#[cycle(expr)]
pub(crate) fn visit_cell(notes: &mut Notes, scope: &Scope<'_, '_>, e: &CellRef) -> Seen
    ensures { Visited notes.old notes.new result (in_scope scope.now) (Cell (reference e.now).place (reference e.now).cell) }
{
    visit_object(notes, scope, &e.name, e.pos, &e.family);
    let index = visit_expr(notes, scope, &e.cell);
    notes.needs(ValueKind::Int, index);
    Seen {
        kind: Some(ValueKind::Int),
        pos: e.pos,
    }
}

/// Goes through an object, of which the member is given that is meant, if it is a family's.
#[cycle(expr)]
pub(crate) fn visit_object(
    notes: &mut Notes,
    scope: &Scope<'_, '_>,
    name: &Name,
    pos: Pos,
    index: &Option<Expr>,
)
    ensures { Noted notes.old notes.new (object_sites (in_scope scope.now) (named_object name.now pos (member index.now))) }
{
    match index {
        None => visit_use(notes, scope, Use::Single, name, pos),
        Some(index) => {
            visit_use(notes, scope, Use::Family, name, pos);
            let seen = visit_expr(notes, scope, index);
            notes.needs(ValueKind::Int, seen);
        }
    }
}

/// Goes through an expression that must be of a kind.
pub(crate) fn visit_needed(notes: &mut Notes, scope: &Scope<'_, '_>, kind: ValueKind, e: &Expr)
    ensures { Noted notes.old notes.new (needed kind (in_scope scope.now) (term e.now)) }
{
    let seen = visit_expr(notes, scope, e);
    notes.needs(kind, seen);
}
