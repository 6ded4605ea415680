//! What every task of a run has, what a task has of its own, and the values of expressions.

ghost use Rattle.std.specs.Prelude.{◌≡◌, ◌+◌, ◌≤◌};
ghost use Rattle.jade_syntax.specs.declared.objects.TheConstants.{OBJECT_LIMIT};
ghost use Rattle.jade_syntax.specs.Abstract.{Cell};
ghost use Rattle.jade_syntax.specs.Image.{expression, and_expression, compare_expression, sum_expression, product_expression, unary_expression};
ghost use Rattle.jade_syntax.specs.Image.{atom_expression, reference, placed, member};
ghost use Rattle.jade_meaning.specs.Values.{index_in};
ghost use Rattle.jade_meaning.specs.steps.Direct.{worth, located, blame_at, member_of, indexed};
ghost use Rattle.jade_meaning.specs.steps.Evaluation.{evaluated, source, evaluate, evaluate_object, evaluate_read};

use crate::dense_spec::DenseSpec;
use crate::draft::Draft;
use crate::numbers::index_below;
use crate::resolve::{DeclaredItems, Range, ResolvedObject};
use crate::run_state::Store;
use crate::scope::Scope;
use crate::source::{Cells, Pause};
use crate::tally::Tally;
use crate::values::Value;
use jade_base::{Blame, FaultKind, Pos, Right};
use jade_syntax::Name;
use jade_syntax::tree::{AndExpr, Atom, CellRef, Compare, Expr, Product, Sum, Unary};
use std::alloc::Global;

/// What a task has of its own.
#[derive(Drop)]
pub(crate) struct Task<'c> {
    pub(crate) scope: Scope<'c>,
    pub(crate) spec: DenseSpec,
    pub(crate) draft: Draft,
    pub(crate) tally: Tally,
}

/// What every task of a run has: the items, the inputs as variables, and the steps that one task
/// may begin.
#[derive(Drop)]
pub(crate) struct Setting<'c> {
    pub(crate) alloc: Global,
    pub(crate) items: DeclaredItems<'c>,
    pub(crate) given: Scope<'c>,
    pub(crate) limit: u32,
}

/// A fault at a place.
pub(crate) fn blame_at(kind: FaultKind, at: Pos) -> Blame
    ensures { result ≡ blame_at kind at }
{
    Blame {
        kind,
        pos: Some(at),
    }
}

/// A member of a family, or the fault `object`.
fn member_of(range: Range, index: i64, at: Pos) -> Result<ResolvedObject, Blame>
    requires { range.first + range.count ≤ OBJECT_LIMIT }
    ensures { result ≡ member_of range index at }
{
    match index_below(index, range.count) {
        Some(index) => Ok(ResolvedObject {
            number: range.first + index,
            size: range.size,
        }),
        None => Err(blame_at(FaultKind::Object, at)),
    }
}

/// A cell of an object, or the fault `index`.
pub(crate) fn cell_of(found: ResolvedObject, index: i64, at: Pos) -> Result<usize, Blame>
    ensures { result ≡ indexed (index_in index found.size) FaultKind.Index at }
{
    match index_below(index, found.size) {
        Some(cell) => Ok(cell),
        None => Err(blame_at(FaultKind::Index, at)),
    }
}

/// What a cell holds, or the fault `right`.
fn read(
    spec: &DenseSpec,
    cells: &Cells,
    used: &mut usize,
    object: usize,
    cell: usize,
    at: Pos,
) -> Result<Value, Pause>
    ensures { evaluated result used.new ≡ evaluate_read spec.now (source cells.now) object cell at used.old }
{
    if !spec.on(object).may_read() {
        return Err(Pause::Fault(blame_at(FaultKind::Right, at)));
    }
    match cells.next(object, cell, used) {
        Some(number) => Ok(Value::IntOf(number)),
        None => Err(Pause::Awaits(object, cell)),
    }
}

impl<'c> Setting<'c> {
    /// The value of an expression, or its fault.
    #[cycle(evaluate)]
    pub(crate) fn evaluate(
        &self,
        task: &Task<'c>,
        cells: &Cells,
        used: &mut usize,
        e: &Expr,
    ) -> Result<Value, Pause>
        ensures { evaluated result used.new ≡ evaluate self.now.items task.now.scope task.now.spec (source cells.now) (expression e.now) used.old }
    {
        let mut value = match self.evaluate_and(task, cells, used, &e.first) {
            Ok(value) => value,
            Err(pause) => return Err(pause),
        };
        for i in 0..e.rest.len() {
            let (_, operand) = e.rest.at(i);
            if value.decides_or() {
                return Ok(value);
            }
            value = match self.evaluate_and(task, cells, used, operand) {
                Ok(value) => value,
                Err(pause) => return Err(pause),
            };
        }
        Ok(value)
    }

    #[cycle(evaluate)]
    fn evaluate_and(
        &self,
        task: &Task<'c>,
        cells: &Cells,
        used: &mut usize,
        e: &AndExpr,
    ) -> Result<Value, Pause>
        ensures { evaluated result used.new ≡ evaluate self.now.items task.now.scope task.now.spec (source cells.now) (and_expression e.now) used.old }
    {
        let mut value = match self.evaluate_compare(task, cells, used, &e.first) {
            Ok(value) => value,
            Err(pause) => return Err(pause),
        };
        for i in 0..e.rest.len() {
            let (_, operand) = e.rest.at(i);
            if value.decides_and() {
                return Ok(value);
            }
            value = match self.evaluate_compare(task, cells, used, operand) {
                Ok(value) => value,
                Err(pause) => return Err(pause),
            };
        }
        Ok(value)
    }

    #[cycle(evaluate)]
    fn evaluate_compare(
        &self,
        task: &Task<'c>,
        cells: &Cells,
        used: &mut usize,
        e: &Compare,
    ) -> Result<Value, Pause>
        ensures { evaluated result used.new ≡ evaluate self.now.items task.now.scope task.now.spec (source cells.now) (compare_expression e.now) used.old }
    {
        let left = match self.evaluate_sum(task, cells, used, &e.left) {
            Ok(value) => value,
            Err(pause) => return Err(pause),
        };
        match &e.right {
            None => Ok(left),
            Some((relation, _, right)) => match self.evaluate_sum(task, cells, used, right) {
                Ok(right) => Ok(left.compared(*relation, right)),
                Err(pause) => Err(pause),
            },
        }
    }

    #[cycle(evaluate)]
    fn evaluate_sum(
        &self,
        task: &Task<'c>,
        cells: &Cells,
        used: &mut usize,
        e: &Sum,
    ) -> Result<Value, Pause>
        ensures { evaluated result used.new ≡ evaluate self.now.items task.now.scope task.now.spec (source cells.now) (sum_expression e.now) used.old }
    {
        let mut value = match self.evaluate_product(task, cells, used, &e.first) {
            Ok(value) => value,
            Err(pause) => return Err(pause),
        };
        for i in 0..e.rest.len() {
            let (op, at, operand) = e.rest.at(i);
            let right = match self.evaluate_product(task, cells, used, operand) {
                Ok(value) => value,
                Err(pause) => return Err(pause),
            };
            value = match value.added(*op, right) {
                Ok(value) => value,
                Err(kind) => return Err(Pause::Fault(blame_at(kind, *at))),
            };
        }
        Ok(value)
    }

    #[cycle(evaluate)]
    fn evaluate_product(
        &self,
        task: &Task<'c>,
        cells: &Cells,
        used: &mut usize,
        e: &Product,
    ) -> Result<Value, Pause>
        ensures { evaluated result used.new ≡ evaluate self.now.items task.now.scope task.now.spec (source cells.now) (product_expression e.now) used.old }
    {
        let mut value = match self.evaluate_unary(task, cells, used, &e.first) {
            Ok(value) => value,
            Err(pause) => return Err(pause),
        };
        for i in 0..e.rest.len() {
            let (op, at, operand) = e.rest.at(i);
            let right = match self.evaluate_unary(task, cells, used, operand) {
                Ok(value) => value,
                Err(pause) => return Err(pause),
            };
            value = match value.multiplied(*op, right) {
                Ok(value) => value,
                Err(kind) => return Err(Pause::Fault(blame_at(kind, *at))),
            };
        }
        Ok(value)
    }

    #[cycle(evaluate)]
    fn evaluate_unary(
        &self,
        task: &Task<'c>,
        cells: &Cells,
        used: &mut usize,
        e: &Unary,
    ) -> Result<Value, Pause>
        ensures { evaluated result used.new ≡ evaluate self.now.items task.now.scope task.now.spec (source cells.now) (unary_expression e.now) used.old }
    {
        let mut value = match self.evaluate_atom(task, cells, used, &e.atom) {
            Ok(value) => value,
            Err(pause) => return Err(pause),
        };
        let mut left = e.signs.len();
        while left > 0 {
            left -= 1;
            let (sign, at) = e.signs.at(left);
            value = match value.signed(*sign) {
                Ok(value) => value,
                Err(kind) => return Err(Pause::Fault(blame_at(kind, *at))),
            };
        }
        Ok(value)
    }

    #[cycle(evaluate)]
    fn evaluate_atom(
        &self,
        task: &Task<'c>,
        cells: &Cells,
        used: &mut usize,
        e: &Atom,
    ) -> Result<Value, Pause>
        ensures { evaluated result used.new ≡ evaluate self.now.items task.now.scope task.now.spec (source cells.now) (atom_expression e.now) used.old }
    {
        match e {
            Atom::Whole(number) => Ok(Value::IntOf(number.value)),
            Atom::Truth(truth, _) => Ok(Value::BoolOf(*truth)),
            Atom::Group(_, inner) => self.evaluate(task, cells, used, inner),
            Atom::Named(name, _) => Ok(task.scope.value_of(name)),
            Atom::Cell(cell) => self.evaluate_cell(task, cells, used, cell),
        }
    }

    #[cycle(evaluate)]
    fn evaluate_cell(
        &self,
        task: &Task<'c>,
        cells: &Cells,
        used: &mut usize,
        e: &CellRef,
    ) -> Result<Value, Pause>
        ensures { evaluated result used.new
            ≡ evaluate self.now.items task.now.scope task.now.spec (source cells.now) (Cell (reference e.now).place (reference e.now).cell) used.old }
    {
        let found = match self.evaluate_object(task, cells, used, &e.name, e.pos, &e.family) {
            Ok(found) => found,
            Err(pause) => return Err(pause),
        };
        let index = match self.evaluate(task, cells, used, &e.cell) {
            Ok(value) => value.whole(),
            Err(pause) => return Err(pause),
        };
        match cell_of(found, index, e.pos) {
            Ok(cell) => read(&task.spec, cells, used, found.number, cell, e.pos),
            Err(blame) => Err(Pause::Fault(blame)),
        }
    }

    /// The object that is meant, or the fault.
    #[cycle(evaluate)]
    pub(crate) fn evaluate_object(
        &self,
        task: &Task<'c>,
        cells: &Cells,
        used: &mut usize,
        name: &Name,
        at: Pos,
        family: &Option<Expr>,
    ) -> Result<ResolvedObject, Pause>
        ensures { evaluated result used.new
            ≡ evaluate_object self.now.items task.now.scope task.now.spec (source cells.now) (placed name.now at (member family.now)) used.old }
    {
        let range = self.items.range(name);
        match family {
            None => Ok(ResolvedObject {
                number: range.first,
                size: range.size,
            }),
            Some(family) => match self.evaluate(task, cells, used, family) {
                Ok(value) => match member_of(range, value.whole(), at) {
                    Ok(found) => Ok(found),
                    Err(blame) => Err(Pause::Fault(blame)),
                },
                Err(pause) => Err(pause),
            },
        }
    }

    /// The value of an expression, or its fault, where the cells are those of a store.
    pub(crate) fn value(&self, task: &Task<'c>, store: &Store, e: &Expr) -> Result<Value, Blame>
        ensures { result ≡ worth self.now.items task.now.scope task.now.spec store.now (expression e.now) }
    {
        let mut used = 0;
        match self.evaluate(task, &Cells::Stored(store), &mut used, e) {
            Ok(value) => Ok(value),
            Err(Pause::Fault(blame)) => Err(blame),
            Err(Pause::Awaits(..)) => unreachable!(),
        }
    }

    /// The object that is meant, or the fault, where the cells are those of a store.
    pub(crate) fn located(
        &self,
        task: &Task<'c>,
        store: &Store,
        name: &Name,
        at: Pos,
        family: &Option<Expr>,
    ) -> Result<ResolvedObject, Blame>
        ensures { result ≡ located self.now.items task.now.scope task.now.spec store.now (placed name.now at (member family.now)) }
    {
        let mut used = 0;
        match self.evaluate_object(task, &Cells::Stored(store), &mut used, name, at, family) {
            Ok(found) => Ok(found),
            Err(Pause::Fault(blame)) => Err(blame),
            Err(Pause::Awaits(..)) => unreachable!(),
        }
    }
}
