//! The faults of statements.

ghost use Rattle.std.specs.Prelude.{◌≡◌, [], ◌∷◌, ◌++◌, map, OnOk, IfOk};
ghost use Rattle.jade_syntax.specs.declared.tree.ValueKind.TheVariants.{Int};
ghost use Rattle.jade_syntax.specs.Placed.{Local, Assign, Store};
ghost use Rattle.jade_syntax.specs.PlacedImage.{term, reference, phrase, block, mentioned};
ghost use Rattle.jade_syntax.specs.StaticFaults.{Turns, Declares, known, given, needed, mention_sites, parameters, block_sites};
ghost use Rattle.jade_types.specs.steps.Noted.{Noted};
ghost use Rattle.jade_types.specs.steps.Passed.{Passed, PassedBlock};
ghost use Rattle.jade_types.specs.steps.Scoped.{in_scope};

use crate::faults::expressions::{visit_expr, visit_needed, visit_object, visit_use};
use crate::faults::names::{Meaning, Scope, Use, kind_of_name};
use crate::faults::notes::Notes;
use jade_base::{Memory, Pos};
use jade_syntax::Name;
use jade_syntax::tree::{Block, CellRef, Expr, NameList, Statement, ValueKind};

/// Goes through the declaration of a name that is not to be in scope.
fn visit_declared(notes: &mut Notes, scope: &Scope<'_, '_>, name: &Name, pos: Pos)
    ensures { Noted notes.old notes.new (Declares name.now pos (in_scope scope.now) ∷ []) }
{
    notes.declares(pos, scope.found(name).is_some());
}

/// Goes through a value that is given to a variable of a kind, if it has one.
fn visit_given(notes: &mut Notes, scope: &Scope<'_, '_>, kind: Option<ValueKind>, value: &Expr)
    ensures { Noted notes.old notes.new (given kind (in_scope scope.now) (term value.now)) }
{
    match kind {
        None => {
            let _ = visit_expr(notes, scope, value);
        }
        Some(kind) => visit_needed(notes, scope, kind, value),
    }
}

fn visit_assign(notes: &mut Notes, scope: &Scope<'_, '_>, name: &Name, pos: Pos, value: &Expr)
    ensures { Passed notes.old notes.new scope.now scope.now (Assign name.now pos (term value.now)) }
{
    visit_use(notes, scope, Use::Target, name, pos);
    visit_given(notes, scope, kind_of_name(scope.found(name)), value);
}

fn visit_store(notes: &mut Notes, scope: &Scope<'_, '_>, target: &CellRef, value: &Expr)
    ensures { Passed notes.old notes.new scope.now scope.now (Store (reference target.now).place (reference target.now).cell (term value.now)) }
{
    visit_object(notes, scope, &target.name, target.pos, &target.family);
    visit_needed(notes, scope, ValueKind::Int, &target.cell);
    visit_needed(notes, scope, ValueKind::Int, value);
}

fn visit_local<'p, 'k>(
    notes: &mut Notes,
    scope: &mut Scope<'p, 'k>,
    kind: ValueKind,
    name: &'p Name,
    pos: Pos,
    value: &Expr,
) -> Result<(), Memory>
    ensures { OnOk result (Passed notes.old notes.new scope.old scope.new (Local kind name.now pos (term value.now))) }
{
    visit_declared(notes, scope, name, pos);
    visit_needed(notes, scope, kind, value);
    scope.bind(name, Meaning::Holds(Some(kind)))
}

/// Goes through the names of a `do` list, and gives the names in scope in the body.
fn visit_names<'p, 'k>(
    notes: &mut Notes,
    scope: &Scope<'p, 'k>,
    names: &'p NameList,
) -> Result<Scope<'p, 'k>, Memory>
    ensures noted { OnOk result (Noted notes.old notes.new (mention_sites (in_scope scope.now) [] (map mentioned names.now))) }
    ensures scope { IfOk result (λ s. s ≡ record { locals = parameters (in_scope scope.now) [] (map mentioned names.now); items = scope.now.items }) }
{
    let mut body = scope.without_locals();
    for i in 0..names.len() {
        let named = names.at(i);
        let kind = kind_of_name(scope.found(&named.name));
        visit_use(notes, scope, Use::Handed, &named.name, named.pos);
        notes.declares(named.pos, body.found_local(&named.name).is_some());
        body.bind(&named.name, Meaning::Holds(kind))?;
    }
    Ok(body)
}

/// Goes through the declaration of a loop's variable, and the bounds.
fn visit_bounds(
    notes: &mut Notes,
    scope: &Scope<'_, '_>,
    name: &Name,
    pos: Pos,
    low: &Expr,
    high: &Expr,
)
    ensures { Noted notes.old notes.new (Declares name.now pos (in_scope scope.now)
        ∷ (needed Int (in_scope scope.now) (term low.now) ++ needed Int (in_scope scope.now) (term high.now))) }
{
    visit_declared(notes, scope, name, pos);
    visit_needed(notes, scope, ValueKind::Int, low);
    visit_needed(notes, scope, ValueKind::Int, high);
}

#[cycle(statement)]
fn visit_statement<'p, 'k>(
    notes: &mut Notes,
    scope: &mut Scope<'p, 'k>,
    statement: &'p Statement,
) -> Result<(), Memory>
    ensures { OnOk result (Passed notes.old notes.new scope.old scope.new (phrase statement.now)) }
{
    match statement {
        Statement::Local {
            kind,
            name,
            pos,
            value,
        } => visit_local(notes, scope, *kind, name, *pos, value)?,
        Statement::Assign { name, pos, value } => visit_assign(notes, scope, name, *pos, value),
        Statement::Store { target, value } => visit_store(notes, scope, target, value),
        Statement::If {
            test,
            then,
            otherwise,
        } => {
            visit_needed(notes, scope, ValueKind::Bool, test);
            visit_block(notes, scope, then)?;
            match otherwise {
                None => {}
                Some(block) => visit_block(notes, scope, block)?,
            }
        }
        Statement::For {
            name,
            pos,
            low,
            high,
            body,
        } => {
            visit_bounds(notes, scope, name, *pos, low, high);
            visit_turns(notes, scope, name, body)?;
        }
        Statement::Withonly {
            section,
            names,
            body,
            ..
        } => {
            visit_block(notes, scope, section)?;
            let mut inner = visit_names(notes, scope, names)?;
            visit_block(notes, &mut inner, body)?;
        }
        Statement::With { section, .. } => visit_block(notes, scope, section)?,
        Statement::Declare { object, .. } => {
            visit_object(notes, scope, &object.name, object.pos, &object.member);
        }
    }
    Ok(())
}

/// Goes through the body of a loop, whose variable ends with it.
#[cycle(statement)]
fn visit_turns<'p, 'k>(
    notes: &mut Notes,
    scope: &mut Scope<'p, 'k>,
    name: &'p Name,
    turns: &'p Block,
) -> Result<(), Memory>
    ensures noted { OnOk result (Noted notes.old notes.new (block_sites scope.old.items (known name.now Turns ∷ in_scope scope.old) (block turns.now))) }
    ensures scope { OnOk result (scope.new ≡ scope.old) }
{
    let len = scope.len();
    scope.bind(name, Meaning::Turns)?;
    visit_block(notes, scope, turns)?;
    scope.leave(len);
    Ok(())
}

/// Goes through the statements of a block, whose locals end with it.
#[cycle(statement)]
pub(crate) fn visit_block<'p, 'k>(
    notes: &mut Notes,
    scope: &mut Scope<'p, 'k>,
    statements: &'p Block,
) -> Result<(), Memory>
    ensures { OnOk result (PassedBlock notes.old notes.new scope.old scope.new (block statements.now)) }
{
    let len = scope.len();
    for i in 0..statements.len() {
        match visit_statement(notes, scope, statements.at(i)) {
            Ok(()) => {}
            Err(memory) => return Err(memory),
        }
    }
    scope.leave(len);
    Ok(())
}
