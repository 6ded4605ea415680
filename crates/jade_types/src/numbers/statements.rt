//! What the names of statements stand for.

ghost use Rattle.std.specs.Prelude.{◌∷◌, ◌++◌, map, OnOk};
ghost use Rattle.jade_syntax.specs.declared.stands.Stand.TheVariants.{Slot};
ghost use Rattle.jade_syntax.specs.declared.tree.ValueKind.{ValueKind};
ghost use Rattle.jade_syntax.specs.Abstract.{Local, Assign, Store};
ghost use Rattle.jade_syntax.specs.Image.{expression, reference, action, block as actions_of, object as place_of};
ghost use Rattle.jade_syntax.specs.Numbering.{expression_stands, name_stands, place_stands};
ghost use Rattle.jade_types.specs.steps.Bodies.{Puts, Goes, GoesRound, GoesAll, names_in, created_in, all_in};

use crate::numbers::body::Body;
use crate::numbers::expressions::{number_cell, number_expr, number_member, number_name, put};
use jade_base::Memory;
use jade_syntax::tree::{Block, CellRef, Expr, NameList, ObjectRef, Statement};
use jade_syntax::{Name, Stands};

fn number_object(body: &Body, stands: &mut Stands, object: &ObjectRef) -> Result<(), Memory>
    ensures { OnOk result (Puts stands.old stands.new (place_stands (names_in body.now) (place_of object.now))) }
{
    number_name(body, stands, &object.name)?;
    number_member(body, stands, &object.member)
}

fn number_names(body: &Body, stands: &mut Stands, names: &NameList) -> Result<(), Memory>
    ensures { OnOk result (Puts stands.old stands.new (name_stands (names_in body.now) (map (λ n. n.name) names.now))) }
{
    for i in 0..names.len() {
        number_name(body, stands, &names.at(i).name)?;
    }
    Ok(())
}

/// Goes through a local, which takes the next slot and is in scope from its end on.
fn number_local<'p>(
    body: &mut Body<'_, 'p>,
    stands: &mut Stands,
    name: &'p Name,
    value: &Expr,
) -> Result<(), Memory>
    ensures { (kind : ValueKind) → OnOk result (Goes body.old body.new stands.old stands.new (Local kind name.now (expression value.now))) }
{
    put(stands, body.next_slot())?;
    number_expr(body, stands, value)?;
    body.declare(name, 1)
}

fn number_assign(body: &Body, stands: &mut Stands, name: &Name, value: &Expr) -> Result<(), Memory>
    ensures { OnOk result (Goes body.now body.now stands.old stands.new (Assign name.now (expression value.now))) }
{
    number_name(body, stands, name)?;
    number_expr(body, stands, value)
}

fn number_store(
    body: &Body,
    stands: &mut Stands,
    target: &CellRef,
    value: &Expr,
) -> Result<(), Memory>
    ensures { OnOk result (Goes body.now body.now stands.old stands.new
        (Store (reference target.now).place (reference target.now).cell (expression value.now))) }
{
    number_cell(body, stands, target)?;
    number_expr(body, stands, value)
}

/// Puts last the slot of a loop's variable, and what the names of its bounds stand for.
fn number_bounds(body: &Body, stands: &mut Stands, low: &Expr, high: &Expr) -> Result<(), Memory>
    ensures { OnOk result (Puts stands.old stands.new (Slot body.now.slots
        ∷ (expression_stands (names_in body.now) (expression low.now) ++ expression_stands (names_in body.now) (expression high.now)))) }
{
    put(stands, body.next_slot())?;
    number_expr(body, stands, low)?;
    number_expr(body, stands, high)
}

#[cycle(statement)]
fn number_statement<'p>(
    body: &mut Body<'_, 'p>,
    stands: &mut Stands,
    statement: &'p Statement,
) -> Result<(), Memory>
    ensures { OnOk result (Goes body.old body.new stands.old stands.new (action statement.now)) }
{
    match statement {
        Statement::Local { name, value, .. } => number_local(body, stands, name, value),
        Statement::Assign { name, value, .. } => number_assign(body, stands, name, value),
        Statement::Store { target, value } => number_store(body, stands, target, value),
        Statement::If {
            test,
            then,
            otherwise,
        } => {
            number_expr(body, stands, test)?;
            number_block(body, stands, then)?;
            match otherwise {
                None => Ok(()),
                Some(block) => number_block(body, stands, block),
            }
        }
        Statement::For {
            name,
            low,
            high,
            body: turns,
            ..
        } => {
            number_bounds(body, stands, low, high)?;
            number_turns(body, stands, name, turns)
        }
        Statement::Withonly {
            section,
            names,
            body: task,
            ..
        } => {
            number_block(body, stands, section)?;
            number_task(body, stands, names, task)
        }
        Statement::With { section, .. } => number_block(body, stands, section),
        Statement::Declare { object, .. } => number_object(body, stands, object),
    }
}

/// Goes through the body of a loop, whose variable and bound take two slots, and which ends with
/// its variable.
#[cycle(statement)]
fn number_turns<'p>(
    body: &mut Body<'_, 'p>,
    stands: &mut Stands,
    name: &'p Name,
    turns: &'p Block,
) -> Result<(), Memory>
    ensures { OnOk result (GoesRound body.old body.new stands.old stands.new name.now (actions_of turns.now)) }
{
    let outer = body.len();
    body.declare(name, 2)?;
    number_block(body, stands, turns)?;
    body.leave(outer);
    Ok(())
}

/// Goes through the names that a task is handed, and its body, whose variables they are.
#[cycle(statement)]
fn number_task<'p>(
    body: &Body<'_, 'p>,
    stands: &mut Stands,
    names: &'p NameList,
    task: &'p Block,
) -> Result<(), Memory>
    ensures { let xs = map (λ n. n.name) names.now in
        OnOk result (Puts stands.old stands.new (name_stands (names_in body.now) xs ++ (all_in (created_in body.now xs) (actions_of task.now)).stands)) }
{
    number_names(body, stands, names)?;
    let mut created = body.created(names)?;
    number_block(&mut created, stands, task)
}

/// Goes through the statements of a block, whose variables end with it.
#[cycle(statement)]
pub(crate) fn number_block<'p>(
    body: &mut Body<'_, 'p>,
    stands: &mut Stands,
    block: &'p Block,
) -> Result<(), Memory>
    ensures { OnOk result (GoesAll body.old body.new stands.old stands.new (actions_of block.now)) }
{
    let outer = body.len();
    for i in 0..block.len() {
        number_statement(body, stands, block.at(i))?;
    }
    body.leave(outer);
    Ok(())
}
