//! Whether the body of a loop leaves the variables of a key alone.

ghost use Rattle.std.specs.Prelude.{◌≡◌, true, IfOk};
ghost use Rattle.jade_syntax.specs.Image.{action, block as actions_of};
ghost use Rattle.task_translation.specs.Compile.{is_flat, all_flat};
ghost use Rattle.task_codegen.specs.Variables.{key_shown};
ghost use Rattle.task_codegen.specs.Steady.{Disturbs, DisturbsAll, InLoop, Steady};

use crate::keys::{Key, all_below, has_slot};
use crate::names::Names;
use jade_base::Memory;
use jade_syntax::tree::{Block, Statement};

/// A statement without loops and creations gives a slot of this key another number.
#[cycle(disturbs)]
fn disturbs<'p>(
    names: &mut Names<'_, 'p>,
    statement: &'p Statement,
    key: &Key,
) -> Result<bool, Memory>
    ensures { is_flat (action statement.now) ≡ true → IfOk result (λ r. Disturbs names.old names.new (key_shown key.now) (action statement.now) r) }
{
    match statement {
        Statement::Local { name, .. } => {
            let slot = names.next();
            names.declare(name, slot)?;
            Ok(false)
        }
        Statement::Assign { name, .. } => match names.slot_of(name) {
            None => Ok(false),
            Some(slot) => Ok(has_slot(key, slot)),
        },
        Statement::If {
            then,
            otherwise,
            ..
        } => {
            let first = all_disturb(names, then, key)?;
            match otherwise {
                None => Ok(first),
                Some(other) => {
                    let second = all_disturb(names, other, key)?;
                    Ok(first | second)
                }
            }
        }
        Statement::Store { .. } => Ok(false),
        Statement::For { .. } => Ok(false),
        Statement::Withonly { .. } => Ok(false),
        Statement::With { .. } => Ok(false),
        Statement::Declare { .. } => Ok(false),
    }
}

/// Statements without loops and creations give a slot of this key another number; their variables
/// end with the last.
#[cycle(disturbs)]
fn all_disturb<'p>(names: &mut Names<'_, 'p>, block: &'p Block, key: &Key) -> Result<bool, Memory>
    ensures { all_flat (actions_of block.now) ≡ true → IfOk result (λ r. DisturbsAll names.old names.new (key_shown key.now) (actions_of block.now) r) }
{
    let outer = names.len();
    let next = names.next();
    let mut any = false;
    for i in 0..block.len() {
        let own = disturbs(names, block.at(i), key)?;
        any = any | own;
    }
    names.leave(outer, next);
    Ok(any)
}

/// Each variable of a key is from outside a loop with these own slots, whose body leaves it alone.
pub(crate) fn is_steady<'p>(
    names: &mut Names<'_, 'p>,
    n: u32,
    body: &'p Block,
    key: &Key,
) -> Result<bool, Memory>
    ensures { InLoop names.old n (actions_of body.now) → IfOk result (λ r. Steady names.old names.new n (actions_of body.now) (key_shown key.now) r) }
{
    if !all_below(key, n) {
        return Ok(false);
    }
    let any = all_disturb(names, body, key)?;
    Ok(!any)
}
