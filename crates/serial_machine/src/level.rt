//! The tasks of a run: how each begins, and how it goes on after a section.

ghost use Rattle.std.specs.Prelude.{◌≡◌, ◌<◌, length, replicate, IfOk, OnOk};
ghost use Rattle.jade_base.specs.Rights.{both_rights};
ghost use Rattle.code_meaning.specs.Meaning.{given_slots};
ghost use Rattle.task_machine.specs.Stages.{copy_spread};
ghost use Rattle.task_machine.specs.steps.Owning.{rights_of};
ghost use Rattle.serial_machine.specs.steps.Levels.{Begins, BeginsChild, Passes, Ready, code_in, resumed};

use crate::ownership::take_child;
use jade_base::Memory;
use std::alloc::Global;
use task_code::DecodedCode;
use task_machine::execution::{child_slots, first_body, input_slots, instructions};
use task_machine::frame::{Frame, go_past};
use task_machine::section::{Own, all_rights, commit, outside_section};

/// A task of a run: the number of its body, what it has of its own, where it is in its code, and how
/// many children it has created whose run is over.
#[derive(Drop)]
pub(crate) struct Level {
    pub(crate) body: u32,
    pub(crate) own: Own,
    pub(crate) frame: Frame,
    pub(crate) children: u32,
}

// A task at its begin, with so many steps left.
fn begun(body: u32, own: Own, slots: Vec<i64>, left: u32) -> Level
    ensures { result ≡ record {
      body = body;
      own = own;
      frame = record { slots = slots; place = 0; left = left; events = 0 };
      children = 0;
    } }
{
    Level {
        body,
        own,
        frame: Frame {
            slots,
            place: 0,
            left,
            events: 0,
        },
        children: 0,
    }
}

/// The task of the first body at its begin, with all rights. The error is want of memory.
pub(crate) fn root(
    alloc: Global,
    code: &DecodedCode,
    numbers: &[i64],
    objects: u32,
    limit: u32,
) -> Result<Level, Memory>
    requires numbers { length numbers.now ≡ code.now.inputs }
    requires objects { objects ≡ length code.now.sizes }
    ensures { IfOk result (λ v. Begins code.now numbers.now v 0 limit (given_slots numbers.now) (replicate (length code.now.sizes) both_rights)) }
{
    first_body(code);
    let slots = input_slots(alloc, code, numbers, 0)?;
    let own = outside_section(alloc, objects, all_rights(alloc, objects)?);
    Ok(begun(0, own, slots, limit))
}

/// The task that a section has made a specification for, at its begin; its creator goes on after the
/// section. The error is want of memory.
pub(crate) fn create(
    alloc: Global,
    code: &DecodedCode,
    numbers: &[i64],
    parent: &mut Level,
    number: u32,
) -> Result<Level, Memory>
    requires there { number < length code.now.bodies }
    requires ready { Ready code.now numbers.now parent.old }
    requires place { parent.old.frame.place < length (code_in code.now parent.old) }
    ensures child { IfOk result (λ child. BeginsChild code.now numbers.now parent.old number child) }
    ensures parent { OnOk result (Passes parent.old parent.new (rights_of parent.old.own)) }
{
    let slots = child_slots(Vec::new(alloc), code, numbers, number, &parent.frame)?;
    let own = take_child(&mut parent.own);
    go_past(instructions(code, parent.body), &mut parent.frame);
    Ok(begun(number, own, slots, parent.frame.left))
}

/// The rights of a task are from here on what its section has made of them. It takes no memory.
pub(crate) fn change(code: &DecodedCode, level: &mut Level)
    requires there { level.old.body < length code.now.bodies }
    requires place { level.old.frame.place < length (code_in code.now level.old) }
    ensures { Passes level.old level.new (copy_spread level.old.own.objects level.old.own.spec) }
{
    commit(&mut level.own);
    go_past(instructions(code, level.body), &mut level.frame);
}

/// A task goes on after a child, with the steps that are left. The error is want of a number for one
/// more child.
pub(crate) fn resume(level: Level, left: u32) -> Result<Level, Memory>
    ensures { IfOk result (λ v. v ≡ resumed level left) }
{
    let mut level = level;
    match level.children.checked_add(1) {
        Some(children) => {
            level.children = children;
            level.frame.left = left;
            Ok(level)
        }
        None => Err(Memory),
    }
}
