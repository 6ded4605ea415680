//! A task, from one stop to the next.

ghost use Rattle.std.specs.Prelude.{◌≡◌, ◌<◌, length, slice_get, IfOk};
ghost use Rattle.task_machine.specs.Stages.{InSection};
ghost use Rattle.task_machine.specs.steps.Holding.{contents_of};
ghost use Rattle.task_machine.specs.steps.Running.{RunsOn};
ghost use Rattle.serial_machine.specs.steps.Pausing.{AllHeld, Outside, Stops};

use crate::ownership::begin_child;
use jade_base::{Blame, FaultKind, Memory};
use task_code::{DecodedInstruction, Form};
use task_machine::frame::{Frame, Pause, go_past};
use task_machine::holdings::Holdings;
use task_machine::play::advance;
use task_machine::section::{Own, amend, covers_child, declare_for_child, may_be_made};

/// Where a task stops.
#[derive(Clone, Copy, Debug, PartialEq, Eq)]
pub(crate) enum Stop {
    End,
    Fault(Blame),
    /// The body of this number begins as a child.
    Create(u32),
    /// The task's rights change.
    Change,
}

// A child is created, or a change is made, outside of a section for it, which no code of a program
// does. The error is want of memory.
fn outside(code: &[DecodedInstruction], own: &mut Own, frame: &Frame) -> Result<Stop, Memory>
    requires place { frame.now.place < length code.now }
    requires section { InSection (slice_get code.now frame.now.place) own.old.section → ⊥ }
    ensures { IfOk result (λ stop. Outside code.now own.old frame.now stop own.new) }
{
    let decoded = &code[frame.place];
    match decoded.form {
        Form::Create(number, pos) => {
            begin_child(own)?;
            if may_be_made(own) {
                if covers_child(own) {
                    Ok(Stop::Create(number))
                } else {
                    Ok(Stop::Fault(Blame {
                        kind: FaultKind::Cover,
                        pos: Some(pos),
                    }))
                }
            } else {
                Ok(Stop::Fault(Blame {
                    kind: FaultKind::Commute,
                    pos: Some(pos),
                }))
            }
        }
        _ => {
            amend(own);
            Ok(Stop::Change)
        }
    }
}

/// Goes on to the next stop. The error is want of memory.
pub(crate) fn go_on(
    code: &[DecodedInstruction],
    own: &mut Own,
    frame: &mut Frame,
    held: &mut Holdings,
) -> Result<Stop, Memory>
    requires runs { RunsOn code.now (length frame.old.slots.items) own.old.objects }
    requires held { AllHeld own.old.objects (contents_of held.old) }
    ensures { IfOk result (λ stop. Stops code.now own.old frame.old (contents_of held.old) stop own.new frame.new (contents_of held.new)) }
{
    'run: loop {
        match advance(code, own, frame, held) {
            Pause::Declare(object, rights) => {
                let alloc = own.alloc;
                declare_for_child(own, alloc, object, rights)?;
                go_past(code, frame);
            }
            Pause::End => return Ok(Stop::End),
            Pause::Fault(blame) => return Ok(Stop::Fault(blame)),
            Pause::Create(number) => return Ok(Stop::Create(number)),
            Pause::Change => return Ok(Stop::Change),
            Pause::Take(_) => unreachable!(),
            Pause::Other => {
                let stop = outside(code, own, frame)?;
                return Ok(stop);
            }
        }
    }
}
