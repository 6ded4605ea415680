//! A run by an explicit stack of its tasks.

ghost use Rattle.std.specs.Prelude.{◌≡◌, ◌<◌, ◌≤◌, ◌∷◌, length, map, IfOk, OnOk};
ghost use Rattle.task_machine.specs.steps.Holding.{contents_of};
ghost use Rattle.serial_machine.specs.steps.Levels.{ComesTo, Fits, Pops, Pushes, Ready, code_in, ended, total};

use crate::going::{Stop, go_on};
use crate::level::{Level, change, create, resume};
use jade_base::{Blame, Memory, Path};
use std::alloc::Global;
use std::mem;
use task_code::DecodedCode;
use task_machine::execution::instructions;
use task_machine::holdings::Holdings;

/// The tasks that wait, each for the next one, and the task for which the last of them waits.
#[derive(Drop)]
pub(crate) struct Stack {
    pub(crate) waiting: Vec<Level>,
    pub(crate) level: Level,
}

/// Whether a run goes on, is whole, or has come to a fault.
#[derive(Clone, Copy, Debug, PartialEq, Eq)]
pub(crate) enum Progress {
    On,
    Whole,
    Fault(Blame),
}

// A task has ended: the one that waits for it goes on, if there is one. The error is want of a
// number for one more child.
fn pop(stack: &mut Stack) -> Result<Progress, Memory>
    ensures { IfOk result (λ more. Pops more stack.old stack.new) }
{
    match stack.waiting.pop() {
        None => Ok(Progress::Whole),
        Some(parent) => {
            stack.level = resume(parent, stack.level.frame.left)?;
            Ok(Progress::On)
        }
    }
}

// A child begins, and its creator waits for it. The error is want of memory.
fn push(
    alloc: Global,
    code: &DecodedCode,
    numbers: &[i64],
    stack: &mut Stack,
    number: u32,
) -> Result<(), Memory>
    requires there { number < length code.now.bodies }
    requires ready { Ready code.now numbers.now stack.old.level }
    requires place { stack.old.level.frame.place < length (code_in code.now stack.old.level) }
    ensures { OnOk result (Pushes code.now numbers.now stack.old number stack.new) }
{
    let child = create(alloc, code, numbers, &mut stack.level, number)?;
    let parent = mem::replace(&mut stack.level, child);
    stack.waiting.push(parent)?;
    Ok(())
}

// Goes on to the next stop, and past it. The error is want of memory.
fn proceed(
    alloc: Global,
    code: &DecodedCode,
    numbers: &[i64],
    stack: &mut Stack,
    held: &mut Holdings,
) -> Result<Progress, Memory>
    requires { Fits code.now numbers.now stack.old (contents_of held.old) }
    ensures { IfOk result (λ p. ComesTo p code.now numbers.now stack.old (contents_of held.old) stack.new (contents_of held.new)) }
{
    let body = instructions(code, stack.level.body);
    match go_on(body, &mut stack.level.own, &mut stack.level.frame, held)? {
        Stop::End => {
            let progress = pop(stack)?;
            Ok(progress)
        }
        Stop::Fault(blame) => Ok(Progress::Fault(blame)),
        Stop::Create(number) => {
            push(alloc, code, numbers, stack, number)?;
            Ok(Progress::On)
        }
        Stop::Change => {
            change(code, &mut stack.level);
            Ok(Progress::On)
        }
    }
}

/// Goes on to the end of the run, or to its first fault, which is the result. The error is want of
/// memory.
pub(crate) fn run(
    alloc: Global,
    code: &DecodedCode,
    numbers: &[i64],
    limit: u32,
    stack: &mut Stack,
    held: &mut Holdings,
) -> Result<Option<Blame>, Memory>
    requires fits { Fits code.now numbers.now stack.old (contents_of held.old) }
    requires limit { stack.old.level.frame.left ≤ limit }
    ensures { IfOk result (λ fault.
        (total code.now numbers.now limit stack.old (contents_of held.old)).comes ≡ ended fault stack.new (contents_of held.new)) }
{
    'run: loop {
        match proceed(alloc, code, numbers, stack, held)? {
            Progress::On => {}
            Progress::Whole => return Ok(None),
            Progress::Fault(blame) => return Ok(Some(blame)),
        }
    }
}

/// The path of the task for which the last of these waits. The error is want of memory.
pub(crate) fn path_of(alloc: Global, waiting: &[Level]) -> Result<Path, Memory>
    ensures { IfOk result (λ path. path ≡ 0 ∷ map (λ v. v.children) waiting.now) }
{
    let mut path = Path::root(alloc)?;
    'waiting: for place in 0..waiting.len() {
        path = path.child(alloc, waiting[place].children)?;
    }
    Ok(path)
}
