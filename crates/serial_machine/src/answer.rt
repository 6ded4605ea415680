//! The answer of a compiled program, by a serial run of its code.

ghost use Rattle.std.specs.Prelude.{◌≡◌, length, IfOk};
ghost use Rattle.jade_syntax.specs.Image.{program as abstracted};
ghost use Rattle.jade_syntax.specs.Objects.{input_names};
ghost use Rattle.jade_meaning.specs.Answer.{answer};
ghost use Rattle.jade_meaning.specs.Turns.{in_order};
ghost use Rattle.task_machine.specs.steps.Holding.{contents_of};
ghost use Rattle.serial_machine.specs.Answers.{told};
ghost use Rattle.serial_machine.specs.steps.Cells.{cells_held};
ghost use Rattle.serial_machine.specs.steps.Pausing.{AllHeld};

use crate::level::root;
use crate::stack::{Stack, path_of, run};
use code_keeps::Compiled;
use jade_base::{Blame, CellLists, Memory, Path};
use jade_list::sequence::Sequence;
use jade_meaning::laws::stops_in_order;
use std::alloc::Global;
use task_machine::holdings::Holdings;

/// What a run answers: the task that faults first and why, or the cells of the objects.
#[derive(Debug, Drop)]
pub enum RunAnswer {
    Fault(Path, Blame),
    Objects(CellLists),
}

// The cells of objects that are all held. The error is want of memory.
fn cells_of(alloc: Global, objects: u32, all: Holdings) -> Result<CellLists, Memory>
    requires { AllHeld objects (contents_of all) }
    ensures { IfOk result (λ cells. cells ≡ cells_held objects (contents_of all)) }
{
    let mut held = all;
    let mut lists = Vec::new(alloc);
    'objects: for object in 0..objects {
        match held.take(object as usize) {
            None => unreachable!(),
            Some(content) => lists.push(content.into_cells())?,
        }
    }
    Ok(Sequence::from_vec(lists))
}

/// Runs the code of a program serially, each child whole where it is created, and stops at the first
/// fault, or at the first step beyond the limit of the whole run. The result is the answer of the
/// program, where those that commute take their turns in the order of creation. The error is want of
/// memory.
pub fn run_serial(
    alloc: Global,
    compiled: &Compiled,
    numbers: &[i64],
    limit: u32,
) -> Result<RunAnswer, Memory>
    requires given { length numbers.now ≡ length (input_names compiled.now.program.items) }
    ensures { IfOk result (λ done. told done ≡ answer (abstracted compiled.now.program) numbers.now limit in_order) }
{
    stops_in_order();
    let code = compiled.decoded();
    code.keeps_rules();
    let objects = compiled.checked().objects();
    let mut held = Holdings::whole(alloc, compiled.checked())?;
    let mut stack = Stack {
        waiting: Vec::new(alloc),
        level: root(alloc, code, numbers, objects, limit)?,
    };
    match run(alloc, code, numbers, limit, &mut stack, &mut held)? {
        Some(blame) => Ok(RunAnswer::Fault(path_of(alloc, stack.waiting.as_slice())?, blame)),
        None => Ok(RunAnswer::Objects(cells_of(alloc, objects, held)?)),
    }
}
