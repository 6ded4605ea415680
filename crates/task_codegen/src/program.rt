//! The code of a program.

ghost use Rattle.std.specs.Prelude.{◌≡◌, ◌≤◌, [], length, IfOk};
ghost use Rattle.jade_syntax.specs.Image.{program as abstracted};
ghost use Rattle.jade_syntax.specs.Objects.{sizes};
ghost use Rattle.task_translation.specs.Compile.{compiled, inputs_in};
ghost use Rattle.code_keeps.specs.Keeps.{whole_code};

use crate::ranges::{Ranges, sizes as sizes_of};
use crate::slots::size;
use crate::statements::task;
use code_keeps::Compiled;
use code_keeps::laws::keeps_rules;
use code_meaning::code::Body;
use jade_base::Memory;
use jade_syntax::Checked;
use jade_syntax::tree::{NameList, Program};
use std::alloc::Global;
use task_code::{Code, DecodedCode, Raw};

/// The bodies of a program, the first of which is that of `main`, with the list of no names. The
/// error is want of memory, or that a number is too large for an instruction.
fn bodies_of<'p>(
    alloc: Global,
    program: &'p Program,
    none: &'p NameList,
    inputs: u32,
) -> Result<Vec<Body>, Memory>
    requires objects { length (sizes program.now.items) ≤ 4096 }
    requires none { none.now ≡ [] }
    requires inputs { inputs ≡ inputs_in program.now.items }
    ensures { IfOk result (λ bodies. bodies.items ≡ compiled (abstracted program.now)) }
{
    let ranges = Ranges::of(alloc, &program.items)?;
    let mut bodies = Vec::new(alloc);
    task(
        alloc,
        &ranges,
        &mut bodies,
        Vec::new(alloc),
        none,
        &program.main,
    )?;
    size(&mut bodies, inputs)?;
    Ok(bodies)
}

/// The code of a checked program, which keeps all rules.
#[tactic(auto, using(code_keeps::proofs::Inputs::inputs_many))]
fn code_of(alloc: Global, checked: &Checked) -> Result<Code, Memory>
    ensures { IfOk result (λ code. code ≡ whole_code (abstracted checked.now.program)) }
{
    let inputs = checked.inputs();
    let program = checked.program();
    let none = NameList::empty(alloc);
    let bodies = bodies_of(alloc, program, &none, inputs)?;
    let sizes = sizes_of(alloc, &program.items)?;
    keeps_rules();
    Ok(Code::of(Raw {
        bodies,
        inputs,
        sizes,
    }))
}

/// The code of a checked program. The error is want of memory, or code that is too long for the
/// numbers in instructions.
pub fn compile(alloc: Global, checked: Checked) -> Result<Compiled, Memory>
    ensures { IfOk result (λ compiled. compiled ≡ checked) }
{
    let code = code_of(alloc, &checked)?;
    let decoded = DecodedCode::of(alloc, &code)?;
    Ok(Compiled::of(checked, code, decoded))
}
