//! The checker of programs.

ghost use Rattle.std.specs.Prelude.{◌≡◌, IfOk, IfErr};
ghost use Rattle.jade_types.specs.Check.{IsStaticRefusal};

use crate::faults::first_fault;
use crate::numbers::numbering;
use jade_base::{Memory, Pos};
use jade_syntax::tree::Program;
use jade_syntax::{Checked, StaticKind};
use std::alloc::Global;

/// Why a program was not checked: the first of its static faults with its place, or want of
/// memory, which says nothing of the program.
#[derive(Clone, Copy, Debug, PartialEq, Eq)]
pub enum TypeError {
    Refused(Pos, StaticKind),
    Memory,
}

impl From<Memory> for TypeError {
    ghost use Rattle.jade_types.specs.declared.checker.TypeError.TheVariants.{Memory as NoMemory};

    ghost from_gives = { λ _ error. error ≡ NoMemory };

    fn from(_memory: Memory) -> TypeError {
        TypeError::Memory
    }
}

/// The program with what its names stand for, where nothing is wrong with it before it runs. The
/// error is its first static fault, by line, column and kind, or want of memory.
pub fn check(alloc: Global, program: Program) -> Result<Checked, TypeError>
    ensures program { IfOk result (λ c. c.program ≡ program) }
    ensures refused { IfErr result (IsStaticRefusal program) }
{
    match first_fault(alloc, &program)? {
        Some(fault) => Err(TypeError::Refused(fault.pos, fault.kind)),
        None => {
            let stands = numbering(alloc, &program)?;
            Ok(Checked::of(program, stands))
        }
    }
}
