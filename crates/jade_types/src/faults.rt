//! What is wrong with a program before it runs.

ghost use Rattle.std.specs.Prelude.{◌≡◌, IfOk};
ghost use Rattle.jade_syntax.specs.PlacedImage.{placed_program};
ghost use Rattle.jade_syntax.specs.StaticFaults.{static_faults, first_fault};

mod expressions;
mod items;
mod names;
mod notes;
mod statements;

use crate::faults::items::visit_items;
use crate::faults::names::Scope;
pub(crate) use crate::faults::names::name_of;
use crate::faults::notes::Notes;
use crate::faults::statements::visit_block;
use jade_base::Memory;
use jade_syntax::StaticFault;
use jade_syntax::tree::Program;
use std::alloc::Global;

/// The earliest of all static faults of a program, or `None` where it has none. The error is want
/// of memory, which says nothing of the program.
pub(crate) fn first_fault(alloc: Global, program: &Program) -> Result<Option<StaticFault>, Memory>
    ensures { IfOk result (λ f. f ≡ first_fault (static_faults (placed_program program.now))) }
{
    let mut notes = Notes::none();
    let known = visit_items(alloc, &mut notes, &program.items)?;
    let mut scope = Scope::of(alloc, &known);
    visit_block(&mut notes, &mut scope, &program.main)?;
    Ok(notes.first)
}
