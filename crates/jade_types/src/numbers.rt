//! What the names of a program stand for.

ghost use Rattle.std.specs.Prelude.{◌≡◌, IfOk};
ghost use Rattle.jade_syntax.specs.Image.{program as program_of};
ghost use Rattle.jade_syntax.specs.Numbering.{numbering};

mod body;
mod expressions;
mod items;
mod statements;

use crate::numbers::body::Body;
use crate::numbers::items::number_items;
use crate::numbers::statements::number_block;
use jade_base::Memory;
use jade_syntax::Stands;
use jade_syntax::tree::Program;
use std::alloc::Global;

/// What the names of a program stand for, one for each name in text order, declarations included.
/// The error is want of memory, or more items, objects or slots than a `u32` counts.
pub(crate) fn numbering(alloc: Global, program: &Program) -> Result<Stands, Memory>
    ensures { IfOk result (λ stands. stands ≡ numbering (program_of program.now)) }
{
    let mut stands = Stands::empty(alloc);
    let items = number_items(alloc, &program.items, &mut stands)?;
    let mut main = Body::of(alloc, &items);
    number_block(&mut main, &mut stands, &program.main)?;
    Ok(stands)
}
