//! Which trees are the trees of programs.

ghost use Rattle.std.specs.Prelude.{◌≡◌, IfOk, IfErr, true, false};
ghost use Rattle.jade_syntax.specs.Shapes.{is_shaped};

pub mod extent;
pub(crate) mod measure;
pub mod place;

use crate::shapes::measure::program_extent;
use crate::shapes::place::{BlockKind, are_placed};
use crate::tree::{Block, Items, Program};

/// The parts are no tree of a program.
#[derive(Clone, Copy, Debug, PartialEq, Eq)]
pub struct BadShape;

fn is_shaped(items: &Items, main: &Block) -> bool
    ensures { result ≡ is_shaped (record { items = items.now; main = main.now }) }
{
    are_placed(main, BlockKind::Main) && program_extent(items, main).is_within()
}

impl Program {
    /// The program with these items and this `main`, where they are the tree of one: each
    /// statement stands where the grammar has it, names are names, no number is negative, no
    /// outermost expression has more than 256 tokens, brackets nest at most 64 deep, and there are
    /// at most 1,048,576 tokens. It takes no memory.
    pub fn of(items: Items, main: Block) -> Result<Program, BadShape>
        ensures made { IfOk result (λ p. p ≡ record { items = items; main = main }) }
        ensures shaped { IfOk result (λ p. is_shaped p ≡ true) }
        ensures refused { IfErr result (λ _. is_shaped (record { items = items; main = main }) ≡ false) }
    {
        if is_shaped(&items, &main) {
            Ok(Program { items, main })
        } else {
            Err(BadShape)
        }
    }
}
