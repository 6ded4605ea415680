//! A program printed and read again.

ghost use Rattle.std.specs.Prelude.{◌≡◌, ◌≤◌, length, true, IfOk};
ghost use Rattle.jade_syntax.specs.PlacedImage.{placed_program};
ghost use Rattle.jade_syntax.specs.Shapes.{is_shaped};
ghost use Rattle.jade_layout.specs.Layout.{layout};
ghost use Rattle.jade_layout.specs.Spelling.{spelling};
ghost use Rattle.jade_reading.specs.Reading.{ReadsAs};
ghost use Rattle.jade_reading.specs.Unplaced.{unplaced};

use crate::laws::layout_reads_back;
use jade_base::Memory;
use jade_layout::print_program;
use jade_lexer::{LexError, tokens};
use jade_parser::{ParseError, parse};
use jade_syntax::tree::Program;
use std::alloc::Global;

/// Prints a program that keeps the rules of shape, and reads the text, of at most 1,048,576 bytes,
/// again: the tree is the one that the printed text is read as, with its places, and the same as
/// the program but for places. The error is want of memory alone.
pub fn read_back(alloc: Global, program: &Program) -> Result<Program, Memory>
    requires shaped { is_shaped program.now ≡ true }
    requires short { length (layout (spelling program.now)) ≤ 1048576 }
    ensures read { IfOk result (λ again. ReadsAs (layout (spelling program.now)) again) }
    ensures same { IfOk result (λ again. unplaced (placed_program again) ≡ unplaced (placed_program program.now)) }
{
    layout_reads_back();
    let text = print_program(alloc, program)?;
    let tokens = match tokens(alloc, &text) {
        Ok(tokens) => tokens,
        Err(LexError::Memory) => return Err(Memory),
        Err(LexError::Byte(_)) => unreachable!(),
        Err(LexError::Number(_)) => unreachable!(),
        Err(LexError::Deep(_)) => unreachable!(),
    };
    match parse(alloc, &tokens) {
        Ok(again) => Ok(again),
        Err(ParseError::Memory) => Err(Memory),
        Err(ParseError::Token(_)) => unreachable!(),
        Err(ParseError::Long(_)) => unreachable!(),
    }
}
