//! What is proved of the places of a program.

ghost use Rattle.std.specs.Prelude.{◌≡◌};
ghost use Rattle.jade_syntax.specs.declared.tree.Program.{Program};
ghost use Rattle.jade_syntax.specs.Erased.{erased_program};
ghost use Rattle.jade_syntax.specs.Image.{program};
ghost use Rattle.jade_syntax.specs.PlacedImage.{placed_program};

/// A law of programs, which does nothing: a program with all places, less the places that its
/// meaning does not need, is its abstract syntax.
pub fn erased_is_program()
    ensures { (p : Program) → erased_program (placed_program p) ≡ program p }
{}
