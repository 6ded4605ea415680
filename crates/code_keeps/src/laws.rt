//! Which rules the code of a program keeps: all, where nothing is wrong with the program before it
//! runs; and those on beginnings, slots and places also where something is.

ghost use Rattle.std.specs.Prelude.{List};
ghost use Rattle.jade_syntax.specs.declared.tree.Program.{Program};
ghost use Rattle.jade_syntax.specs.declared.stands.Stand.{Stand};
ghost use Rattle.jade_syntax.specs.Abstract.{AbstractProgram};
ghost use Rattle.jade_syntax.specs.CheckedProgram.{IsChecked};
ghost use Rattle.jade_syntax.specs.Image.{program};
ghost use Rattle.code_keeps.specs.Keeps.{KeepsBeginnings, KeepsPlaces, KeepsRules, KeepsSlots};

use erased_places::laws::erased_is_program;

/// Each slot that the code of a program names is there.
pub fn keeps_slots()
    ensures { (p : AbstractProgram) → KeepsSlots p }
{}

/// Each place to which the code of a program may go is there.
pub fn keeps_places()
    ensures { (p : AbstractProgram) → KeepsPlaces p }
{}

/// Each body begins well: it has an instruction, and slots for its inputs and for what it is given.
pub fn keeps_beginnings()
    ensures { (p : AbstractProgram) → KeepsBeginnings p }
{}

/// The code of a checked program keeps all rules.
pub fn keeps_rules()
    ensures { (p : Program) (stands : List Stand) → IsChecked p stands → KeepsRules (program p) }
{
    erased_is_program();
}
