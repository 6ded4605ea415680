//! A checked program with its code.

ghost use Rattle.std.specs.Prelude.{◌≡◌, ℕ};
ghost use Rattle.jade_syntax.specs.Image.{program as abstracted};
ghost use Rattle.code_keeps.specs.Keeps.{whole_code};
ghost use Rattle.task_translation.specs.Correct.{Follows};

use jade_syntax::Checked;
use std::marker::Model;
use task_code::{Code, DecodedCode};
use task_translation::laws::code_follows;

/// A checked program and its code, also decoded.
#[derive(Drop)]
pub struct Compiled {
    checked: Checked,
    code: Code,
    decoded: DecodedCode,
}

impl Model for Compiled {
    ghost use Rattle.jade_syntax.specs.CheckedProgram.{CheckedProgram};
    ghost use Rattle.std.specs.Coded.{code_by, coded×, coded_list};
    ghost use Rattle.std.specs.Prelude.{◌≡◌, List, refl};
    ghost use Rattle.jade_syntax.specs.declared.tree.Program.{Program as ProgramTree};
    ghost use Rattle.jade_syntax.specs.declared.stands.Stand.{Stand as StandOf};
    ghost use Rattle.jade_syntax.specs.contracts.tree.Program as tree;
    ghost use Rattle.jade_syntax.specs.contracts.stands.Stand as stand;
    ghost use Rattle.jade_syntax.specs.Image.{program as abstracted};
    ghost use Rattle.code_keeps.specs.Keeps.{whole_code};

    ghost Value = { CheckedProgram };

    ghost coded = { code_by (ProgramTree
        × List StandOf) (coded× tree.the_row.coded (coded_list stand.the_row.coded)) (λ c. (c.program, c.stands))
        (λ p. record { program = p.0; stands = p.1 }) (λ _. refl) };

    ghost view = { λ c. c.checked };

    ghost invariant = { λ c. (c.code ≡ whole_code (abstracted c.checked.program)) × (c.decoded ≡ whole_code (abstracted c.checked.program)) };
}

impl Compiled {
    /// This program with its code, which is decoded too. It takes no memory.
    pub fn of(checked: Checked, code: Code, decoded: DecodedCode) -> Compiled
        requires code { code ≡ whole_code (abstracted checked.program) }
        requires decoded { decoded ≡ whole_code (abstracted checked.program) }
        ensures { result ≡ checked }
    {
        Compiled {
            checked,
            code,
            decoded,
        }
    }

    /// The program that was compiled. It takes no memory.
    pub fn checked(&self) -> &Checked
        ensures { result.now ≡ self.now }
    {
        &self.checked
    }

    /// The code of the program, which keeps all rules of code: the bodies of its tasks, of which the
    /// first is that of `main`, the number of inputs, and the sizes of the objects. On any numbers,
    /// as many as there are inputs, and under any limit, the bodies do what the program does. It
    /// takes no memory.
    pub fn code(&self) -> &Code
        ensures code { result.now ≡ whole_code (abstracted self.now.program) }
        ensures follows { (limit : ℕ) → Follows result.now.bodies (abstracted self.now.program) limit }
    {
        code_follows();
        &self.code
    }

    /// The same code, decoded. It takes no memory.
    pub fn decoded(&self) -> &DecodedCode
        ensures code { result.now ≡ whole_code (abstracted self.now.program) }
        ensures follows { (limit : ℕ) → Follows result.now.bodies (abstracted self.now.program) limit }
    {
        code_follows();
        &self.decoded
    }
}
