ghost use Rattle.std.specs.Prelude.{◌≡◌, ◌<◌, length, true, slice_get, Some};
ghost use Rattle.jade_syntax.specs.CheckedProgram.{IsChecked};
ghost use Rattle.jade_syntax.specs.Limits.{within_limits};
ghost use Rattle.jade_syntax.specs.Objects.{input_names, sizes, labels, Label};

use crate::objects::{count_inputs, count_objects, label_of, size_of};
use crate::tree::Program;
use crate::{Name, Stands};
use jade_base::ObjectId;
use std::marker::Model;

/// A program with what its names stand for, one for each name in text order. Its type keeps that
/// nothing is wrong with the program before it runs.
#[derive(Drop)]
pub struct Checked {
    program: Program,
    stands: Stands,
}

impl Model for Checked {
    ghost use Rattle.jade_syntax.specs.CheckedProgram.{CheckedProgram, IsChecked};
    ghost use Rattle.std.specs.Coded.{code_by, coded×, coded_list};
    ghost use Rattle.std.specs.Prelude.{List, refl};
    ghost use Rattle.jade_syntax.specs.declared.tree.Program.{Program as ProgramTree};
    ghost use Rattle.jade_syntax.specs.declared.stands.Stand.{Stand as StandOf};
    ghost use Rattle.jade_syntax.specs.contracts.tree.Program as tree;
    ghost use Rattle.jade_syntax.specs.contracts.stands.Stand as stand;

    ghost Value = { CheckedProgram };

    ghost coded = { code_by (ProgramTree × List StandOf) (coded× tree.the_row.coded (coded_list stand.the_row.coded))
        (λ c. (c.program, c.stands)) (λ p. record { program = p.0; stands = p.1 }) (λ _. refl) };

    ghost view = { λ c. record { program = c.program; stands = c.stands } };

    ghost invariant = { λ c. IsChecked c.program c.stands };
}

impl Checked {
    /// A program that nothing is wrong with, and what its names stand for.
    pub fn of(program: Program, stands: Stands) -> Checked
        requires { IsChecked program stands }
        ensures program { result.program ≡ program }
        ensures stands { result.stands ≡ stands }
    {
        Checked { program, stands }
    }

    /// The tree. It takes no memory.
    pub fn program(&self) -> &Program
        ensures program { result.now ≡ self.now.program }
        ensures checked { IsChecked self.now.program self.now.stands }
        ensures limits { within_limits self.now.program.items ≡ true }
    {
        &self.program
    }

    /// What the names stand for, in text order. It takes no memory.
    pub fn stands(&self) -> &Stands
        ensures { result.now ≡ self.now.stands }
    {
        &self.stands
    }

    /// The number of inputs. It takes no memory.
    pub fn inputs(&self) -> u32
        ensures { result ≡ length (input_names self.now.program.items) }
    {
        count_inputs(&self.program.items)
    }

    /// The number of objects, which have the numbers from 0 on. It takes no memory.
    pub fn objects(&self) -> u32
        ensures { result ≡ length (sizes self.now.program.items) }
    {
        count_objects(&self.program.items) as u32
    }

    /// The number of cells of an object. It takes no memory.
    pub fn size(&self, object: ObjectId) -> u32
        requires { object.0 < length (sizes self.now.program.items) }
        ensures { slice_get (sizes self.now.program.items) object.0 ≡ Some result }
    {
        size_of(&self.program.items, object.0)
    }

    /// What an object is called: a name, and for a family's member its index. It takes no memory.
    pub fn label(&self, object: ObjectId) -> (&Name, Option<u32>)
        requires { object.0 < length (sizes self.now.program.items) }
        ensures { slice_get (labels self.now.program.items) object.0 ≡ Some (record { name = result.0.now; member = result.1 }) }
    {
        label_of(&self.program.items, object.0)
    }
}
