//! The plan of a run.

ghost use Rattle.std.specs.Prelude.{◌≡◌, ◌<◌, true, length, slice_get, Some};
ghost use Rattle.jade_syntax.specs.Limits.{within_limits};
ghost use Rattle.jade_syntax.specs.Objects.{sizes};

use jade_base::ObjectId;
use jade_syntax::Checked;
use std::marker::Model;

/// The plan of a run: a checked program, a number for each of its inputs, and the steps that a task
/// may begin. Contracts see these three; a caller is told only how many objects there are and the
/// number of cells of each. The table of a run's objects is given a plan, and so never the program.
#[derive(Drop)]
pub struct Plan<'c> {
    checked: &'c Checked,
    numbers: &'c [i64],
    limit: u32,
}

impl<'c> Model for Plan<'c> {
    ghost use Rattle.std.specs.Prelude.{List, ℤ, ℕ, refl};
    ghost use Rattle.std.specs.Coded.{code_by, coded×, coded_list, coded_ℕ, coded_ℤ};
    ghost use Rattle.jade_syntax.specs.declared.tree.Program.{Program};
    ghost use Rattle.jade_syntax.specs.contracts.tree.Program as tree;
    ghost use Rattle.jade_meaning.specs.Plan.{RunPlan};

    ghost Value = { RunPlan };

    ghost coded = { code_by (Program × (List ℤ × ℕ)) (coded× tree.the_row.coded (coded× (coded_list coded_ℤ) coded_ℕ))
        (λ v. (v.program, (v.numbers, v.limit))) (λ p. record { program = p.0; numbers = p.1.0; limit = p.1.1 }) (λ _. refl) };

    ghost view = { λ p. record { program = p.checked.now.program; numbers = p.numbers.now; limit = p.limit } };
}

impl<'c> Plan<'c> {
    /// The plan of these. It takes no memory.
    pub fn of(checked: &'c Checked, numbers: &'c [i64], limit: u32) -> Plan<'c>
        ensures { result ≡ record { program = checked.now.program; numbers = numbers.now; limit = limit } }
    {
        Plan {
            checked,
            numbers,
            limit,
        }
    }

    /// The number of objects, which have the numbers from 0 on. It takes no memory.
    pub fn objects(&self) -> u32
        ensures count { result ≡ length (sizes self.now.program.items) }
        ensures limits { within_limits self.now.program.items ≡ true }
    {
        // The tree of a checked program keeps the limits.
        let _program = self.checked.program();
        self.checked.objects()
    }

    /// The number of cells of an object. It takes no memory.
    pub fn size(&self, object: ObjectId) -> u32
        requires { object.0 < length (sizes self.now.program.items) }
        ensures { slice_get (sizes self.now.program.items) object.0 ≡ Some result }
    {
        self.checked.size(object)
    }
}
