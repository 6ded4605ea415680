//! What a task has of its own where it creates a child.

ghost use Rattle.std.specs.Prelude.{◌≡◌, IfOk, OnOk};
ghost use Rattle.jade_meaning.specs.Specification.{fitted};
ghost use Rattle.jade_meaning.specs.Spread.{spread};
ghost use Rattle.jade_meaning.specs.Course.{NoDraft, Building, drafted};
ghost use Rattle.task_machine.specs.Stages.{copy_spread};
ghost use Rattle.task_machine.specs.steps.Owning.{rights_of, draft_of};
ghost use Rattle.task_machine.specs.steps.Acting.{KeepsRights};
ghost use Rattle.serial_machine.specs.steps.Pausing.{Owns};

use jade_base::Memory;
use task_machine::section::{Own, Section, end_section, open, outside_section};

/// The child that a section has made; the section is over. It takes no memory.
pub(crate) fn take_child(own: &mut Own) -> Own
    ensures child { Owns result own.old.objects (spread own.old.objects own.old.child.entries) NoDraft }
    ensures parent { Owns own.new own.old.objects (rights_of own.old) NoDraft }
{
    let spec = end_section(own);
    outside_section(own.alloc, own.objects, spec)
}

/// A section of a child, whatever section there is: none has made no rights, and that of the task
/// itself what it has made. The error is want of memory.
pub(crate) fn begin_child(own: &mut Own) -> Result<(), Memory>
    ensures kept { OnOk result (KeepsRights own.old own.new) }
    ensures made { OnOk result (draft_of own.new ≡ Building (fitted (rights_of own.old) (drafted (draft_of own.old)))) }
{
    match own.section {
        Section::Building => Ok(()),
        Section::Absent => {
            open(own);
            Ok(())
        }
        Section::Amending => {
            let mut child = own.spec.spec().copy(own.alloc)?;
            let _objects = child.len();
            child.keep_draft();
            own.child = child;
            own.section = Section::Building;
            Ok(())
        }
    }
}
