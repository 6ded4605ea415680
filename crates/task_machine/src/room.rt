//! What a task that has ended leaves for another.

ghost use Rattle.std.specs.Prelude.{◌≡◌, [], vec_len};
ghost use Rattle.jade_base.specs.Specification.{settled};

use crate::holdings::Row;
use jade_base::Spec;
use std::alloc::Global;
use std::mem;

// A vector with room for no more elements than these is used, whatever is wanted.
const SMALL: usize = 8;

// A longer one is used where it has room for no more than so many times what is wanted.
const FAR_MORE: usize = 4;

/// Room that the machine of a task which has ended leaves for that of the next child: its vectors, in
/// which the child's slots, rows and marks take no memory where they are long enough, and its
/// specification, in whose place the creator's next section makes one. It says nothing of what was in
/// it.
#[derive(Debug, Drop)]
pub struct MachineRoom {
    pub(crate) slots: Vec<i64>,
    pub(crate) rows: Vec<Row>,
    pub(crate) due: Vec<bool>,
    pub(crate) spec: Spec,
}

impl MachineRoom {
    /// No room. It takes no memory.
    pub fn none(alloc: Global) -> MachineRoom {
        MachineRoom {
            slots: Vec::new(alloc),
            rows: Vec::new(alloc),
            due: Vec::new(alloc),
            spec: Spec::empty(alloc),
        }
    }

    /// The vector of the slots, which is in the room no more.
    pub(crate) fn take_slots(&mut self, alloc: Global) -> Vec<i64> {
        mem::replace(&mut self.slots, Vec::new(alloc))
    }

    /// The vector of the rows, which is in the room no more.
    pub(crate) fn take_rows(&mut self, alloc: Global) -> Vec<Row> {
        mem::replace(&mut self.rows, Vec::new(alloc))
    }

    /// No rights on any object, in the place of an ended task's specification, which is in the room no
    /// more.
    pub(crate) fn take_spec(&mut self, alloc: Global) -> Spec
        ensures { result ≡ settled [] }
    {
        let mut spec = mem::replace(&mut self.spec, Spec::empty(alloc));
        spec.clear();
        spec
    }

    /// The vector of the marks, which is in the room no more.
    pub(crate) fn take_due(&mut self, alloc: Global) -> Vec<bool> {
        mem::replace(&mut self.due, Vec::new(alloc))
    }
}

/// A vector without elements, for so many of them: the given one, unless it is far longer than they
/// want. That one is let go, so that what one large task has left is not kept by small ones.
pub(crate) fn emptied<T: Drop>(mut used: Vec<T>, wanted: usize) -> Vec<T>
    ensures items { result.items ≡ [] }
    ensures len { vec_len result ≡ 0 }
{
    if used.capacity() > SMALL && used.capacity() / FAR_MORE > wanted {
        return Vec::new(*used.allocator());
    }
    used.clear();
    used
}
