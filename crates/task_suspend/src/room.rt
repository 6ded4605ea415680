//! The room of an object.

ghost use Rattle.std.specs.Prelude.{◌≡◌, true, IfSome, IfErr};
ghost use Rattle.task_suspend.specs.Waits.{waits_for, asks_in, all_wait};

use crate::capsule::Capsule;
use crate::line::CapsuleLine;
use crate::modes::Modes;
use crate::name::RunName;
use crate::waiting::Waiting;
use jade_base::ObjectId;
use std::alloc::Global;
use std::sync::{Mutex, Wait};

/// The room of an object, and under a lock those that wait there. A proof knows of a lock only what the
/// type of its value says; so the room has the object's number beside the lock, the value has it once
/// more, and whoever takes the lock compares them. They are the same at all times.
#[derive(Drop)]
pub struct Room<'c, N: RunName> {
    pub object: ObjectId,
    alloc: Global,
    waiting: Mutex<Waiting<'c, N>>,
}

impl<'c, N: RunName> Room<'c, N> {
    /// The empty room of this object. It takes no memory.
    pub fn new(alloc: Global, object: ObjectId) -> Room<'c, N>
        ensures { result.object ≡ object }
    {
        Room {
            object,
            alloc,
            waiting: Mutex::new(Waiting::nobody(alloc, object)),
        }
    }

    /// Puts a capsule whose task asks for the object into the room, or hands it back where there is no
    /// memory.
    pub fn put<R: Wait>(&self, rt: &R, capsule: Capsule<'c, N>) -> Result<(), Capsule<'c, N>>
        requires { waits_for self.now.object.0 capsule ≡ true }
        ensures { IfErr result (λ back. back ≡ capsule.entry) }
    {
        let mut waiting = self.waiting.lock(rt);
        if waiting.object != self.object {
            return Err(capsule);
        }
        waiting.put(capsule)
    }

    /// Takes the capsule that stands first in the room, if there is one and its task asks for the content
    /// in one of these modes. It takes no memory.
    pub fn first<R: Wait>(&self, rt: &R, modes: Modes) -> Option<Capsule<'c, N>>
        ensures { IfSome result (λ c. (waits_for self.now.object.0 c ≡ true) × (asks_in modes c ≡ true)) }
    {
        let mut waiting = self.waiting.lock(rt);
        if waiting.object != self.object {
            return None;
        }
        waiting.first(modes)
    }

    /// Takes all capsules that lie in the room. It takes no memory.
    pub fn drain<R: Wait>(&self, rt: &R) -> CapsuleLine<'c, N>
        ensures { all_wait self.now.object.0 result ≡ true }
    {
        let mut waiting = self.waiting.lock(rt);
        if waiting.object != self.object {
            return CapsuleLine::new(self.alloc);
        }
        waiting.take_all()
    }
}
