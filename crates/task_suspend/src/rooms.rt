//! A room for each object.

ghost use Rattle.std.specs.Prelude.{◌≡◌, ◌<◌, true, IfOk, IfErr, IfSome};
ghost use Rattle.task_suspend.specs.Waits.{waits_for, asks_in, all_wait};

use crate::capsule::Capsule;
use crate::line::CapsuleLine;
use crate::modes::Modes;
use crate::name::RunName;
use crate::room::Room;
use crate::went::Waiter;
use jade_base::{Memory, ObjectId};
use std::alloc::Global;
use std::marker::Model;
use std::sync::Wait;

/// The rooms of a run: one for each object, with the capsules that wait for it. Threads share them.
/// Contracts see how many rooms there are.
#[derive(Drop)]
pub struct Rooms<'c, N: RunName> {
    rooms: Vec<Room<'c, N>>,
}

impl<'c, N: RunName> Model for Rooms<'c, N> {
    ghost use Rattle.std.specs.Prelude.{◌≡◌, ℕ, true, vec_len};
    ghost use Rattle.task_suspend.specs.Numbers.{are_numbered, numbers};

    ghost Value = { ℕ };

    ghost view = { λ r. vec_len r.rooms };

    ghost invariant = { λ r. are_numbered 0 (numbers r.rooms.items) ≡ true };
}

impl<'c, N: RunName> Rooms<'c, N> {
    /// So many empty rooms. The error is want of memory.
    pub fn new(alloc: Global, objects: u32) -> Result<Rooms<'c, N>, Memory>
        ensures { IfOk result (λ r. r ≡ objects) }
    {
        let mut rooms = Vec::new(alloc);
        for object in 0..objects {
            if rooms.push(Room::new(alloc, ObjectId(object))).is_err() {
                return Err(Memory);
            }
        }
        Ok(Rooms { rooms })
    }

    /// How many rooms there are. It takes no memory.
    pub fn len(&self) -> usize
        ensures { result ≡ self.now }
    {
        self.rooms.len()
    }

    // The room of an object.
    fn room(&self, object: ObjectId) -> &Room<'c, N>
        requires { object.0 < self.now }
        ensures { result.now.object.0 ≡ object.0 }
    {
        &self.rooms[object.0 as usize]
    }

    /// Puts a capsule that waits into the room of the object for which it asks, or hands it back where
    /// there is no memory.
    pub fn put<R: Wait>(&self, rt: &R, waiter: Waiter<'c, N>) -> Result<(), Capsule<'c, N>>
        requires { waiter.place.object.0 < self.now }
        ensures { IfErr result (λ back. back ≡ waiter.entry.capsule) }
    {
        self.room(waiter.place.object).put(rt, waiter.capsule)
    }

    /// Takes the capsule that stands first in the serial order among those that lie in the object's
    /// room, if there is one and its task asks for the content in one of these modes; it asks for that of
    /// this object. It takes no memory.
    pub fn first<R: Wait>(&self, rt: &R, object: ObjectId, modes: Modes) -> Option<Capsule<'c, N>>
        requires { object.0 < self.now }
        ensures { IfSome result (λ c. (waits_for object.0 c ≡ true) × (asks_in modes c ≡ true)) }
    {
        self.room(object).first(rt, modes)
    }

    /// Takes all capsules that lie in the object's room; their tasks ask for its content. It takes no
    /// memory.
    pub fn drain<R: Wait>(&self, rt: &R, object: ObjectId) -> CapsuleLine<'c, N>
        requires { object.0 < self.now }
        ensures { all_wait object.0 result ≡ true }
    {
        self.room(object).drain(rt)
    }
}
