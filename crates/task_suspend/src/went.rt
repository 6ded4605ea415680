//! How a try went.

ghost use Rattle.std.specs.Prelude.{◌≡◌, ◌<◌, true};
ghost use Rattle.object_table.specs.Views.{count_of};
ghost use Rattle.object_table.specs.Calls.{IsGone};
ghost use Rattle.task_machine.specs.Stages.{rights_at};
ghost use Rattle.task_machine.specs.Asks.{leaves_from};
ghost use Rattle.task_suspend.specs.Asked.{asks, is_end, is_over};
ghost use Rattle.task_suspend.specs.Waits.{waits_for};
ghost use Rattle.task_suspend.specs.steps.Facts.{Gone-prop};

use crate::capsule::{Capsule, Running};
use crate::name::RunName;
use jade_base::ObjectId;
use std::marker::PhantomData;

/// An object of the run `N`.
#[derive(Drop)]
pub struct Place<N: RunName> {
    pub object: ObjectId,
    pub name: PhantomData<N>,
    pub ghost inside: { object.0 < count_of N.plan },
}

/// A task of the run `N` that asks for the content of an object, and waits for it.
#[derive(Drop)]
pub struct Waiter<'c, N: RunName> {
    pub place: Place<N>,
    pub capsule: Capsule<'c, N>,
    pub ghost waits: { waits_for place.object.0 capsule ≡ true },
}

/// A task of the run `N` that is to end, and all of whose entries have left: nothing is left for it but
/// to resign, with the fault that it asks to end with, if with one.
#[derive(Drop)]
pub struct Departed<'c, N: RunName> {
    pub capsule: Capsule<'c, N>,
    pub ghost asked: { asks is_end capsule.task.value.machine.ask ≡ true },
    pub ghost over: { is_over (leaves_from capsule.task.value.from (rights_at capsule.task.value.machine.at.execution.stage)) ≡ true },
}

/// A task of the run `N` that has ended, as its pass knows. It lies where it ran, so that it is small
/// to move.
#[derive(Drop)]
pub struct Resigned<'c, N: RunName> {
    pub task: Box<Running<'c>>,
    pub name: PhantomData<N>,
    pub ghost of: { (task.value.pass.mark ≡ N.mark) × IsGone task.value.pass.shows } by { Gone-prop N.mark task.value.pass.mark task.value.pass.shows },
}

/// How a try went.
#[derive(Drop)]
pub enum Went<'c, N: RunName> {
    /// It is done, and the task goes on.
    Ready(Capsule<'c, N>),
    /// Another pass has a turn at the word that was tried; nothing is done.
    Busy(Capsule<'c, N>),
    /// An earlier task, or the one that has the content out, keeps this one from the object; nothing is
    /// done.
    Waits(Waiter<'c, N>),
    /// It is done, and a task that waits for the object may go on.
    Freed(Place<N>, Capsule<'c, N>),
    /// A child was created: the parent, which goes on, and the child, at its begin.
    Parted(Capsule<'c, N>, Capsule<'c, N>),
    /// The task is to end, and its entries have all left; nothing is done.
    Departed(Departed<'c, N>),
}
