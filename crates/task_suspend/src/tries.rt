//! One try at what a task asks for.

ghost use Rattle.std.specs.Prelude.{◌≡◌, ◌<◌, ◌∷◌, ◌+◌, [], true, false, Some, None, IfOk, OnErr, OnOk};
ghost use Rattle.jade_base.specs.Rights.{has_rights};
ghost use Rattle.jade_meaning.specs.Talk.{Enter, Shift, Leave};
ghost use Rattle.object_table.specs.Views.{count_of};
ghost use Rattle.object_table.specs.Calls.{IsGone, Next, TriedAs};
ghost use Rattle.task_machine.specs.Stages.{rights_at};
ghost use Rattle.task_machine.specs.Machines.{made_at, amended_at};
ghost use Rattle.task_machine.specs.Asks.{enters_from, shifts_from, leaves_from, follows};
ghost use Rattle.task_suspend.specs.Waits.{waits_for};
ghost use Rattle.task_suspend.specs.Asked.{asks, ending, is_end};
ghost use Rattle.task_suspend.specs.Tries.{Advances, IsAtAsk, Resigns, Retires, WentAs, carried};

use crate::capsule::{Capsule, Running, boxed};
use crate::name::RunName;
use crate::remains::Remains;
use crate::went::{Departed, Place, Resigned, Waiter, Went};
use jade_base::{Blame, Memory, Mode, ObjectId, Rights};
use object_table::{ObjectTable, Taken, TaskPass, Tried};
use std::alloc::Global;
use std::marker::PhantomData;
use task_machine::Ask;

/// One try at what the task asks for, on the objects of its run: where no ask stands, the task goes
/// on to its next one; else one event of the ask is tried. What is done then, or why nothing is, the
/// answer says. The error is want of memory, after which the run can't go on.
pub fn attempt<'c, N: RunName>(
    alloc: Global,
    table: &ObjectTable,
    capsule: Capsule<'c, N>,
) -> Result<Went<'c, N>, Memory>
    requires { (table.now.mark ≡ N.mark) × (table.now.plan ≡ N.plan) }
    ensures { IfOk result (λ went. WentAs capsule.entry went) }
{
    match capsule.task.machine.asked() {
        None => {
            let (capsule, _) = go_on(alloc, capsule)?;
            Ok(Went::Ready(capsule))
        }
        Some(ask) => try_ask(alloc, table, capsule, ask, &mut Remains::none(alloc)),
    }
}

/// The task at an ask, and the ask: where none stands, the task goes on to its next one. The error is
/// want of memory, after which the run can't go on.
#[inline(always)]
pub fn to_ask<'c, N: RunName>(
    alloc: Global,
    capsule: Capsule<'c, N>,
) -> Result<(Capsule<'c, N>, Ask), Memory>
    ensures asks { IfOk result (λ r. r.0.task.value.machine.ask ≡ Some r.1) }
    ensures goes { IfOk result (λ r. IsAtAsk capsule.entry r.0) }
{
    match capsule.task.machine.asked() {
        None => go_on(alloc, capsule),
        Some(ask) => Ok((capsule, ask)),
    }
}

// One try at the ask that stands, with the use of what the last task that ended left.
fn try_ask<'c, N: RunName>(
    alloc: Global,
    table: &ObjectTable,
    capsule: Capsule<'c, N>,
    ask: Ask,
    remains: &mut Remains,
) -> Result<Went<'c, N>, Memory>
    requires table { (table.now.mark ≡ N.mark) × (table.now.plan ≡ N.plan) }
    requires asked { capsule.task.value.machine.ask ≡ Some ask }
    ensures { IfOk result (λ went. WentAs capsule.entry went) }
{
    match ask {
        Ask::Take(object, mode) => try_take(alloc, table, capsule, object, mode),
        Ask::GiveBack(object) => try_give_back(table, capsule, object),
        Ask::Create => try_create(alloc, table, capsule, remains),
        Ask::Change => try_change(table, capsule),
        Ask::End => try_end(table, capsule),
        Ask::Fault(_) => try_end(table, capsule),
    }
}

// So many events more. The error stands for more than 2^64 events, which no run does.
fn more(events: u64, count: u64) -> Result<u64, Memory>
    ensures { IfOk result (λ n. n ≡ events + count) }
{
    match events.checked_add(count) {
        Some(sum) => Ok(sum),
        None => Err(Memory),
    }
}

// The number after an object's. The error stands for 2^32 objects, which no program has.
fn above(object: ObjectId) -> Result<u32, Memory>
    ensures { IfOk result (λ n. n ≡ object.0 + 1) }
{
    match object.0.checked_add(1) {
        Some(next) => Ok(next),
        None => Err(Memory),
    }
}

// An object of the run.
fn place<N: RunName>(object: ObjectId) -> Place<N>
    requires { object.0 < count_of N.plan }
    ensures { result.object ≡ object }
{
    Place {
        object,
        name: PhantomData,
    }
}

// A task that waits for an object.
fn that_waits<'c, N: RunName>(place: Place<N>, capsule: Capsule<'c, N>) -> Waiter<'c, N>
    requires { waits_for place.object.0 capsule ≡ true }
    ensures place { result.place ≡ place }
    ensures capsule { result.capsule ≡ capsule.entry }
{
    Waiter { place, capsule }
}

// No ask stands: the task goes on to the next one, past the cells that it touches on the way.
fn go_on<'c, N: RunName>(
    alloc: Global,
    mut capsule: Capsule<'c, N>,
) -> Result<(Capsule<'c, N>, Ask), Memory>
    requires { capsule.task.value.machine.ask ≡ None }
    ensures asks { IfOk result (λ r. r.0.task.value.machine.ask ≡ Some r.1) }
    ensures goes { IfOk result (λ r. Advances (carried capsule.entry) (carried r.0)) }
{
    let task = &mut *capsule.task;
    let ask = task.machine.advance(alloc)?;
    task.machine.stands();
    let done = more(task.events, task.machine.touched())?;
    task.pass.pass_on(done);
    task.from = 0;
    task.events = done;
    task.passed = false;
    Ok((capsule, ask))
}

/// One try at the content that a task asks for. What is done then, or why nothing is, the answer says. The
/// error is want of memory, after which the run can't go on.
#[inline(always)]
pub fn try_take<'c, N: RunName>(
    alloc: Global,
    table: &ObjectTable,
    mut capsule: Capsule<'c, N>,
    object: ObjectId,
    mode: Mode,
) -> Result<Went<'c, N>, Memory>
    requires table { (table.now.mark ≡ N.mark) × (table.now.plan ≡ N.plan) }
    requires asked { capsule.task.value.machine.ask ≡ Some (Ask.Take object mode) }
    ensures { IfOk result (λ went. WentAs capsule.entry went) }
{
    let task = &mut *capsule.task;
    task.machine.stands();
    let done = more(task.events, 1)?;
    match table.take(alloc, &mut task.pass, object, mode)? {
        Taken::Got(content) => {
            task.machine.supply(object, content);
            task.events = done;
            task.passed = false;
            Ok(Went::Ready(capsule))
        }
        Taken::NotYet(keeper) => {
            drop(keeper);
            Ok(Went::Waits(that_waits(place(object), capsule)))
        }
        Taken::Busy(_) => Ok(Went::Busy(capsule)),
    }
}

/// One try at the content that a task asks to give back. What is done then, or why nothing is, the answer
/// says. The error is want of memory, after which the run can't go on.
#[inline(always)]
pub fn try_give_back<'c, N: RunName>(
    table: &ObjectTable,
    mut capsule: Capsule<'c, N>,
    object: ObjectId,
) -> Result<Went<'c, N>, Memory>
    requires table { (table.now.mark ≡ N.mark) × (table.now.plan ≡ N.plan) }
    requires asked { capsule.task.value.machine.ask ≡ Some (Ask.GiveBack object) }
    ensures { IfOk result (λ went. WentAs capsule.entry went) }
{
    let task = &mut *capsule.task;
    task.machine.stands();
    let done = more(task.events, 1)?;
    let content = task.machine.surrender(object);
    match table.give(&mut task.pass, object, content) {
        Ok(()) => {
            task.events = done;
            task.passed = false;
            Ok(Went::Freed(place(object), capsule))
        }
        Err((back, _)) => {
            task.machine.restore(object, back);
            Ok(Went::Busy(capsule))
        }
    }
}

/// One try at the creation that a task asks for: its child's entries are made one after another, and then
/// it is enrolled, with the use of what the last task that ended left. What is done then, or why nothing
/// is, the answer says. The error is want of memory, after which the run can't go on.
#[inline(always)]
pub fn try_create<'c, N: RunName>(
    alloc: Global,
    table: &ObjectTable,
    capsule: Capsule<'c, N>,
    remains: &mut Remains,
) -> Result<Went<'c, N>, Memory>
    requires table { (table.now.mark ≡ N.mark) × (table.now.plan ≡ N.plan) }
    requires asked { capsule.task.value.machine.ask ≡ Some Ask.Create }
    ensures { IfOk result (λ went. WentAs capsule.entry went) }
{
    let task = &*capsule.task;
    match task.machine.next_enter(ObjectId(task.from)) {
        Some((object, rights)) => enter(alloc, table, capsule, object, rights),
        None => enroll(alloc, table, capsule, remains),
    }
}

// The child's next entry.
fn enter<'c, N: RunName>(
    alloc: Global,
    table: &ObjectTable,
    mut capsule: Capsule<'c, N>,
    object: ObjectId,
    rights: Rights,
) -> Result<Went<'c, N>, Memory>
    requires table { (table.now.mark ≡ N.mark) × (table.now.plan ≡ N.plan) }
    requires asked { capsule.task.value.machine.ask ≡ Some Ask.Create }
    requires inside { object.0 < capsule.task.value.machine.at.execution.stage.objects }
    requires entry { let made = made_at capsule.task.value.machine.at.execution
        in enters_from capsule.task.value.from made ≡ Enter object.0 rights ∷ enters_from (object.0 + 1) made }
    ensures { IfOk result (λ went. WentAs capsule.entry went) }
{
    let task = &mut *capsule.task;
    let done = more(task.events, 1)?;
    let next = above(object)?;
    match table.enter(alloc, &mut task.pass, object, rights)? {
        Tried::Done => {
            task.from = next;
            task.events = done;
            Ok(Went::Ready(capsule))
        }
        Tried::Busy(_) => Ok(Went::Busy(capsule)),
    }
}

// All entries of the child are made: it gets its seat, its pass and its machine.
fn enroll<'c, N: RunName>(
    alloc: Global,
    table: &ObjectTable,
    mut capsule: Capsule<'c, N>,
    remains: &mut Remains,
) -> Result<Went<'c, N>, Memory>
    requires table { (table.now.mark ≡ N.mark) × (table.now.plan ≡ N.plan) }
    requires asked { capsule.task.value.machine.ask ≡ Some Ask.Create }
    requires entered { enters_from capsule.task.value.from (made_at capsule.task.value.machine.at.execution) ≡ [] }
    ensures { IfOk result (λ went. WentAs capsule.entry went) }
{
    let task = &mut *capsule.task;
    let done = more(task.events, 1)?;
    let steps = task.machine.steps();
    match table.enroll(alloc, &mut task.pass, steps)? {
        Tried::Done => {
            let young = table.split(alloc, &mut task.pass, &mut remains.pass)?;
            let machine = task.machine.child(alloc, &mut remains.machine)?;
            let running = Running {
                pass: young,
                machine,
                from: 0,
                events: 0,
                passed: false,
            };
            let theirs = boxed(alloc, running)?;
            let child = Capsule {
                task: theirs,
                name: PhantomData,
            };
            task.events = done;
            task.passed = false;
            Ok(Went::Parted(capsule, child))
        }
        Tried::Busy(_) => Ok(Went::Busy(capsule)),
    }
}

/// One try at the change of rights that a task asks for: its entries follow them one after another, and then
/// its machine goes on with them. What is done then, or why nothing is, the answer says. The error is want
/// of memory, after which the run can't go on.
#[inline(always)]
pub fn try_change<'c, N: RunName>(
    table: &ObjectTable,
    mut capsule: Capsule<'c, N>,
) -> Result<Went<'c, N>, Memory>
    requires table { (table.now.mark ≡ N.mark) × (table.now.plan ≡ N.plan) }
    requires asked { capsule.task.value.machine.ask ≡ Some Ask.Change }
    ensures { IfOk result (λ went. WentAs capsule.entry went) }
{
    let task = &*capsule.task;
    match task.machine.next_change(ObjectId(task.from)) {
        Some((object, rights)) => follow(table, capsule, object, rights),
        None => {
            let task = &mut *capsule.task;
            task.machine.changed();
            task.passed = false;
            Ok(Went::Ready(capsule))
        }
    }
}

// One try at the event by which the task's entry on an object follows new rights.
fn try_follow(table: &ObjectTable, pass: &mut TaskPass, object: ObjectId, rights: Rights) -> Tried
    requires mark { pass.old.mark ≡ table.now.mark }
    requires declared { object.0 < count_of table.now.plan }
    requires shifts { has_rights rights ≡ true → Next (Shift object.0 rights) pass.old.shows }
    requires leaves { has_rights rights ≡ false → Next (Leave object.0) pass.old.shows }
    ensures mark { pass.new.mark ≡ pass.old.mark }
    ensures answer { TriedAs object.0 pass.old.shows result pass.new.shows }
{
    if rights.any() {
        table.shift(pass, object, rights)
    } else {
        table.leave(pass, object)
    }
}

// The next entry that follows new rights.
fn follow<'c, N: RunName>(
    table: &ObjectTable,
    mut capsule: Capsule<'c, N>,
    object: ObjectId,
    rights: Rights,
) -> Result<Went<'c, N>, Memory>
    requires table { (table.now.mark ≡ N.mark) × (table.now.plan ≡ N.plan) }
    requires asked { capsule.task.value.machine.ask ≡ Some Ask.Change }
    requires inside { object.0 < capsule.task.value.machine.at.execution.stage.objects }
    requires change { let old = rights_at capsule.task.value.machine.at.execution.stage in let new = amended_at capsule.task.value.machine.at.execution
        in shifts_from capsule.task.value.from old new ≡ follows object.0 rights ∷ shifts_from (object.0 + 1) old new }
    ensures { IfOk result (λ went. WentAs capsule.entry went) }
{
    let task = &mut *capsule.task;
    let done = more(task.events, 1)?;
    let next = above(object)?;
    match try_follow(table, &mut task.pass, object, rights) {
        Tried::Done => {
            task.from = next;
            task.events = done;
            Ok(Went::Freed(place(object), capsule))
        }
        Tried::Busy(_) => Ok(Went::Busy(capsule)),
    }
}

/// One try at the end that a task asks for: its entries leave one after another, and then it is left to
/// resign. What is done then, or why nothing is, the answer says. The error is want of memory, after which
/// the run can't go on.
pub fn try_end<'c, N: RunName>(
    table: &ObjectTable,
    capsule: Capsule<'c, N>,
) -> Result<Went<'c, N>, Memory>
    requires table { (table.now.mark ≡ N.mark) × (table.now.plan ≡ N.plan) }
    requires asked { asks is_end capsule.task.value.machine.ask ≡ true }
    ensures { IfOk result (λ went. WentAs capsule.entry went) }
{
    let task = &*capsule.task;
    match task.machine.next_leave(ObjectId(task.from)) {
        Some(object) => leave(table, capsule, object),
        None => Ok(Went::Departed(Departed { capsule })),
    }
}

// The next entry that leaves.
fn leave<'c, N: RunName>(
    table: &ObjectTable,
    mut capsule: Capsule<'c, N>,
    object: ObjectId,
) -> Result<Went<'c, N>, Memory>
    requires table { (table.now.mark ≡ N.mark) × (table.now.plan ≡ N.plan) }
    requires asked { asks is_end capsule.task.value.machine.ask ≡ true }
    requires inside { object.0 < capsule.task.value.machine.at.execution.stage.objects }
    requires entry { let old = rights_at capsule.task.value.machine.at.execution.stage
        in leaves_from capsule.task.value.from old ≡ Leave object.0 ∷ leaves_from (object.0 + 1) old }
    ensures { IfOk result (λ went. WentAs capsule.entry went) }
{
    let task = &mut *capsule.task;
    let done = more(task.events, 1)?;
    let next = above(object)?;
    match table.leave(&mut task.pass, object) {
        Tried::Done => {
            task.from = next;
            task.events = done;
            Ok(Went::Freed(place(object), capsule))
        }
        Tried::Busy(_) => Ok(Went::Busy(capsule)),
    }
}

// The fault that a task ends with, if with one.
fn fault_of(ask: Option<Ask>) -> Option<Blame>
    requires { asks is_end ask ≡ true }
    ensures { ask ≡ Some (ending result) }
{
    match ask {
        Some(Ask::End) => None,
        Some(Ask::Fault(blame)) => Some(blame),
        Some(Ask::Take(_, _)) => unreachable!(),
        Some(Ask::GiveBack(_)) => unreachable!(),
        Some(Ask::Create) => unreachable!(),
        Some(Ask::Change) => unreachable!(),
        None => unreachable!(),
    }
}

/// A task whose entries have all left resigns. It does not fail for want of memory.
pub fn resign<'c, N: RunName>(table: &ObjectTable, departed: Departed<'c, N>) -> Resigned<'c, N>
    requires { (table.now.mark ≡ N.mark) × (table.now.plan ≡ N.plan) }
    ensures { Resigns (carried departed.entry.capsule) result.task.value.pass }
{
    let Departed { mut capsule } = departed;
    let task = &mut *capsule.task;
    let blame = fault_of(task.machine.asked());
    let steps = task.machine.steps();
    table.resign(&mut task.pass, blame, steps);
    Resigned {
        task: capsule.task,
        name: capsule.name,
    }
}

/// A task whose entries have all left resigns, and its pass is taken into one that has resigned; what
/// else it had remains for another. It does not fail for want of memory.
pub fn retire<'c, N: RunName>(
    table: &ObjectTable,
    keeper: &mut TaskPass,
    departed: Departed<'c, N>,
    remains: &mut Remains,
)
    requires table { (table.now.mark ≡ N.mark) × (table.now.plan ≡ N.plan) }
    requires keeper { (keeper.old.mark ≡ N.mark) × IsGone keeper.old.shows }
    ensures mark { keeper.new.mark ≡ keeper.old.mark }
    ensures done { Retires (carried departed.entry.capsule) keeper.old keeper.new }
{
    let Departed { capsule } = departed;
    let blame = fault_of(capsule.task.machine.asked());
    let steps = capsule.task.machine.steps();
    let Running { pass, machine, .. } = Box::into_inner(capsule.task);
    table.retire(keeper, pass, blame, steps, &mut remains.pass);
    machine.leave_in(&mut remains.machine);
}
