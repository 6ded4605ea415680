//! Which object a task takes or gives up next.

ghost use Rattle.std.specs.Prelude.{◌≡◌, ◌<◌, ◌&&◌, not, length, map, is_some, false, slice_get, slice_index_or, Some, IfSome, IfNone};
ghost use Rattle.jade_meaning.specs.Specification.{commuting_on, same_hold, yields};
ghost use Rattle.task_machine.specs.Stages.{rights_at};
ghost use Rattle.task_machine.specs.steps.Standing.{OwnIsDue, OwnIsNotDue};
ghost use Rattle.task_machine.specs.Executions.{objects_in};
ghost use Rattle.task_machine.specs.Left.{IsLeast, IsNone, for_child, is_own, others, to_take};
ghost use Rattle.task_machine.specs.Machines.{candidates, due_in, holds_at, is_to_move, made_at};
ghost use Rattle.task_machine.specs.steps.Searching.{IsFirstFrom, ObjectsAscend, ObjectsBelow};

use crate::entries;
use crate::execution::Execution;
use crate::halves::FEW;
use access_spec::{gives_way, mode_of};
use jade_base::{Blame, Mode, ObjectId, Rights};

/// What a task is about.
#[derive(Clone, Copy, Debug, PartialEq, Eq)]
pub enum Phase {
    /// It begins and takes what it has a mode for, the object on which it commutes last.
    Starting,
    /// It takes what is due.
    Taking,
    /// It runs its code.
    Going,
    /// A child with the body of this number begins, once what it gets is given up.
    Creating(u32),
    /// Its rights change, once what it may not hold then is given up.
    Changing,
    /// It ends, once all that it holds is given up.
    Ending(Option<Blame>),
}

// The number of objects among which one is looked for.
#[inline(always)]
fn count(execution: &Execution, phase: Phase) -> usize
    ensures count { result ≡ length (candidates phase execution.now) }
    ensures ascend { ObjectsAscend (candidates phase execution.now) }
{
    match phase {
        Phase::Creating(_) => execution.child_spec().len(),
        Phase::Starting => execution.rows(),
        Phase::Taking => execution.rows(),
        Phase::Going => execution.rows(),
        Phase::Changing => execution.rows(),
        Phase::Ending(_) => execution.rows(),
    }
}

// One of these objects.
#[inline(always)]
fn candidate(execution: &Execution, phase: Phase, place: usize) -> ObjectId
    requires { place < length (candidates phase execution.now) }
    ensures { slice_get (candidates phase execution.now) place ≡ Some result }
{
    match phase {
        Phase::Creating(_) => execution.child_spec().entry(place).0,
        Phase::Starting | Phase::Taking | Phase::Going | Phase::Changing | Phase::Ending(_) =>
            execution.object_at(place),
    }
}

// The mark of an object's row.
fn is_due(execution: &Execution, due: &[bool], object: ObjectId) -> bool
    ensures { result ≡ due_in execution.now.rows due.now object.0 }
{
    match execution.row_of(object) {
        None => false,
        Some(place) => mark(due, place),
    }
}

// A mark, or none.
#[inline(always)]
fn mark(due: &[bool], place: usize) -> bool
    ensures { result ≡ slice_index_or due.now place false }
{
    if place < due.len() { due[place] } else { false }
}

// Whether a hold is given up for a child with these rights.
#[inline(always)]
fn is_given(hold: Option<Mode>, rights: Rights) -> bool
    ensures { result ≡ yields hold rights }
{
    match hold {
        None => false,
        Some(hold) => gives_way(hold, rights),
    }
}

// Whether a hold is given up where this mode is to follow it.
#[inline(always)]
pub(crate) fn is_given_back(hold: Option<Mode>, mode: Option<Mode>) -> bool
    ensures { result ≡ (is_some hold && not (same_hold hold mode)) }
{
    match (hold, mode) {
        (None, _) => false,
        (Some(Mode::Reading), Some(Mode::Reading)) => false,
        (Some(Mode::Writing), Some(Mode::Writing)) => false,
        (Some(Mode::Commuting), Some(Mode::Commuting)) => false,
        (Some(_), _) => true,
    }
}

// Whether an object is due, and has a mode.
fn is_taken(execution: &Execution, due: &[bool], object: ObjectId) -> bool
    ensures { result ≡ to_take (due_in execution.now.rows due.now) (rights_at execution.now.stage) object.0 }
{
    if is_due(execution, due, object) {
        mode_of(execution.rights(object)).is_some()
    } else {
        false
    }
}

// Whether an object is the one on which the task commutes.
fn is_own(execution: &Execution, object: ObjectId) -> bool
    ensures { result ≡ is_own (commuting_on (rights_at execution.now.stage)) object.0 }
{
    match execution.own_object() {
        None => false,
        Some(own) => own.0 == object.0,
    }
}

// The object on which the task commutes, where it is due.
pub(crate) fn own_due(execution: &Execution, due: &[bool]) -> Option<ObjectId>
    ensures due { IfSome result (λ object. OwnIsDue execution.now due.now object.0) }
    ensures not { IfNone result (OwnIsNotDue execution.now due.now) }
{
    match execution.own_object() {
        None => None,
        Some(object) => {
            if is_taken(execution, due, object) {
                Some(object)
            } else {
                None
            }
        }
    }
}

// Whether the object of a row is due, and has a mode.
#[inline(always)]
fn is_taken_in_row(execution: &Execution, due: &[bool], place: usize, object: ObjectId) -> bool
    requires { slice_get (objects_in execution.now.rows) place ≡ Some object }
    ensures { result ≡ to_take (due_in execution.now.rows due.now) (rights_at execution.now.stage) object.0 }
{
    let _count = execution.rows();
    if mark(due, place) {
        mode_of(execution.rights_in_row(place, object)).is_some()
    } else {
        false
    }
}

// The same where the task begins, and the object on which it commutes is left out. That one is looked
// for only where the rights on this one commute.
#[inline(always)]
fn is_taken_first(execution: &Execution, due: &[bool], place: usize, object: ObjectId) -> bool
    requires { slice_get (objects_in execution.now.rows) place ≡ Some object }
    ensures { result ≡ to_take (others (commuting_on (rights_at execution.now.stage)) (due_in execution.now.rows due.now))
        (rights_at execution.now.stage) object.0 }
{
    let _count = execution.rows();
    if !mark(due, place) {
        return false;
    }
    let rights = execution.rights_in_row(place, object);
    if mode_of(rights).is_none() {
        return false;
    }
    if rights.commutes.is_there() {
        !is_own(execution, object)
    } else {
        true
    }
}

// Whether the object of a child's entry is given up for the child.
#[inline(always)]
fn is_given_for_entry(execution: &Execution, place: usize, object: ObjectId) -> bool
    requires { slice_get (map (λ x. x.0) execution.now.stage.child.entries) place ≡ Some object }
    ensures { result ≡ for_child (made_at execution.now) (holds_at execution.now) object.0 }
{
    let (_, rights) = entries::rights_at(execution.child_spec(), execution.objects(), place);
    is_given(execution.hold(object), rights)
}

// Whether the object at a place is to be taken or given up.
#[inline(always)]
fn moves(execution: &Execution, due: &[bool], phase: Phase, place: usize, object: ObjectId) -> bool
    requires { slice_get (candidates phase execution.now) place ≡ Some object }
    ensures { result ≡ is_to_move phase execution.now due.now object.0 }
{
    match phase {
        Phase::Starting => is_taken_first(execution, due, place, object),
        Phase::Taking => is_taken_in_row(execution, due, place, object),
        Phase::Going => false,
        Phase::Creating(_) => is_given_for_entry(execution, place, object),
        Phase::Changing => {
            let mode = mode_of(execution.amended(object));
            is_given_back(execution.hold_in_row(place, object), mode)
        }
        Phase::Ending(_) => execution.hold_in_row(place, object).is_some(),
    }
}

// The place of the first of these objects that is not below this one, found by halves, and one by
// one among the few that are left.
#[inline(always)]
fn place_from(execution: &Execution, phase: Phase, from: ObjectId) -> usize
    ensures { IsFirstFrom from.0 result (candidates phase execution.now) }
{
    let mut low = 0;
    let mut high = count(execution, phase);
    'halves: while high - low > FEW {
        let middle = low + (high - low) / 2;
        if candidate(execution, phase, middle).0 < from.0 {
            low = middle + 1;
        } else {
            high = middle;
        }
    }
    'few: for place in low..high {
        if candidate(execution, phase, place).0 >= from.0 {
            return place;
        }
    }
    high
}

// A place before which all of these objects are below this one: the first of few, which are soon looked
// at, and else the last one.
#[inline(always)]
fn start_from(execution: &Execution, phase: Phase, from: ObjectId) -> usize
    ensures { ObjectsBelow from.0 result (candidates phase execution.now) }
{
    if count(execution, phase) <= FEW {
        return 0;
    }
    place_from(execution, phase, from)
}

// The first of these objects from one on that is to be taken or given up, where none is below it,
// with its place among them.
#[inline(always)]
fn search(
    execution: &Execution,
    due: &[bool],
    phase: Phase,
    from: ObjectId,
) -> Option<(ObjectId, usize)>
    requires { IsNone (is_to_move phase execution.now due.now) from.0 }
    ensures found { IfSome result (λ next.
        IsLeast (is_to_move phase execution.now due.now) execution.now.stage.objects next.0.0) }
    ensures none { IfNone result (IsNone (is_to_move phase execution.now due.now) execution.now.stage.objects) }
{
    let first = start_from(execution, phase, from);
    'objects: for place in first..count(execution, phase) {
        let object = candidate(execution, phase, place);
        if moves(execution, due, phase, place, object) {
            return Some((object, place));
        }
    }
    None
}

/// The same as `next_object`, where nothing is to be taken or given up below an object: what stands
/// below it is not looked at, unless there are few. With it comes a place at which its row may be found: where it is given
/// up for a child, that is the place of the child's entry. There is a search for each phase, so that
/// none asks at each object which phase it is. It takes no memory.
pub(crate) fn next_from(
    execution: &Execution,
    due: &[bool],
    phase: Phase,
    from: ObjectId,
) -> Option<(ObjectId, usize)>
    requires { IsNone (is_to_move phase execution.now due.now) from.0 }
    ensures found { IfSome result (λ next.
        IsLeast (is_to_move phase execution.now due.now) execution.now.stage.objects next.0.0) }
    ensures none { IfNone result (IsNone (is_to_move phase execution.now due.now) execution.now.stage.objects) }
{
    match phase {
        Phase::Starting => search(execution, due, Phase::Starting, from),
        Phase::Taking => search(execution, due, Phase::Taking, from),
        Phase::Going => None,
        Phase::Creating(number) => search(execution, due, Phase::Creating(number), from),
        Phase::Changing => search(execution, due, Phase::Changing, from),
        Phase::Ending(blame) => search(execution, due, Phase::Ending(blame), from),
    }
}

/// The least object that is to be taken, where the task takes what is due, or to be given up, where
/// it creates a child, changes its rights or ends; there is none exactly where nothing is left to
/// take or to give up. For each row of the execution there is a mark that tells whether its object
/// is due. It takes no memory.
pub fn next_object(execution: &Execution, due: &[bool], phase: Phase) -> Option<ObjectId>
    ensures found { IfSome result (λ object.
        IsLeast (is_to_move phase execution.now due.now) execution.now.stage.objects object.0) }
    ensures none { IfNone result (IsNone (is_to_move phase execution.now due.now) execution.now.stage.objects) }
{
    match next_from(execution, due, phase, ObjectId(0)) {
        Some((object, _)) => Some(object),
        None => None,
    }
}
