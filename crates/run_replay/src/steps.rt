//! Which tasks may go on where turn lists are followed.

ghost use Rattle.std.specs.Prelude.{◌≡◌, ◌<◌, ◌≤◌, ℕ, true, false, None, Some, length, slice_get, IfSome, MatchOption};
ghost use Rattle.jade_meaning.specs.Turns.{turns_in};
ghost use Rattle.jade_meaning.specs.Walk.{upcoming, First};
ghost use Rattle.schedule_core.specs.Soundness.{turns_of};
ghost use Rattle.run_replay.specs.steps.InStep.{is_path, next_turn, keeps_to, in_step_at};

use jade_base::{Mode, ObjectId, Path, TurnLists};
use jade_meaning::walker::{Act, Carried};
use schedule_core::Core;

/// A place of the roll whose task is in step with the lists; None exactly where no task is. It is
/// looked for from a place on, and then from the front.
pub(crate) fn place_in_step(core: &Core, turns: &TurnLists, from: usize) -> Option<usize>
    ensures { MatchOption result ((i : ℕ) → in_step_at (turns_in turns.now) core.now.shelves (slice_get core.now.roll i) ≡ false)
        (λ place. in_step_at (turns_in turns.now) core.now.shelves (slice_get core.now.roll place) ≡ true) }
{
    match first_in_step(core, turns, from, core.live()) {
        Some(place) => Some(place),
        None => first_in_step(core, turns, 0, from),
    }
}

// The first place from `low` on and below `high` whose task is in step with the lists, if one is.
fn first_in_step(core: &Core, turns: &TurnLists, low: usize, high: usize) -> Option<usize>
    ensures { MatchOption result ((i : ℕ) → low ≤ i → i < high → in_step_at (turns_in turns.now) core.now.shelves (slice_get core.now.roll i) ≡ false)
        (λ place. in_step_at (turns_in turns.now) core.now.shelves (slice_get core.now.roll place) ≡ true) }
{
    for place in low..high {
        if in_step(core, turns, place) {
            return Some(place);
        }
    }
    None
}

// Whether there is a task at a place of the roll and it is in step with the lists.
fn in_step(core: &Core, turns: &TurnLists, place: usize) -> bool
    ensures { result ≡ in_step_at (turns_in turns.now) core.now.shelves (slice_get core.now.roll place) }
{
    if place >= core.live() {
        return false;
    }
    core.allowed_at(place) && keeps_to_lists(core, turns, place)
}

// Whether the next event of the task at a place keeps to the lists.
fn keeps_to_lists(core: &Core, turns: &TurnLists, place: usize) -> bool
    requires { place < length core.now.roll }
    ensures { IfSome (slice_get core.now.roll place) (λ s. First (upcoming s.walker) (λ e. keeps_to (turns_in turns.now) core.now.shelves s.path e ≡ result)) }
{
    match core.next_at(place) {
        (Act::Take(object), Carried::Mode(Mode::Commuting)) => {
            is_next(core, turns, object, core.live_at(place))
        }
        _ => true,
    }
}

// Whether a task's turn on an object is the next one of the object's list.
fn is_next(core: &Core, turns: &TurnLists, object: ObjectId, path: &Path) -> bool
    ensures { result ≡ is_path path.now (next_turn (turns_in turns.now) core.now.shelves object.0) }
{
    match path_next(core, turns, object) {
        Some(next) => next.is_same(path),
        None => false,
    }
}

// The path whose turn on an object is the next one of the object's list, if there is one.
fn path_next<'t>(core: &Core, turns: &'t TurnLists, object: ObjectId) -> Option<&'t Path>
    ensures { MatchOption result (next_turn (turns_in turns.now) core.now.shelves object.0 ≡ None)
        (λ path. next_turn (turns_in turns.now) core.now.shelves object.0 ≡ Some path.now) }
{
    if object.0 as usize >= turns.len() {
        return None;
    }
    let list = turns.at(object.0 as usize);
    let had = had_turns(core, object);
    if had < list.len() {
        return Some(list.at(had));
    }
    None
}

// How many turns an object has had.
fn had_turns(core: &Core, object: ObjectId) -> usize
    ensures { result ≡ length (turns_of core.now.shelves object.0) }
{
    match core.object(object) {
        Some(shelf) => shelf.turns().len(),
        None => 0,
    }
}

/// Where to look first for a task that is in step, after the one at a place has gone on: there, since
/// that one or a child that it has made may go on; but after it gave an object up, at the task whose
/// turn is the next one there, if that is in step. Any place would do: this one saves time.
pub(crate) fn after_step(core: &Core, turns: &TurnLists, act: Act, place: usize) -> usize {
    match act {
        Act::Give(object) => match path_next(core, turns, object) {
            Some(path) => first_of(core, turns, core.place(path), place),
            None => place,
        },
        _ => place,
    }
}

// The first of two places if its task is in step, else the second.
fn first_of(core: &Core, turns: &TurnLists, first: usize, second: usize) -> usize {
    if in_step(core, turns, first) {
        first
    } else {
        second
    }
}

/// Whether so many objects have had as many turns as their lists have.
pub(crate) fn is_used_up(core: &Core, turns: &TurnLists, objects: u32) -> bool
    requires { objects ≤ length turns.now }
    ensures yes { result ≡ true → (o : ℕ) → o < objects → length (turns_of core.now.shelves o) ≡ length (turns_in turns.now o) }
    ensures no { ((o : ℕ) → length (turns_of core.now.shelves o) ≡ length (turns_in turns.now o)) → result ≡ true }
{
    for object in 0..objects {
        if had_turns(core, ObjectId(object)) != turns.at(object as usize).len() {
            return false;
        }
    }
    true
}
