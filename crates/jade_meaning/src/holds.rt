//! What a task holds, and what it tells of it.

ghost use Rattle.std.specs.Prelude.{◌≡◌, [], ◌++◌, map, is_some, slice_set, not, ◌&&◌, IfOk, OnOk};
ghost use Rattle.jade_base.specs.Rights.{mode_of, is_immediate, same_rights};
ghost use Rattle.jade_meaning.specs.Specification.{yields, same_hold, objects};
ghost use Rattle.jade_meaning.specs.Talk.{Task, held, made_immediate, when, take_in, shift, start_takes};
ghost use Rattle.jade_meaning.specs.steps.Holding.{event_of, events_of, listed, all_listed, kept_as, kept_on, is_taken_anew};

use crate::dense_spec::DenseSpec;
use access_spec::{gives_way, mode_of};
use jade_base::{Blame, Memory, Mode, ObjectId, Right, Rights};
use std::alloc::Global;
use std::marker::Model;

/// What a task tells of itself, but for a read of a cell.
#[derive(Clone, Copy)]
pub(crate) enum PendingEvent {
    Enter(ObjectId, Rights),
    Enroll(u64),
    Take(ObjectId, Mode),
    Write(ObjectId, u32, i64),
    Give(ObjectId),
    Leave(ObjectId),
    Shift(ObjectId, Rights),
    Resign(Option<Blame>, u64),
}

/// What is told object by object.
#[derive(Clone, Copy)]
pub(crate) enum Listing {
    StartTakes,
    CreationGives,
    Enters,
    ChangeGives,
    Shifts,
    ChangeTakes,
    EndGives,
    EndLeaves,
}

/// After what the holds are told anew.
#[derive(Clone, Copy)]
pub(crate) enum Keeping {
    AtStart,
    AtCreation,
    AtChange,
}

/// The mode in which each object is held, if it is; contracts see it as a list.
#[derive(Drop)]
pub(crate) struct Holds {
    modes: Vec<Option<Mode>>,
}

impl Model for Holds {
    ghost use Rattle.std.specs.Prelude.{List, Option};
    ghost use Rattle.jade_base.specs.declared.rights.Mode.{Mode as ModeOf};

    ghost Value = { List (Option ModeOf) };

    ghost view = { λ h. h.modes.items };
}

impl Holds {
    /// No hold, on no object.
    pub(crate) fn empty(alloc: Global) -> Holds
        ensures { result ≡ [] }
    {
        Holds {
            modes: Vec::new(alloc),
        }
    }

    /// The hold on an object.
    pub(crate) fn on(&self, object: usize) -> Option<Mode>
        ensures { result ≡ held self.now object }
    {
        if object < self.modes.len() {
            self.modes[object]
        } else {
            None
        }
    }

    /// Another hold on an object; nothing happens where there is no such object.
    pub(crate) fn set(&mut self, object: usize, mode: Option<Mode>)
        ensures { self.new ≡ slice_set self.old object mode }
    {
        if object < self.modes.len() {
            self.modes[object] = mode;
        }
    }

    /// The same holds once more.
    pub(crate) fn copy(&self, alloc: Global) -> Result<Holds, Memory>
        ensures { IfOk result (λ copy. copy ≡ self.now) }
    {
        let modes = Vec::from_slice(alloc, self.modes.as_slice())?;
        Ok(Holds { modes })
    }

    /// The holds from here on, where the rights on each object were these and are those.
    pub(crate) fn next(
        &self,
        alloc: Global,
        kind: Keeping,
        old: &DenseSpec,
        new: &DenseSpec,
    ) -> Result<Holds, Memory>
        ensures { IfOk result (λ holds. holds ≡ map (λ o. kept_on kind old.now new.now self.now o) (objects new.now)) }
    {
        let mut modes = Vec::new(alloc);
        for object in 0..new.len() {
            modes.push(kept_as(kind, old.on(object), new.on(object), self.on(object)))?;
        }
        Ok(Holds { modes })
    }
}

// Whether a hold is given up for a child with these rights.
fn yields(hold: Option<Mode>, child: Rights) -> bool
    ensures { result ≡ yields hold child }
{
    match hold {
        None => false,
        Some(mode) => gives_way(mode, child),
    }
}

// Whether two holds are the same.
fn same_hold(left: Option<Mode>, right: Option<Mode>) -> bool
    ensures { result ≡ same_hold left right }
{
    match (left, right) {
        (None, None) => true,
        (Some(Mode::Reading), Some(Mode::Reading)) => true,
        (Some(Mode::Writing), Some(Mode::Writing)) => true,
        (Some(Mode::Commuting), Some(Mode::Commuting)) => true,
        _ => false,
    }
}

// Whether a hold is in a mode that the new rights do not have.
fn given_back(hold: Option<Mode>, new: Rights) -> bool
    ensures { result ≡ (is_some hold && not (same_hold hold (mode_of new))) }
{
    hold.is_some() && !same_hold(hold, mode_of(new))
}

// Whether a right is immediate.
fn immediate(right: Right) -> bool
    ensures { result ≡ is_immediate right }
{
    match right {
        Right::Immediate => true,
        Right::Absent | Right::Deferred => false,
    }
}

// Whether a right is immediate from now on.
fn made_immediate(old: Rights, new: Rights) -> bool
    ensures { result ≡ made_immediate old new }
{
    (immediate(new.reads) && !immediate(old.reads))
        || (immediate(new.writes) && !immediate(old.writes))
}

// Whether an object is taken at `cont`.
fn taken_anew(old: Rights, new: Rights, hold: Option<Mode>) -> bool
    ensures { result ≡ is_taken_anew old new hold }
{
    given_back(hold, new) || (hold.is_none() && made_immediate(old, new))
}

// The hold on an object from here on.
fn kept_as(kind: Keeping, old: Rights, new: Rights, hold: Option<Mode>) -> Option<Mode>
    ensures { result ≡ kept_as kind old new hold }
{
    match kind {
        Keeping::AtStart => mode_of(new),
        Keeping::AtCreation => { if yields(hold, new) { None } else { hold } }
        Keeping::AtChange => {
            if taken_anew(old, new, hold) {
                mode_of(new)
            } else {
                hold
            }
        }
    }
}

// An event, where the test says so.
fn when(test: bool, event: PendingEvent) -> Option<PendingEvent>
    ensures { (t : Task) → events_of t result ≡ when test (event_of t event) }
{
    if test { Some(event) } else { None }
}

// An object is taken in a mode, where there is one.
pub(crate) fn take_in(mode: Option<Mode>, object: ObjectId) -> Option<PendingEvent>
    ensures { (t : Task) → events_of t result ≡ take_in mode object.0 }
{
    match mode {
        None => None,
        Some(mode) => Some(PendingEvent::Take(object, mode)),
    }
}

// Whether two are the same rights.
fn same_rights(left: Rights, right: Rights) -> bool
    ensures { result ≡ same_rights left right }
{
    left == right
}

// The entry on an object follows its rights.
fn shift(old: Rights, new: Rights, object: ObjectId) -> Option<PendingEvent>
    ensures { (t : Task) → events_of t result ≡ shift old new object.0 }
{
    if same_rights(old, new) {
        None
    } else if new.any() {
        Some(PendingEvent::Shift(object, new))
    } else {
        Some(PendingEvent::Leave(object))
    }
}

// What is told of an object.
fn listed(
    kind: Listing,
    old: Rights,
    new: Rights,
    hold: Option<Mode>,
    object: ObjectId,
) -> Option<PendingEvent>
    ensures { (t : Task) → events_of t result ≡ listed kind old new hold object.0 }
{
    match kind {
        Listing::StartTakes => take_in(mode_of(new), object),
        Listing::CreationGives => when(yields(hold, new), PendingEvent::Give(object)),
        Listing::Enters => when(new.any(), PendingEvent::Enter(object, new)),
        Listing::ChangeGives => when(given_back(hold, new), PendingEvent::Give(object)),
        Listing::Shifts => shift(old, new, object),
        Listing::ChangeTakes => {
            if taken_anew(old, new, hold) {
                take_in(mode_of(new), object)
            } else {
                None
            }
        }
        Listing::EndGives => when(hold.is_some(), PendingEvent::Give(object)),
        Listing::EndLeaves => when(new.any(), PendingEvent::Leave(object)),
    }
}

/// The name of an object; the error is want of numbers.
pub(crate) fn named(object: usize) -> Result<ObjectId, Memory>
    ensures { IfOk result (λ id. id.0 ≡ object) }
{
    match u32::try_from(object) {
        Ok(number) => Ok(ObjectId(number)),
        Err(_) => Err(Memory),
    }
}

/// Tells of each object, ascending, where the rights on it were these and are those.
pub(crate) fn tell(
    kind: Listing,
    old: &DenseSpec,
    new: &DenseSpec,
    holds: &Holds,
    events: &mut Vec<PendingEvent>,
) -> Result<(), Memory>
    ensures { OnOk result ((t : Task) → map (event_of t) events.new.items ≡ map (event_of t) events.old.items ++ all_listed kind old.now new.now holds.now) }
{
    for object in 0..new.len() {
        let id = named(object)?;
        add(
            events,
            listed(kind, old.on(object), new.on(object), holds.on(object), id),
        )?;
    }
    Ok(())
}

/// Tells what a task takes when it begins: each object that has a mode, ascending, but the one on
/// which it commutes last.
pub(crate) fn tell_start(
    alloc: Global,
    spec: &DenseSpec,
    none: &Holds,
    events: &mut Vec<PendingEvent>,
) -> Result<(), Memory>
    ensures { OnOk result ((t : Task) → map (event_of t) events.new.items ≡ map (event_of t) events.old.items ++ start_takes spec.now) }
{
    match spec.commuting_on() {
        None => tell(Listing::StartTakes, spec, spec, none, events),
        Some(own) => {
            let others = spec.without(alloc, own)?;
            tell(Listing::StartTakes, &others, &others, none, events)?;
            let id = named(own)?;
            add(events, take_in(mode_of(spec.on(own)), id))
        }
    }
}

// An event more, if there is one.
pub(crate) fn add(events: &mut Vec<PendingEvent>, event: Option<PendingEvent>) -> Result<(), Memory>
    ensures { OnOk result ((t : Task) → map (event_of t) events.new.items ≡ map (event_of t) events.old.items ++ events_of t event) }
{
    match event {
        Some(event) => Ok(events.push(event)?),
        None => Ok(()),
    }
}
