//! The entries of a specification from an object on, and the rule for those that commute.

ghost use Rattle.std.specs.Prelude.{◌≡◌, ◌<◌, IfNone, IfSome, Some, None, true, false, length, map, slice_get};
ghost use Rattle.jade_meaning.specs.Specification.{commuting_on, fits_commuting, may_commute, rights_on};
ghost use Rattle.jade_meaning.specs.Spread.{spread};
ghost use Rattle.task_machine.specs.steps.Searching.{ObjectsAscend};
ghost use Rattle.jade_base.specs.Rights.{same_rights};
ghost use Rattle.jade_base.specs.Specification.{IsAscending, settled};
ghost use Rattle.access_spec.specs.Copies.{IsSameBetween};
ghost use Rattle.task_machine.specs.steps.Finding.{IsFreeBetween, IsNextChange, IsNextEntry, IsPlaceFrom};

use crate::halves::FEW;
use jade_base::{ObjectId, Right, Rights, Spec};

// The place of the first entry whose object is not below this one, found by halves, and one by one
// among the few that are left.
fn place_from(spec: &Spec, from: ObjectId) -> usize
    ensures { IsPlaceFrom from.0 result spec.now.entries }
{
    let mut low = 0;
    let mut high = spec.len();
    'halves: while high - low > FEW {
        let middle = low + (high - low) / 2;
        let (object, _) = spec.entry(middle);
        if object.0 < from.0 {
            low = middle + 1;
        } else {
            high = middle;
        }
    }
    'few: for place in low..high {
        let (object, _) = spec.entry(place);
        if object.0 >= from.0 {
            return place;
        }
    }
    high
}

// Whether the two are the same rights.
fn same(left: Rights, right: Rights) -> bool
    ensures { result ≡ same_rights left right }
{
    left == right
}

/// The first entry from an object on, among so many objects. It takes no memory.
pub(crate) fn next_entry(spec: &Spec, objects: u32, from: ObjectId) -> Option<(ObjectId, Rights)>
    ensures found { IfSome result (λ next. IsNextEntry spec.now.entries from.0 objects next.0 next.1) }
    ensures none { IfNone result (IsFreeBetween spec.now.entries from.0 objects) }
{
    let place = place_from(spec, from);
    if place < spec.len() {
        let (object, rights) = spec.entry(place);
        if object.0 < objects {
            return Some((object, rights));
        }
    }
    None
}

/// The first object from one on, among so many, whose rights in the draft are not those it has,
/// with those of the draft. It takes no memory.
pub(crate) fn next_amended(spec: &Spec, objects: u32, from: ObjectId) -> Option<(ObjectId, Rights)>
    ensures found { IfSome result (λ next. IsNextChange spec.now from.0 objects next.0 next.1) }
    ensures none { IfNone result (IsSameBetween spec.now from.0 objects) }
{
    if !spec.is_drafted() {
        return None;
    }
    let first = place_from(spec, from);
    'places: for place in first..spec.len() {
        let (object, rights) = spec.entry(place);
        let amended = spec.draft_at(place);
        if !same(rights, amended) {
            if object.0 < objects {
                return Some((object, amended));
            }
            return None;
        }
    }
    None
}

/// The rights on the object of an entry, among so many objects. It takes no memory.
pub(crate) fn rights_at(spec: &Spec, objects: u32, place: usize) -> (ObjectId, Rights)
    requires { place < length spec.now.entries }
    ensures object { slice_get (map (λ x. x.0) spec.now.entries) place ≡ Some result.0 }
    ensures rights { result.1 ≡ rights_on (spread objects spec.now.entries) result.0.0 }
    ensures ascend { ObjectsAscend (map (λ x. x.0) spec.now.entries) }
{
    let _count = spec.len();
    let (object, rights) = spec.entry(place);
    if object.0 < objects {
        (object, rights)
    } else {
        (object, Rights::NONE)
    }
}

/// The object on which a task with this specification commutes, if it does, among so many objects.
/// It takes no memory.
pub(crate) fn commuting(spec: &Spec, objects: u32) -> Option<ObjectId>
    ensures found { IfSome result (λ object. commuting_on (spread objects spec.now.entries) ≡ Some object.0) }
    ensures none { IfNone result (commuting_on (spread objects spec.now.entries) ≡ None) }
    ensures within { IfSome result (λ object. object.0 < objects) }
{
    if !spec.may_commute() {
        return None;
    }
    'entries: for place in 0..spec.len() {
        let (object, rights) = rights_at(spec, objects, place);
        if rights.commutes.is_there() {
            return Some(object);
        }
    }
    None
}

// Whether a task that commutes on an object may have these rights on another, or on this one.
fn fits(own: ObjectId, object: ObjectId, rights: Rights) -> bool
    ensures { result ≡ fits_commuting own.0 object.0 rights }
{
    if own.0 == object.0 {
        !rights.reads.is_there()
            && !rights.writes.is_there()
            && matches!(rights.commutes, Right::Immediate)
    } else {
        !matches!(rights.reads, Right::Deferred)
            && !rights.writes.is_there()
            && !rights.commutes.is_there()
    }
}

/// Whether a task may have this specification, among so many objects. It takes no memory.
pub(crate) fn may_have(spec: &Spec, objects: u32) -> bool
    ensures { result ≡ may_commute (spread objects spec.now.entries) }
{
    let Some(own) = commuting(spec, objects) else {
        return true;
    };
    'entries: for place in 0..spec.len() {
        let (object, rights) = rights_at(spec, objects, place);
        if !fits(own, object, rights) {
            return false;
        }
    }
    true
}
