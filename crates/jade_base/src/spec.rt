ghost use Rattle.std.specs.Prelude.{◌≡◌, ◌≢◌, ◌<◌, [], length, map, filter, true, false, IfOk, OnOk, OnErr, MatchOption, MatchResult, Some, slice_get, slice_set};
ghost use Rattle.std.specs.List.{All, position_from};
ghost use Rattle.jade_base.specs.Rights.{no_rights, has_rights, join};
ghost use Rattle.jade_base.specs.Specification.{IsAscending, joined_in, kept, IsAbsent, IsAt, IsMissing, IsSettled, IsThere, IsUncommuting, is_of, rights_in, settled, shown_all, specification};

use crate::{Memory, ObjectId, Rights};
use std::alloc::Global;
use std::collections::VecDeque;
use std::marker::Model;

// Among so few entries one is found sooner by a look at one after another than by halves.
const FEW: usize = 8;

// Room for more entries than so many is large.
const MOST_KEPT: usize = 64;

/// What a task may do with which objects, by ascending number of the object, and beside it a draft
/// of other rights on the same objects. Contracts see both as lists.
#[derive(Debug, Drop)]
pub struct Spec {
    // They grow at either end without a move of the others.
    entries: VecDeque<Entry>,
    // Whether the draft may differ from the rights: where it can't, nothing is to be done to drop it.
    drafted: bool,
    // Whether some right to commute may be there: where none can be, none is to be looked for.
    commuting: bool,
}

// The rights on an object, and those in the draft.
#[derive(Clone, Copy, Debug)]
struct Entry {
    object: ObjectId,
    rights: Rights,
    draft: Rights,
}

impl Model for Spec {
    ghost use Rattle.std.specs.Prelude.{◌≡◌, false};
    ghost use Rattle.jade_base.specs.Specification.{IsAscending, IsSettled, IsUncommuting, Specification, shown_all, specification};

    ghost Value = { Specification };

    ghost view = { λ s. specification s.entries.items };

    ghost invariant = { λ s. IsAscending (shown_all s.entries.items) × (s.drafted ≡ false → IsSettled s.entries.items)
        × (s.commuting ≡ false → IsUncommuting (specification s.entries.items)) };
}

impl Spec {
    /// No rights on any object. It takes no memory; the specification keeps the allocator.
    pub fn empty(alloc: Global) -> Spec
        ensures { result ≡ settled [] }
    {
        Spec {
            entries: VecDeque::new(alloc),
            drafted: false,
            commuting: false,
        }
    }

    /// Declares rights on an object, beside those that it has; the draft is then the rights. No
    /// rights at all change nothing but the draft. The error is want of memory, and changes nothing.
    pub fn declare(
        &mut self,
        _alloc: Global,
        object: ObjectId,
        rights: Rights,
    ) -> Result<(), Memory>
        ensures declared { OnOk result (self.new ≡ settled (joined_in self.old.entries object rights)) }
        ensures refused { OnErr result (self.new ≡ self.old) }
        ensures here { OnOk result (rights_in self.new.entries object ≡ join (rights_in self.old.entries object) rights) }
        ensures elsewhere { OnOk result ((other : ObjectId) → other ≢ object
            → rights_in self.new.entries other ≡ rights_in self.old.entries other) }
    {
        declare_among(&mut self.entries, object, rights)?;
        settle(&mut self.entries, self.drafted);
        self.drafted = false;
        self.commuting = self.commuting | rights.commutes.is_there();
        Ok(())
    }

    /// The rights on an object.
    pub fn rights(&self, object: ObjectId) -> Rights
        ensures { result ≡ rights_in self.now.entries object }
    {
        match found_place(&self.entries, object) {
            Some(place) => self.entries[place].rights,
            None => Rights::NONE,
        }
    }

    /// The place of an object, counted from 0 by ascending number; `None` where it has no rights.
    pub fn place_of(&self, object: ObjectId) -> Option<usize>
        ensures place { result ≡ position_from (is_of object) 0 self.now.entries }
        ensures drafted { length self.now.draft ≡ length self.now.entries }
    {
        found_place(&self.entries, object)
    }

    /// The number of objects with rights.
    pub fn len(&self) -> usize
        ensures count { result ≡ length self.now.entries }
        ensures drafted { length self.now.draft ≡ length self.now.entries }
        ensures ascending { IsAscending self.now.entries }
    {
        self.entries.len()
    }

    /// Whether some object may have a right to commute; where this is not so, none has.
    pub fn may_commute(&self) -> bool
        ensures { result ≡ false → IsUncommuting self.now }
    {
        self.commuting
    }

    /// Whether the draft may differ from the rights; where this is not so, it does not. It takes no
    /// memory.
    pub fn is_drafted(&self) -> bool
        ensures { result ≡ false → self.now ≡ settled self.now.entries }
    {
        self.drafted
    }

    /// The object at a place, counted from 0 by ascending number, with its rights.
    pub fn entry(&self, place: usize) -> (ObjectId, Rights)
        requires { place < length self.now.entries }
        ensures { slice_get self.now.entries place ≡ Some result }
    {
        let entry = self.entries[place];
        (entry.object, entry.rights)
    }

    /// The rights in the draft for the object at a place, counted from 0 by ascending number.
    pub fn draft_at(&self, place: usize) -> Rights
        requires { place < length self.now.entries }
        ensures { slice_get self.now.draft place ≡ Some result }
    {
        self.entries[place].draft
    }

    /// Writes rights into the draft, for the object at a place, counted from 0 by ascending number.
    pub fn set_draft(&mut self, place: usize, rights: Rights)
        requires { place < length self.old.entries }
        ensures { self.new ≡ record self.old { draft = slice_set self.old.draft place rights } }
    {
        self.entries[place].draft = rights;
        self.drafted = true;
        self.commuting = self.commuting | rights.commutes.is_there();
    }

    /// Makes the draft the rights; an object for which it has none has no entry then.
    pub fn keep_draft(&mut self)
        ensures { self.new ≡ settled (kept self.old.entries self.old.draft) }
    {
        keep(&mut self.entries, self.drafted);
        self.drafted = false;
    }

    /// Makes the draft equal to the rights.
    pub fn drop_draft(&mut self)
        ensures { self.new ≡ settled self.old.entries }
    {
        settle(&mut self.entries, self.drafted);
        self.drafted = false;
    }

    /// Takes all rights away. The room of the entries is kept for others, unless it is large. It takes no
    /// memory.
    pub fn clear(&mut self)
        ensures { self.new ≡ settled [] }
    {
        take_away(&mut self.entries);
        self.drafted = false;
        self.commuting = false;
    }

    /// The same specification with the same draft once more. The error is want of memory.
    pub fn copy(&self, alloc: Global) -> Result<Spec, Memory>
        ensures { IfOk result (λ copy. copy ≡ self.now) }
    {
        let (head, wrapped) = self.entries.as_slices();
        let mut entries = Vec::with_capacity(alloc, self.entries.len())?;
        entries.extend_from_slice(head)?;
        entries.extend_from_slice(wrapped)?;
        Ok(Spec {
            entries: VecDeque::from_vec(entries),
            drafted: self.drafted,
            commuting: self.commuting,
        })
    }
}

// Takes all entries away, and their room where it is large.
fn take_away(entries: &mut VecDeque<Entry>)
    ensures { entries.new.items ≡ [] }
{
    if entries.capacity() > MOST_KEPT {
        *entries = VecDeque::new(*entries.allocator());
    } else {
        entries.clear();
    }
}

// The place of an object's entry, if it has one. Where a task has rights on all objects, it is the
// object's number.
fn found_place(entries: &VecDeque<Entry>, object: ObjectId) -> Option<usize>
    requires { IsAscending (shown_all entries.now.items) }
    ensures { MatchOption result (IsMissing entries.now.items object) (IsAt entries.now.items object) }
{
    let number = object.0 as usize;
    if is_at(entries, number, object) {
        return Some(number);
    }
    if entries.len() <= FEW {
        return place_among_few(entries, object);
    }
    place_of(entries, object).ok()
}

// Whether the entry at a place is that of an object.
fn is_at(entries: &VecDeque<Entry>, place: usize, object: ObjectId) -> bool
    ensures { result ≡ true → IsAt entries.now.items object place }
{
    match entries.get(place) {
        Some(entry) => entry.object.0 == object.0,
        None => false,
    }
}

// The place of an object's entry, if it has one, found by a look at one after another.
fn place_among_few(entries: &VecDeque<Entry>, object: ObjectId) -> Option<usize>
    ensures { MatchOption result (IsMissing entries.now.items object) (IsAt entries.now.items object) }
{
    let (head, wrapped) = entries.as_slices();
    match place_in_run(head, object) {
        Some(place) => Some(place),
        None => match place_in_run(wrapped, object) {
            Some(place) => Some(head.len() + place),
            None => None,
        },
    }
}

// The same among entries that lie in one run.
fn place_in_run(run: &[Entry], object: ObjectId) -> Option<usize>
    ensures { MatchOption result (All (λ e. e.object.0 ≢ object.0) run.now) (IsAt run.now object) }
{
    for place in 0..run.len() {
        if run[place].object.0 == object.0 {
            return Some(place);
        }
    }
    None
}

// The place of an object among the entries, found by halves; the error is the place where it would
// be.
fn place_of(entries: &VecDeque<Entry>, object: ObjectId) -> Result<usize, usize>
    requires { IsAscending (shown_all entries.now.items) }
    ensures { MatchResult result (IsThere entries.now.items object) (IsAbsent entries.now.items object) }
{
    let place = entries.partition_point(|entry| entry.object.0 < object.0);
    if place < entries.len() && entries[place].object.0 == object.0 {
        Ok(place)
    } else {
        Err(place)
    }
}

// Joins rights to those of an object, which gets an entry where it has none. Its draft is then its
// rights, and the other drafts stand as they were.
fn declare_among(
    entries: &mut VecDeque<Entry>,
    object: ObjectId,
    rights: Rights,
) -> Result<(), Memory>
    requires { IsAscending (shown_all entries.old.items) }
    ensures joined { MatchResult result
        (λ _. shown_all entries.new.items ≡ joined_in (shown_all entries.old.items) object rights)
        (λ _. entries.new.items ≡ entries.old.items) }
    ensures settled { IsSettled entries.old.items → IsSettled entries.new.items }
{
    match place_of(entries, object) {
        Ok(place) => {
            let rights = entries[place].rights.join(rights);
            entries[place] = settled_entry(object, rights);
        }
        Err(place) => {
            if rights.any() {
                entries.insert(place, settled_entry(object, rights))?;
            }
        }
    }
    Ok(())
}

// An entry whose draft is its rights.
fn settled_entry(object: ObjectId, rights: Rights) -> Entry
    ensures { result ≡ record { object = object; rights = rights; draft = rights } }
{
    Entry {
        object,
        rights,
        draft: rights,
    }
}

// Makes each draft equal to the rights, where it may differ from them.
fn settle(entries: &mut VecDeque<Entry>, drafted: bool)
    requires { drafted ≡ false → IsSettled entries.old.items }
    ensures { specification entries.new.items ≡ settled (shown_all entries.old.items) }
{
    if drafted {
        drop_drafts(entries);
    }
}

// Makes each draft equal to the rights.
fn drop_drafts(entries: &mut VecDeque<Entry>)
    ensures { specification entries.new.items ≡ settled (shown_all entries.old.items) }
{
    for i in 0..entries.len() {
        let entry = entries[i];
        entries[i] = Entry {
            draft: entry.rights,
            ..entry
        };
    }
}

// Makes the drafts the rights, where they may differ from them, and takes out the entries that have
// none then.
fn keep(entries: &mut VecDeque<Entry>, drafted: bool)
    requires settled { drafted ≡ false → IsSettled entries.old.items }
    requires ascending { IsAscending (shown_all entries.old.items) }
    ensures { specification entries.new.items ≡ settled (kept (shown_all entries.old.items) (map (λ e. e.draft) entries.old.items)) }
{
    if drafted {
        keep_drafts(entries);
    }
}

// Makes the drafts the rights, and takes out the entries that have none then.
fn keep_drafts(entries: &mut VecDeque<Entry>)
    ensures { specification entries.new.items ≡ settled (kept (shown_all entries.old.items) (map (λ e. e.draft) entries.old.items)) }
{
    for i in 0..entries.len() {
        let entry = entries[i];
        entries[i] = Entry {
            rights: entry.draft,
            ..entry
        };
    }
    entries.retain(|entry| entry.rights.any());
}
