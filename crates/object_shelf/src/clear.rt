//! How far a queue is clear for each mode, so that what keeps a task from an object is found without
//! a walk. The numbers are kept as the queue changes: a walk goes only over entries that stand in no
//! one's way any more, each of them once.

ghost use Rattle.std.specs.Prelude.{◌≡◌, ◌<◌, ◌≤◌, ◌+◌, ◌∷◌, [], true, false, length, slice_set, slice_get, Some, List, is_none};
ghost use Rattle.std.specs.List.{insert, remove};
ghost use Rattle.object_shelf.specs.declared.queue.Entry.{Entry as EntryOf};
ghost use Rattle.object_shelf.specs.Shelves.{conflicts, takes_out};
ghost use Rattle.object_shelf.specs.Clear.{clear_for, out_many, IsClear};

use crate::queue::Entry;
use jade_base::Mode;
use std::collections::VecDeque;

/// How many entries at the front keep no one from a hold in each mode, and how many entries have the
/// content out.
#[derive(Clone, Copy, Debug)]
pub(crate) struct Clear {
    pub(crate) reading: usize,
    pub(crate) writing: usize,
    pub(crate) commuting: usize,
    pub(crate) out: usize,
}

/// The numbers of a queue of one entry.
pub(crate) fn of_one(entry: &Entry) -> Clear
    ensures { IsClear result (entry.now ∷ []) }
{
    Clear {
        reading: one_clear(entry, Mode::Reading),
        writing: one_clear(entry, Mode::Writing),
        commuting: one_clear(entry, Mode::Commuting),
        out: one_out(entry),
    }
}

// Whether the one entry of a queue stands in no one's way, as a number.
fn one_clear(entry: &Entry, mode: Mode) -> usize
    ensures { result ≡ clear_for mode (entry.now ∷ []) }
{
    if conflicts(entry, mode) { 0 } else { 1 }
}

// Whether the one entry of a queue has the content out, as a number.
fn one_out(entry: &Entry) -> usize
    ensures { result ≡ out_many (entry.now ∷ []) }
{
    if takes_out(entry) { 1 } else { 0 }
}

impl Clear {
    /// How many entries at the front keep no one from a hold in this mode.
    pub(crate) fn until(&self, mode: Mode) -> usize
        ensures { (es : List EntryOf) → IsClear self.now es → result ≡ clear_for mode es }
    {
        match mode {
            Mode::Reading => self.reading,
            Mode::Writing => self.writing,
            Mode::Commuting => self.commuting,
        }
    }

    /// The numbers after an entry without a hold has been put at a place.
    pub(crate) fn entered(&mut self, rows: &VecDeque<Entry>, place: usize)
        requires place { place < length rows.now.items }
        ensures { (es : List EntryOf) (e : EntryOf) → rows.now.items ≡ insert es place e → place ≤ length es → takes_out e.hold ≡ false → IsClear self.old es
            → IsClear self.new rows.now.items }
    {
        self.reading = clear_entered(rows, Mode::Reading, place, self.reading);
        self.writing = clear_entered(rows, Mode::Writing, place, self.writing);
        self.commuting = clear_entered(rows, Mode::Commuting, place, self.commuting);
    }

    /// The numbers after the entry at a place has changed; whether it had the content out before is
    /// told.
    pub(crate) fn changed(&mut self, rows: &VecDeque<Entry>, place: usize, was_out: bool)
        requires place { place < length rows.now.items }
        requires more { was_out ≡ false → self.old.out < length rows.now.items }
        requires fewer { was_out ≡ true → 0 < self.old.out }
        ensures { (es : List EntryOf) (e : EntryOf) → slice_get es place ≡ Some e → takes_out e.hold ≡ was_out → (f : EntryOf) → rows.now.items
            ≡ slice_set es place f → IsClear self.old es → IsClear self.new rows.now.items }
    {
        self.reading = clear_changed(rows, Mode::Reading, place, self.reading);
        self.writing = clear_changed(rows, Mode::Writing, place, self.writing);
        self.commuting = clear_changed(rows, Mode::Commuting, place, self.commuting);
        self.out = out_changed(&rows[place], self.out, was_out);
    }

    /// The numbers after the hold of the entry at a place has changed; whether it had the content out
    /// before is told, and whether it has a version exactly where it had one. Where it has, it keeps
    /// the same ones from a hold, and no entry is looked at but it.
    pub(crate) fn turned(
        &mut self,
        rows: &VecDeque<Entry>,
        place: usize,
        was_out: bool,
        is_alike: bool,
    )
        requires place { place < length rows.now.items }
        requires more { was_out ≡ false → self.old.out < length rows.now.items }
        requires fewer { was_out ≡ true → 0 < self.old.out }
        ensures { (es : List EntryOf) (e : EntryOf) → slice_get es place ≡ Some e → takes_out e.hold ≡ was_out → (f : EntryOf) → f.rights ≡ e.rights
            → (is_alike ≡ true → is_none f.version ≡ is_none e.version) → rows.now.items ≡ slice_set es place f → IsClear self.old es
            → IsClear self.new rows.now.items }
    {
        if is_alike {
            self.out = out_changed(&rows[place], self.out, was_out);
        } else {
            self.changed(rows, place, was_out);
        }
    }

    /// The numbers after the entry at a place has gone; whether it had the content out is told.
    pub(crate) fn left(&mut self, rows: &VecDeque<Entry>, place: usize, was_out: bool)
        requires fewer { was_out ≡ true → 0 < self.old.out }
        ensures { (es : List EntryOf) (e : EntryOf) → slice_get es place ≡ Some e → takes_out e.hold ≡ was_out → rows.now.items ≡ remove es place
            → IsClear self.old es → IsClear self.new rows.now.items }
    {
        self.reading = clear_left(rows, Mode::Reading, place, self.reading);
        self.writing = clear_left(rows, Mode::Writing, place, self.writing);
        self.commuting = clear_left(rows, Mode::Commuting, place, self.commuting);
        if was_out {
            self.out -= 1;
        }
    }
}

/// Whether the entry at a place has the content out.
pub(crate) fn out_at(rows: &VecDeque<Entry>, clear: &Clear, place: usize) -> bool
    requires place { place < length rows.now.items }
    requires clear { IsClear clear.now rows.now.items }
    ensures out { (e : EntryOf) → slice_get rows.now.items place ≡ Some e → takes_out e.hold ≡ result }
    ensures more { result ≡ false → clear.now.out < length rows.now.items }
    ensures fewer { result ≡ true → 0 < clear.now.out }
{
    takes_out(&rows[place])
}

// How many have the content out once an entry has changed.
fn out_changed(entry: &Entry, out: usize, was_out: bool) -> usize
    requires more { was_out ≡ false → out < 18446744073709551615 }
    requires fewer { was_out ≡ true → 0 < out }
    ensures same { takes_out entry.now.hold ≡ was_out → result ≡ out }
    ensures more { takes_out entry.now.hold ≡ true → was_out ≡ false → result ≡ out + 1 }
    ensures fewer { takes_out entry.now.hold ≡ false → was_out ≡ true → result + 1 ≡ out }
{
    let is_out = takes_out(entry);
    if is_out && !was_out {
        return out + 1;
    }
    if was_out && !is_out {
        return out - 1;
    }
    out
}

// Goes on over entries that keep no one from a hold in this mode.
fn go_on(rows: &VecDeque<Entry>, mode: Mode, from: usize) -> usize
    ensures { from ≤ clear_for mode rows.now.items → result ≡ clear_for mode rows.now.items }
{
    for place in from..rows.len() {
        if conflicts(&rows[place], mode) {
            return place;
        }
    }
    rows.len()
}

// How far the queue is clear after an entry has been put at a place.
fn clear_entered(rows: &VecDeque<Entry>, mode: Mode, place: usize, was: usize) -> usize
    requires { place < length rows.now.items }
    ensures { (es : List EntryOf) (e : EntryOf) → rows.now.items ≡ insert es place e → place ≤ length es → was ≡ clear_for mode es → result
        ≡ clear_for mode rows.now.items }
{
    if was < place {
        return was;
    }
    if conflicts(&rows[place], mode) {
        return place;
    }
    if was < rows.len() { was + 1 } else { was }
}

// How far the queue is clear after the entry at a place has changed.
fn clear_changed(rows: &VecDeque<Entry>, mode: Mode, place: usize, was: usize) -> usize
    requires { place < length rows.now.items }
    ensures { (es : List EntryOf) (e : EntryOf) → rows.now.items ≡ slice_set es place e → was ≡ clear_for mode es → result ≡ clear_for mode rows.now.items }
{
    if was < place {
        return was;
    }
    if conflicts(&rows[place], mode) {
        return place;
    }
    if place < was {
        return was;
    }
    go_on(rows, mode, place + 1)
}

// How far the queue is clear after the entry at a place has gone.
fn clear_left(rows: &VecDeque<Entry>, mode: Mode, place: usize, was: usize) -> usize
    ensures { (es : List EntryOf) → rows.now.items ≡ remove es place → place < length es → was ≡ clear_for mode es → result ≡ clear_for mode rows.now.items }
{
    if was < place {
        return was;
    }
    if place < was {
        return was - 1;
    }
    go_on(rows, mode, place)
}

/// Whether the content is out with an entry's task.
pub(crate) fn takes_out(entry: &Entry) -> bool
    ensures { result ≡ takes_out entry.now.hold }
{
    match entry.hold {
        Some(Mode::Writing) | Some(Mode::Commuting) => true,
        Some(Mode::Reading) | None => false,
    }
}

/// Whether an earlier entry conflicts with a hold in this mode.
pub(crate) fn conflicts(entry: &Entry, mode: Mode) -> bool
    ensures { result ≡ conflicts mode entry.now }
{
    let rights = entry.rights;
    let changes = rights.writes.is_there() || rights.commutes.is_there();
    match mode {
        Mode::Reading => changes,
        Mode::Writing => changes || (rights.reads.is_there() && entry.version.is_none()),
        Mode::Commuting => {
            (rights.reads.is_there() || rights.writes.is_there())
                && (changes || entry.version.is_none())
        }
    }
}
