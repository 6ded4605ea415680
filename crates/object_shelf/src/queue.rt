ghost use Rattle.std.specs.Prelude.{◌≡◌, ◌<◌, ◌∷◌, [], true, None, Some, is_none, length, slice_get, IfOk, OnOk, OnErr, MatchOption};
ghost use Rattle.object_shelf.specs.Shelves.{place_in, find, holder_in, takes_out, at, without, newborn, if_read_only};
ghost use Rattle.object_shelf.specs.Shelves.{held_with, released, with_rights};
ghost use Rattle.object_shelf.specs.Order.{is_ordered, paths, fitted_in};
ghost use Rattle.object_shelf.specs.Places.{at_nth, blocker_before};
ghost use Rattle.object_shelf.specs.Clear.{IsClear};
ghost use Rattle.object_shelf.specs.Whole.{is_out};
ghost use Rattle.task_roll.specs.Order.{fits_at};
ghost use Rattle.object_shelf.specs.Whole.{reset};
ghost use Rattle.std.specs.List.{insert};

use crate::clear::{Clear, of_one, out_at, takes_out};
use jade_base::{Memory, Mode, Path, Rights, SharedCells};
use std::alloc::Global;
use std::collections::VecDeque;
use std::marker::Model;
use task_roll::OnPath;
use task_roll::order::{fits_at, place_of};
use task_roll::rows::take_out;

/// A task's entry in the queue of an object: its rights, its hold, and the version of the content
/// that is kept for it.
#[derive(Debug, Drop)]
pub struct Entry {
    pub path: Path,
    pub rights: Rights,
    pub hold: Option<Mode>,
    pub version: Option<SharedCells>,
}

impl OnPath for Entry {
    ghost task = { λ e. e.path };

    fn path(&self) -> &Path {
        &self.path
    }
}

/// The entries of an object in the serial order of their tasks. Contracts see it as their list.
/// Tasks end at its front and make their children near its back, and both are near an end of the
/// deque; an entry is found by halves, and the first that keeps a task from the object by how far
/// the queue is clear for each mode.
#[derive(Debug, Drop)]
pub(crate) struct Queue {
    rows: VecDeque<Entry>,
    clear: Clear,
}

impl Model for Queue {
    ghost use Rattle.std.specs.Prelude.{◌≡◌, true, List};
    ghost use Rattle.object_shelf.specs.declared.queue.Entry.{Entry as EntryOf};
    ghost use Rattle.object_shelf.specs.Order.{is_ordered};
    ghost use Rattle.object_shelf.specs.Clear.{IsClear};

    ghost Value = { List EntryOf };

    ghost view = { λ q. q.rows.items };

    ghost invariant = { λ q. (is_ordered q.rows.items ≡ true) × (IsClear q.clear q.rows.items) };
}

impl Queue {
    /// One entry alone. The error is want of memory.
    pub(crate) fn of(alloc: Global, entry: Entry) -> Result<Queue, Memory>
        ensures { IfOk result (λ queue. queue ≡ entry ∷ []) }
    {
        let clear = of_one(&entry);
        let mut rows = VecDeque::new(alloc);
        match rows.push_back(entry) {
            Ok(()) => Ok(Queue { rows, clear }),
            Err(_) => Err(Memory),
        }
    }

    /// Puts the child's entry directly before its parent's, where that keeps the order. The error
    /// is want of memory, and changes nothing.
    pub(crate) fn enter(&mut self, parent: &Path, child: Path, rights: Rights) -> Result<(), Memory>
        ensures done { OnOk result (self.new ≡ fitted_in parent.now child rights self.old) }
        ensures unchanged { OnErr result (self.new ≡ self.old) }
    {
        enter_in(&mut self.rows, &mut self.clear, parent, child, rights)
    }

    /// The number of entries.
    pub(crate) fn len(&self) -> usize
        ensures { result ≡ length self.now }
    {
        self.rows.len()
    }

    /// The entry at a place, counted from the front.
    pub(crate) fn row(&self, place: usize) -> &Entry
        requires { place < length self.now }
        ensures { slice_get self.now place ≡ Some result.now }
    {
        &self.rows[place]
    }

    /// The entry of a path.
    pub(crate) fn find(&self, path: &Path) -> Option<&Entry>
        ensures { MatchOption result (find path.now self.now ≡ None) (λ e. find path.now self.now ≡ Some e.now) }
    {
        find_in(&self.rows, path)
    }

    /// How many entries stand before the path's; where it has none, their number.
    pub(crate) fn place(&self, path: &Path) -> usize
        ensures { result ≡ place_in path.now self.now }
    {
        entry_place(&self.rows, path)
    }

    /// The entry at a place, if there is one.
    pub(crate) fn entry_at(&self, place: usize) -> Option<&Entry>
        ensures { MatchOption result (slice_get self.now place ≡ None) (λ e. slice_get self.now place ≡ Some e.now) }
    {
        entry_at(&self.rows, place)
    }

    /// The first entry before a place that conflicts with a hold in this mode.
    pub(crate) fn blocker(&self, place: usize, mode: Mode) -> Option<&Entry>
        ensures { MatchOption result (blocker_before place mode self.now ≡ None) (λ e. blocker_before place mode self.now ≡ Some e.now) }
    {
        first_conflict(&self.rows, &self.clear, place, mode)
    }

    /// The entry with which the content is out.
    pub(crate) fn holder(&self) -> Option<&Entry>
        ensures { MatchOption result (holder_in self.now ≡ None) (λ e. holder_in self.now ≡ Some e.now) }
    {
        holder(&self.rows)
    }

    /// Whether an entry has the content out.
    pub(crate) fn is_out(&self) -> bool
        ensures { result ≡ is_out self.now }
    {
        any_out(&self.clear, &self.rows)
    }

    /// The task of the entry at a place holds the object, and this version, where there is one, is
    /// kept for it from now on.
    pub(crate) fn hold(&mut self, place: usize, mode: Mode, fresh: Option<SharedCells>)
        ensures { self.new ≡ at_nth place (held_with mode fresh) self.old }
    {
        hold_at(&mut self.rows, &mut self.clear, place, mode, fresh);
    }

    /// The path's task holds the object no longer.
    pub(crate) fn release(&mut self, path: &Path)
        ensures { self.new ≡ at path.now released self.old }
    {
        release_in(&mut self.rows, &mut self.clear, path);
    }

    /// The path's task holds the object no longer, and this version is what is kept for it.
    pub(crate) fn restore(&mut self, path: &Path, version: Option<SharedCells>)
        ensures { self.new ≡ at path.now (reset version) self.old }
    {
        restore_in(&mut self.rows, &mut self.clear, path, version);
    }

    /// The path's entry gets other rights.
    pub(crate) fn shift(&mut self, path: &Path, rights: Rights)
        ensures { self.new ≡ at path.now (with_rights rights) self.old }
    {
        shift_in(&mut self.rows, &mut self.clear, path, rights);
    }

    /// The path's entry goes.
    pub(crate) fn leave(&mut self, path: &Path)
        ensures { self.new ≡ without path.now self.old }
    {
        leave_in(&mut self.rows, &mut self.clear, path);
    }
}

// How many entries stand before the path's; where it has none, their number.
#[inline(always)]
fn entry_place(rows: &VecDeque<Entry>, path: &Path) -> usize
    requires { is_ordered rows.now.items ≡ true }
    ensures { result ≡ place_in path.now rows.now.items }
{
    place_of(rows, path)
}

// Puts the child's entry directly before its parent's, where that keeps the order.
fn enter_in(
    rows: &mut VecDeque<Entry>,
    clear: &mut Clear,
    parent: &Path,
    child: Path,
    rights: Rights,
) -> Result<(), Memory>
    requires ordered { is_ordered rows.old.items ≡ true }
    requires clear { IsClear clear.old rows.old.items }
    ensures done { OnOk result (rows.new.items ≡ fitted_in parent.now child rights rows.old.items) }
    ensures unchanged { OnErr result (rows.new.items ≡ rows.old.items) }
    ensures order { is_ordered rows.new.items ≡ true }
    ensures clears { IsClear clear.new rows.new.items }
{
    let place = entry_place(rows, parent);
    if place >= rows.len() {
        return Ok(());
    }
    if !child_fits(rows, place, &child) {
        return Ok(());
    }
    let entry = born(&rows[place], child, rights)?;
    insert(rows, place, entry)?;
    clear.entered(rows, place);
    Ok(())
}

// Whether a task stands between the entry at a place and the one before it.
fn child_fits(rows: &VecDeque<Entry>, place: usize, child: &Path) -> bool
    requires { place < length rows.now.items }
    ensures { result ≡ fits_at place child.now (paths rows.now.items) }
{
    fits_at(rows, place, child)
}

// The entry of a child of the task of this entry.
fn born(parent: &Entry, child: Path, rights: Rights) -> Result<Entry, Memory>
    ensures { IfOk result (λ e. e ≡ newborn child rights parent.now) }
{
    let version = handed_on(parent)?;
    Ok(Entry {
        path: child,
        rights,
        hold: None,
        version,
    })
}

// The version of an entry, once more, where the entry is seen.
fn handed_on(parent: &Entry) -> Result<Option<SharedCells>, Memory>
    ensures { IfOk result (λ v. v ≡ if_read_only parent.now.rights parent.now.version) }
{
    if parent.rights.writes.is_there() || parent.rights.commutes.is_there() {
        return Ok(None);
    }
    match &parent.version {
        Some(version) => Ok(Some(version.again()?)),
        None => Ok(None),
    }
}

// Puts an entry at a place.
fn insert(rows: &mut VecDeque<Entry>, place: usize, entry: Entry) -> Result<(), Memory>
    requires { place < length rows.old.items }
    ensures done { OnOk result (rows.new.items ≡ insert rows.old.items place entry) }
    ensures unchanged { OnErr result (rows.new.items ≡ rows.old.items) }
{
    if place == 0 {
        return insert_first(rows, entry);
    }
    match rows.insert(place, entry) {
        Ok(()) => Ok(()),
        Err(_) => Err(Memory),
    }
}

// Puts an entry before all others, which moves none of them.
fn insert_first(rows: &mut VecDeque<Entry>, entry: Entry) -> Result<(), Memory>
    ensures done { OnOk result (rows.new.items ≡ insert rows.old.items 0 entry) }
    ensures unchanged { OnErr result (rows.new.items ≡ rows.old.items) }
{
    match rows.push_front(entry) {
        Ok(()) => Ok(()),
        Err(_) => Err(Memory),
    }
}

// The entry of a path.
fn find_in<'a>(rows: &'a VecDeque<Entry>, path: &Path) -> Option<&'a Entry>
    requires { is_ordered rows.now.items ≡ true }
    ensures { MatchOption result (find path.now rows.now.items ≡ None) (λ e. find path.now rows.now.items ≡ Some e.now) }
{
    let place = entry_place(rows, path);
    if place < rows.len() {
        return Some(&rows[place]);
    }
    None
}

// The first entry before a place that conflicts with a hold in this mode.
fn first_conflict<'a>(
    rows: &'a VecDeque<Entry>,
    clear: &Clear,
    place: usize,
    mode: Mode,
) -> Option<&'a Entry>
    requires clear { IsClear clear.now rows.now.items }
    ensures { MatchOption result (blocker_before place mode rows.now.items ≡ None) (λ e. blocker_before place mode rows.now.items ≡ Some e.now) }
{
    let first = clear.until(mode);
    if first < place {
        return entry_at(rows, first);
    }
    None
}

// The entry at a place, if there is one.
fn entry_at(rows: &VecDeque<Entry>, place: usize) -> Option<&Entry>
    ensures { MatchOption result (slice_get rows.now.items place ≡ None) (λ e. slice_get rows.now.items place ≡ Some e.now) }
{
    if place < rows.len() {
        return Some(&rows[place]);
    }
    None
}

// Whether an entry has the content out.
fn any_out(clear: &Clear, rows: &VecDeque<Entry>) -> bool
    requires { IsClear clear.now rows.now.items }
    ensures { result ≡ is_out rows.now.items }
{
    clear.out > 0
}

// The entry with which the content is out.
fn holder(rows: &VecDeque<Entry>) -> Option<&Entry>
    ensures { MatchOption result (holder_in rows.now.items ≡ None) (λ e. holder_in rows.now.items ≡ Some e.now) }
{
    for place in 0..rows.len() {
        if takes_out(&rows[place]) {
            return Some(&rows[place]);
        }
    }
    None
}

// The task of the entry at a place holds the object, and this version is kept for it.
fn hold_at(
    rows: &mut VecDeque<Entry>,
    clear: &mut Clear,
    place: usize,
    mode: Mode,
    fresh: Option<SharedCells>,
)
    requires ordered { is_ordered rows.old.items ≡ true }
    requires clear { IsClear clear.old rows.old.items }
    ensures done { rows.new.items ≡ at_nth place (held_with mode fresh) rows.old.items }
    ensures order { is_ordered rows.new.items ≡ true }
    ensures clears { IsClear clear.new rows.new.items }
{
    if place < rows.len() {
        let was_out = out_at(rows, clear, place);
        let is_alike = hold(&mut rows[place], mode, fresh);
        clear.turned(rows, place, was_out, is_alike);
    }
}

// The path's task gives its hold up.
fn release_in(rows: &mut VecDeque<Entry>, clear: &mut Clear, path: &Path)
    requires ordered { is_ordered rows.old.items ≡ true }
    requires clear { IsClear clear.old rows.old.items }
    ensures done { rows.new.items ≡ at path.now released rows.old.items }
    ensures order { is_ordered rows.new.items ≡ true }
    ensures clears { IsClear clear.new rows.new.items }
{
    let place = entry_place(rows, path);
    if place < rows.len() {
        let was_out = out_at(rows, clear, place);
        let is_alike = release(&mut rows[place]);
        clear.turned(rows, place, was_out, is_alike);
    }
}

// The path's task holds the object no longer, and this version is what is kept for it.
fn restore_in(
    rows: &mut VecDeque<Entry>,
    clear: &mut Clear,
    path: &Path,
    version: Option<SharedCells>,
)
    requires ordered { is_ordered rows.old.items ≡ true }
    requires clear { IsClear clear.old rows.old.items }
    ensures done { rows.new.items ≡ at path.now (reset version) rows.old.items }
    ensures order { is_ordered rows.new.items ≡ true }
    ensures clears { IsClear clear.new rows.new.items }
{
    let place = entry_place(rows, path);
    if place < rows.len() {
        let was_out = out_at(rows, clear, place);
        restore(&mut rows[place], version);
        clear.changed(rows, place, was_out);
    }
}

// The path's entry gets other rights.
fn shift_in(rows: &mut VecDeque<Entry>, clear: &mut Clear, path: &Path, rights: Rights)
    requires ordered { is_ordered rows.old.items ≡ true }
    requires clear { IsClear clear.old rows.old.items }
    ensures done { rows.new.items ≡ at path.now (with_rights rights) rows.old.items }
    ensures order { is_ordered rows.new.items ≡ true }
    ensures clears { IsClear clear.new rows.new.items }
{
    let place = entry_place(rows, path);
    if place < rows.len() {
        let was_out = out_at(rows, clear, place);
        rows[place].rights = rights;
        clear.changed(rows, place, was_out);
    }
}

// The path's entry goes.
fn leave_in(rows: &mut VecDeque<Entry>, clear: &mut Clear, path: &Path)
    requires ordered { is_ordered rows.old.items ≡ true }
    requires clear { IsClear clear.old rows.old.items }
    ensures done { rows.new.items ≡ without path.now rows.old.items }
    ensures order { is_ordered rows.new.items ≡ true }
    ensures clears { IsClear clear.new rows.new.items }
{
    let place = entry_place(rows, path);
    if place < rows.len() {
        let was_out = out_at(rows, clear, place);
        drop(take_out(rows, place));
        clear.left(rows, place, was_out);
    }
}

// The entry's task holds the object, and this version is kept for it. It is told whether there is a
// version exactly where there was one.
fn hold(entry: &mut Entry, mode: Mode, fresh: Option<SharedCells>) -> bool
    ensures done { entry.new ≡ held_with mode fresh entry.old }
    ensures alike { result ≡ true → is_none entry.new.version ≡ is_none entry.old.version }
{
    entry.hold = Some(mode);
    match fresh {
        Some(version) => {
            let had_one = entry.version.is_some();
            entry.version = Some(version);
            had_one
        }
        None => true,
    }
}

// The entry's task holds the object no longer. It is told whether there is a version exactly where
// there was one.
fn release(entry: &mut Entry) -> bool
    ensures done { entry.new ≡ released entry.old }
    ensures alike { result ≡ true → is_none entry.new.version ≡ is_none entry.old.version }
{
    entry.hold = None;
    if entry.version.is_none() {
        return true;
    }
    if entry.rights.writes.is_there() || entry.rights.commutes.is_there() {
        entry.version = None;
        return false;
    }
    true
}

// The entry's task holds the object no longer, and this version is what is kept for it.
fn restore(entry: &mut Entry, version: Option<SharedCells>)
    ensures { entry.new ≡ reset version entry.old }
{
    entry.hold = None;
    entry.version = version;
}
