ghost use Rattle.std.specs.Prelude.{◌≡◌, ◌<◌, true, false, None, Some, is_some, pos, length, slice_get, IfOk, OnOk, OnErr, MatchOption};
ghost use Rattle.object_shelf.specs.Shelves.{find, keeper_in, entered, taken, given, shifted, left, written, content_for, value_in, at, held_for, entered_in, turned};
ghost use Rattle.object_shelf.specs.Shelves.{started as begun};
ghost use Rattle.object_shelf.specs.Order.{fits};
ghost use Rattle.object_shelf.specs.Takes.{MayTake, IsUnheld};
ghost use Rattle.object_shelf.specs.Whole.{content_of, is_one, is_out, untaken, was_kept, with_cell, in_hand, version_in};

use crate::queue::Entry;
use crate::shelf::Shelf;
use jade_base::{Content, Memory, Mode, Numbers, Path, Rights, SharedCells};
use std::alloc::Global;
use std::marker::Model;

/// A whole object for one thread: its shelf, and the content itself while a task has it out to
/// change it. Contracts see it as the queue, the content, wherever that is, and the turns.
#[derive(Drop)]
pub struct Object {
    shelf: Shelf,
    hand: Option<Content>,
}

impl Model for Object {
    ghost use Rattle.std.specs.Prelude.{◌≡◌, true, is_some};
    ghost use Rattle.object_shelf.specs.Views.{ObjectView};
    ghost use Rattle.object_shelf.specs.Whole.{content_of, is_one, is_out};

    ghost Value = { ObjectView };

    ghost view = { λ o. record { queue = o.shelf.queue; content = content_of o.shelf.home o.hand; turns = o.shelf.turns } };

    ghost invariant = { λ o. (is_one o.shelf.home o.hand ≡ true) × (is_some o.hand ≡ is_out o.shelf.queue) };
}

/// The version that was kept for a path before it took an object, and the mode in which it did.
#[derive(Drop)]
pub struct Before {
    pub version: Option<SharedCells>,
    pub mode: Mode,
}

impl Object {
    /// An object of this size, whose cells are zero, with the root's entry alone. The error is want
    /// of memory.
    pub fn start(alloc: Global, root: &Path, rights: Rights, size: usize) -> Result<Object, Memory>
        ensures { IfOk result (λ object. object ≡ begun root.now rights size) }
    {
        let shelf = Shelf::start(alloc, root, rights, size)?;
        Ok(Object { shelf, hand: None })
    }

    /// Puts the child's entry directly before its parent's, as `Shelf::enter` does, where that keeps
    /// the order. The error is want of memory, and changes nothing.
    pub fn enter(
        &mut self,
        alloc: Global,
        parent: &Path,
        child: &Path,
        rights: Rights,
    ) -> Result<(), Memory>
        requires { fits parent.now child.now self.old.queue ≡ true }
        ensures done { OnOk result (self.new ≡ entered parent.now child.now rights self.old) }
        ensures unchanged { OnErr result (self.new ≡ self.old) }
    {
        enter_in(&mut self.shelf, alloc, parent, child, rights)
    }

    /// The entry that keeps the path's task from a hold in this mode, as `Shelf::blocker` tells it.
    pub fn blocker(&self, path: &Path, mode: Mode) -> Option<&Entry>
        ensures { MatchOption result (keeper_in path.now mode self.now.queue ≡ None) (λ e. keeper_in path.now mode self.now.queue ≡ Some e.now) }
    {
        self.shelf.blocker(path, mode)
    }

    /// The path's task takes the object in this mode; what was kept for it before is handed back, so
    /// that the take can be undone. The error is want of memory, and changes nothing.
    pub fn take(&mut self, alloc: Global, path: &Path, mode: Mode) -> Result<Before, Memory>
        requires { MayTake mode path.now self.old.queue }
        ensures done { OnOk result (self.new ≡ taken path.now mode self.old) }
        ensures before { IfOk result (λ b. was_kept b.version (find path.now self.old.queue)) }
        ensures mode { IfOk result (λ b. b.mode ≡ mode) }
        ensures unchanged { OnErr result (self.new ≡ self.old) }
    {
        take_in(&mut self.shelf, &mut self.hand, alloc, path, mode)
    }

    /// Undoes a take. It takes no memory.
    pub fn untake(&mut self, path: &Path, before: Before)
        ensures { self.new ≡ untaken path.now before.mode before.version self.old }
    {
        self.shelf.restore(path, before.mode, before.version);
        settle(&mut self.shelf, &mut self.hand);
    }

    /// The path's task gives its hold up. It takes no memory.
    pub fn give(&mut self, path: &Path)
        ensures { self.new ≡ given path.now self.old }
    {
        self.shelf.release(path);
        settle(&mut self.shelf, &mut self.hand);
    }

    /// The path's entry gets other rights. It takes no memory.
    pub fn shift(&mut self, path: &Path, rights: Rights)
        ensures { self.new ≡ shifted path.now rights self.old }
    {
        self.shelf.shift(path, rights);
        settle(&mut self.shelf, &mut self.hand);
    }

    /// The path's entry goes, and what is kept for it. It takes no memory.
    pub fn leave(&mut self, path: &Path)
        ensures { self.new ≡ left path.now self.old }
    {
        self.shelf.leave(path);
        settle(&mut self.shelf, &mut self.hand);
    }

    /// The paths that took the object for commuting, in that order. It takes no memory.
    pub fn turns(&self) -> &[Path]
        ensures { result.now ≡ self.now.turns }
    {
        self.shelf.turns()
    }

    /// The number of entries of the queue.
    pub fn len(&self) -> usize
        ensures { result ≡ length self.now.queue }
    {
        self.shelf.len()
    }

    /// The entry at a place of the queue, counted from the front. It takes no memory.
    pub fn entry(&self, place: usize) -> &Entry
        requires { place < length self.now.queue }
        ensures { slice_get self.now.queue place ≡ Some result.now }
    {
        self.shelf.entry(place)
    }

    /// Whether a task has the content out.
    pub fn is_out(&self) -> bool
        ensures { result ≡ is_out self.now.queue }
    {
        self.hand.is_some()
    }

    /// Writes a cell of a content that is out; where there is no such cell nothing happens.
    pub fn write(&mut self, cell: usize, value: i64)
        requires { is_out self.old.queue ≡ true }
        ensures { self.new ≡ written cell value self.old }
    {
        write_in(&mut self.hand, cell, value);
    }

    /// What the path's task reads in a cell; zero where there is no such cell.
    pub fn read(&self, path: &Path, cell: usize) -> i64
        ensures { result ≡ value_in (content_for path.now self.now) cell }
    {
        match version_of(&self.shelf, path) {
            Some(cells) => cell_of(cells, cell),
            None => self.cell(cell),
        }
    }

    /// The number in a cell of the content; zero where there is no such cell.
    pub fn cell(&self, cell: usize) -> i64
        ensures { result ≡ value_in self.now.content cell }
    {
        content_cell(&self.shelf, &self.hand, cell)
    }

    /// The cells of the content. The error is want of memory.
    pub fn cells(&self, alloc: Global) -> Result<Numbers, Memory>
        ensures { IfOk result (λ cells. cells ≡ self.now.content) }
    {
        match self.shelf.cells(alloc)? {
            Some(cells) => Ok(cells),
            None => held_cells(&self.hand, alloc),
        }
    }
}

// Enters, or changes nothing.
fn enter_in(
    shelf: &mut Shelf,
    alloc: Global,
    parent: &Path,
    child: &Path,
    rights: Rights,
) -> Result<(), Memory>
    requires { fits parent.now child.now shelf.old.queue ≡ true }
    ensures queue { OnOk result (shelf.new.queue ≡ entered_in parent.now child.now rights shelf.old.queue) }
    ensures home { shelf.new.home ≡ shelf.old.home }
    ensures turns { shelf.new.turns ≡ shelf.old.turns }
    ensures out { is_out shelf.new.queue ≡ is_out shelf.old.queue }
    ensures unchanged { OnErr result (shelf.new ≡ shelf.old) }
{
    shelf.enter(parent, child.copy(alloc)?, rights)?;
    Ok(())
}

// Takes an object that the path's task does not hold.
fn take_in(
    shelf: &mut Shelf,
    hand: &mut Option<Content>,
    alloc: Global,
    path: &Path,
    mode: Mode,
) -> Result<Before, Memory>
    requires one { is_one shelf.old.home hand.old ≡ true }
    requires out { is_some hand.old ≡ is_out shelf.old.queue }
    requires may { MayTake mode path.now shelf.old.queue }
    ensures queue { OnOk result (shelf.new.queue ≡ at path.now (held_for mode (content_of shelf.old.home hand.old)) shelf.old.queue) }
    ensures content { OnOk result (content_of shelf.new.home hand.new ≡ content_of shelf.old.home hand.old) }
    ensures turns { OnOk result (shelf.new.turns ≡ turned path.now mode shelf.old.turns) }
    ensures before { IfOk result (λ b. was_kept b.version (find path.now shelf.old.queue)) }
    ensures mode { IfOk result (λ b. b.mode ≡ mode) }
    ensures one { is_one shelf.new.home hand.new ≡ true }
    ensures out { is_some hand.new ≡ is_out shelf.new.queue }
    ensures unchanged { OnErr result (shelf.new ≡ shelf.old) }
    ensures unmoved { OnErr result (hand.new ≡ hand.old) }
{
    let before = kept(shelf, path, mode)?;
    match shelf.take(alloc, path, mode)? {
        Some(content) => {
            hold(hand, content);
            Ok(before)
        }
        None => unreachable!(),
    }
}

// What is kept for a path whose task does not hold the object.
fn kept(shelf: &Shelf, path: &Path, mode: Mode) -> Result<Before, Memory>
    requires { IsUnheld (find path.now shelf.now.queue) }
    ensures before { IfOk result (λ b. was_kept b.version (find path.now shelf.now.queue)) }
    ensures mode { IfOk result (λ b. b.mode ≡ mode) }
{
    match shelf.find(path) {
        Some(entry) => version_kept(entry, mode),
        None => unreachable!(),
    }
}

// What is kept for an entry whose task does not hold the object.
fn version_kept(entry: &Entry, mode: Mode) -> Result<Before, Memory>
    requires { entry.now.hold ≡ None }
    ensures before { IfOk result (λ b. was_kept b.version (Some entry.now)) }
    ensures mode { IfOk result (λ b. b.mode ≡ mode) }
{
    match &entry.version {
        Some(version) => Ok(Before {
            version: Some(version.again()?),
            mode,
        }),
        None => Ok(Before {
            version: None,
            mode,
        }),
    }
}

// A content that can be changed is the one that is out.
fn hold(hand: &mut Option<Content>, content: Content)
    ensures { hand.new ≡ in_hand content hand.old }
{
    match content.mode() {
        Mode::Reading => {}
        Mode::Writing | Mode::Commuting => *hand = Some(content),
    }
}

// The content comes home where no task has it out any more.
fn settle(shelf: &mut Shelf, hand: &mut Option<Content>)
    requires one { is_one shelf.old.home hand.old ≡ true }
    requires kept { is_out shelf.old.queue ≡ true → is_some hand.old ≡ true }
    ensures queue { shelf.new.queue ≡ shelf.old.queue }
    ensures content { content_of shelf.new.home hand.new ≡ content_of shelf.old.home hand.old }
    ensures turns { shelf.new.turns ≡ shelf.old.turns }
    ensures one { is_one shelf.new.home hand.new ≡ true }
    ensures out { is_some hand.new ≡ is_out shelf.new.queue }
{
    if shelf.is_out() {
        return;
    }
    match hand.take() {
        Some(content) => shelf.bring(content),
        None => {}
    }
}

// Writes a cell of the content that is out.
fn write_in(hand: &mut Option<Content>, cell: usize, value: i64)
    requires { is_one None hand.old ≡ true }
    ensures { hand.new ≡ with_cell cell value hand.old }
{
    match hand {
        Some(content) => {
            if cell < content.len() {
                content.set(cell, value);
            }
        }
        None => {}
    }
}

// The version that is kept for a path.
fn version_of<'a>(shelf: &'a Shelf, path: &Path) -> Option<&'a [i64]>
    ensures { MatchOption result (version_in (find path.now shelf.now.queue) ≡ None) (λ c. version_in (find path.now shelf.now.queue) ≡ Some c.now) }
{
    match shelf.find(path) {
        Some(entry) => match &entry.version {
            Some(version) => Some(version.as_slice()),
            None => None,
        },
        None => None,
    }
}

// The number in a cell of the content, at home or out.
fn content_cell(shelf: &Shelf, hand: &Option<Content>, cell: usize) -> i64
    ensures { result ≡ value_in (content_of shelf.now.home hand.now) cell }
{
    match shelf.home() {
        Some(cells) => cell_of(cells, cell),
        None => hand_cell(hand, cell),
    }
}

// The number in a cell of a content that is out; zero where there is none.
fn hand_cell(hand: &Option<Content>, cell: usize) -> i64
    ensures { result ≡ value_in (content_of None hand.now) cell }
{
    match hand {
        Some(content) => {
            if cell < content.len() {
                content.get(cell)
            } else {
                0
            }
        }
        None => 0,
    }
}

// The cells of a content that is out.
fn held_cells(hand: &Option<Content>, alloc: Global) -> Result<Numbers, Memory>
    ensures { IfOk result (λ cells. cells ≡ content_of None hand.now) }
{
    match hand {
        Some(content) => Ok(content.copy(alloc, Mode::Writing)?.into_cells()),
        None => Ok(Numbers::empty(alloc)),
    }
}

// The number in a cell, and zero where there is none.
fn cell_of(cells: &[i64], cell: usize) -> i64
    ensures { result ≡ value_in cells.now cell }
{
    if cell < cells.len() { cells[cell] } else { 0 }
}
