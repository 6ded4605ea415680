//! The faults of items.

ghost use Rattle.std.specs.Prelude.{◌≡◌, ℕ, ◌+◌, ◌≤◌, true, [], ◌∷◌, ◌++◌, List, None, OnOk, IfOk};
ghost use Rattle.jade_syntax.specs.declared.tree.Item.{Item as ItemOf};
ghost use Rattle.jade_syntax.specs.Limits.{is_amount, is_within};
ghost use Rattle.jade_syntax.specs.Objects.{amount};
ghost use Rattle.jade_syntax.specs.StaticFaults.{Amounts, amount_sites, item_names, item_place, item_sites, counted, keeps_totals, exceeds};
ghost use Rattle.jade_types.specs.steps.Counted.{left_of, Leaves, Behind, PassedItem};
ghost use Rattle.jade_types.specs.steps.Noted.{Noted};
ghost use Rattle.jade_types.specs.steps.Scoped.{as_names};

use crate::faults::names::{Meaning, meaning_of, name_of};
use crate::faults::notes::Notes;
use crate::item_map::ItemMap;
use jade_base::{Memory, Pos};
use jade_syntax::StaticKind;
use jade_syntax::objects::{CELL_LIMIT, INPUT_LIMIT, OBJECT_LIMIT, SIZE_LIMIT};
use jade_syntax::tree::{Item, Items, Number};
use std::alloc::Global;

/// How many more inputs, objects and cells a program may declare; none of a kind of which there
/// are too many already.
#[derive(Clone, Copy)]
pub(crate) struct Room {
    inputs: Option<u32>,
    objects: Option<u32>,
    cells: Option<u32>,
}

fn is_amount(most: u32, number: &Number) -> bool
    ensures { result ≡ is_amount most number.now.value }
{
    match u32::try_from(number.value) {
        Ok(value) => 1 <= value && value <= most,
        Err(_) => false,
    }
}

fn is_within(item: &Item) -> bool
    ensures { result ≡ is_within item.now }
{
    match item {
        Item::Input { .. } => true,
        Item::Single { size, .. } => is_amount(SIZE_LIMIT as u32, size),
        Item::Family { count, size, .. } => {
            is_amount(OBJECT_LIMIT as u32, count) && is_amount(SIZE_LIMIT as u32, size)
        }
    }
}

/// An amount of cells.
fn cells_of(number: &Number) -> u32
    requires { is_amount SIZE_LIMIT number.now.value ≡ true }
    ensures value { result ≡ amount number.now.value }
    ensures bounded { result ≤ SIZE_LIMIT }
{
    number.value as u32
}

/// An amount of members.
fn members_of(number: &Number) -> u32
    requires { is_amount OBJECT_LIMIT number.now.value ≡ true }
    ensures value { result ≡ amount number.now.value }
    ensures bounded { result ≤ OBJECT_LIMIT }
{
    number.value as u32
}

/// What is left after so many more.
fn less(left: Option<u32>, count: u32) -> Option<u32>
    ensures { (most n : ℕ) → left ≡ left_of most n → result ≡ left_of most (n + count) }
{
    match left {
        None => None,
        Some(left) => left.checked_sub(count),
    }
}

/// The place of an item.
fn place_of(item: &Item) -> Pos
    ensures { result ≡ item_place item.now }
{
    match item {
        Item::Input { pos, .. } | Item::Single { pos, .. } | Item::Family { pos, .. } => *pos,
    }
}

impl Room {
    /// The room of a program that declares nothing.
    fn whole() -> Room
        ensures { Leaves [] result }
    {
        Room {
            inputs: Some(INPUT_LIMIT as u32),
            objects: Some(OBJECT_LIMIT as u32),
            cells: Some(CELL_LIMIT as u32),
        }
    }

    /// The room after one more item.
    fn after(self, item: &Item) -> Room
        requires { is_within item.now ≡ true }
        ensures { (items : List ItemOf) → Leaves items self → Leaves (items ++ item.now ∷ []) result }
    {
        match item {
            Item::Input { .. } => Room {
                inputs: less(self.inputs, 1),
                objects: self.objects,
                cells: self.cells,
            },
            Item::Single { size, .. } => Room {
                inputs: self.inputs,
                objects: less(self.objects, 1),
                cells: less(self.cells, cells_of(size)),
            },
            Item::Family { count, size, .. } => {
                let members = members_of(count);
                Room {
                    inputs: self.inputs,
                    objects: less(self.objects, members),
                    cells: less(self.cells, members * cells_of(size)),
                }
            }
        }
    }

    /// Whether the totals are kept in which an item counts.
    fn keeps(self, item: &Item) -> bool
        ensures { (items : List ItemOf) → Leaves items self → result ≡ keeps_totals item.now items }
    {
        match item {
            Item::Input { .. } => self.inputs.is_some(),
            Item::Single { .. } | Item::Family { .. } => {
                self.objects.is_some() && self.cells.is_some()
            }
        }
    }

    /// Counts one more item, where its own numbers are within their limits, and tells whether it
    /// exceeds a total.
    fn count(&mut self, item: &Item) -> bool
        ensures counted { (before : List ItemOf) → Leaves (counted before) self.old → Leaves (counted (before ++ item.now ∷ [])) self.new }
        ensures told { (before : List ItemOf) → Leaves (counted before) self.old → result ≡ exceeds before item.now }
    {
        if !is_within(item) {
            return false;
        }
        *self = self.after(item);
        !self.keeps(item)
    }
}

fn visit_amount(notes: &mut Notes, most: u32, number: &Number)
    ensures { Noted notes.old notes.new (Amounts most number.now ∷ []) }
{
    notes.note_when(number.pos, !is_amount(most, number), StaticKind::Size);
}

/// Goes through the amounts of an item.
fn visit_amounts(notes: &mut Notes, item: &Item)
    ensures { Noted notes.old notes.new (amount_sites item.now) }
{
    match item {
        Item::Input { .. } => {}
        Item::Single { size, .. } => visit_amount(notes, SIZE_LIMIT as u32, size),
        Item::Family { count, size, .. } => {
            visit_amount(notes, OBJECT_LIMIT as u32, count);
            visit_amount(notes, SIZE_LIMIT as u32, size);
        }
    }
}

/// Goes through one item more.
fn visit_item<'p>(
    notes: &mut Notes,
    known: &mut ItemMap<'p, Meaning>,
    room: &mut Room,
    item: &'p Item,
) -> Result<(), Memory>
    ensures { (before : List ItemOf) → Behind before known.old room.old → OnOk result (PassedItem notes.old notes.new before item.now known.new room.new) }
{
    let pos = place_of(item);
    let name = name_of(item).bytes();
    notes.declares(pos, known.get(name).is_some());
    let exceeds = room.count(item);
    notes.note_when(pos, exceeds, StaticKind::Size);
    visit_amounts(notes, item);
    known.declare(name, meaning_of(item))
}

/// Goes through the items, and gives their names.
pub(crate) fn visit_items<'p>(
    alloc: Global,
    notes: &mut Notes,
    items: &'p Items,
) -> Result<ItemMap<'p, Meaning>, Memory>
    ensures noted { OnOk result (Noted notes.old notes.new (item_sites [] items.now)) }
    ensures names { IfOk result (λ known. as_names known ≡ item_names items.now) }
{
    let mut known = ItemMap::none(alloc);
    let mut room = Room::whole();
    for i in 0..items.len() {
        visit_item(notes, &mut known, &mut room, items.at(i))?;
    }
    Ok(known)
}
