//! What the items of a program declare.

ghost use Rattle.std.specs.Prelude.{◌≡◌, ℕ, ◌+◌, ◌<◌, ◌≤◌, true, List, length, slice_get, Some, [], ◌∷◌, ◌++◌, replicate, nat_eq, nat_le};
ghost use Rattle.jade_syntax.specs.declared.tree.Item.{Item as ItemOf};
ghost use Rattle.jade_syntax.specs.Objects.{amount, input_names, sizes, labels, Label, IsPlace};
ghost use Rattle.jade_syntax.specs.Limits.{is_amount, is_within, within_limits};

use crate::Name;
use crate::tree::{Item, Items, Number};

/// The most inputs of a program.
pub const INPUT_LIMIT: usize = 64;

/// The most objects of a program, and of a family.
pub const OBJECT_LIMIT: usize = 4096;

/// The most cells of an object.
pub const SIZE_LIMIT: usize = 65_536;

/// The most cells of all objects of a program.
pub const CELL_LIMIT: usize = 1_048_576;

/// A number of cells or members; none where it is below zero. It takes no memory.
pub fn amount_of(number: i64) -> usize
    ensures { result ≡ amount number }
{
    if number < 0 { 0 } else { number as usize }
}

/// A number of cells that is within its limit.
fn cells_of(number: &Number) -> u32
    requires { is_amount SIZE_LIMIT number.now.value ≡ true }
    ensures value { result ≡ amount number.now.value }
    ensures bounded { result ≤ SIZE_LIMIT }
{
    number.value as u32
}

/// How many inputs an item is. It takes no memory.
pub fn inputs_of(item: &Item) -> usize
    ensures { result ≡ length (input_names (item.now ∷ [])) }
{
    match item {
        Item::Input { .. } => 1,
        Item::Single { .. } => 0,
        Item::Family { .. } => 0,
    }
}

/// How many objects an item declares, and the number of cells of each. It takes no memory.
pub fn objects_of(item: &Item) -> (usize, usize)
    ensures sizes { (more : List ItemOf) → sizes (item.now ∷ more) ≡ replicate result.0 result.1 ++ sizes more }
    ensures count { result.0 ≡ length (sizes (item.now ∷ [])) }
{
    match item {
        Item::Input { .. } => (0, 0),
        Item::Single { size, .. } => (1, amount_of(size.value)),
        Item::Family { count, size, .. } => (amount_of(count.value), amount_of(size.value)),
    }
}

/// The number of cells of each object of an item that is an object.
fn size_in(item: &Item) -> u32
    requires within { is_within item.now ≡ true }
    requires some { 0 < length (sizes (item.now ∷ [])) }
    ensures { (k : ℕ) → k < length (sizes (item.now ∷ [])) → slice_get (sizes (item.now ∷ [])) k ≡ Some result }
{
    match item {
        Item::Input { .. } => 0,
        Item::Single { size, .. } => cells_of(size),
        Item::Family { size, .. } => cells_of(size),
    }
}

/// What an object of an item is called.
fn label_in(item: &Item, member: u32) -> (&Name, Option<u32>)
    requires { member < length (labels (item.now ∷ [])) }
    ensures { slice_get (labels (item.now ∷ [])) member ≡ Some (record { name = result.0.now; member = result.1 }) }
{
    match item {
        Item::Input { name, .. } => (name, None),
        Item::Single { name, .. } => (name, None),
        Item::Family { name, .. } => (name, Some(member)),
    }
}

/// The number of inputs of items that keep the limits. It takes no memory.
pub fn count_inputs(items: &Items) -> u32
    requires { within_limits items.now ≡ true }
    ensures { result ≡ length (input_names items.now) }
{
    let mut count = 0;
    for i in 0..items.len() {
        count += inputs_of(items.at(i));
    }
    count as u32
}

/// The number of objects of items that declare no more than a program may. It takes no memory.
pub fn count_objects(items: &Items) -> usize
    requires { length (sizes items.now) ≤ OBJECT_LIMIT }
    ensures { result ≡ length (sizes items.now) }
{
    let mut count = 0;
    for i in 0..items.len() {
        let (objects, _) = objects_of(items.at(i));
        count += objects;
    }
    count
}

/// Whether items declare so many inputs. It takes no memory.
pub fn has_inputs(items: &Items, count: usize) -> bool
    ensures { result ≡ nat_eq count (length (input_names items.now)) }
{
    let mut left = count;
    for i in 0..items.len() {
        let inputs = inputs_of(items.at(i));
        if inputs > left {
            return false;
        }
        left -= inputs;
    }
    left == 0
}

/// Whether items declare no more objects than a program may. It takes no memory.
pub fn has_few_objects(items: &Items) -> bool
    ensures { result ≡ nat_le (length (sizes items.now)) OBJECT_LIMIT }
{
    let mut left = OBJECT_LIMIT;
    for i in 0..items.len() {
        let (objects, _) = objects_of(items.at(i));
        if objects > left {
            return false;
        }
        left -= objects;
    }
    true
}

/// The item that an object belongs to, by its place, and which object of that item it is.
fn place_of(items: &Items, object: u32) -> (usize, u32)
    requires within { within_limits items.now ≡ true }
    requires declared { object < length (sizes items.now) }
    ensures { IsPlace items.now object result.0 result.1 }
{
    let mut left = object;
    for i in 0..items.len() {
        let (count, _) = objects_of(items.at(i));
        if (left as usize) < count {
            return (i, left);
        }
        left -= count as u32;
    }
    (0, 0)
}

/// The number of cells of an object that is declared, of items that keep the limits. It takes no
/// memory.
pub fn size_of(items: &Items, object: u32) -> u32
    requires within { within_limits items.now ≡ true }
    requires declared { object < length (sizes items.now) }
    ensures { slice_get (sizes items.now) object ≡ Some result }
{
    let (i, _) = place_of(items, object);
    size_in(items.at(i))
}

/// What an object is called that is declared, of items that keep the limits: a name, and for a
/// family's member its index. It takes no memory.
pub fn label_of(items: &Items, object: u32) -> (&Name, Option<u32>)
    requires within { within_limits items.now ≡ true }
    requires declared { object < length (sizes items.now) }
    ensures { slice_get (labels items.now) object ≡ Some (record { name = result.0.now; member = result.1 }) }
{
    let (i, member) = place_of(items, object);
    label_in(items.at(i), member)
}
