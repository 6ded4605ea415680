//! The objects that names stand for.

ghost use Rattle.std.specs.Prelude.{◌≡◌, ◌+◌, ◌≤◌, length};
ghost use Rattle.jade_syntax.specs.declared.objects.TheConstants.{OBJECT_LIMIT};
ghost use Rattle.jade_syntax.specs.Numbering.{same_name};
ghost use Rattle.jade_syntax.specs.Objects.{sizes};
ghost use Rattle.jade_meaning.specs.Course.{range_from};

use jade_syntax::Name;
use jade_syntax::name::same_name as same_bytes;
use jade_syntax::objects::{amount_of, count_objects};
use jade_syntax::tree::{Item, Items};
use std::marker::Model;

/// The objects that a name stands for: the number of the first, how many they are, and the number
/// of cells of each. Their numbers follow one another.
#[derive(Clone, Copy, Debug, PartialEq, Eq)]
pub struct Range {
    pub first: usize,
    pub count: usize,
    pub size: usize,
}

/// One object that a name stands for: its number, and the number of its cells.
#[derive(Clone, Copy, Debug, PartialEq, Eq)]
pub struct ResolvedObject {
    pub number: usize,
    pub size: usize,
}

/// Whether two names are the same.
pub(crate) fn same_name(first: &Name, second: &Name) -> bool
    ensures { result ≡ same_name first.now second.now }
{
    same_bytes(first.bytes(), second.bytes())
}

/// The items of a program, by which the names of its objects are resolved. Contracts see the list
/// of them. Its type keeps that they declare no more objects than a program may.
#[derive(Drop)]
pub struct DeclaredItems<'c> {
    items: &'c Items,
    objects: usize,
}

impl<'c> Model for DeclaredItems<'c> {
    ghost use Rattle.std.specs.Prelude.{◌≡◌, List, ◌≤◌, length};
    ghost use Rattle.std.specs.Coded.{coded_list};
    ghost use Rattle.jade_syntax.specs.declared.objects.TheConstants.{OBJECT_LIMIT};
    ghost use Rattle.jade_syntax.specs.declared.tree.Item.{Item as ItemOf};
    ghost use Rattle.jade_syntax.specs.contracts.tree.Item as item;
    ghost use Rattle.jade_syntax.specs.Objects.{sizes};

    ghost Value = { List ItemOf };

    ghost coded = { coded_list item.the_row.coded };

    ghost view = { λ d. d.items.now };

    ghost invariant = { λ d. (d.objects ≡ length (sizes d.items.now)) × (length (sizes d.items.now) ≤ OBJECT_LIMIT) };
}

impl<'c> DeclaredItems<'c> {
    /// These items. It takes no memory.
    pub fn of(items: &'c Items) -> DeclaredItems<'c>
        requires { length (sizes items.now) ≤ OBJECT_LIMIT }
        ensures { result ≡ items.now }
    {
        DeclaredItems {
            items,
            objects: count_objects(items),
        }
    }

    /// The same items. It takes no memory.
    pub fn copy(&self) -> DeclaredItems<'c>
        ensures { result ≡ self.now }
    {
        DeclaredItems {
            items: self.items,
            objects: self.objects,
        }
    }

    /// The items. It takes no memory.
    pub fn items(&self) -> &'c Items
        ensures { result.now ≡ self.now }
    {
        self.items
    }

    /// The number of objects. It takes no memory, and does not go through the items.
    pub fn objects(&self) -> usize
        ensures { result ≡ length (sizes self.now) }
    {
        self.objects
    }

    /// The objects that a name stands for. One that is not declared as an object stands for none: its
    /// range begins after the last object, and its objects have no cell. It takes no memory.
    pub fn range(&self, name: &Name) -> Range
        ensures range { result ≡ range_from 0 name.now self.now }
        ensures bounded { result.first + result.count ≤ OBJECT_LIMIT }
    {
        range_of(self.items, name)
    }
}

// The objects that a name stands for.
fn range_of(items: &Items, name: &Name) -> Range
    requires { length (sizes items.now) ≤ OBJECT_LIMIT }
    ensures range { result ≡ range_from 0 name.now items.now }
    ensures bounded { result.first + result.count ≤ OBJECT_LIMIT }
{
    let mut first = 0;
    for i in 0..items.len() {
        match items.at(i) {
            Item::Input { .. } => {}
            Item::Single {
                name: declared,
                size,
                ..
            } => {
                if same_name(name, declared) {
                    return Range {
                        first,
                        count: 1,
                        size: amount_of(size.value),
                    };
                }
                first += 1;
            }
            Item::Family {
                name: declared,
                count,
                size,
                ..
            } => {
                if same_name(name, declared) {
                    return Range {
                        first,
                        count: amount_of(count.value),
                        size: amount_of(size.value),
                    };
                }
                first += amount_of(count.value);
            }
        }
    }
    Range {
        first,
        count: 0,
        size: 0,
    }
}
