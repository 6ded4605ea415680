//! The objects that names stand for.

ghost use Rattle.std.specs.Prelude.{◌≡◌, ◌+◌, ◌≤◌, [], ◌∷◌, ◌++◌, length, replicate, IfOk, OnOk};
ghost use Rattle.jade_syntax.specs.Objects.{sizes, sizes as sizes_of};
ghost use Rattle.jade_syntax.specs.declared.objects.TheConstants.{OBJECT_LIMIT};
ghost use Rattle.jade_meaning.specs.Course.{range_from};
ghost use Rattle.task_codegen.specs.Extents.{Declares, Finds};

use crate::expressions::small;
use jade_base::Memory;
use jade_meaning::resolve::Range;
use jade_syntax::Name;
use jade_syntax::objects::{amount_of, count_objects};
use jade_syntax::tree::{Item, Items};
use name_scope::NameScope;
use std::alloc::Global;
use std::marker::Model;

/// The items of a program of at most 4,096 objects, which contracts see as the list of them. `named`
/// has for each name the objects of the first item of that name.
#[derive(Drop)]
pub(crate) struct Ranges<'p> {
    items: &'p Items,
    objects: usize,
    named: NameScope<'p, Range>,
}

impl<'p> Model for Ranges<'p> {
    ghost use Rattle.std.specs.Prelude.{◌≡◌, List, ◌≤◌, length};
    ghost use Rattle.std.specs.Coded.{coded_list};
    ghost use Rattle.jade_syntax.specs.declared.tree.Item.{Item as ItemOf};
    ghost use Rattle.jade_syntax.specs.contracts.tree.Item as item;
    ghost use Rattle.jade_syntax.specs.Objects.{sizes};
    ghost use Rattle.task_codegen.specs.Extents.{Finds};

    ghost Value = { List ItemOf };

    ghost coded = { coded_list item.the_row.coded };

    ghost view = { λ d. d.items.now };

    ghost invariant = { λ d. (d.objects ≡ length (sizes d.items.now)) × Finds d.items.now d.named };
}

impl<'p> Ranges<'p> {
    /// These items.
    pub(crate) fn of(alloc: Global, items: &'p Items) -> Result<Ranges<'p>, Memory>
        requires { length (sizes items.now) ≤ OBJECT_LIMIT }
        ensures { IfOk result (λ ranges. ranges ≡ items.now) }
    {
        let named = named_ranges(alloc, items)?;
        Ok(Ranges {
            items,
            objects: count_objects(items),
            named,
        })
    }

    /// The items.
    pub(crate) fn items(&self) -> &'p Items
        ensures { result.now ≡ self.now }
    {
        self.items
    }

    /// The number of objects.
    pub(crate) fn objects(&self) -> usize
        ensures { result ≡ length (sizes self.now) }
    {
        self.objects
    }

    /// The objects that a name stands for, by one look-up in an ordered map; one that is not declared
    /// has the number after the last, and no cell.
    pub(crate) fn range(&self, name: &Name) -> Range
        ensures { result ≡ range_from 0 name.now self.now }
    {
        match self.named.get(name.bytes()) {
            Some(range) => range,
            None => Range {
                first: self.objects,
                count: 0,
                size: 0,
            },
        }
    }
}

// One more item is declared before the others, the first of whose objects has this number; the
// answer is the first number then.
fn declare_item<'p>(
    named: &mut NameScope<'p, Range>,
    item: &'p Item,
    next: usize,
) -> Result<usize, Memory>
    requires { length (sizes (item.now ∷ [])) ≤ next }
    ensures { IfOk result (Declares named.old named.new item.now next) }
{
    match item {
        Item::Input { .. } => Ok(next),
        Item::Single { name, size, .. } => {
            let first = next - 1;
            let size = amount_of(size.value);
            let count = 1;
            named.declare(name.bytes(), Range { first, count, size })?;
            Ok(first)
        }
        Item::Family {
            name,
            count,
            size,
            ..
        } => {
            let count = amount_of(count.value);
            let first = next - count;
            let size = amount_of(size.value);
            named.declare(name.bytes(), Range { first, count, size })?;
            Ok(first)
        }
    }
}

// The objects that each name stands for: the first item of a name is declared last.
fn named_ranges<'p>(alloc: Global, items: &'p Items) -> Result<NameScope<'p, Range>, Memory>
    requires { length (sizes items.now) ≤ OBJECT_LIMIT }
    ensures { IfOk result (Finds items.now) }
{
    let mut named = NameScope::none(alloc);
    let mut first = count_objects(items);
    let mut left = items.len();
    while left > 0 {
        left -= 1;
        first = declare_item(&mut named, items.at(left), first)?;
    }
    Ok(named)
}

// The sizes of the objects of an item.
fn push_sizes(sizes: &mut Vec<u32>, item: &Item) -> Result<(), Memory>
    ensures { OnOk result (sizes.new.items ≡ sizes.old.items ++ sizes_of (item.now ∷ [])) }
{
    match item {
        Item::Input { .. } => Ok(()),
        Item::Single { size, .. } => {
            sizes.push(small(amount_of(size.value))?)?;
            Ok(())
        }
        Item::Family { count, size, .. } => {
            push_many(sizes, amount_of(count.value), small(amount_of(size.value))?)
        }
    }
}

// A size, so many times.
fn push_many(sizes: &mut Vec<u32>, count: usize, size: u32) -> Result<(), Memory>
    ensures { OnOk result (sizes.new.items ≡ sizes.old.items ++ replicate count size) }
{
    for _ in 0..count {
        sizes.push(size)?;
    }
    Ok(())
}

/// The sizes of all objects. The error is want of memory, or a size that is too large.
pub(crate) fn sizes(alloc: Global, items: &Items) -> Result<Vec<u32>, Memory>
    ensures { IfOk result (λ sizes. sizes.items ≡ sizes_of items.now) }
{
    let mut sizes = Vec::new(alloc);
    for i in 0..items.len() {
        push_sizes(&mut sizes, items.at(i))?;
    }
    Ok(sizes)
}
