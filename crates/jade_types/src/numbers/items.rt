//! What the names of items stand for.

ghost use Rattle.std.specs.Prelude.{◌≡◌, List, ◌∷◌, IfOk, OnOk};
ghost use Rattle.jade_syntax.specs.declared.tree.Item.{Item};
ghost use Rattle.jade_syntax.specs.Numbering.{items_from, declared, stands_alone};
ghost use Rattle.jade_syntax.specs.Objects.{amount};
ghost use Rattle.jade_syntax.specs.StaticFaults.{item_known};
ghost use Rattle.jade_types.specs.steps.Bodies.{Puts, as_scope};

use crate::faults::name_of;
use crate::item_map::ItemMap;
use crate::numbers::expressions::put;
use jade_base::{Memory, ObjectId};
use jade_syntax::tree::{Item, Items, Number};
use jade_syntax::{Stand, Stands};
use std::alloc::Global;

/// How many inputs and objects were declared.
#[derive(Clone, Copy)]
struct Counts {
    inputs: u32,
    objects: u32,
}

/// A number of members; `Memory` where it is too large to count.
fn members_of(count: &Number) -> Result<u32, Memory>
    ensures { IfOk result (λ n. n ≡ amount count.now.value) }
{
    u32::try_from(count.value.max(0)).map_err(|_| Memory)
}

impl Counts {
    /// What an item stands for, which is counted.
    fn count(&mut self, item: &Item) -> Result<Stand, Memory>
        ensures { IfOk result (λ s. (more : List Item) → items_from self.old.inputs self.old.objects (item.now ∷ more)
            ≡ record { name = (item_known item.now).name; stand = s } ∷ items_from self.new.inputs self.new.objects more) }
    {
        let input = self.inputs;
        let object = ObjectId(self.objects);
        match item {
            Item::Input { .. } => {
                self.inputs = input.checked_add(1).ok_or(Memory)?;
                Ok(Stand::Input(input))
            }
            Item::Single { .. } => {
                self.objects = object.0.checked_add(1).ok_or(Memory)?;
                Ok(Stand::Single(object))
            }
            Item::Family { count, .. } => {
                let members = members_of(count)?;
                self.objects = object.0.checked_add(members).ok_or(Memory)?;
                Ok(Stand::Family(object, members))
            }
        }
    }
}

/// Puts last what the items stand for, and answers them by their names.
pub(crate) fn number_items<'p>(
    alloc: Global,
    items: &'p Items,
    stands: &mut Stands,
) -> Result<ItemMap<'p, Stand>, Memory>
    ensures stands { OnOk result (Puts stands.old stands.new (stands_alone (declared items.now))) }
    ensures names { IfOk result (λ map. as_scope map ≡ declared items.now) }
{
    let mut names = ItemMap::none(alloc);
    let mut counts = Counts {
        inputs: 0,
        objects: 0,
    };
    for i in 0..items.len() {
        let item = items.at(i);
        let stand = counts.count(item)?;
        put(stands, stand)?;
        names.declare(name_of(item).bytes(), stand)?;
    }
    Ok(names)
}
