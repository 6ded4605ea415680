//! The names of items with what they are, found by a name.

ghost use Rattle.std.specs.Prelude.{◌≡◌, [], ◌∷◌, ◌++◌, OnOk};
ghost use Rattle.std.specs.Map.{lookup};
ghost use Rattle.jade_syntax.specs.Numbering.{same_name};

use jade_base::Memory;
use std::alloc::Global;
use std::collections::BTreeMap;
use std::marker::Model;

/// The names of items in declared order, each with what the item is. `places` has for each name the
/// place of the first of that name.
#[derive(Drop)]
pub(crate) struct ItemMap<'p, V: Drop> {
    pairs: Vec<(&'p [u8], V)>,
    places: BTreeMap<&'p [u8], usize>,
}

impl<'p, V: Drop> Model for ItemMap<'p, V> {
    ghost use Rattle.std.specs.Prelude.{List, ℕ, map};
    ghost use Rattle.std.specs.Coded.{coded_list, coded×, coded_ℕ};

    ghost Value = { List (List ℕ × V) };

    ghost coded = { coded_list (coded× (coded_list coded_ℕ) V.code) };

    ghost use Rattle.jade_types.specs.steps.ItemMap.{named, IsIndexed};

    ghost view = { λ m. map named m.pairs.items };

    ghost invariant = { λ m. IsIndexed m.pairs.items m.places.entries };
}

impl<'p, V: Copy + Drop> ItemMap<'p, V> {
    /// The names of no items. It takes no memory.
    pub(crate) fn none(alloc: Global) -> ItemMap<'p, V>
        ensures { result ≡ [] }
    {
        ItemMap {
            pairs: Vec::new(alloc),
            places: BTreeMap::new(alloc),
        }
    }

    /// One more item, after the others.
    pub(crate) fn declare(&mut self, name: &'p [u8], value: V) -> Result<(), Memory>
        ensures { OnOk result (self.new ≡ self.old ++ (name.now, value) ∷ []) }
    {
        let place = self.pairs.len();
        self.pairs.push((name, value))?;
        if self.places.contains_key(name) {
            return Ok(());
        }
        match self.places.insert(name, place) {
            Ok(_) => Ok(()),
            Err(_) => {
                self.pairs.truncate(place);
                Err(Memory)
            }
        }
    }

    /// What the first item of a name is. It takes no memory.
    pub(crate) fn get(&self, name: &[u8]) -> Option<V>
        ensures { result ≡ lookup (same_name name.now) self.now }
    {
        match self.places.get(name) {
            Some(place) => Some(self.pairs[*place].1),
            None => None,
        }
    }
}
