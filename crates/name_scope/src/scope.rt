ghost use Rattle.std.specs.Prelude.{◌≡◌, [], ◌∷◌, ◌-◌, length, drop, OnOk, OnErr};
ghost use Rattle.std.specs.Map.{lookup};
ghost use Rattle.name_scope.specs.Entries.{joined, is_named};
ghost use Rattle.jade_syntax.specs.Numbering.{same_name};

use jade_base::Memory;
use std::alloc::Global;
use std::collections::BTreeMap;
use std::marker::Model;

/// A name with its value, and the place of the newest entry before it that has the same name.
#[derive(Clone, Copy)]
struct Entry<'n, V> {
    name: &'n [u8],
    value: V,
    hidden: Option<usize>,
}

/// Names in scope with their values, which contracts see as a list of names with values, the newest
/// first. `newest` has for each name that was ever declared the place of the newest entry of that
/// name, where one is left.
#[derive(Drop)]
pub struct NameScope<'n, V: Drop> {
    entries: Vec<Entry<'n, V>>,
    newest: BTreeMap<&'n [u8], Option<usize>>,
}

impl<'n, V: Drop> Model for NameScope<'n, V> {
    ghost use Rattle.std.specs.Prelude.{List, ℕ, map, reverse};
    ghost use Rattle.std.specs.Coded.{coded_list, coded×, coded_ℕ};

    ghost Value = { List (List ℕ × V) };

    ghost coded = { coded_list (coded× (coded_list coded_ℕ) V.code) };

    ghost use Rattle.name_scope.specs.Entries.{named, IsKept};

    ghost view = { λ s. map named (reverse s.entries.items) };

    ghost invariant = { λ s. IsKept (reverse s.entries.items) s.newest.entries };
}

/// The place that is kept for a name.
fn place_of(newest: &BTreeMap<&[u8], Option<usize>>, name: &[u8]) -> Option<usize>
    ensures { result ≡ joined (lookup (is_named name.now) newest.now.entries) }
{
    match newest.get(name) {
        Some(place) => *place,
        None => None,
    }
}

impl<'n, V: Copy + Drop> NameScope<'n, V> {
    /// No names. It takes no memory.
    pub fn none(alloc: Global) -> NameScope<'n, V>
        ensures { result ≡ [] }
    {
        NameScope {
            entries: Vec::new(alloc),
            newest: BTreeMap::new(alloc),
        }
    }

    /// No names, in the same memory as these. It takes no memory.
    pub fn without_names(&self) -> NameScope<'n, V>
        ensures { result ≡ [] }
    {
        NameScope::none(*self.entries.allocator())
    }

    /// The number of names in scope, each as often as it was declared. It takes no memory.
    pub fn len(&self) -> usize
        ensures { result ≡ length self.now }
    {
        self.entries.len()
    }

    /// Brings a name into scope, which hides an older one of the same bytes. Without memory the
    /// scope is as it was.
    pub fn declare(&mut self, name: &'n [u8], value: V) -> Result<(), Memory>
        ensures declared { OnOk result (self.new ≡ (name.now, value) ∷ self.old) }
        ensures unchanged { OnErr result (self.new ≡ self.old) }
    {
        let place = self.entries.len();
        let hidden = place_of(&self.newest, name);
        self.entries.push(Entry {
            name,
            value,
            hidden,
        })?;
        match self.newest.insert(name, Some(place)) {
            Ok(_) => Ok(()),
            Err(_) => {
                self.entries.truncate(place);
                Err(Memory)
            }
        }
    }

    /// The value of the newest entry of a name, by one look-up in an ordered map, in time of the
    /// logarithm of the number of names. It takes no memory.
    pub fn get(&self, name: &[u8]) -> Option<V>
        ensures { result ≡ lookup (same_name name.now) self.now }
    {
        match place_of(&self.newest, name) {
            Some(place) => Some(self.entries[place].value),
            None => None,
        }
    }

    /// Ends the newest names, so that `len` stay, if there are more, in time of what is ended. It
    /// takes no memory.
    pub fn leave(&mut self, len: usize)
        ensures { self.new ≡ drop (length self.old - len) self.old }
    {
        'ending: while self.len() > len {
            self.end_newest();
        }
    }

    /// Ends the newest name, if there is one.
    fn end_newest(&mut self)
        ensures { self.new ≡ drop 1 self.old }
    {
        if let Some(entry) = self.entries.pop() {
            match self.newest.insert(entry.name, entry.hidden) {
                Ok(_) => {}
                Err(_) => unreachable!(),
            }
        }
    }
}
