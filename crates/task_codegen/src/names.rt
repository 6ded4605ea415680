//! A body as it is gone through: the variables in scope with their slots, and the next free slot.

ghost use Rattle.std.specs.Prelude.{◌≡◌, [], ◌∷◌, ◌+◌, ◌-◌, length, drop, map, IfOk, OnOk, IsTrue};
ghost use Rattle.task_translation.specs.Keys.{look};
ghost use Rattle.task_codegen.specs.Variables.{key_shown};
ghost use Rattle.task_codegen.specs.Bodies.{kept_of};
ghost use Rattle.task_translation.specs.Compile.{slot_of, entry, inputs_in, given_scope};
ghost use Rattle.task_codegen.specs.Compiled.{created};

use crate::keys::{Kept, Key, look};
use crate::ranges::Ranges;
use jade_base::Memory;
use jade_syntax::Name;
use jade_syntax::tree::{Item, NameList};
use name_scope::NameScope;
use std::alloc::Global;
use std::marker::Model;
use std::mem::replace;

/// A body: its variables in scope, of which the newest of a name counts, the items, and the next
/// free slot. Contracts see the variables with the newest first.
#[derive(Drop)]
pub(crate) struct Names<'m, 'p> {
    variables: NameScope<'p, u32>,
    ranges: &'m Ranges<'p>,
    next: u32,
    kept: Vec<Kept>,
}

impl<'m, 'p> Model for Names<'m, 'p> {
    ghost use Rattle.task_codegen.specs.Bodies.{InBody};
    ghost use Rattle.task_codegen.specs.Variables.{in_scope};
    ghost use Rattle.task_codegen.specs.contracts.keys.Key as e;
    ghost use Rattle.std.specs.Coded.{codes};

    ghost Value = { InBody };

    ghost coded = { Prim.hlevel (codes, e.the_row.coded) };

    ghost view = { λ b. record { items = b.ranges.now; kept = b.kept.items; scope = in_scope b.variables; next = b.next } };
}

impl<'m, 'p> Names<'m, 'p> {
    /// A body with no variables. It takes no memory.
    fn none(alloc: Global, ranges: &'m Ranges<'p>) -> Names<'m, 'p>
        ensures { result ≡ record { items = ranges.now; kept = []; scope = []; next = 0 } }
    {
        Names {
            variables: NameScope::none(alloc),
            ranges,
            next: 0,
            kept: Vec::new(alloc),
        }
    }

    /// The number of variables in scope. It takes no memory.
    pub(crate) fn len(&self) -> usize
        ensures { result ≡ length self.now.scope }
    {
        self.variables.len()
    }

    /// The next free slot. It takes no memory.
    pub(crate) fn next(&self) -> u32
        ensures { result ≡ self.now.next }
    {
        self.next
    }

    /// The objects that a name stands for.
    pub(crate) fn ranges(&self) -> &'m Ranges<'p>
        ensures { result.now ≡ self.now.items }
    {
        self.ranges
    }

    /// Brings a variable into scope, which has this slot; the one after it is free then.
    pub(crate) fn declare(&mut self, name: &'p Name, slot: u32) -> Result<(), Memory>
        ensures { OnOk result (self.new ≡ record { items = self.old.items; kept = self.old.kept; scope = entry name.now slot ∷ self.old.scope; next = slot + 1 }) }
    {
        let next = slot.checked_add(1).ok_or(Memory)?;
        self.variables.declare(name.bytes(), slot)?;
        self.next = next;
        Ok(())
    }

    /// Ends the newest variables, so that `len` stay, if there are more. It takes no memory.
    pub(crate) fn leave(&mut self, len: usize, next: u32)
        ensures { self.new ≡ record { items = self.old.items; kept = self.old.kept; scope = drop (length self.old.scope - len) self.old.scope; next = next } }
    {
        self.variables.leave(len);
        self.next = next;
    }

    /// The slot of a name, where it is a variable, by one look-up in an ordered map. It takes no memory.
    pub(crate) fn slot_of(&self, name: &Name) -> Option<u32>
        ensures { result ≡ slot_of name.now self.now.scope }
    {
        self.variables.get(name.bytes())
    }

    /// Nothing is kept. It takes no memory.
    pub(crate) fn keeps_nothing(&self) -> bool
        ensures { IsTrue result → self.now.kept ≡ [] }
    {
        self.kept.len() == 0
    }

    /// The slot that has the value of a key. It takes no memory.
    pub(crate) fn look(&self, key: &Key) -> Option<u32>
        ensures { result ≡ look (key_shown key.now) (kept_of self.now) }
    {
        look(&self.kept, key)
    }

    /// These values are kept from here on, and the answer is those before. It takes no memory.
    pub(crate) fn keep(&mut self, kept: Vec<Kept>) -> Vec<Kept>
        ensures next { self.new ≡ record { items = self.old.items; kept = kept.items; scope = self.old.scope; next = self.old.next } }
        ensures before { result.items ≡ self.old.kept }
    {
        replace(&mut self.kept, kept)
    }

    /// The next free slot is another. It takes no memory.
    pub(crate) fn reserve(&mut self, next: u32)
        ensures { self.new ≡ record { items = self.old.items; kept = self.old.kept; scope = self.old.scope; next = next } }
    {
        self.next = next;
    }

    /// The inputs are in scope.
    fn given(alloc: Global, ranges: &'m Ranges<'p>) -> Result<Names<'m, 'p>, Memory>
        ensures { IfOk result (λ b. b ≡ record { items = ranges.now; kept = []; scope = given_scope ranges.now; next = inputs_in ranges.now }) }
    {
        let mut body = Names::none(alloc, ranges);
        let items = ranges.items();
        let mut left = items.len();
        while left > 0 {
            left -= 1;
            match items.at(left) {
                Item::Input { name, .. } => {
                    let slot = body.next();
                    match body.declare(name, slot) {
                        Ok(()) => {}
                        Err(memory) => return Err(memory),
                    }
                }
                Item::Single { .. } => {}
                Item::Family { .. } => {}
            }
        }
        Ok(body)
    }

    /// The body of a task that is created with these names.
    pub(crate) fn created(
        alloc: Global,
        ranges: &'m Ranges<'p>,
        names: &'p NameList,
    ) -> Result<Names<'m, 'p>, Memory>
        ensures { IfOk result (λ b. b ≡ created ranges.now (map (λ n. n.name) names.now)) }
    {
        let mut body = Names::given(alloc, ranges)?;
        let mut left = names.len();
        while left > 0 {
            left -= 1;
            let slot = body.next();
            body.declare(&names.at(left).name, slot)?;
        }
        Ok(body)
    }
}
