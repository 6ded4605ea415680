//! A body as it is gone through: the names in scope, and the slots taken.

ghost use Rattle.std.specs.Prelude.{◌≡◌, [], ◌-◌, length, drop, map, IfOk, OnOk};
ghost use Rattle.jade_syntax.specs.declared.stands.Stand.TheVariants.{Slot};
ghost use Rattle.jade_syntax.specs.Numbering.{stand_of};
ghost use Rattle.jade_types.specs.steps.Bodies.{as_scope, names_in, with_variable, created_in};

use crate::item_map::ItemMap;
use jade_base::Memory;
use jade_syntax::tree::NameList;
use jade_syntax::{Name, Stand};
use name_scope::NameScope;
use std::alloc::Global;
use std::marker::Model;

/// A body: its variables in scope, of which the newest of a name counts, behind them the items, and
/// how many of its slots are taken. Contracts see the variables with the newest first.
#[derive(Drop)]
pub(crate) struct Body<'m, 'p> {
    variables: NameScope<'p, u32>,
    items: &'m ItemMap<'p, Stand>,
    slots: u32,
}

impl<'m, 'p> Model for Body<'m, 'p> {
    ghost use Rattle.jade_types.specs.steps.Bodies.{InBody, as_scope, in_slots};

    ghost Value = { InBody };

    ghost view = { λ b. record { variables = in_slots b.variables; items = as_scope b.items.now; slots = b.slots } };
}

impl<'m, 'p> Body<'m, 'p> {
    /// A body with no variables and no slots taken. It takes no memory.
    pub(crate) fn of(alloc: Global, items: &'m ItemMap<'p, Stand>) -> Body<'m, 'p>
        ensures { result ≡ record { variables = []; items = as_scope items.now; slots = 0 } }
    {
        Body {
            variables: NameScope::none(alloc),
            items,
            slots: 0,
        }
    }

    /// A body with the same items, no variables and no slots taken. It takes no memory.
    fn emptied(&self) -> Body<'m, 'p>
        ensures { result ≡ record { variables = []; items = self.now.items; slots = 0 } }
    {
        Body {
            variables: self.variables.without_names(),
            items: self.items,
            slots: 0,
        }
    }

    /// The number of variables in scope. It takes no memory.
    pub(crate) fn len(&self) -> usize
        ensures { result ≡ length self.now.variables }
    {
        self.variables.len()
    }

    /// The slot that is taken next. It takes no memory.
    pub(crate) fn next_slot(&self) -> Stand
        ensures { result ≡ Slot self.now.slots }
    {
        Stand::Slot(self.slots)
    }

    /// Brings a variable into scope, which has the next slot, and takes so many slots.
    pub(crate) fn declare(&mut self, name: &'p Name, slots: u32) -> Result<(), Memory>
        ensures { OnOk result (self.new ≡ with_variable name.now slots self.old) }
    {
        let slot = self.slots;
        let taken = slot.checked_add(slots).ok_or(Memory)?;
        self.variables.declare(name.bytes(), slot)?;
        self.slots = taken;
        Ok(())
    }

    /// Ends the newest variables, so that `len` stay, if there are more. It takes no memory.
    pub(crate) fn leave(&mut self, len: usize)
        ensures { self.new ≡ record self.old { variables = drop (length self.old.variables - len) self.old.variables } }
    {
        self.variables.leave(len);
    }

    /// What a name stands for; the first slot where it is not in scope. It takes no memory.
    pub(crate) fn stand_of(&self, name: &Name) -> Stand
        ensures { result ≡ stand_of name.now (names_in self.now) }
    {
        match self.variables.get(name.bytes()) {
            Some(slot) => Stand::Slot(slot),
            None => self.items.get(name.bytes()).unwrap_or(Stand::Slot(0)),
        }
    }

    /// The body of a task that is created here: these names are its variables.
    pub(crate) fn created(&self, names: &'p NameList) -> Result<Body<'m, 'p>, Memory>
        ensures { IfOk result (λ body. body ≡ created_in self.now (map (λ n. n.name) names.now)) }
    {
        let mut body = self.emptied();
        for i in 0..names.len() {
            body.declare(&names.at(i).name, 1)?;
        }
        Ok(body)
    }
}
