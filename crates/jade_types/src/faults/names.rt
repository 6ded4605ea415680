//! What names stand for.

ghost use Rattle.std.specs.Prelude.{◌≡◌, [], ◌∷◌, ◌-◌, length, drop, OnOk};
ghost use Rattle.std.specs.Option.{option_map};
ghost use Rattle.jade_syntax.specs.StaticFaults.{known, found, misuse, wrong_use, kind_of_name, item_known};
ghost use Rattle.jade_types.specs.steps.Meanings.{meant, used};
ghost use Rattle.jade_types.specs.steps.Scoped.{as_names, in_scope};

use crate::item_map::ItemMap;
use jade_base::Memory;
use jade_syntax::tree::{Item, ValueKind};
use jade_syntax::{Name, StaticKind};
use name_scope::NameScope;
use std::alloc::Global;
use std::marker::Model;

/// What a name stands for: an input, a variable of a kind (of none where it was given a name that
/// is itself refused), the variable of a loop, a single object, or a family.
#[derive(Clone, Copy)]
pub(crate) enum Meaning {
    Input,
    Holds(Option<ValueKind>),
    Turns,
    Single,
    Family,
}

/// What a name is used as: a value, the target of an assignment, a name of a `do` list, a single
/// object, or a family.
#[derive(Clone, Copy)]
pub(crate) enum Use {
    Value,
    Target,
    Handed,
    Single,
    Family,
}

fn misuse(how: Use, meaning: Meaning) -> Option<StaticKind>
    ensures { result ≡ misuse (used how) (meant meaning) }
{
    match how {
        Use::Value => match meaning {
            Meaning::Input | Meaning::Holds(_) | Meaning::Turns => None,
            Meaning::Single | Meaning::Family => Some(StaticKind::Kind),
        },
        Use::Target => match meaning {
            Meaning::Holds(_) => None,
            Meaning::Input | Meaning::Turns => Some(StaticKind::Assign),
            Meaning::Single | Meaning::Family => Some(StaticKind::Kind),
        },
        Use::Handed => match meaning {
            Meaning::Holds(_) | Meaning::Turns => None,
            Meaning::Input | Meaning::Single | Meaning::Family => Some(StaticKind::Kind),
        },
        Use::Single => match meaning {
            Meaning::Single => None,
            Meaning::Input | Meaning::Holds(_) | Meaning::Turns | Meaning::Family => {
                Some(StaticKind::Kind)
            }
        },
        Use::Family => match meaning {
            Meaning::Family => None,
            Meaning::Input | Meaning::Holds(_) | Meaning::Turns | Meaning::Single => {
                Some(StaticKind::Kind)
            }
        },
    }
}

/// What is wrong with the use of a name that stands for this, or for nothing.
pub(crate) fn wrong_use(how: Use, found: Option<Meaning>) -> Option<StaticKind>
    ensures { result ≡ wrong_use (used how) (option_map meant found) }
{
    match found {
        None => Some(StaticKind::Name),
        Some(meaning) => misuse(how, meaning),
    }
}

/// The kind of what a name stands for; none where it is no variable and no input.
pub(crate) fn kind_of_name(found: Option<Meaning>) -> Option<ValueKind>
    ensures { result ≡ kind_of_name (option_map meant found) }
{
    match found {
        Some(Meaning::Input | Meaning::Turns) => Some(ValueKind::Int),
        Some(Meaning::Holds(kind)) => kind,
        Some(Meaning::Single | Meaning::Family) | None => None,
    }
}

/// The name of an item.
pub(crate) fn name_of(item: &Item) -> &Name
    ensures { result.now ≡ (item_known item.now).name }
{
    match item {
        Item::Input { name, .. } | Item::Single { name, .. } | Item::Family { name, .. } => name,
    }
}

/// What an item's name stands for.
pub(crate) fn meaning_of(item: &Item) -> Meaning
    ensures { meant result ≡ (item_known item.now).meaning }
{
    match item {
        Item::Input { .. } => Meaning::Input,
        Item::Single { .. } => Meaning::Single,
        Item::Family { .. } => Meaning::Family,
    }
}

/// The names in scope: the locals, of which the newest of a name counts, and behind them the names
/// of all items. Contracts see the locals with the newest first.
#[derive(Drop)]
pub(crate) struct Scope<'p, 'k> {
    locals: NameScope<'p, Meaning>,
    items: &'k ItemMap<'p, Meaning>,
}

impl<'p, 'k> Model for Scope<'p, 'k> {
    ghost use Rattle.jade_types.specs.steps.Scoped.{Scoped, as_names};

    ghost Value = { Scoped };

    ghost view = { λ s. record { locals = as_names s.locals; items = as_names s.items.now } };
}

impl<'p, 'k> Scope<'p, 'k> {
    /// The names of all items, with no locals. It takes no memory.
    pub(crate) fn of(alloc: Global, items: &'k ItemMap<'p, Meaning>) -> Scope<'p, 'k>
        ensures { result ≡ record { locals = []; items = as_names items.now } }
    {
        Scope {
            locals: NameScope::none(alloc),
            items,
        }
    }

    /// The same items, with no locals. It takes no memory.
    pub(crate) fn without_locals(&self) -> Scope<'p, 'k>
        ensures { result ≡ record { locals = []; items = self.now.items } }
    {
        Scope {
            locals: self.locals.without_names(),
            items: self.items,
        }
    }

    /// The number of locals.
    pub(crate) fn len(&self) -> usize
        ensures { result ≡ length self.now.locals }
    {
        self.locals.len()
    }

    /// A new local.
    pub(crate) fn bind(&mut self, name: &'p Name, meaning: Meaning) -> Result<(), Memory>
        ensures { OnOk result (self.new ≡ record { locals = known name.now (meant meaning) ∷ self.old.locals; items = self.old.items }) }
    {
        self.locals.declare(name.bytes(), meaning)
    }

    /// Ends the newest locals, so that `len` stay, if there are more.
    pub(crate) fn leave(&mut self, len: usize)
        ensures { self.new ≡ record { locals = drop (length self.old.locals - len) self.old.locals; items = self.old.items } }
    {
        self.locals.leave(len);
    }

    /// What a name stands for as a local.
    pub(crate) fn found_local(&self, name: &Name) -> Option<Meaning>
        ensures { option_map meant result ≡ found name.now self.now.locals }
    {
        self.locals.get(name.bytes())
    }

    /// What a name stands for.
    pub(crate) fn found(&self, name: &Name) -> Option<Meaning>
        ensures { option_map meant result ≡ found name.now (in_scope self.now) }
    {
        match self.found_local(name) {
            Some(meaning) => Some(meaning),
            None => self.items.get(name.bytes()),
        }
    }
}
