//! The variables in scope.

ghost use Rattle.std.specs.Prelude.{◌≡◌, ◌-◌, [], ◌∷◌, length, drop, IfOk, OnOk};
ghost use Rattle.jade_meaning.specs.Course.{value_of, assigned};

use crate::resolve::same_name;
use crate::values::Value;
use jade_base::Memory;
use jade_syntax::Name;
use std::alloc::Global;
use std::marker::Model;

// A variable by its name in the tree, and its value.
#[derive(Clone, Copy)]
struct Bound<'c> {
    name: &'c Name,
    value: Value,
}

/// The variables in scope, which contracts see as a list with the newest first.
#[derive(Drop)]
pub(crate) struct Scope<'c> {
    bounds: Vec<Bound<'c>>,
}

impl<'c> Model for Scope<'c> {
    ghost use Rattle.jade_meaning.specs.Course.{Environment};

    ghost Value = { Environment };

    ghost use Rattle.jade_meaning.specs.steps.Scopes.{in_scope};

    ghost view = { λ s. in_scope s.bounds.items };
}

impl<'c> Scope<'c> {
    /// No variables.
    pub(crate) fn empty(alloc: Global) -> Scope<'c>
        ensures { result ≡ [] }
    {
        Scope {
            bounds: Vec::new(alloc),
        }
    }

    /// The number of variables.
    pub(crate) fn len(&self) -> usize
        ensures { result ≡ length self.now }
    {
        self.bounds.len()
    }

    /// A new variable.
    pub(crate) fn bind(&mut self, name: &'c Name, value: Value) -> Result<(), Memory>
        ensures { OnOk result (self.new ≡ record { name = name.now; value = value } ∷ self.old) }
    {
        match self.bounds.push(Bound { name, value }) {
            Ok(()) => Ok(()),
            Err(_) => Err(Memory),
        }
    }

    /// Ends the newest variables, so that `len` stay, if there are more.
    pub(crate) fn leave(&mut self, len: usize)
        ensures { self.new ≡ drop (length self.old - len) self.old }
    {
        self.bounds.truncate(len);
    }

    /// The newest value of a name; zero where there is none.
    pub(crate) fn value_of(&self, name: &Name) -> Value
        ensures { result ≡ value_of name.now self.now }
    {
        let mut left = self.bounds.len();
        while left > 0 {
            left -= 1;
            let bound = &self.bounds[left];
            if same_name(name, bound.name) {
                return bound.value;
            }
        }
        Value::IntOf(0)
    }

    /// Another value for the newest variable of a name.
    pub(crate) fn assign(&mut self, name: &Name, value: Value)
        ensures { self.new ≡ assigned name.now value self.old }
    {
        let mut left = self.bounds.len();
        while left > 0 {
            left -= 1;
            let bound = self.bounds[left];
            if same_name(name, bound.name) {
                self.bounds[left] = Bound {
                    name: bound.name,
                    value,
                };
                return;
            }
        }
    }

    /// The same variables once more.
    pub(crate) fn copy(&self, alloc: Global) -> Result<Scope<'c>, Memory>
        ensures { IfOk result (λ copy. copy ≡ self.now) }
    {
        let bounds = Vec::from_slice(alloc, self.bounds.as_slice())?;
        Ok(Scope { bounds })
    }
}
