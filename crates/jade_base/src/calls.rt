ghost use Rattle.std.specs.Prelude.{◌≡◌, [], ◌≤◌};
ghost use Rattle.jade_base.specs.Bytes.{Rose};
ghost use Rattle.jade_base.specs.InMemory.{Plan, is_named, passed, missed};

use std::marker::Model;

// Which calls of a source or a sink fail, and how many did.
#[derive(Drop)]
pub(crate) struct Calls {
    failing: Vec<u64>,
    next: u64,
    faults: u64,
}

impl Model for Calls {
    ghost use Rattle.jade_base.specs.InMemory.{Plan};

    ghost Value = { Plan };

    ghost view = { λ c. record { failing = c.failing.items; next = c.next; faults = c.faults } };
}

impl Calls {
    pub(crate) fn new(failing: Vec<u64>) -> Calls
        ensures { result ≡ record { failing = failing.items; next = 0; faults = 0 } }
    {
        Calls {
            failing,
            next: 0,
            faults: 0,
        }
    }

    // The next call is to fail.
    pub(crate) fn names_next(&self) -> bool
        ensures { result ≡ is_named self.now }
    {
        self.failing.contains(&self.next)
    }

    pub(crate) fn pass(&mut self)
        ensures { self.new ≡ passed self.old }
    {
        self.next = self.next.saturating_add(1);
    }

    pub(crate) fn miss(&mut self)
        ensures plan { self.new ≡ missed self.old }
        ensures count { self.old.faults ≤ self.new.faults }
        ensures fault { Rose self.old.faults self.new.faults }
    {
        self.next = self.next.saturating_add(1);
        self.faults = self.faults.saturating_add(1);
    }
}
