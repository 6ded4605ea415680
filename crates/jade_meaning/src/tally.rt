//! Where a task stands in its run.

ghost use Rattle.std.specs.Prelude.{◌≡◌, ◌<◌, ◌≤◌, OnOk, IfErr, OnErr};
ghost use Rattle.jade_meaning.specs.Course.{limit_blame};
ghost use Rattle.jade_meaning.specs.steps.Tallied.{stepped, parted};

use jade_base::{Blame, FaultKind, Memory};
use std::marker::Model;

/// The steps that a task has begun, those of them in its present part, and the children that it
/// has made.
#[derive(Drop)]
pub(crate) struct Tally {
    taken: u32,
    part: u32,
    children: u32,
}

impl Model for Tally {
    ghost use Rattle.std.specs.Prelude.{◌≤◌};
    ghost use Rattle.jade_meaning.specs.steps.Tallied.{Tallied};

    ghost Value = { Tallied };

    ghost view = { λ t. record { taken = t.taken; part = t.part; children = t.children } };

    ghost invariant = { λ t. t.part ≤ t.taken };
}

impl Tally {
    /// A task that begins.
    pub(crate) fn start() -> Tally
        ensures { result ≡ record { taken = 0; part = 0; children = 0 } }
    {
        Tally {
            taken: 0,
            part: 0,
            children: 0,
        }
    }

    /// The same counts.
    pub(crate) fn copy(&self) -> Tally
        ensures { result ≡ self.now }
    {
        Tally {
            taken: self.taken,
            part: self.part,
            children: self.children,
        }
    }

    /// The steps of the present part.
    pub(crate) fn part(&self) -> u32
        ensures { result ≡ self.now.part }
    {
        self.part
    }

    /// The children made so far.
    pub(crate) fn children(&self) -> u32
        ensures { result ≡ self.now.children }
    {
        self.children
    }

    /// Begins a step; the error is the fault `limit`, and changes nothing.
    pub(crate) fn begin_step(&mut self, limit: u32) -> Result<(), Blame>
        ensures within { OnOk result (self.old.taken < limit) }
        ensures counted { OnOk result (self.new ≡ stepped self.old) }
        ensures beyond { OnErr result (limit ≤ self.old.taken) }
        ensures fault { IfErr result (λ blame. blame ≡ limit_blame) }
        ensures unchanged { OnErr result (self.new ≡ self.old) }
    {
        if self.taken < limit {
            self.taken += 1;
            self.part += 1;
            Ok(())
        } else {
            Err(Blame {
                kind: FaultKind::Limit,
                pos: None,
            })
        }
    }

    /// Counts a child, and begins the part after its creation. The error is want of numbers for
    /// more children.
    pub(crate) fn begin_part(&mut self) -> Result<(), Memory>
        ensures { OnOk result (self.new ≡ parted self.old) }
    {
        match self.children.checked_add(1) {
            Some(children) => {
                self.children = children;
                self.part = 0;
                Ok(())
            }
            None => Err(Memory),
        }
    }
}
