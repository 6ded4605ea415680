//! What a task may touch.

ghost use Rattle.std.specs.Prelude.{◌≡◌, [], length, replicate, slice_set, IfOk, OnOk};
ghost use Rattle.jade_base.specs.Rights.{no_rights, both_rights};
ghost use Rattle.jade_meaning.specs.Specification.{rights_on, covers, fitted, objects, commuting_on, is_commuting, fits_commuting, all_fit, may_commute};

use jade_base::{Memory, Right, Rights};
use std::alloc::Global;
use std::marker::Model;

/// The rights on each object, which contracts see as a list.
#[derive(Drop)]
pub(crate) struct DenseSpec {
    rights: Vec<Rights>,
}

impl Model for DenseSpec {
    ghost use Rattle.std.specs.Prelude.{List};
    ghost use Rattle.jade_base.specs.declared.rights.Rights.{Rights as RightsOf};

    ghost Value = { List RightsOf };

    ghost view = { λ g. g.rights.items };
}

impl DenseSpec {
    /// No objects.
    pub(crate) fn empty(alloc: Global) -> DenseSpec
        ensures { result ≡ [] }
    {
        DenseSpec {
            rights: Vec::new(alloc),
        }
    }

    /// No rights on so many objects.
    pub(crate) fn none(alloc: Global, objects: usize) -> Result<DenseSpec, Memory>
        ensures { IfOk result (λ spec. spec ≡ replicate objects no_rights) }
    {
        Ok(DenseSpec {
            rights: Vec::from_elem(alloc, Rights::NONE, objects)?,
        })
    }

    /// Immediate reading and writing on so many objects.
    pub(crate) fn all(alloc: Global, objects: usize) -> Result<DenseSpec, Memory>
        ensures { IfOk result (λ spec. spec ≡ replicate objects both_rights) }
    {
        let both = Rights {
            reads: Right::Immediate,
            writes: Right::Immediate,
            commutes: Right::Absent,
        };
        Ok(DenseSpec {
            rights: Vec::from_elem(alloc, both, objects)?,
        })
    }

    /// The number of objects.
    pub(crate) fn len(&self) -> usize
        ensures { result ≡ length self.now }
    {
        self.rights.len()
    }

    /// The rights on an object; none where there is no such object.
    pub(crate) fn on(&self, object: usize) -> Rights
        ensures { result ≡ rights_on self.now object }
    {
        if object < self.rights.len() {
            self.rights[object]
        } else {
            Rights::NONE
        }
    }

    /// Other rights on an object; nothing happens where there is no such object.
    pub(crate) fn set(&mut self, object: usize, rights: Rights)
        ensures { self.new ≡ slice_set self.old object rights }
    {
        if object < self.rights.len() {
            self.rights[object] = rights;
        }
    }

    /// The same rights once more.
    pub(crate) fn copy(&self, alloc: Global) -> Result<DenseSpec, Memory>
        ensures { IfOk result (λ copy. copy ≡ self.now) }
    {
        let rights = Vec::from_slice(alloc, self.rights.as_slice())?;
        Ok(DenseSpec { rights })
    }

    /// The same rights, but none on one object.
    pub(crate) fn without(&self, alloc: Global, object: usize) -> Result<DenseSpec, Memory>
        ensures { IfOk result (λ spec. spec ≡ slice_set self.now object no_rights) }
    {
        let mut others = self.copy(alloc)?;
        others.set(object, Rights::NONE);
        Ok(others)
    }

    /// Makes these the rights on as many objects as `base` tells of.
    pub(crate) fn fit(&mut self, base: &DenseSpec) -> Result<(), Memory>
        ensures { OnOk result (self.new ≡ fitted base.now self.old) }
    {
        Ok(self.rights.resize(base.len(), Rights::NONE)?)
    }

    /// The object on which a task with these rights commutes, if it does.
    pub(crate) fn commuting_on(&self) -> Option<usize>
        ensures { result ≡ commuting_on self.now }
    {
        for object in 0..self.len() {
            if self.on(object).commutes.is_there() {
                return Some(object);
            }
        }
        None
    }

    /// Whether a task with these rights commutes on some object.
    pub(crate) fn is_commuting(&self) -> bool
        ensures { result ≡ is_commuting self.now }
    {
        self.commuting_on().is_some()
    }

    /// Whether a task may have these rights: none to commute, or one and nothing else but immediate
    /// reads of other objects.
    pub(crate) fn may_commute(&self) -> bool
        ensures { result ≡ may_commute self.now }
    {
        match self.commuting_on() {
            None => true,
            Some(own) => self.all_fit(own),
        }
    }

    // Whether the rights on each object are what a task that commutes on `own` may have.
    fn all_fit(&self, own: usize) -> bool
        ensures { result ≡ all_fit own self.now (objects self.now) }
    {
        for object in 0..self.len() {
            if !fits_commuting(own, object, self.on(object)) {
                return false;
            }
        }
        true
    }

    /// Whether these rights cover a child's.
    pub(crate) fn covers(&self, child: &DenseSpec) -> bool
        ensures { result ≡ covers self.now child.now }
    {
        for object in 0..child.len() {
            if !self.on(object).covers(child.on(object)) {
                return false;
            }
        }
        true
    }
}

// What a task that commutes on `own` may have on an object.
fn fits_commuting(own: usize, object: usize, rights: Rights) -> bool
    ensures { result ≡ fits_commuting own object rights }
{
    if own == object {
        !rights.reads.is_there() && !rights.writes.is_there() && rights.commutes == Right::Immediate
    } else {
        rights.reads != Right::Deferred && !rights.writes.is_there() && !rights.commutes.is_there()
    }
}
