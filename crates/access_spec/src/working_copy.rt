ghost use Rattle.std.specs.Prelude.{◌≡◌, ◌<◌, ◌≤◌, length, IfOk, OnErr, IfSome, IfNone, IsSomeAnd, MatchResult, None, Some};
ghost use Rattle.jade_base.specs.Rights.{same_rights};
ghost use Rattle.jade_base.specs.Specification.{IsAscending, kept, settled};
ghost use Rattle.access_spec.specs.Amended.{amended};
ghost use Rattle.access_spec.specs.Copies.{IsChange, IsSameBetween, IsSameFrom, copied, next_changed, with_copied};

use crate::change::{Change, NoRight};
use jade_base::{ObjectId, Rights, Spec};
use std::marker::Model;

/// A specification with a working copy of it. Contracts see the copy as the draft of the
/// specification.
#[derive(Debug, Drop)]
pub struct WorkingCopy {
    spec: Spec,
}

impl Model for WorkingCopy {
    ghost use Rattle.jade_base.specs.Specification.{Specification};

    ghost Value = { Specification };

    ghost view = { λ d. d.spec };
}

impl WorkingCopy {
    /// A working copy that is equal to the specification. It takes no memory.
    pub fn begin(mut spec: Spec) -> WorkingCopy
        ensures { result ≡ settled spec.entries }
    {
        spec.drop_draft();
        WorkingCopy { spec }
    }

    /// The specification from before the changes.
    pub fn spec(&self) -> &Spec
        ensures { result.now ≡ self.now }
    {
        &self.spec
    }

    /// Changes the rights on an object in the copy; the error, a right that is not there, changes
    /// nothing.
    pub fn change(&mut self, object: ObjectId, change: Change) -> Result<(), NoRight>
        ensures changed { IfOk result (λ _. IsSomeAnd (amended change (copied self.old object)) (λ rights.
            self.new ≡ with_copied self.old object rights)) }
        ensures refused { OnErr result ((amended change (copied self.old object) ≡ None) × (self.new ≡ self.old)) }
    {
        match self.spec.place_of(object) {
            Some(place) => {
                let rights = change.amend(self.spec.draft_at(place))?;
                self.spec.set_draft(place, rights);
            }
            None => {
                change.amend(Rights::NONE)?;
            }
        }
        Ok(())
    }

    /// The object of the least number, from a number on, whose rights in the copy are not those
    /// from before, with its rights in the copy.
    pub fn next_change(&self, from: ObjectId) -> Option<(ObjectId, Rights)>
        ensures found { IfSome result (λ next. IsChange self.now next.0 next.1) }
        ensures least { IfSome result (λ next. (from.0 ≤ next.0.0) × IsSameBetween self.now from.0 next.0.0) }
        ensures none { IfNone result (IsSameFrom self.now from.0) }
    {
        next_change_of(&self.spec, from)
    }

    /// The copy as the specification. It takes no memory.
    pub fn commit(self) -> Spec
        ensures { result ≡ settled (kept self.entries self.draft) }
    {
        let mut spec = self.spec;
        spec.keep_draft();
        spec
    }

    /// The specification from before the changes. It takes no memory.
    pub fn abandon(self) -> Spec
        ensures { result ≡ settled self.entries }
    {
        let mut spec = self.spec;
        spec.drop_draft();
        spec
    }
}

// Whether the two are the same rights.
fn same(left: Rights, right: Rights) -> bool
    ensures { result ≡ same_rights left right }
{
    left == right
}

// The first object, from a number on, whose rights in the draft are not those it has.
fn next_change_of(spec: &Spec, from: ObjectId) -> Option<(ObjectId, Rights)>
    ensures next { result ≡ next_changed spec.now.entries spec.now.draft from }
    ensures drafted { length spec.now.draft ≡ length spec.now.entries }
    ensures ascending { IsAscending spec.now.entries }
{
    for place in 0..spec.len() {
        let (object, rights) = spec.entry(place);
        let copied = spec.draft_at(place);
        if from.0 <= object.0 && !same(copied, rights) {
            return Some((object, copied));
        }
    }
    None
}

#[cfg(test)]
mod tests {
    use super::*;
    use jade_base::Right;
    use std::test::Fail;

    const LATER: Rights = Rights {
        reads: Right::Deferred,
        writes: Right::Deferred,
        commutes: Right::Absent,
    };

    const NOW: Rights = Rights {
        reads: Right::Immediate,
        writes: Right::Immediate,
        commutes: Right::Absent,
    };

    fn of_two(rt: &HostRuntime) -> Result<WorkingCopy, Fail> {
        let mut spec = Spec::empty(rt.alloc());
        spec.declare(rt.alloc(), ObjectId(3), LATER)?;
        spec.declare(rt.alloc(), ObjectId(5), LATER)?;
        Ok(WorkingCopy::begin(spec))
    }

    #[test]
    fn commits_changes(rt: HostRuntime) -> Result<(), Fail> {
        let mut copy = of_two(&rt)?;
        assert_eq!(rt; copy.next_change(ObjectId(0)), None);
        assert_eq!(rt; copy.change(ObjectId(5), Change::Both), Ok(()));
        assert_eq!(rt; copy.change(ObjectId(3), Change::Neither), Ok(()));
        assert_eq!(rt; copy.change(ObjectId(3), Change::Reads), Err(NoRight));
        assert_eq!(rt; copy.change(ObjectId(4), Change::Writes), Err(NoRight));
        assert_eq!(rt; copy.change(ObjectId(4), Change::NoWrites), Ok(()));
        assert_eq!(rt;
            copy.next_change(ObjectId(0)),
            Some((ObjectId(3), Rights::NONE))
        );
        assert_eq!(rt; copy.next_change(ObjectId(4)), Some((ObjectId(5), NOW)));
        assert_eq!(rt; copy.spec().rights(ObjectId(5)), LATER);
        assert!(rt; copy.spec().is_drafted());
        let spec = copy.commit();
        assert!(rt; !spec.is_drafted());
        assert_eq!(rt; spec.len(), 1);
        assert_eq!(rt; spec.rights(ObjectId(5)), NOW);
        Ok(())
    }

    #[test]
    fn abandons_changes(rt: HostRuntime) -> Result<(), Fail> {
        let mut copy = of_two(&rt)?;
        assert_eq!(rt; copy.change(ObjectId(5), Change::NoReads), Ok(()));
        let spec = copy.abandon();
        assert_eq!(rt; spec.rights(ObjectId(5)), LATER);
        Ok(())
    }
}
