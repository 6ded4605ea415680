//! What the words of a section make.

ghost use Rattle.std.specs.Prelude.{◌≡◌, [], MatchResult, IfOk, Ok, Err};
ghost use Rattle.jade_meaning.specs.Changes.{after_change};
ghost use Rattle.jade_meaning.specs.Course.{NoDraft, Building, Amending, drafted, working};
ghost use Rattle.jade_meaning.specs.steps.Direct.{drafted_with};

use crate::dense_spec::DenseSpec;
use crate::section_words::{change_of, declared};
use access_spec::Change;
use jade_base::{Blame, FaultKind, Memory, Pos, Rights};
use jade_syntax::tree::DeclareWord;
use std::alloc::Global;
use std::marker::Model;

// Whether there is a section, and whose.
#[derive(Clone, Copy)]
enum DraftKind {
    Absent,
    Building,
    Amending,
}

/// The specification that the section of a `withonly` or a `with` has made so far.
#[derive(Drop)]
pub(crate) struct Draft {
    kind: DraftKind,
    spec: DenseSpec,
}

impl Model for Draft {
    ghost use Rattle.jade_meaning.specs.Course.{Draft as DraftOf};

    ghost Value = { DraftOf };

    ghost use Rattle.jade_meaning.specs.steps.Drafts.{draft_of};

    ghost view = { λ d. draft_of d.kind d.spec };
}

impl Draft {
    /// No section.
    pub(crate) fn absent(alloc: Global) -> Draft
        ensures { result ≡ NoDraft }
    {
        Draft {
            kind: DraftKind::Absent,
            spec: DenseSpec::empty(alloc),
        }
    }

    /// The section of a `withonly`.
    pub(crate) fn building(spec: DenseSpec) -> Draft
        ensures { result ≡ Building spec }
    {
        Draft {
            kind: DraftKind::Building,
            spec,
        }
    }

    /// The section of a `with`.
    pub(crate) fn amending(spec: DenseSpec) -> Draft
        ensures { result ≡ Amending spec }
    {
        Draft {
            kind: DraftKind::Amending,
            spec,
        }
    }

    /// The same once more.
    pub(crate) fn copy(&self, alloc: Global) -> Result<Draft, Memory>
        ensures { IfOk result (λ copy. copy ≡ self.now) }
    {
        let spec = self.spec.copy(alloc)?;
        Ok(Draft {
            kind: self.kind,
            spec,
        })
    }

    /// The child's specification at the end of a section.
    pub(crate) fn into_drafted(self, alloc: Global) -> DenseSpec
        ensures { result ≡ drafted self }
    {
        match self.kind {
            DraftKind::Absent => DenseSpec::empty(alloc),
            DraftKind::Building | DraftKind::Amending => self.spec,
        }
    }

    /// The task's own specification as the section of a `with` leaves it.
    pub(crate) fn into_working(self, before: DenseSpec) -> DenseSpec
        ensures { result ≡ working self before }
    {
        match self.kind {
            DraftKind::Amending => self.spec,
            DraftKind::Absent | DraftKind::Building => before,
        }
    }

    /// A word of a section on an object; the error is the fault `change`, and changes nothing.
    pub(crate) fn declare(&mut self, word: DeclareWord, object: usize, at: Pos) -> Result<(), Blame>
        ensures { MatchResult result (λ _. drafted_with self.old word object at ≡ Ok self.new)
            (λ blame. (drafted_with self.old word object at ≡ Err blame) × (self.new ≡ self.old)) }
    {
        match self.kind {
            DraftKind::Absent => Ok(()),
            DraftKind::Building => {
                let rights = self.spec.on(object).join(declared(word));
                self.spec.set(object, rights);
                Ok(())
            }
            DraftKind::Amending => match after_change(change_of(word), self.spec.on(object)) {
                Some(rights) => {
                    self.spec.set(object, rights);
                    Ok(())
                }
                None => Err(Blame {
                    kind: FaultKind::Change,
                    pos: Some(at),
                }),
            },
        }
    }
}

// The rights after a change, if one is asked for; none where it asks for a right that is not
// there.
fn after_change(change: Option<Change>, rights: Rights) -> Option<Rights>
    ensures { result ≡ after_change change rights }
{
    match change {
        None => Some(rights),
        Some(change) => match change.amend(rights) {
            Ok(after) => Some(after),
            Err(_) => None,
        },
    }
}
