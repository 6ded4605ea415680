//! The earliest of the faults that are found.

ghost use Rattle.std.specs.Prelude.{◌≡◌, [], ◌∷◌, None, Some};
ghost use Rattle.jade_syntax.specs.Abstract.{Name};
ghost use Rattle.jade_syntax.specs.Placed.{Term};
ghost use Rattle.jade_syntax.specs.StaticFaults.{Site, Names, Declares, Needs, keep, site_place, fault_kind, found, is_known, same_kind, suits, when};
ghost use Rattle.jade_types.specs.steps.Noted.{Noted, Sees};

use jade_base::Pos;
use jade_syntax::tree::ValueKind;
use jade_syntax::{StaticFault, StaticKind};

/// The earliest fault of the places that were gone through.
#[derive(Clone, Copy)]
pub(crate) struct Notes {
    pub(crate) first: Option<StaticFault>,
}

/// The kind of an expression, if it has one, and the place of its first token.
#[derive(Clone, Copy)]
pub(crate) struct Seen {
    pub(crate) kind: Option<ValueKind>,
    pub(crate) pos: Pos,
}

fn same_kind(first: ValueKind, second: ValueKind) -> bool
    ensures { result ≡ same_kind first second }
{
    match first {
        ValueKind::Int => match second {
            ValueKind::Int => true,
            ValueKind::Bool => false,
        },
        ValueKind::Bool => match second {
            ValueKind::Int => false,
            ValueKind::Bool => true,
        },
    }
}

/// Whether a value of a kind serves where one of another kind is needed; a value of no kind
/// serves anywhere.
fn suits(needed: ValueKind, kind: Option<ValueKind>) -> bool
    ensures { result ≡ suits needed kind }
{
    match kind {
        None => true,
        Some(kind) => same_kind(needed, kind),
    }
}

impl Notes {
    /// Nothing was gone through.
    pub(crate) fn none() -> Notes
        ensures { result.first ≡ None }
    {
        Notes { first: None }
    }

    /// Keeps the earlier of this fault and the one that is kept, if any.
    fn keep(&mut self, fault: StaticFault)
        ensures { self.new.first ≡ Some (keep self.old.first fault) }
    {
        let first = match self.first {
            None => fault,
            Some(kept) => { if fault.is_earlier(&kept) { fault } else { kept } }
        };
        self.first = Some(first);
    }

    /// Notes what is wrong at a place, if anything.
    pub(crate) fn note(&mut self, pos: Pos, wrong: Option<StaticKind>)
        ensures { (s : Site) → site_place s ≡ pos → fault_kind s ≡ wrong → Noted self.old self.new (s ∷ []) }
    {
        match wrong {
            None => {}
            Some(kind) => self.keep(StaticFault { pos, kind }),
        }
    }

    /// Notes a fault of a kind at a place where something holds.
    pub(crate) fn note_when(&mut self, pos: Pos, holds: bool, kind: StaticKind)
        ensures { (s : Site) → site_place s ≡ pos → fault_kind s ≡ when holds kind → Noted self.old self.new (s ∷ []) }
    {
        self.note(pos, if holds { Some(kind) } else { None });
    }

    /// Goes through the declaration of a name, which is already declared or is not.
    pub(crate) fn declares(&mut self, pos: Pos, declared: bool)
        ensures { (x : Name) (names : Names) → declared ≡ is_known (found x names) → Noted self.old self.new (Declares x pos names ∷ []) }
    {
        self.note_when(pos, declared, StaticKind::Twice);
    }

    /// Goes through the need that a value has a kind.
    pub(crate) fn needs(&mut self, kind: ValueKind, seen: Seen)
        ensures { (names : Names) (e : Term) → Sees seen names e → Noted self.old self.new (Needs kind e names ∷ []) }
    {
        self.note_when(seen.pos, !suits(kind, seen.kind), StaticKind::Kind);
    }
}
