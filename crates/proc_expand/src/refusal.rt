//! Where the procedures and calls of a text are refused.

ghost use Rattle.std.specs.Prelude.{◌≡◌, length, suc, IfOk};
ghost use Rattle.proc_expand.specs.Words.{signs, first};
ghost use Rattle.proc_expand.specs.Refusals.{is_shape, refusal};
ghost use Rattle.proc_expand.specs.steps.Looking.{refused, earlier, IsScan, Knows};

use crate::called::{first_count, first_unknown};
use crate::calls::{first_misplaced, first_within};
use crate::places::earliest;
use crate::procedures::Procedure;
use crate::scan::Scan;
use crate::twice::first_twice;
use crate::{calls, procedures};
use jade_base::Memory;
use jade_lexer::Tokens;
use name_scope::NameScope;
use std::alloc::Global;

/// Why a text is not expanded.
#[derive(Clone, Copy, Debug, PartialEq, Eq)]
pub enum Reason {
    /// The form of a procedure or of a call.
    Shape,
    /// A call of what is no procedure before it.
    Unknown,
    /// A call with another number of arguments than its procedure has parameters.
    Count,
    /// A name that two procedures have, or two parameters of one procedure.
    Twice,
}

/// A reason, and the place at which it stands.
#[derive(Clone, Copy, Debug, PartialEq, Eq)]
pub struct Refusal {
    pub why: Reason,
    pub place: usize,
}

/// The first refusal of the procedures and calls of a text, if there is one: the first place with a
/// reason, and there the first reason.
#[tactic(auto, using(crate::proofs::Joined::joined))]
pub(crate) fn first_refusal(
    alloc: Global,
    tokens: &Tokens<'_>,
    scan: &Scan,
    known: &NameScope<'_, Procedure>,
) -> Result<Option<Refusal>, Memory>
    requires scan { IsScan tokens.now.lexemes scan.now }
    requires known { Knows tokens.now.lexemes (length tokens.now.lexemes) known.now }
    ensures { IfOk result (λ found. found ≡ refusal tokens.now.lexemes) }
{
    let twice = refused(Reason::Twice, first_twice(alloc, tokens, scan, known)?);
    let count = refused(Reason::Count, first_count(tokens, scan, known));
    let unknown = refused(Reason::Unknown, first_unknown(tokens, scan, known));
    let shape = refused(Reason::Shape, first_shape(tokens, scan));
    Ok(earlier(shape, earlier(unknown, earlier(count, twice))))
}

/// The first place at which the form of a procedure or of a call is broken.
fn first_shape(tokens: &Tokens<'_>, scan: &Scan) -> Option<usize>
    requires { IsScan tokens.now.lexemes scan.now }
    ensures { result ≡ first (suc (length tokens.now.lexemes)) (is_shape (signs tokens.now.lexemes)) }
{
    let procedures = procedures::first_failure(&scan.signs, &scan.ends, &scan.begins);
    let misplaced = first_misplaced(&scan.signs);
    let within = first_within(&scan.signs, &scan.ends);
    let calls = calls::first_failure(&scan.signs, &scan.ends);
    earliest(procedures, earliest(misplaced, earliest(within, calls)))
}

/// A place that may be there, as a refusal.
fn refused(why: Reason, place: Option<usize>) -> Option<Refusal>
    ensures { result ≡ refused why place }
{
    match place {
        None => None,
        Some(place) => Some(Refusal { why, place }),
    }
}

/// The first of two refusals that may be there; at one place it is the first of them.
fn earlier(first: Option<Refusal>, second: Option<Refusal>) -> Option<Refusal>
    ensures { result ≡ earlier first second }
{
    match first {
        None => second,
        Some(refusal) => match second {
            None => Some(refusal),
            Some(other) => {
                if other.place < refusal.place {
                    Some(other)
                } else {
                    Some(refusal)
                }
            }
        },
    }
}
