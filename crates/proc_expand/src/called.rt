//! Calls of what is no procedure before them, and with other numbers of arguments.

ghost use Rattle.std.specs.Prelude.{◌≡◌, ◌<◌, length, suc};
ghost use Rattle.proc_expand.specs.Words.{first};
ghost use Rattle.proc_expand.specs.Refusals.{is_unknown, is_count};
ghost use Rattle.proc_expand.specs.steps.Looking.{is_other, IsScan, Knows};

use crate::calls::{call_end, count, is_call};
use crate::known::meant;
use crate::procedures::Procedure;
use crate::scan::Scan;
use crate::sign::End;
use jade_lexer::Tokens;
use name_scope::NameScope;

/// The first called name that is no procedure before.
pub(crate) fn first_unknown(
    tokens: &Tokens<'_>,
    scan: &Scan,
    known: &NameScope<'_, Procedure>,
) -> Option<usize>
    requires scan { IsScan tokens.now.lexemes scan.now }
    requires known { Knows tokens.now.lexemes (length tokens.now.lexemes) known.now }
    ensures { result ≡ first (suc (length tokens.now.lexemes)) (is_unknown tokens.now.lexemes) }
{
    for place in 0..scan.signs.len() {
        if is_unknown(tokens, scan, known, place) {
            return Some(place);
        }
    }
    None
}

/// Whether a name is called that is no procedure before.
#[tactic(auto, using(crate::proofs::KnownNames::unknown_so, crate::proofs::KnownNames::known_so))]
fn is_unknown(
    tokens: &Tokens<'_>,
    scan: &Scan,
    known: &NameScope<'_, Procedure>,
    place: usize,
) -> bool
    requires within { place < length scan.now.signs.items }
    requires scan { IsScan tokens.now.lexemes scan.now }
    requires known { Knows tokens.now.lexemes (length tokens.now.lexemes) known.now }
    ensures { result ≡ is_unknown tokens.now.lexemes place }
{
    if !is_call(&scan.signs, place) {
        return false;
    }
    match meant(known, tokens, place) {
        None => true,
        Some(_) => false,
    }
}

/// The first call that has another number of arguments than its procedure has parameters.
pub(crate) fn first_count(
    tokens: &Tokens<'_>,
    scan: &Scan,
    known: &NameScope<'_, Procedure>,
) -> Option<usize>
    requires scan { IsScan tokens.now.lexemes scan.now }
    requires known { Knows tokens.now.lexemes (length tokens.now.lexemes) known.now }
    ensures { result ≡ first (suc (length tokens.now.lexemes)) (is_count tokens.now.lexemes) }
{
    for place in 0..scan.signs.len() {
        if is_count(tokens, scan, known, place) {
            return Some(place);
        }
    }
    None
}

/// Whether a call has another number of arguments than its procedure has parameters.
#[tactic(auto, using(crate::proofs::KnownNames::other_so))]
fn is_count(
    tokens: &Tokens<'_>,
    scan: &Scan,
    known: &NameScope<'_, Procedure>,
    place: usize,
) -> bool
    requires within { place < length scan.now.signs.items }
    requires scan { IsScan tokens.now.lexemes scan.now }
    requires known { Knows tokens.now.lexemes (length tokens.now.lexemes) known.now }
    ensures { result ≡ is_count tokens.now.lexemes place }
{
    if !is_call(&scan.signs, place) {
        return false;
    }
    match call_end(&scan.signs, &scan.ends, place) {
        End::Closed(last) => counts_other(
            count(&scan.signs, &scan.ends, place, last),
            meant(known, tokens, place),
        ),
        _ => false,
    }
}

/// Whether so many arguments are another number than the parameters of a procedure, if it is there.
fn counts_other(count: usize, meant: Option<Procedure>) -> bool
    ensures { result ≡ is_other count meant }
{
    match meant {
        None => false,
        Some(procedure) => count != procedure.head.params,
    }
}
