//! Names that two procedures have, or two parameters of one procedure.

ghost use Rattle.std.specs.Prelude.{◌≡◌, ◌+◌, ◌*◌, ◌^◌, ◌<◌, ◌≤◌, ◌&&◌, length, suc, nat_lt, Some, None, if◌then◌else◌, IfOk};
ghost use Rattle.std.specs.Map.{lookup};
ghost use Rattle.std.specs.Option.{is_some};
ghost use Rattle.jade_syntax.specs.Numbering.{same_name};
ghost use Rattle.proc_expand.specs.Words.{signs, first};
ghost use Rattle.proc_expand.specs.Refusals.{begins, head, repeats_name, repeats_param, is_twice};
ghost use Rattle.proc_expand.specs.steps.Looking.{IsScan, Knows};

use crate::places::earliest;
use crate::procedures::{Head, Procedure, read_head};
use crate::scan::{Scan, begins_at, has_name};
use crate::sign::bytes_at;
use jade_base::Memory;
use jade_lexer::Tokens;
use name_scope::NameScope;
use std::alloc::Global;

/// The first place at which a name repeats that of a procedure before, or a parameter one before it
/// in its head.
pub(crate) fn first_twice(
    alloc: Global,
    tokens: &Tokens<'_>,
    scan: &Scan,
    known: &NameScope<'_, Procedure>,
) -> Result<Option<usize>, Memory>
    requires scan { IsScan tokens.now.lexemes scan.now }
    requires known { Knows tokens.now.lexemes (length tokens.now.lexemes) known.now }
    ensures { IfOk result (λ found. found ≡ first (suc (length tokens.now.lexemes)) (is_twice tokens.now.lexemes)) }
{
    let mut found = None;
    for place in 0..scan.signs.len() {
        let name = repeated_name(tokens, scan, known, place);
        let param = repeated_param(alloc, tokens, scan, place)?;
        found = earliest(found, earliest(name, param));
    }
    Ok(found)
}

/// The name of the procedure that begins at a place, if one does and repeats that of one before.
fn repeated_name(
    tokens: &Tokens<'_>,
    scan: &Scan,
    known: &NameScope<'_, Procedure>,
    place: usize,
) -> Option<usize>
    requires within { place < length scan.now.signs.items }
    requires scan { IsScan tokens.now.lexemes scan.now }
    requires known { Knows tokens.now.lexemes (length tokens.now.lexemes) known.now }
    ensures { result ≡ first (suc (length tokens.now.lexemes)) (λ k. begins (signs tokens.now.lexemes) place && repeats_name tokens.now.lexemes place k) }
{
    if !has_name(tokens, scan, place) {
        return None;
    }
    match known.get(bytes_at(tokens, place + 1)) {
        None => None,
        Some(procedure) => name_of_later(procedure, place),
    }
}

/// The name of the procedure at a place, if another comes before it.
fn name_of_later(other: Procedure, place: usize) -> Option<usize>
    requires { place + 1 < 2 ^ 64 }
    ensures { result ≡ (if nat_lt other.place place then Some (place + 1) else None) }
{
    if other.place < place {
        Some(place + 1)
    } else {
        None
    }
}

/// The first parameter of the procedure that begins at a place, if one does, that repeats another.
#[tactic(auto, using(crate::proofs::KnownNames::as_long))]
fn repeated_param(
    alloc: Global,
    tokens: &Tokens<'_>,
    scan: &Scan,
    place: usize,
) -> Result<Option<usize>, Memory>
    requires within { place < length scan.now.signs.items }
    requires scan { IsScan tokens.now.lexemes scan.now }
    ensures { IfOk result (λ found. found ≡ first (suc (length tokens.now.lexemes)) (λ k. begins (signs tokens.now.lexemes) place && repeats_param tokens.now.lexemes place (head (signs tokens.now.lexemes) place).params k)) }
{
    if !begins_at(tokens, scan, place) {
        return Ok(None);
    }
    first_repeated(alloc, tokens, place, read_head(&scan.signs, place))
}

/// The first parameter of a head that repeats one before it, of the procedure at a place.
#[tactic(auto, using(crate::proofs::Repeated::no_params, crate::proofs::Repeated::param_passed, crate::proofs::Repeated::param_repeats, crate::proofs::Repeated::seen_more))]
fn first_repeated(
    alloc: Global,
    tokens: &Tokens<'_>,
    place: usize,
    head: Head,
) -> Result<Option<usize>, Memory>
    requires long { place + 1 + 3 * head.params ≤ head.stop }
    requires within { head.stop ≤ length tokens.now.lexemes }
    ensures { IfOk result (λ found. found ≡ first (suc (length tokens.now.lexemes)) (repeats_param tokens.now.lexemes place head.params)) }
{
    let mut seen: NameScope<'_, usize> = NameScope::none(alloc);
    for index in 0..head.params {
        let param = place + 4 + 3 * index;
        if is_seen(&seen, bytes_at(tokens, param)) {
            return Ok(Some(param));
        }
        seen.declare(bytes_at(tokens, param), index)?;
    }
    Ok(None)
}

/// Whether a name is among some.
fn is_seen(seen: &NameScope<'_, usize>, name: &[u8]) -> bool
    ensures { result ≡ is_some (lookup (same_name name.now) seen.now) }
{
    match seen.get(name) {
        None => false,
        Some(_) => true,
    }
}
