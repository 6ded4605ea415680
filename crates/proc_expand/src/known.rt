//! What is known of procedures by their names.

ghost use Rattle.std.specs.Prelude.{◌≡◌, ◌+◌, ◌<◌, length, Some, None, if◌then◌else◌, IfOk, OnOk};
ghost use Rattle.proc_expand.specs.Words.{signs, closes_before};
ghost use Rattle.proc_expand.specs.Refusals.{meant};
ghost use Rattle.proc_expand.specs.steps.Looking.{procedure_of, IsScan, Knows};

use crate::procedures::{Procedure, procedure_at};
use crate::scan::{Scan, has_name};
use crate::sign::{End, bytes_at};
use jade_base::Memory;
use jade_lexer::Tokens;
use name_scope::NameScope;
use std::alloc::Global;

/// The procedures of a text by their names: of each name the first.
pub(crate) fn procedures_by_name<'t>(
    alloc: Global,
    tokens: &Tokens<'t>,
    scan: &Scan,
) -> Result<NameScope<'t, Procedure>, Memory>
    requires { IsScan tokens.now.lexemes scan.now }
    ensures { IfOk result (Knows tokens.now.lexemes (length tokens.now.lexemes)) }
{
    let mut known: NameScope<'t, Procedure> = NameScope::none(alloc);
    for place in 0..scan.signs.len() {
        add_procedure(&mut known, tokens, scan, place)?;
    }
    Ok(known)
}

/// With the procedure that begins at a place, if it does and is the first of its name.
#[tactic(auto, using(crate::proofs::KnownNames::passed, crate::proofs::KnownNames::known_before, crate::proofs::KnownNames::known_now, crate::proofs::KnownNames::same_place))]
fn add_procedure<'t>(
    known: &mut NameScope<'t, Procedure>,
    tokens: &Tokens<'t>,
    scan: &Scan,
    place: usize,
) -> Result<(), Memory>
    requires within { place < length scan.now.signs.items }
    requires scan { IsScan tokens.now.lexemes scan.now }
    requires known { Knows tokens.now.lexemes place known.old }
    ensures { OnOk result (Knows tokens.now.lexemes (place + 1) known.new) }
{
    if !has_name(tokens, scan, place) {
        return Ok(());
    }
    let name = bytes_at(tokens, place + 1);
    match known.get(name) {
        Some(_) => Ok(()),
        None => known.declare(name, procedure_at(&scan.signs, &scan.ends, place)),
    }
}

/// Whether brackets are closed before a place.
fn closes_before(end: End, place: usize) -> bool
    ensures { result ≡ closes_before end place }
{
    match end {
        End::Closed(last) => last < place,
        _ => false,
    }
}

/// A procedure, if its body is closed before a call.
fn if_before(procedure: Procedure, call: usize) -> Option<Procedure>
    ensures { result ≡ (if closes_before procedure.end call then Some procedure else None) }
{
    if closes_before(procedure.end, call) {
        Some(procedure)
    } else {
        None
    }
}

/// The procedure that a call means: the first of its name, if its body is closed before the call.
#[tactic(auto, using(crate::proofs::KnownNames::not_meant, crate::proofs::KnownNames::meant_so))]
pub(crate) fn meant(
    known: &NameScope<'_, Procedure>,
    tokens: &Tokens<'_>,
    call: usize,
) -> Option<Procedure>
    requires { Knows tokens.now.lexemes (length tokens.now.lexemes) known.now }
    ensures { result ≡ procedure_of (signs tokens.now.lexemes) (meant tokens.now.lexemes call) }
{
    match known.get(bytes_at(tokens, call)) {
        None => None,
        Some(procedure) => if_before(procedure, call),
    }
}
