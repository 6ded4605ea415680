//! The places of a text outside of procedures.

ghost use Rattle.std.specs.Prelude.{◌≡◌, ◌+◌, ◌++◌, ◌<◌, length, nat_lt, not, IfOk, OnOk};
ghost use Rattle.proc_expand.specs.Words.{those, one_if};
ghost use Rattle.proc_expand.specs.steps.Looking.{IsScan};
ghost use Rattle.proc_expand.specs.Written.{in_procedure};
ghost use Rattle.proc_expand.specs.steps.Outside.{Reaches};

use crate::calls::end_place;
use crate::procedures::procedure_at;
use crate::scan::{Scan, begins_at};
use jade_base::Memory;
use jade_lexer::Tokens;
use std::alloc::Global;

/// The first place that the procedures before another do not reach, with the procedure that begins
/// there.
fn reach_after(tokens: &Tokens<'_>, scan: &Scan, place: usize, reach: usize) -> usize
    requires within { place < length scan.now.signs.items }
    requires scan { IsScan tokens.now.lexemes scan.now }
    requires reach { Reaches tokens.now.lexemes place reach }
    ensures { Reaches tokens.now.lexemes (place + 1) result }
{
    if !begins_at(tokens, scan, place) {
        return reach;
    }
    let end = end_place(
        &scan.signs,
        procedure_at(&scan.signs, &scan.ends, place).end,
    );
    if reach <= end { end + 1 } else { reach }
}

/// The places of a text outside of procedures.
pub(crate) fn outer_places(
    alloc: Global,
    tokens: &Tokens<'_>,
    scan: &Scan,
) -> Result<Vec<usize>, Memory>
    requires { IsScan tokens.now.lexemes scan.now }
    ensures { IfOk result (λ found. found.items ≡ those (length tokens.now.lexemes) (λ k. not (in_procedure tokens.now.lexemes tokens.now.end k))) }
{
    let mut found: Vec<usize> = Vec::new(alloc);
    let mut reach = 0;
    for place in 0..scan.signs.len() {
        reach = reach_after(tokens, scan, place, reach);
        add_place(&mut found, place, reach)?;
    }
    Ok(found)
}

/// Adds a place that is not reached.
fn add_place(found: &mut Vec<usize>, place: usize, reach: usize) -> Result<(), Memory>
    ensures { OnOk result (found.new.items ≡ found.old.items ++ one_if (not (nat_lt place reach)) place) }
{
    if place < reach {
        return Ok(());
    }
    found.push(place)?;
    Ok(())
}
