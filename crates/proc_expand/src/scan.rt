//! A first look at a text.

ghost use Rattle.std.specs.Prelude.{◌≡◌, ◌+◌, ◌<◌, ◌&&◌, length, IfOk};
ghost use Rattle.proc_expand.specs.Words.{signs, at, is_called};
ghost use Rattle.proc_expand.specs.Refusals.{begins};
ghost use Rattle.proc_expand.specs.steps.Looking.{IsScan};

use crate::brackets::ends;
use crate::procedures::beginnings;
use crate::sign::{End, Sign, is_called, sign_at, signs};
use jade_base::Memory;
use jade_lexer::Tokens;
use std::alloc::Global;

/// What a first look at a text sees: what its tokens are, where each bracket is closed, at the place
/// where it opens, and at which places procedures begin.
#[derive(Debug, Drop)]
pub(crate) struct Scan {
    pub(crate) signs: Vec<Sign>,
    pub(crate) ends: Vec<End>,
    pub(crate) begins: Vec<bool>,
}

/// Looks at a text.
pub(crate) fn scan_of(alloc: Global, tokens: &Tokens<'_>) -> Result<Scan, Memory>
    ensures { IfOk result (IsScan tokens.now.lexemes) }
{
    let signs = signs(alloc, tokens)?;
    let ends = ends(alloc, &signs)?;
    let begins = beginnings(alloc, &signs)?;
    Ok(Scan {
        signs,
        ends,
        begins,
    })
}

/// Whether a procedure begins at a place.
pub(crate) fn begins_at(tokens: &Tokens<'_>, scan: &Scan, place: usize) -> bool
    requires within { place < length scan.now.signs.items }
    requires scan { IsScan tokens.now.lexemes scan.now }
    ensures { result ≡ begins (signs tokens.now.lexemes) place }
{
    scan.begins[place]
}

/// Whether a procedure begins at a place, and has a name.
pub(crate) fn has_name(tokens: &Tokens<'_>, scan: &Scan, place: usize) -> bool
    requires within { place < length scan.now.signs.items }
    requires scan { IsScan tokens.now.lexemes scan.now }
    ensures { result ≡ (begins (signs tokens.now.lexemes) place && is_called (at (signs tokens.now.lexemes) (place + 1))) }
{
    begins_at(tokens, scan, place) && is_called(sign_at(&scan.signs, place + 1))
}
