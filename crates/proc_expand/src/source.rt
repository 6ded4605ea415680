//! What the tokens of an expanded text are written from.

ghost use Rattle.std.specs.Prelude.{◌≡◌, ◌≤◌, length, None, IfOk};
ghost use Rattle.proc_expand.specs.Refusals.{refusal};
ghost use Rattle.proc_expand.specs.steps.Looking.{IsScan, Knows};
ghost use Rattle.proc_expand.specs.steps.Sources.{IsSource};

use crate::marks::{Marks, marks_of};
use crate::naming::items;
use crate::outer::outer_places;
use crate::procedures::Procedure;
use crate::scan::Scan;
use crate::taken::{Taken, taken_of};
use jade_base::Memory;
use jade_lexer::Tokens;
use name_scope::NameScope;
use std::alloc::Global;

/// A text that is looked at: its procedures by their names, its names, its places outside of
/// procedures, and the numbers of names that calls replace.
#[derive(Drop)]
pub(crate) struct Source<'t> {
    pub(crate) scan: Scan,
    pub(crate) known: NameScope<'t, Procedure>,
    pub(crate) taken: Taken<'t>,
    pub(crate) outer: Vec<usize>,
    pub(crate) marks: Marks,
}

/// What a text that is not refused is written from.
pub(crate) fn source_of<'t>(
    alloc: Global,
    tokens: &Tokens<'t>,
    scan: Scan,
    known: NameScope<'t, Procedure>,
) -> Result<Source<'t>, Memory>
    requires accepted { refusal tokens.now.lexemes ≡ None }
    requires few { length tokens.now.lexemes ≤ 1048576 }
    requires scan { IsScan tokens.now.lexemes scan }
    requires known { Knows tokens.now.lexemes (length tokens.now.lexemes) known }
    ensures { IfOk result (IsSource tokens.now.lexemes tokens.now.end) }
{
    let outer = outer_places(alloc, tokens, &scan)?;
    let items = items(alloc, tokens, &scan.signs, &outer)?;
    let marks = marks_of(alloc, tokens, &scan, &items)?;
    let taken = taken_of(alloc, tokens, &scan.signs)?;
    Ok(Source {
        scan,
        known,
        taken,
        outer,
        marks,
    })
}
