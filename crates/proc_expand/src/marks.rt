//! The numbers of the names that calls replace, for the procedures of a text.

ghost use Rattle.std.specs.Prelude.{◌≡◌, ◌+◌, ◌<◌, ℕ, length, true, None, slice_index_or, IfOk, OnOk};
ghost use Rattle.proc_expand.specs.Words.{signs as signs_of};
ghost use Rattle.proc_expand.specs.Refusals.{begins, body_end, procedure as procedure_of_place, refusal};
ghost use Rattle.proc_expand.specs.steps.Looking.{IsScan};
ghost use Rattle.proc_expand.specs.Written.{items as item_names, closed_at, replaced_at};
ghost use Rattle.proc_expand.specs.steps.Replaced.{names_of};
ghost use Rattle.proc_expand.specs.steps.Marks.{AreMarked, AreMarks, IsMarked};

use crate::calls::end_place;
use crate::naming::{number_body, number_params};
use crate::procedures::{Procedure, procedure_at};
use crate::scan::{Scan, begins_at};
use crate::sign::Sign;
use jade_base::Memory;
use jade_lexer::Tokens;
use name_scope::NameScope;
use std::alloc::Global;

/// At the places of names that are replaced, in heads and bodies, which of the replaced names of the
/// procedure they are; and for the place of each procedure how many names a call replaces.
#[derive(Debug, Drop)]
pub(crate) struct Marks {
    pub(crate) numbers: Vec<Option<usize>>,
    pub(crate) counts: Vec<usize>,
}

/// Numbers the names of a procedure, whose body is closed at a place, and says how many a call
/// replaces.
fn number_names<'t>(
    alloc: Global,
    tokens: &Tokens<'t>,
    signs: &[Sign],
    items: &NameScope<'t, usize>,
    numbers: &mut [Option<usize>],
    procedure: Procedure,
    stop: usize,
) -> Result<usize, Memory>
    requires signs { signs.now ≡ signs_of tokens.now.lexemes }
    requires accepted { refusal tokens.now.lexemes ≡ None }
    requires items { names_of items.now ≡ item_names tokens.now.lexemes tokens.now.end }
    requires within { procedure.place < length tokens.now.lexemes }
    requires begins { begins (signs_of tokens.now.lexemes) procedure.place ≡ true }
    requires procedure { procedure ≡ procedure_of_place (signs_of tokens.now.lexemes) procedure.place }
    requires stop { stop ≡ closed_at tokens.now.lexemes tokens.now.end (body_end (signs_of tokens.now.lexemes) procedure.place) }
    requires as_many { length numbers.old ≡ length tokens.now.lexemes }
    ensures count { IfOk result (λ count. count ≡ length (replaced_at tokens.now.lexemes tokens.now.end (procedure_of_place (signs_of tokens.now.lexemes) procedure.place))) }
    ensures marked { OnOk result (AreMarked tokens.now.lexemes tokens.now.end procedure.place numbers.new) }
    ensures before { OnOk result ((k : ℕ) → k < procedure.place → slice_index_or numbers.new k None ≡ slice_index_or numbers.old k None) }
    ensures as_many { length numbers.new ≡ length numbers.old }
{
    let mut seen: NameScope<'t, usize> = NameScope::none(alloc);
    number_params(
        tokens,
        items,
        &mut seen,
        numbers,
        procedure.place,
        procedure.head.params,
    )?;
    number_body(
        tokens,
        signs,
        items,
        &mut seen,
        numbers,
        procedure.head.stop + 1,
        stop,
    )?;
    Ok(seen.len())
}

/// Numbers the names of the procedure that begins at a place, if one does.
fn number_if<'t>(
    alloc: Global,
    tokens: &Tokens<'t>,
    scan: &Scan,
    items: &NameScope<'t, usize>,
    marks: &mut Marks,
    place: usize,
) -> Result<(), Memory>
    requires scan { IsScan tokens.now.lexemes scan.now }
    requires accepted { refusal tokens.now.lexemes ≡ None }
    requires items { names_of items.now ≡ item_names tokens.now.lexemes tokens.now.end }
    requires within { place < length tokens.now.lexemes }
    requires marks { AreMarks tokens.now.lexemes tokens.now.end place marks.old.numbers.items marks.old.counts.items }
    ensures { OnOk result (AreMarks tokens.now.lexemes tokens.now.end (place + 1) marks.new.numbers.items marks.new.counts.items) }
{
    if !begins_at(tokens, scan, place) {
        marks.counts.push(0)?;
        return Ok(());
    }
    let procedure = procedure_at(&scan.signs, &scan.ends, place);
    let stop = end_place(&scan.signs, procedure.end);
    let count = number_names(
        alloc,
        tokens,
        &scan.signs,
        items,
        &mut marks.numbers,
        procedure,
        stop,
    )?;
    marks.counts.push(count)?;
    Ok(())
}

/// Numbers the names of all procedures.
pub(crate) fn marks_of<'t>(
    alloc: Global,
    tokens: &Tokens<'t>,
    scan: &Scan,
    items: &NameScope<'t, usize>,
) -> Result<Marks, Memory>
    requires scan { IsScan tokens.now.lexemes scan.now }
    requires accepted { refusal tokens.now.lexemes ≡ None }
    requires items { names_of items.now ≡ item_names tokens.now.lexemes tokens.now.end }
    ensures { IfOk result (IsMarked tokens.now.lexemes tokens.now.end) }
{
    let mut marks = Marks {
        numbers: vec![in alloc; None; tokens.len()]?,
        counts: Vec::new(alloc),
    };
    for place in 0..tokens.len() {
        number_if(alloc, tokens, scan, items, &mut marks, place)?;
    }
    Ok(marks)
}
