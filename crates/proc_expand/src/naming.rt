//! The names that calls replace.

ghost use Rattle.std.specs.Prelude.{◌≡◌, ◌∷◌, ◌++◌, ◌+◌, ◌-◌, ◌*◌, ◌<◌, ◌≤◌, ◌&&◌, [], length, map, true, slice_index_or, IfOk, OnOk, None};
ghost use Rattle.std.specs.Prelude.{ℕ, suc, not};
ghost use Rattle.proc_expand.specs.Names.{is_among};
ghost use Rattle.proc_expand.specs.Words.{at, bytes_at, is_called, is_item_word, those, one_if, signs as signs_of};
ghost use Rattle.proc_expand.specs.Refusals.{param_place, is_call};
ghost use Rattle.proc_expand.specs.Written.{items, is_variable, names_at, from, in_procedure};
ghost use Rattle.proc_expand.specs.steps.Replaced.{names_of, with_name, with_names, AreNumbered, IsNumber, IsMark};

use crate::calls::is_call;
use crate::sign::{Sign, bytes_at, is_called, sign_at};
use jade_base::Memory;
use jade_lexer::Tokens;
use name_scope::NameScope;
use std::alloc::Global;

/// Whether it is `input`, `object` or `objects`.
fn is_item_word(sign: Sign) -> bool
    ensures { result ≡ is_item_word sign }
{
    match sign {
        Sign::ItemWord => true,
        _ => false,
    }
}

/// Whether the name of an item follows a place.
fn before_item(signs: &[Sign], place: usize) -> bool
    requires { place < length signs.now }
    ensures { result ≡ (is_item_word (at signs.now place) && is_called (at signs.now (place + 1))) }
{
    is_item_word(signs[place]) && is_called(sign_at(signs, place + 1))
}

/// Adds the name that stands directly after a place, if that is an item's.
#[tactic(auto, using(crate::proofs::NameLists::no_item, crate::proofs::NameLists::item_added))]
fn add_item<'t>(
    found: &mut NameScope<'t, usize>,
    tokens: &Tokens<'t>,
    signs: &[Sign],
    place: usize,
) -> Result<(), Memory>
    requires { place < length signs.now }
    ensures { OnOk result (names_of found.new ≡ names_of found.old ++ map (λ k. bytes_at tokens.now.lexemes (suc k)) (one_if (is_item_word (at signs.now place) && is_called (at signs.now (suc place))) place)) }
{
    if !before_item(signs, place) {
        return Ok(());
    }
    found.declare(bytes_at(tokens, place + 1), place)?;
    Ok(())
}

/// The names of items: those that stand directly after `input`, `object` or `objects` at one of the
/// places outside of procedures.
pub(crate) fn items<'t>(
    alloc: Global,
    tokens: &Tokens<'t>,
    signs: &[Sign],
    outer: &[usize],
) -> Result<NameScope<'t, usize>, Memory>
    requires signs { signs.now ≡ signs_of tokens.now.lexemes }
    requires outer { outer.now ≡ those (length tokens.now.lexemes) (λ k. not (in_procedure tokens.now.lexemes tokens.now.end k)) }
    ensures { IfOk result (λ found. names_of found ≡ items tokens.now.lexemes tokens.now.end) }
{
    let mut found: NameScope<'t, usize> = NameScope::none(alloc);
    for i in 0..outer.len() {
        add_item(&mut found, tokens, signs, outer[i])?;
    }
    Ok(found)
}

/// Whether a name is that of an item.
pub(crate) fn is_item(items: &NameScope<'_, usize>, name: &[u8]) -> bool
    ensures { result ≡ is_among (names_of items.now) name.now }
{
    match items.get(name) {
        Some(_) => true,
        None => false,
    }
}

/// The number of a name among those that are replaced, which it joins if it is new; that of an item
/// is none.
fn number_of<'t>(
    items: &NameScope<'t, usize>,
    seen: &mut NameScope<'t, usize>,
    name: &'t [u8],
) -> Result<Option<usize>, Memory>
    requires { AreNumbered seen.old }
    ensures names { OnOk result (names_of seen.new ≡ with_name (names_of items.now) (names_of seen.old) name.now) }
    ensures numbered { OnOk result (AreNumbered seen.new) }
    ensures number { IfOk result (IsNumber (names_of items.now) (names_of seen.new) name.now) }
{
    if is_item(items, name) {
        return Ok(None);
    }
    match seen.get(name) {
        Some(number) => Ok(Some(number)),
        None => {
            let number = seen.len();
            seen.declare(name, number)?;
            Ok(Some(number))
        }
    }
}

/// Numbers the names of the parameters of the procedure at a place.
pub(crate) fn number_params<'t>(
    tokens: &Tokens<'t>,
    items: &NameScope<'t, usize>,
    seen: &mut NameScope<'t, usize>,
    marks: &mut [Option<usize>],
    place: usize,
    params: usize,
) -> Result<(), Memory>
    requires numbered { AreNumbered seen.old }
    requires within { param_place place params ≤ length marks.old + 2 }
    ensures names { OnOk result (names_of seen.new ≡ with_names (names_of items.now) (names_of seen.old) (map (bytes_at tokens.now.lexemes) (map (param_place place) (from tokens.now.lexemes tokens.now.end 0 params)))) }
    ensures numbered { OnOk result (AreNumbered seen.new) }
    ensures marked { OnOk result ((i : ℕ) → i < params → IsNumber (names_of items.now) (names_of seen.new) (bytes_at tokens.now.lexemes (param_place place i)) (slice_index_or marks.new (param_place place i) None)) }
    ensures before { OnOk result ((k : ℕ) → k < place → slice_index_or marks.new k None ≡ slice_index_or marks.old k None) }
    ensures as_many { length marks.new ≡ length marks.old }
{
    for i in 0..params {
        let param = place + 4 + 3 * i;
        marks[param] = number_of(items, seen, bytes_at(tokens, param))?;
    }
    Ok(())
}

/// Whether a name stands at a place that is no call's.
pub(crate) fn is_variable(signs: &[Sign], place: usize) -> bool
    requires { place < length signs.now }
    ensures { result ≡ (is_called (at signs.now place) && not (is_call signs.now place)) }
{
    is_called(sign_at(signs, place)) && !is_call(signs, place)
}

/// The mark of a place of a body.
fn mark_of<'t>(
    tokens: &Tokens<'t>,
    signs: &[Sign],
    items: &NameScope<'t, usize>,
    seen: &mut NameScope<'t, usize>,
    place: usize,
) -> Result<Option<usize>, Memory>
    requires signs { signs.now ≡ signs_of tokens.now.lexemes }
    requires within { place < length signs.now }
    requires numbered { AreNumbered seen.old }
    ensures names { OnOk result (names_of seen.new ≡ with_names (names_of items.now) (names_of seen.old) (names_at tokens.now.lexemes tokens.now.end (place ∷ []))) }
    ensures numbered { OnOk result (AreNumbered seen.new) }
    ensures mark { IfOk result (IsMark tokens.now.lexemes tokens.now.end (names_of items.now) (names_of seen.new) place) }
{
    if is_variable(signs, place) {
        number_of(items, seen, bytes_at(tokens, place))
    } else {
        Ok(None)
    }
}

/// Numbers the names from a place on, before another.
pub(crate) fn number_body<'t>(
    tokens: &Tokens<'t>,
    signs: &[Sign],
    items: &NameScope<'t, usize>,
    seen: &mut NameScope<'t, usize>,
    marks: &mut [Option<usize>],
    start: usize,
    stop: usize,
) -> Result<(), Memory>
    requires signs { signs.now ≡ signs_of tokens.now.lexemes }
    requires numbered { AreNumbered seen.old }
    requires ordered { start ≤ stop }
    requires within { stop ≤ length signs.now }
    requires as_many { length marks.old ≡ length signs.now }
    ensures names { OnOk result (names_of seen.new ≡ with_names (names_of items.now) (names_of seen.old) (names_at tokens.now.lexemes tokens.now.end (from tokens.now.lexemes tokens.now.end start (stop - start)))) }
    ensures numbered { OnOk result (AreNumbered seen.new) }
    ensures marked { OnOk result ((k : ℕ) → start ≤ k → k < stop → IsMark tokens.now.lexemes tokens.now.end (names_of items.now) (names_of seen.new) k (slice_index_or marks.new k None)) }
    ensures before { OnOk result ((k : ℕ) → k < start → slice_index_or marks.new k None ≡ slice_index_or marks.old k None) }
    ensures as_many { length marks.new ≡ length marks.old }
{
    for place in start..stop {
        marks[place] = mark_of(tokens, signs, items, seen, place)?;
    }
    Ok(())
}
