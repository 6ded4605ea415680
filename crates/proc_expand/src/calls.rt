//! The calls of a text.

ghost use Rattle.std.specs.Prelude.{◌≡◌, ◌+◌, ◌<◌, ◌≤◌, ◌&&◌, ◌||◌, suc, length, not, true, nat_eq, nat_lt, Some, if◌then◌else◌};
ghost use Rattle.proc_expand.specs.Words.{at, before, is_comma, is_semicolon, is_else, first, some};
ghost use Rattle.proc_expand.specs.Words.{end_place};
ghost use Rattle.proc_expand.specs.steps.Brackets.{AreEndsFrom, EndsWithin};
ghost use Rattle.proc_expand.specs.steps.Looking.{earliest};
ghost use Rattle.proc_expand.specs.Refusals.{is_call, call_end, commas, count, misplaced, within, ends_empty};
ghost use Rattle.proc_expand.specs.Refusals.{ending_fails, call_fails};
ghost use Rattle.proc_expand.specs.declared.sign.End.TheVariants.{Closed};

use crate::brackets::next_place;
use crate::places::{earliest, earliest_if};
use crate::sign::{
    End, Sign, ends_statement, is_called, is_comma, is_else, is_proc, is_semicolon, opens_round,
    sign_at, sign_before,
};

/// Whether a name is directly followed by `(` and does not stand directly after `proc`.
pub(crate) fn is_call(signs: &[Sign], place: usize) -> bool
    requires { place < length signs.now }
    ensures { result ≡ is_call signs.now place }
{
    is_called(sign_at(signs, place))
        && opens_round(sign_at(signs, place + 1))
        && !is_proc(sign_before(signs, place))
}

/// The first name of a call that does not follow `;`, `{` or `}`.
pub(crate) fn first_misplaced(signs: &[Sign]) -> Option<usize>
    ensures { result ≡ first (suc (length signs.now)) (misplaced signs.now) }
{
    for place in 0..signs.len() {
        if is_misplaced(signs, place) {
            return Some(place);
        }
    }
    None
}

/// Whether a call stands at a place and does not follow `;`, `{` or `}`.
fn is_misplaced(signs: &[Sign], place: usize) -> bool
    requires { place < length signs.now }
    ensures { result ≡ misplaced signs.now place }
{
    is_call(signs, place) && !ends_statement(sign_before(signs, place))
}

/// Where a bracket ends, well or not.
pub(crate) fn end_place(signs: &[Sign], end: End) -> usize
    ensures { result ≡ end_place (length signs.now) end }
{
    match end {
        End::Closed(place) => place,
        End::Wrong(place) => place,
        End::Never => signs.len(),
    }
}

/// Where the brackets of a call end.
pub(crate) fn call_end(signs: &[Sign], ends: &[End], call: usize) -> End
    requires call { is_call signs.now call ≡ true }
    requires ends { AreEndsFrom signs.now ends.now 0 }
    ensures value { result ≡ call_end signs.now call }
    ensures within { EndsWithin (length signs.now) result }
{
    ends[call + 1]
}

/// Where the brackets of a call at a place end, or of one before it, whichever is later.
fn reach_after(signs: &[Sign], ends: &[End], place: usize, reach: usize) -> usize
    requires within { place < length signs.now }
    requires ends { AreEndsFrom signs.now ends.now 0 }
    ensures { result ≡ (if is_call signs.now place then (if nat_lt reach (end_place (length signs.now) (call_end signs.now place)) then end_place (length signs.now) (call_end signs.now place) else reach) else reach) }
{
    if !is_call(signs, place) {
        return reach;
    }
    let end = end_place(signs, call_end(signs, ends, place));
    if reach < end { end } else { reach }
}

/// Whether a `;` stands at a place within the brackets of a call, which reach so far.
fn is_reached(signs: &[Sign], place: usize, reach: usize) -> bool
    ensures { result ≡ (is_semicolon (at signs.now place) && nat_lt place reach) }
{
    is_semicolon(sign_at(signs, place)) && place < reach
}

/// The first `;` within the brackets of a call.
pub(crate) fn first_within(signs: &[Sign], ends: &[End]) -> Option<usize>
    requires { AreEndsFrom signs.now ends.now 0 }
    ensures { result ≡ first (suc (length signs.now)) (within signs.now) }
{
    let mut reach = 0;
    for place in 0..signs.len() {
        if is_reached(signs, place, reach) {
            return Some(place);
        }
        reach = reach_after(signs, ends, place, reach);
    }
    None
}

/// What stands between the brackets of a call: how many commas, and the first of them that ends an
/// empty argument.
#[derive(Clone, Copy, Debug, PartialEq, Eq)]
pub(crate) struct Inside {
    pub(crate) commas: usize,
    pub(crate) empty: Option<usize>,
}

/// Reads what stands between the brackets of a call.
pub(crate) fn read_inside(signs: &[Sign], ends: &[End], call: usize) -> Inside
    requires call { is_call signs.now call ≡ true }
    requires ends { AreEndsFrom signs.now ends.now 0 }
    ensures commas { result.commas ≡ length (commas signs.now call) }
    ensures empty { result.empty ≡ first (suc (length signs.now)) (ends_empty signs.now call) }
    ensures few { result.commas ≤ length signs.now }
{
    let mut found = Inside {
        commas: 0,
        empty: None,
    };
    let mut place = call + 2;
    'inside: while place < signs.len() {
        found = with_comma(signs, call, place, found);
        match next_place(signs, ends, place) {
            Some(next) => place = next,
            None => return found,
        }
    }
    found
}

/// What is found with the sign at a place, which may be a comma.
fn with_comma(signs: &[Sign], call: usize, place: usize, found: Inside) -> Inside
    requires within { place < length signs.now }
    requires inside { call + 2 ≤ place }
    requires few { found.commas ≤ place }
    ensures commas { result.commas ≡ (if is_comma (at signs.now place) then found.commas + 1 else found.commas) }
    ensures empty { result.empty ≡ (if is_comma (at signs.now place) && (nat_eq place (call + 2) || is_comma (before signs.now place)) then earliest found.empty (Some place) else found.empty) }
{
    if !is_comma(signs[place]) {
        return found;
    }
    let ends = place == call + 2 || is_comma(sign_before(signs, place));
    Inside {
        commas: found.commas + 1,
        empty: earliest_if(found.empty, ends, place),
    }
}

/// The `)` of a call that ends an empty argument.
fn after_comma(signs: &[Sign], last: usize) -> Option<usize>
    requires { last < length signs.now }
    ensures { result ≡ first (suc (length signs.now)) (λ k. nat_eq (last + 0) k && is_comma (before signs.now k)) }
{
    if is_comma(sign_before(signs, last)) {
        Some(last)
    } else {
        None
    }
}

/// What follows the `)` of a call and is no `;`, or an `else` after that.
fn misfollowing(signs: &[Sign], last: usize) -> Option<usize>
    requires { last < length signs.now }
    ensures { result ≡ earliest (first (suc (length signs.now)) (λ k. nat_eq (last + 1) k && not (is_semicolon (at signs.now k)))) (first (suc (length signs.now)) (λ k. nat_eq (last + 2) k && (is_semicolon (before signs.now k) && is_else (at signs.now k)))) }
{
    if !is_semicolon(sign_at(signs, last + 1)) {
        return Some(last + 1);
    }
    if is_else(sign_at(signs, last + 2)) {
        Some(last + 2)
    } else {
        None
    }
}

/// The first place at which a call fails that ends so.
fn ending_failure(signs: &[Sign], end: End) -> Option<usize>
    requires { EndsWithin (length signs.now) end }
    ensures { result ≡ first (suc (length signs.now)) (ending_fails signs.now end) }
{
    match end {
        End::Closed(last) => earliest(after_comma(signs, last), misfollowing(signs, last)),
        End::Wrong(place) => Some(place),
        End::Never => Some(signs.len()),
    }
}

/// The first place at which a call fails, if one stands at a place.
fn failure_at(signs: &[Sign], ends: &[End], place: usize) -> Option<usize>
    requires within { place < length signs.now }
    requires ends { AreEndsFrom signs.now ends.now 0 }
    ensures { result ≡ first (suc (length signs.now)) (λ k. is_call signs.now place && call_fails signs.now place k) }
{
    if !is_call(signs, place) {
        return None;
    }
    let found = read_inside(signs, ends, place);
    earliest(
        found.empty,
        ending_failure(signs, call_end(signs, ends, place)),
    )
}

/// The first place at which a call fails.
pub(crate) fn first_failure(signs: &[Sign], ends: &[End]) -> Option<usize>
    requires { AreEndsFrom signs.now ends.now 0 }
    ensures { result ≡ first (suc (length signs.now)) (λ k. some (length signs.now) (λ c. is_call signs.now c && call_fails signs.now c k)) }
{
    let mut found = None;
    for place in 0..signs.len() {
        found = earliest(found, failure_at(signs, ends, place));
    }
    found
}

/// How many arguments a call has whose brackets are closed.
pub(crate) fn count(signs: &[Sign], ends: &[End], call: usize, last: usize) -> usize
    requires call { is_call signs.now call ≡ true }
    requires ends { AreEndsFrom signs.now ends.now 0 }
    requires closed { call_end signs.now call ≡ Closed last }
    ensures { result ≡ count signs.now call }
{
    if last == call + 2 {
        0
    } else {
        read_inside(signs, ends, call).commas + 1
    }
}
