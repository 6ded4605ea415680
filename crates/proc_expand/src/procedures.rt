//! The procedures of a text.

ghost use Rattle.std.specs.Prelude.{◌≡◌, ◌+◌, ◌*◌, ◌^◌, ◌<◌, ◌≤◌, ◌&&◌, ◌||◌, drop, length, suc, true, false, not, nat_eq};
ghost use Rattle.std.specs.Prelude.{IfOk};
ghost use Rattle.proc_expand.specs.Words.{is_called, is_kind, is_comma, opens_curly, closes_round, at, before};
ghost use Rattle.proc_expand.specs.Words.{is_proc, is_main, ends_item, open_after, closing, first, some, fails_at};
ghost use Rattle.proc_expand.specs.steps.Looking.{tests};
ghost use Rattle.proc_expand.specs.steps.Brackets.{AreEndsFrom, EndsWithin};
ghost use Rattle.proc_expand.specs.Refusals.{begins, begins as begins_at, proc_fails, head, procedure, misfit, with_params, after_params, params_from};

use crate::places::earliest;
use crate::sign::{
    Bracket, End, Sign, ends_item, is_called, is_comma, is_kind, is_main, is_proc, opens_round,
    sign_at, sign_before,
};
use jade_base::Memory;
use std::alloc::Global;

/// The head of a procedure: how many parameters of it fit, whether all of it fits, and the place of
/// its `{`, or of the first token that does not fit.
#[derive(Clone, Copy, Debug, PartialEq, Eq)]
pub struct Head {
    pub params: usize,
    pub fits: bool,
    pub stop: usize,
}

/// A procedure: the place of its `proc`, its head, and where its body ends.
#[derive(Clone, Copy, Debug, PartialEq, Eq)]
pub struct Procedure {
    pub place: usize,
    pub head: Head,
    pub end: End,
}

/// Whether it is `{`.
fn opens_curly(sign: Sign) -> bool
    ensures { result ≡ opens_curly sign }
{
    match sign {
        Sign::Opens(Bracket::Curly) => true,
        _ => false,
    }
}

/// Whether it is `)`.
fn closes_round(sign: Sign) -> bool
    ensures { result ≡ closes_round sign }
{
    match sign {
        Sign::Closes(Bracket::Round) => true,
        _ => false,
    }
}

/// A head of which no parameter fits.
fn misfit(stop: usize) -> Head
    ensures { result ≡ misfit stop }
{
    Head {
        params: 0,
        fits: false,
        stop,
    }
}

/// The head of the procedure that begins at a place.
pub(crate) fn read_head(signs: &[Sign], place: usize) -> Head
    requires { place < length signs.now }
    ensures value { result ≡ head signs.now place }
    ensures long { place + 1 + 3 * result.params ≤ result.stop }
    ensures within { result.stop ≤ length signs.now }
    ensures opens { result.fits ≡ true → opens_curly (at signs.now result.stop) ≡ true }
{
    if !is_called(sign_at(signs, place + 1)) {
        return misfit(place + 1);
    }
    if !opens_round(sign_at(signs, place + 2)) {
        return misfit(place + 2);
    }
    if closes_round(sign_at(signs, place + 3)) {
        return after_params(signs, place + 4, 0);
    }
    read_params(signs, place + 3)
}

/// A head from its first parameter on.
fn read_params(signs: &[Sign], start: usize) -> Head
    requires { start ≤ length signs.now }
    ensures value { result ≡ params_from start (drop start signs.now) }
    ensures long { start + 3 * result.params ≤ result.stop + 1 }
    ensures within { result.stop ≤ length signs.now }
    ensures opens { result.fits ≡ true → opens_curly (at signs.now result.stop) ≡ true }
{
    let mut place = start;
    let mut params = 0;
    'listing: while is_listed(signs, place) {
        params += 1;
        place += 3;
    }
    last_param(signs, place, params)
}

/// Whether a parameter stands at a place that another follows.
fn is_listed(signs: &[Sign], place: usize) -> bool
    requires { place ≤ length signs.now }
    ensures { result ≡ (is_kind (at signs.now place) && is_called (at signs.now (place + 1)) && is_comma (at signs.now (place + 2))) }
{
    is_kind(sign_at(signs, place))
        && is_called(sign_at(signs, place + 1))
        && is_comma(sign_at(signs, place + 2))
}

/// A head from its last parameter on, after so many others.
fn last_param(signs: &[Sign], place: usize, params: usize) -> Head
    requires within { place ≤ length signs.now }
    requires few { params ≤ place }
    requires last { (is_kind (at signs.now place) && is_called (at signs.now (place + 1)) && is_comma (at signs.now (place + 2))) ≡ false }
    ensures value { result ≡ with_params params (params_from place (drop place signs.now)) }
    ensures long { place + 3 * result.params ≤ result.stop + 1 + 3 * params }
    ensures within { result.stop ≤ length signs.now }
    ensures opens { result.fits ≡ true → opens_curly (at signs.now result.stop) ≡ true }
{
    if !is_kind(sign_at(signs, place)) {
        return Head {
            params,
            fits: false,
            stop: place,
        };
    }
    if !is_called(sign_at(signs, place + 1)) {
        return Head {
            params,
            fits: false,
            stop: place + 1,
        };
    }
    if !closes_round(sign_at(signs, place + 2)) {
        return Head {
            params: params + 1,
            fits: false,
            stop: place + 2,
        };
    }
    after_params(signs, place + 3, params + 1)
}

/// A head after its `)`, with so many parameters.
fn after_params(signs: &[Sign], place: usize, params: usize) -> Head
    requires { place ≤ length signs.now }
    ensures value { result ≡ with_params params (after_params place (drop place signs.now)) }
    ensures params { result.params ≡ params }
    ensures stop { result.stop ≡ place }
    ensures opens { result.fits ≡ true → opens_curly (at signs.now result.stop) ≡ true }
{
    Head {
        params,
        fits: opens_curly(sign_at(signs, place)),
        stop: place,
    }
}

/// Whether a `proc` stands at a place where an item may stand.
fn is_item_proc(signs: &[Sign], place: usize) -> bool
    ensures { result ≡ (is_proc (at signs.now place) && (nat_eq place 0 || ends_item (before signs.now place))) }
{
    is_proc(sign_at(signs, place)) && (place == 0 || ends_item(sign_before(signs, place)))
}

/// How many brackets are open after a sign.
fn open_after(sign: Sign, depth: usize) -> usize
    requires { depth + 1 < 2 ^ 64 }
    ensures value { result ≡ open_after sign depth }
    ensures bound { result ≤ depth + 1 }
{
    match sign {
        Sign::Opens(_) => depth + 1,
        Sign::Closes(_) => depth.saturating_sub(1),
        _ => depth,
    }
}

/// What the signs before a place leave: how many brackets are open, and whether a `main` stood in
/// none.
#[derive(Clone, Copy, Debug, PartialEq, Eq)]
struct Standing {
    depth: usize,
    after_main: bool,
}

/// What the sign at a place leaves.
fn stand_after(signs: &[Sign], place: usize, standing: Standing) -> Standing
    requires within { place < length signs.now }
    requires few { standing.depth ≤ place }
    ensures depth { result.depth ≡ open_after (at signs.now place) standing.depth }
    ensures few { result.depth ≤ place + 1 }
    ensures main { result.after_main ≡ (standing.after_main || (is_main (at signs.now place) && nat_eq standing.depth 0)) }
{
    let sign = sign_at(signs, place);
    Standing {
        depth: open_after(sign, standing.depth),
        after_main: standing.after_main || (is_main(sign) && standing.depth == 0),
    }
}

/// Whether a procedure begins at a place.
fn begins(signs: &[Sign], place: usize, standing: Standing) -> bool
    ensures { result ≡ (nat_eq standing.depth 0 && not standing.after_main && (is_proc (at signs.now place) && (nat_eq place 0 || ends_item (before signs.now place)))) }
{
    standing.depth == 0 && !standing.after_main && is_item_proc(signs, place)
}

/// At which places procedures begin.
pub(crate) fn beginnings(alloc: Global, signs: &[Sign]) -> Result<Vec<bool>, Memory>
    ensures { IfOk result (λ found. found.items ≡ tests (length signs.now) (begins signs.now)) }
{
    let mut found: Vec<bool> = Vec::new(alloc);
    let mut standing = Standing {
        depth: 0,
        after_main: false,
    };
    for place in 0..signs.len() {
        found.push(begins(signs, place, standing))?;
        standing = stand_after(signs, place, standing);
    }
    Ok(found)
}

/// Where the body of a procedure is closed whose head fits.
pub(crate) fn body_end(signs: &[Sign], ends: &[End], head: Head) -> End
    requires opens { opens_curly (at signs.now head.stop) ≡ true }
    requires ends { AreEndsFrom signs.now ends.now 0 }
    ensures value { result ≡ closing signs.now head.stop }
    ensures within { EndsWithin (length signs.now) result }
{
    ends[head.stop]
}

/// The procedure that begins at a place.
pub(crate) fn procedure_at(signs: &[Sign], ends: &[End], place: usize) -> Procedure
    requires within { place < length signs.now }
    requires ends { AreEndsFrom signs.now ends.now 0 }
    ensures { result ≡ procedure signs.now place }
{
    let head = read_head(signs, place);
    let end = if head.fits {
        body_end(signs, ends, head)
    } else {
        End::Never
    };
    Procedure { place, head, end }
}

/// Where brackets go wrong that end so.
fn unclosed(signs: &[Sign], end: End) -> Option<usize>
    requires { EndsWithin (length signs.now) end }
    ensures { result ≡ first (suc (length signs.now)) (fails_at (length signs.now) end) }
{
    match end {
        End::Closed(_) => None,
        End::Wrong(place) => Some(place),
        End::Never => Some(signs.len()),
    }
}

/// The first place at which a procedure fails, if one begins at a place.
fn failure_at(signs: &[Sign], ends: &[End], begins: bool, place: usize) -> Option<usize>
    requires within { place < length signs.now }
    requires ends { AreEndsFrom signs.now ends.now 0 }
    ensures { result ≡ first (suc (length signs.now)) (λ k. begins && proc_fails signs.now place k) }
{
    if !begins {
        return None;
    }
    let head = read_head(signs, place);
    if !head.fits {
        return Some(head.stop);
    }
    unclosed(signs, body_end(signs, ends, head))
}

/// The first place at which a procedure fails.
pub(crate) fn first_failure(signs: &[Sign], ends: &[End], begins: &[bool]) -> Option<usize>
    requires ends { AreEndsFrom signs.now ends.now 0 }
    requires begins { begins.now ≡ tests (length signs.now) (begins_at signs.now) }
    ensures { result ≡ first (suc (length signs.now)) (λ k. some (length signs.now) (λ p. begins_at signs.now p && proc_fails signs.now p k)) }
{
    let mut found = None;
    for place in 0..signs.len() {
        found = earliest(found, failure_at(signs, ends, begins[place], place));
    }
    found
}
