//! Where brackets are closed.

ghost use Rattle.std.specs.Prelude.{◌≡◌, ◌<◌, ◌+◌, ◌∷◌, [], length, drop, None, IfOk};
ghost use Rattle.proc_expand.specs.Words.{at, closing, closing_from};
ghost use Rattle.proc_expand.specs.steps.Brackets.{next_place, AreEndsFrom};
ghost use Rattle.proc_expand.specs.declared.sign.Sign.TheVariants.{Opens};

use crate::sign::{Bracket, End, Sign, same_bracket};
use jade_base::Memory;
use std::alloc::Global;

/// The place after a sign, or after the brackets that it opens, if these are closed; there is none
/// after a closing bracket.
pub(crate) fn next_place(signs: &[Sign], ends: &[End], place: usize) -> Option<usize>
    requires within { place < length signs.now }
    requires ends { AreEndsFrom signs.now ends.now place }
    ensures { result ≡ next_place signs.now place }
{
    match signs[place] {
        Sign::Opens(_) => match ends[place] {
            End::Closed(last) => Some(last + 1),
            _ => None,
        },
        Sign::Closes(_) => None,
        _ => Some(place + 1),
    }
}

/// Where a bracket is closed, if the ends of all brackets that open after it are known.
fn end_of(signs: &[Sign], ends: &[End], opener: usize, bracket: Bracket) -> End
    requires within { opener < length signs.now }
    requires opens { at signs.now opener ≡ Opens bracket }
    requires ends { AreEndsFrom signs.now ends.now (opener + 1) }
    ensures { result ≡ closing signs.now opener }
{
    let mut place = opener + 1;
    'inside: while place < signs.len() {
        match next_place(signs, ends, place) {
            Some(next) => place = next,
            None => return end_here(signs, ends, place, bracket),
        }
    }
    End::Never
}

/// Where a bracket is closed, if what is inside it goes no further than a place.
fn end_here(signs: &[Sign], ends: &[End], place: usize, bracket: Bracket) -> End
    requires within { place < length signs.now }
    requires ends { AreEndsFrom signs.now ends.now place }
    requires stops { next_place signs.now place ≡ None }
    ensures { result ≡ closing_from (bracket ∷ []) place (drop place signs.now) }
{
    match signs[place] {
        Sign::Opens(_) => ends[place],
        Sign::Closes(closing) => {
            if same_bracket(bracket, closing) {
                End::Closed(place)
            } else {
                End::Wrong(place)
            }
        }
        _ => End::Never,
    }
}

/// Where each bracket of a text is closed, at the place where it opens.
pub(crate) fn ends(alloc: Global, signs: &[Sign]) -> Result<Vec<End>, Memory>
    ensures { IfOk result (λ found. AreEndsFrom signs.now found.items 0) }
{
    let mut found: Vec<End> = vec![in alloc; End::Never; signs.len()]?;
    let mut place = signs.len();
    'opening: while place > 0 {
        place -= 1;
        if let Sign::Opens(bracket) = signs[place] {
            found[place] = end_of(signs, &found, place, bracket);
        }
    }
    Ok(found)
}
