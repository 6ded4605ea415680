//! Places of a text, of which the first is looked for.

ghost use Rattle.std.specs.Prelude.{◌≡◌, if◌then◌else◌, Some};
ghost use Rattle.proc_expand.specs.steps.Looking.{earliest};

/// The first of two places that may be there. The second is seldom there, and is looked at first.
#[tactic(auto, using(crate::proofs::First::earliest_none))]
pub(crate) fn earliest(first: Option<usize>, second: Option<usize>) -> Option<usize>
    ensures { result ≡ earliest first second }
{
    match second {
        None => first,
        Some(other) => match first {
            None => Some(other),
            Some(place) => {
                if other < place {
                    Some(other)
                } else {
                    Some(place)
                }
            }
        },
    }
}

/// The first of a place that may be there and another, if that counts.
pub(crate) fn earliest_if(first: Option<usize>, counts: bool, place: usize) -> Option<usize>
    ensures { result ≡ (if counts then earliest first (Some place) else first) }
{
    if counts {
        earliest(first, Some(place))
    } else {
        first
    }
}
