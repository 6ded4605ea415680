//! How far parts of a program reach.

ghost use Rattle.std.specs.Prelude.{◌≡◌, ◌-◌};
ghost use Rattle.jade_syntax.specs.Shapes.{nothing, signs, name_extent, number_extent, is_natural, is_within};
ghost use Rattle.jade_syntax.specs.Measured.{Measures, Joins, Encloses, Limits};
ghost use Rattle.jade_syntax.specs.declared.shapes.extent.Extent.{Extent};

use crate::Name;
use crate::name::is_name;
use crate::tree::Number;
use jade_alphabet::{DEPTH_LIMIT, EXPRESSION_LIMIT};

/// The most tokens of a program.
const PROGRAM_LIMIT: usize = 1_048_576;

/// What is said of a part of a program: whether its names, numbers and outermost expressions are
/// as they must be, how many tokens it has, and how deep brackets nest in it.
#[derive(Clone, Copy, Debug, PartialEq, Eq)]
pub struct Extent {
    pub sound: bool,
    pub tokens: usize,
    pub depth: usize,
}

fn is_natural(value: i64) -> bool
    ensures { result ≡ is_natural value }
{
    value >= 0
}

impl Extent {
    /// No tokens.
    pub(crate) fn nothing() -> Extent
        ensures { Measures result nothing }
    {
        Extent::signs(0)
    }

    /// So many tokens, with no bracket, name or number among them.
    pub(crate) fn signs(count: usize) -> Extent
        ensures { Measures result (signs count) }
    {
        Extent {
            sound: true,
            tokens: count,
            depth: 0,
        }
    }

    /// One less than so many tokens.
    pub(crate) fn signs_between(count: usize) -> Extent
        ensures { Measures result (signs (count - 1)) }
    {
        Extent::signs(count.saturating_sub(1))
    }

    /// A name.
    pub(crate) fn name(name: &Name) -> Extent
        ensures { Measures result (name_extent name.now) }
    {
        Extent {
            sound: is_name(name.bytes()),
            tokens: 1,
            depth: 0,
        }
    }

    /// A number.
    pub(crate) fn number(number: &Number) -> Extent
        ensures { Measures result (number_extent number.now) }
    {
        Extent {
            sound: is_natural(number.value),
            tokens: 1,
            depth: 0,
        }
    }

    /// One part and then another. Counting stops at the greatest number.
    pub(crate) fn then(self, next: Extent) -> Extent
        ensures { Joins self next result }
    {
        Extent {
            sound: self.sound && next.sound,
            tokens: self.tokens.saturating_add(next.tokens),
            depth: self.depth.max(next.depth),
        }
    }

    /// The part in brackets.
    pub(crate) fn in_brackets(self) -> Extent
        ensures { Encloses self result }
    {
        Extent {
            sound: self.sound,
            tokens: self.tokens.saturating_add(2),
            depth: self.depth.saturating_add(1),
        }
    }

    /// The part as an expression that lies in no other.
    pub(crate) fn limited(self) -> Extent
        ensures { Limits self result }
    {
        Extent {
            sound: self.sound && self.tokens <= EXPRESSION_LIMIT,
            tokens: self.tokens,
            depth: self.depth,
        }
    }

    /// Whether a program may reach so far.
    pub(crate) fn is_within(self) -> bool
        ensures { (e : Extent) → Measures self e → result ≡ is_within e }
    {
        self.sound && self.tokens <= PROGRAM_LIMIT && self.depth <= DEPTH_LIMIT
    }
}
