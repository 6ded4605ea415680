//! What can be wrong with a program before it runs.

ghost use Rattle.std.specs.Prelude.{◌≡◌};
ghost use Rattle.jade_syntax.specs.StaticFaults.{is_earlier, rank};

use jade_base::Pos;

/// The kinds of static faults, in the order that they have at one place: a name that is not in
/// scope, a name that is declared twice, a value or a name of another kind than is needed, an
/// assignment to an input or to the variable of a loop, an amount beyond its limit.
#[derive(Clone, Copy, Debug, PartialEq, Eq)]
pub enum StaticKind {
    Name,
    Twice,
    Kind,
    Assign,
    Size,
}

/// A static fault and its place.
#[derive(Clone, Copy, Debug, PartialEq, Eq)]
pub struct StaticFault {
    pub pos: Pos,
    pub kind: StaticKind,
}

impl StaticKind {
    /// The number of the kind, in the order that kinds have at one place.
    fn rank(self) -> u8
        ensures { result ≡ rank self }
    {
        match self {
            StaticKind::Name => 0,
            StaticKind::Twice => 1,
            StaticKind::Kind => 2,
            StaticKind::Assign => 3,
            StaticKind::Size => 4,
        }
    }
}

impl StaticFault {
    /// Whether this fault stands before another: by line, then by column, then by the order of
    /// kinds. It takes no memory.
    pub fn is_earlier(&self, other: &StaticFault) -> bool
        ensures { result ≡ is_earlier self.now other.now }
    {
        let lines = self.pos.line.cmp(&other.pos.line);
        let columns = self.pos.column.cmp(&other.pos.column);
        let ranks = self.kind.rank().cmp(&other.kind.rank());
        lines.then(columns.then(ranks)).is_lt()
    }
}
