use crate::{Path, Pos};
use jade_list::sequence::Sequence;

/// The kinds of fault that end a task.
#[derive(Clone, Copy, Debug, PartialEq, Eq)]
pub enum FaultKind {
    Overflow,
    Zero,
    Index,
    Object,
    Right,
    Cover,
    Change,
    Limit,
    Commute,
}

/// Why a task ended early, and where in the text; `pos` is `None` exactly for the kind `Limit`.
#[derive(Clone, Copy, Debug, PartialEq, Eq)]
pub struct Blame {
    pub kind: FaultKind,
    pub pos: Option<Pos>,
}

/// A fault of the task at a path, which had created so many children by then. Its key is the path
/// followed by that number.
#[derive(Debug, Drop)]
pub struct FaultNote {
    pub path: Path,
    pub children: u32,
    pub blame: Blame,
}

/// The steps that the task at a path began after it had created so many children, and before it
/// created the next or ended. Its key is the path followed by that number.
#[derive(Debug, Drop)]
pub struct PartStep {
    pub path: Path,
    pub children: u32,
    pub steps: u64,
}

pub type Numbers = Sequence<i64>;

pub type CellLists = Sequence<Numbers>;

pub type FaultNotes = Sequence<FaultNote>;

pub type PartSteps = Sequence<PartStep>;

pub type PathList = Sequence<Path>;

pub type TurnLists = Sequence<PathList>;

/// What a run did: the cells of the objects by number, the faults and the steps of the parts by
/// ascending key, and for each object the list of the tasks that took it for commuting.
#[derive(Debug, Drop)]
pub struct Report {
    pub objects: CellLists,
    pub faults: FaultNotes,
    pub turns: TurnLists,
    pub steps: PartSteps,
}
