use jade_base::{PathList, Word};
use jade_list::sequence::Sequence;

/// The turns on an object: its label, and the paths of the tasks that took it in turn.
#[derive(Debug, Drop)]
pub struct LabelledTurn {
    pub label: Word,
    pub paths: PathList,
}

pub type LabelledTurns = Sequence<LabelledTurn>;
