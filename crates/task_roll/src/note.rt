//! What the parts of tasks leave.

use jade_base::{Blame, Path};

/// What a part of a task leaves, as it ends with a creation or with the task: the steps begun in it,
/// and the fault that ended it, if one did. Its key is the path followed by the number of children.
#[derive(Debug, Drop)]
pub struct PartNote {
    pub path: Path,
    pub children: u32,
    pub steps: u64,
    pub blame: Option<Blame>,
}
