//! What workers call before the asks of tasks.

use jade_base::Path;
use std::sync::Wait;

/// What the workers of a run call before they first carry out an ask of a task. A call may wait, and
/// its worker waits with it.
pub trait Gate: Sync {
    /// The task of this path is about to carry out its ask of this number, the first of which is 0.
    /// It is called once for each ask; a try that is repeated is not told.
    fn pass<R: Wait>(&self, rt: &R, path: &Path, ask: u64);
}

/// The gate that holds nobody.
#[derive(Drop)]
pub struct EmptyGate;

impl Gate for EmptyGate {
    fn pass<R: Wait>(&self, _rt: &R, _path: &Path, _ask: u64) {}
}
