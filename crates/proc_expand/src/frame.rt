//! Bodies that are open while a text is written.

/// A call whose procedure is written: the place of the procedure, the place of the call, and the
/// number from which its names are given.
#[derive(Clone, Copy, Debug, PartialEq, Eq)]
pub(crate) struct Call {
    pub(crate) procedure: usize,
    pub(crate) place: usize,
    pub(crate) base: usize,
}

/// What is left to write of a body, or of what lies outside of procedures: from where on, and
/// before where.
#[derive(Clone, Copy, Debug, PartialEq, Eq)]
pub(crate) struct Frame {
    pub(crate) next: usize,
    pub(crate) stop: usize,
    pub(crate) call: Option<Call>,
}
