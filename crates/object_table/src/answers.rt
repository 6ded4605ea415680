//! What the calls answer.

use jade_base::{Content, Path};

/// What a try to take an object answers.
#[derive(Drop)]
pub enum Taken {
    /// The content, in the mode asked for.
    Got(Content),
    /// The task of this path keeps this one from the object.
    NotYet(Path),
    /// Another pass has a turn; the word that was read.
    Busy(u64),
}

/// What a try at another event answers.
#[derive(Clone, Copy, Debug, PartialEq, Eq)]
pub enum Tried {
    Done,
    /// Another pass has a turn; the word that was read.
    Busy(u64),
}
