//! Where searches by halves end.

/// Among so few the first is found sooner by a look at one after another than by halves.
pub(crate) const FEW: usize = 8;
