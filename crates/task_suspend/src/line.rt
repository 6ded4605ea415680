//! Lines of capsules.

use crate::capsule::Capsule;
use waiting_line::Line;

/// Capsules in the serial order of their tasks.
pub type CapsuleLine<'c, N> = Line<Capsule<'c, N>>;
