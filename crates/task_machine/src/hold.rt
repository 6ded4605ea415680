//! What a task holds of one object.

use jade_base::{Content, Mode};
use std::marker::Model;

mod methods;

/// What is held of an object, if anything is: in this mode, cells that may be written, or a content that
/// may only be read. Contracts see it as the content. Neither of the two has a cell where the other is
/// held, so a cell that is found in one of them needs no further look.
#[derive(Debug, Drop)]
pub struct Hold {
    mode: Option<Mode>,
    cells: Vec<i64>,
    content: Content,
}

impl Model for Hold {
    ghost use Rattle.std.specs.Prelude.{Option};
    ghost use Rattle.jade_base.specs.Held.{Held};
    ghost use Rattle.task_machine.specs.steps.Hold.{IsHold, hold_of};

    ghost Value = { Option Held };

    ghost view = { λ h. hold_of h.mode h.cells.items h.content };

    ghost invariant = { λ h. IsHold h.mode h.cells.items h.content };
}
