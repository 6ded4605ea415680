//! What a pass knows, and how the steps on the words change it.

use crate::slot::Slot;
use atomic_table::{Join, Play, Split, TableRule};
use jade_meaning::Plan;
use std::marker::Model;

/// What a pass shows. No value of it is made; it stands for the type of the views.
pub(crate) struct View;

impl Model for View {
    ghost use Rattle.object_table.specs.Views.{View as PassView};
    ghost use Rattle.object_table.specs.Encodings.{coded_view};
    ghost use Rattle.object_table.specs.Plays.{spent_view};

    ghost Value = { PassView };

    ghost coded = { coded_view };

    ghost view = { λ _. spent_view };
}

/// The rule of the table.
pub(crate) struct Sharing;

impl<'c> TableRule<Slot, View, Plan<'c>> for Sharing {
    ghost use Rattle.object_table.specs.Rule.{Ruled, first_view};

    ghost holds = { Ruled };

    ghost first = { first_view };
}

/// A try at a turn.
pub(crate) struct Try;

impl Play<Slot, View> for Try {
    ghost use Rattle.object_table.specs.Plays.{tried};

    ghost then = { tried };
}

/// A turn left with nothing changed.
pub(crate) struct Desist;

impl Play<Slot, View> for Desist {
    ghost use Rattle.object_table.specs.Plays.{left_as_it_was};

    ghost then = { left_as_it_was };
}

/// A turn left with an event on its object done.
pub(crate) struct Finish;

impl Play<Slot, View> for Finish {
    ghost use Rattle.object_table.specs.Plays.{left_done};

    ghost then = { left_done };
}

/// A creation done, at a load of the first word.
pub(crate) struct Enrolling;

impl Play<Slot, View> for Enrolling {
    ghost use Rattle.object_table.specs.Plays.{did_enroll};

    ghost then = { did_enroll };
}

/// A task's end done, at a load of the first word.
pub(crate) struct Resigning;

impl Play<Slot, View> for Resigning {
    ghost use Rattle.object_table.specs.Plays.{did_resign};

    ghost then = { did_resign };
}

/// A load of the first word, at which a pass is told that there is room for what it has.
pub(crate) struct Looking;

impl Play<Slot, View> for Looking {
    ghost use Rattle.object_table.specs.Plays.{looked};

    ghost then = { looked };
}

/// A turn left with more tickets.
pub(crate) struct Restocking;

impl Play<Slot, View> for Restocking {
    ghost use Rattle.object_table.specs.Plays.{left_restocked};

    ghost then = { left_restocked };
}

/// A turn left with all that a pass had handed in.
pub(crate) struct Relieving;

impl Play<Slot, View> for Relieving {
    ghost use Rattle.object_table.specs.Plays.{left_relieved};

    ghost then = { left_relieved };
}

/// How a child's pass is cut off its parent's.
pub(crate) struct Bearing;

impl Split<View> for Bearing {
    ghost use Rattle.object_table.specs.Plays.{without_kid, kid_view};

    ghost left = { without_kid };

    ghost right = { λ v. kid_view v.unborn v };
}

/// How a pass whose task has ended takes in another.
pub(crate) struct Joining;

impl Join<View> for Joining {
    ghost use Rattle.object_table.specs.Plays.{joined, spent_view};

    ghost both = { joined };

    ghost spent = { spent_view };
}
