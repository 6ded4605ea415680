//! What the roll's slot holds.

ghost use Rattle.std.specs.Prelude.{◌≡◌, ◌≤◌, ◌+◌, [], true, false, length};
ghost use Rattle.object_table.specs.Tallies.{most, opened, restocked, received, is_settled};

use part_notes::Notes;
use std::alloc::Global;
use std::marker::Model;

/// How many tickets a pass is given at once.
pub(crate) const STOCK: u64 = 1 << 32;

/// So many tickets and notes there are at most in all, so that no list of notes grows too long.
pub(crate) const MOST: u64 = 1 << 62;

/// The roll, but for the paths of its live tasks: what is due, and the notes that were handed in. A
/// ticket is the leave to note one part of a task; due are the tickets that are out, and one for each
/// note that a task has in hand. The notes lie in chunks, each in a node that a task has brought
/// along, so that no turn fails for want of memory. The words behind are not used: a slot has room
/// for each of its kinds, so what lies in one slot is on other pairs of cache lines of 64 bytes than
/// what lies in the next.
#[derive(Drop)]
pub(crate) struct Tally {
    due: u64,
    notes: Notes,
    apart: [u64; 24],
}

impl Model for Tally {
    ghost use Rattle.object_table.specs.Tallies.{TallyView};

    ghost Value = { TallyView };

    ghost view = { λ t. record { due = t.due; notes = t.notes } };
}

impl Tally {
    /// The root's pass has the first stock of tickets, and there is no note.
    pub(crate) fn start(alloc: Global) -> Tally
        ensures { result ≡ opened }
    {
        Tally {
            due: STOCK,
            notes: Notes::none(alloc),
            apart: [0; 24],
        }
    }

    /// A pass is given one stock of tickets more, and the answer is `true`; where there would be too
    /// many in all, it is `false`, and nothing changes. It takes no memory.
    pub(crate) fn restock(&mut self) -> bool
        ensures more { result ≡ true → self.new ≡ restocked self.old }
        ensures room { result ≡ true → (restocked self.old).due + length self.old.notes ≤ most }
        ensures unchanged { result ≡ false → self.new ≡ self.old }
    {
        if !has_room(self.due, self.notes.len()) {
            return false;
        }
        self.due += STOCK;
        true
    }

    /// A pass hands its notes in, and gives its tickets back; both together are worth so many tickets.
    /// The answer is whether nothing may still come. It does not fail for want of memory.
    pub(crate) fn receive(&mut self, worth: u64, notes: &mut Notes) -> bool
        requires due { worth ≤ self.old.due }
        requires room { self.old.due + length self.old.notes ≤ most }
        requires within { length notes.old ≤ worth }
        ensures value { self.new ≡ received worth notes.old self.old }
        ensures emptied { notes.new ≡ [] }
        ensures settled { result ≡ is_settled self.new }
    {
        self.due -= worth;
        self.notes.append(notes);
        self.due == 0
    }

    /// The notes, for a caller that is done with the rest. It takes no memory.
    pub(crate) fn into_notes(self) -> Notes
        ensures { result ≡ self.notes }
    {
        self.notes
    }
}

// Whether there may be one stock of tickets more, beside these that are due and so many notes.
fn has_room(due: u64, notes: usize) -> bool
    ensures { result ≡ true → due + STOCK + notes ≤ MOST }
{
    if due > MOST - STOCK {
        return false;
    }
    notes as u64 <= MOST - STOCK - due
}
