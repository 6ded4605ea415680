//! What stands in line.

ghost use Rattle.std.specs.Prelude.{◌≡◌, [], ◌∷◌, ◌++◌, true, map, drop, MatchResult, MatchOption};
ghost use Rattle.task_roll.specs.Order.{rank};
ghost use Rattle.waiting_line.specs.Lines.{in_order, placed};

use jade_base::Path;
use std::alloc::Global;
use std::collections::VecDeque;
use std::marker::Model;
use std::mem;
use task_roll::OnPath;
use task_roll::order::stands_before;

/// What stands in line, in the serial order of its tasks: nothing stands before what comes earlier.
/// Contracts see it as the list.
#[derive(Drop)]
pub struct Line<T: OnPath + Drop> {
    rows: VecDeque<T>,
}

impl<T: OnPath + Drop> Model for Line<T> {
    ghost use Rattle.std.specs.Prelude.{◌≡◌, true, map, List};
    ghost use Rattle.waiting_line.specs.Lines.{in_order};

    ghost Value = { List T };

    ghost view = { λ l. l.rows.items };

    ghost invariant = { λ l. in_order (map T.task l.rows.items) ≡ true };
}

impl<T: OnPath + Drop> Line<T> {
    /// An empty line. It takes no memory.
    pub fn new(alloc: Global) -> Line<T>
        ensures { result ≡ [] }
    {
        Line {
            rows: VecDeque::new(alloc),
        }
    }

    /// Puts an item in line: behind those whose tasks stand before its own, and before the others. It
    /// hands it back where there is no memory.
    #[tactic(auto, using(crate::proofs::Placing::placed_in_order))]
    pub fn put(&mut self, item: T) -> Result<(), T>
        ensures { MatchResult result (λ _. self.new ≡ placed T.task item self.old) (λ back. (back ≡ item) × (self.new ≡ self.old)) }
    {
        put_in(&mut self.rows, item)
    }

    /// The first one, if there is one. It takes no memory.
    pub fn first(&self) -> Option<&T>
        ensures { MatchOption result (self.now ≡ []) (λ item. self.now ≡ item.now ∷ drop 1 self.now) }
    {
        self.rows.front()
    }

    /// Takes the first one, if there is one. It takes no memory.
    pub fn take_first(&mut self) -> Option<T>
        ensures { MatchOption result ((self.new ≡ []) × (self.old ≡ [])) (λ item. self.old ≡ item ∷ self.new) }
    {
        self.rows.pop_front()
    }

    /// Takes the last one, if there is one. It takes no memory.
    pub fn take_last(&mut self) -> Option<T>
        ensures { MatchOption result ((self.new ≡ []) × (self.old ≡ [])) (λ item. self.old ≡ self.new ++ item ∷ []) }
    {
        self.rows.pop_back()
    }

    /// Gives the whole line, and leaves it empty. It takes no memory.
    pub fn take_all(&mut self) -> Line<T>
        ensures { (result ≡ self.old) × (self.new ≡ []) }
    {
        let alloc = *self.rows.allocator();
        mem::replace(self, Line::new(alloc))
    }
}

// Puts an item among rows, where it keeps their order.
#[tactic(auto, using(crate::proofs::Placing::placed_at, task_roll::proofs::InOrder::rank_within))]
fn put_in<T: OnPath + Drop>(rows: &mut VecDeque<T>, item: T) -> Result<(), T>
    requires { in_order (map T.task rows.old.items) ≡ true }
    ensures { MatchResult result (λ _. rows.new.items ≡ placed T.task item rows.old.items) (λ back. (back ≡ item) × (rows.new.items ≡ rows.old.items)) }
{
    let place = place_for(rows, item.path());
    match rows.insert(place, item) {
        Ok(()) => Ok(()),
        Err(refused) => Err(refused.value),
    }
}

// How many rows at the front stand before a path. The last row is looked at before others, since it
// stands before a task that was created later; else they are found by halves.
#[tactic(auto, using(crate::proofs::Placing::within_rank, task_roll::proofs::InOrder::high_half, task_roll::proofs::InOrder::rank_within))]
fn place_for<T: OnPath>(rows: &VecDeque<T>, path: &Path) -> usize
    requires { in_order (map T.task rows.now.items) ≡ true }
    ensures { result ≡ rank path.now (map T.task rows.now.items) }
{
    let count = rows.len();
    if count > 0 && stands_before(rows[count - 1].path(), path) {
        return count;
    }
    let mut low = 0;
    let mut high = count;
    'halves: while low < high {
        let middle = low + (high - low) / 2;
        if stands_before(rows[middle].path(), path) {
            low = middle + 1;
        } else {
            high = middle;
        }
    }
    low
}
