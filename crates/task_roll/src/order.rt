//! The serial order of tasks, in which a task stands before its creator, and look-ups by halves in
//! what stands in it.

ghost use Rattle.std.specs.Prelude.{◌≡◌, ◌<◌, true, length, map, List, ℕ};
ghost use Rattle.jade_base.specs.Places.{same_path};
ghost use Rattle.task_roll.specs.Order.{stands_before, is_ordered, rank, place_among, fits_at};

use jade_base::Path;
use std::collections::VecDeque;

/// What stands in the serial order by the path of a task.
pub trait OnPath {
    ghost task: { Self → List ℕ };

    /// The path of the task.
    fn path(&self) -> &Path
        ensures { result.now ≡ task self.now };
}

impl OnPath for Path {
    ghost task = { λ p. p };

    fn path(&self) -> &Path {
        self
    }
}

/// Whether the first task stands before the other: the first difference decides, and a task stands
/// after the tasks that it makes.
pub fn stands_before(first: &Path, other: &Path) -> bool
    ensures { result ≡ stands_before first.now other.now }
{
    comes_first(first.numbers(), other.numbers())
}

// The same of the numbers of two paths.
fn comes_first(first: &[u32], other: &[u32]) -> bool
    ensures { result ≡ stands_before first.now other.now }
{
    let shared = first.len().min(other.len());
    for i in 0..shared {
        if first[i] != other[i] {
            return first[i] < other[i];
        }
    }
    first.len() > other.len()
}

/// How many rows at the front stand before a path, found by halves.
#[tactic(auto, using(crate::proofs::InOrder::low_half, crate::proofs::InOrder::high_half, crate::proofs::InOrder::rank_within))]
fn rank_of<T: OnPath>(rows: &VecDeque<T>, path: &Path) -> usize
    requires { is_ordered (map T.task rows.now.items) ≡ true }
    ensures { result ≡ rank path.now (map T.task rows.now.items) }
{
    let mut low = 0;
    let mut high = rows.len();
    'halves: while low < high {
        let middle = low + (high - low) / 2;
        if stands_before(rows[middle].path(), path) {
            low = middle + 1;
        } else {
            high = middle;
        }
    }
    low
}

// Whether two paths with these numbers name one task.
fn are_same(left: &[u32], right: &[u32]) -> bool
    ensures { result ≡ same_path left.now right.now }
{
    if left.len() != right.len() {
        return false;
    }
    for i in 0..left.len() {
        if left[i] != right[i] {
            return false;
        }
    }
    true
}

// Whether the first row is the path's.
fn is_first<T: OnPath>(rows: &VecDeque<T>, path: &Path) -> bool
    ensures { result ≡ true → place_among path.now (map T.task rows.now.items) ≡ 0 }
{
    if rows.len() == 0 {
        return false;
    }
    are_same(path.numbers(), rows[0].path().numbers())
}

/// How many rows stand before the path's; where it has none, their number. The first row is looked
/// at before others, since it is the path's where tasks go on in the serial order, as with one
/// worker; else the path's is found by halves.
#[inline(always)]
pub fn place_of<T: OnPath>(rows: &VecDeque<T>, path: &Path) -> usize
    requires { is_ordered (map T.task rows.now.items) ≡ true }
    ensures { result ≡ place_among path.now (map T.task rows.now.items) }
{
    if is_first(rows, path) {
        return 0;
    }
    place_by_halves(rows, path)
}

// The same, found by halves. It is called, so that what comes mostly stands where it is asked for.
#[inline(never)]
fn place_by_halves<T: OnPath>(rows: &VecDeque<T>, path: &Path) -> usize
    requires { is_ordered (map T.task rows.now.items) ≡ true }
    ensures { result ≡ place_among path.now (map T.task rows.now.items) }
{
    let place = rank_of(rows, path);
    if place < rows.len() && path.is_same(rows[place].path()) {
        return place;
    }
    rows.len()
}

/// Whether a path stands between that of the row at a place and that of the one before it.
pub fn fits_at<T: OnPath>(rows: &VecDeque<T>, place: usize, path: &Path) -> bool
    requires { place < length rows.now.items }
    ensures { result ≡ fits_at place path.now (map T.task rows.now.items) }
{
    let first = stands_before(path, rows[place].path());
    if place == 0 {
        return first;
    }
    first && stands_before(rows[place - 1].path(), path)
}
