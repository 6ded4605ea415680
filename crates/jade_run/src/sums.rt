//! Sums of cells.

ghost use Rattle.std.specs.Prelude.{◌≡◌, ◌*◌, ◌^◌, ◌≤◌, length, pos, neg_ℤ, ◌≤ℤ◌};
ghost use Rattle.std.specs.List.{sum_by};
ghost use Rattle.jade_run.specs.Sums.{sum_of, sum_of_cells};

use jade_base::CellLists;

/// The sum of some cells.
fn sum_of(cells: &[i64]) -> i128
    requires { length cells.now ≤ 1048576 }
    ensures exact { result ≡ sum_of cells.now }
    ensures least { neg_ℤ (pos (2 ^ 63 * length cells.now)) ≤ℤ result }
    ensures most { result ≤ℤ pos (2 ^ 63 * length cells.now) }
{
    let mut sum = 0;
    for cell in cells {
        sum += i128::from(*cell);
    }
    sum
}

/// The sum of all cells of objects that have at most 1,048,576 cells in all. It takes no memory.
pub fn total(objects: &CellLists) -> i128
    requires { sum_by length objects.now ≤ 1048576 }
    ensures { result ≡ sum_of_cells objects.now }
{
    let mut total = 0;
    for place in 0..objects.len() {
        total += sum_of(objects.at(place).as_slice());
    }
    total
}
