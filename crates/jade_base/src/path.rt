ghost use Rattle.std.specs.Prelude.{◌≡◌, ◌<◌, ◌≤◌, [], ◌∷◌, ◌++◌, length, take, IfOk};
ghost use Rattle.jade_base.specs.Places.{path_order, same_path};

use crate::Memory;
use smallvec::SmallVec;
use std::alloc::Global;
use std::cmp::Ordering;
use std::marker::Model;

/// So many numbers lie in the path itself: one of so many or fewer takes no memory.
const SHORT: usize = 4;

/// The name of a task: the root is `0`, and the child number k (from 0) of the task `p` is `p.k`.
/// Contracts see it as the list of its numbers.
#[derive(Debug, Drop)]
pub struct Path {
    numbers: SmallVec<u32, SHORT>,
}

impl Model for Path {
    ghost use Rattle.std.specs.Prelude.{List, ℕ, ◌<◌, length};

    ghost Value = { List ℕ };

    ghost view = { λ p. p.numbers.items };

    ghost invariant = { λ p. 0 < length p.numbers.items };
}

impl Path {
    /// The path of the root, `0`. The error is want of memory.
    pub fn root(alloc: Global) -> Result<Path, Memory>
        ensures { IfOk result (λ path. path ≡ 0 ∷ []) }
    {
        let mut numbers = SmallVec::new(alloc);
        numbers.push(0)?;
        Ok(Path { numbers })
    }

    /// The path with these numbers, of which there is one at least. The error is want of memory.
    pub fn of(alloc: Global, numbers: &[u32]) -> Result<Path, Memory>
        requires { 0 < length numbers.now }
        ensures { IfOk result (λ path. path ≡ numbers.now) }
    {
        let numbers = SmallVec::from_slice(alloc, numbers)?;
        Ok(Path { numbers })
    }

    /// The path of this task's child with a number. The error is want of memory.
    pub fn child(&self, alloc: Global, number: u32) -> Result<Path, Memory>
        ensures { IfOk result (λ path. path ≡ self.now ++ number ∷ []) }
    {
        let numbers = self.numbers.as_slice();
        match numbers.len() {
            1 => Ok(Path::short(alloc, [numbers[0], number, 0, 0], 2)),
            2 => Ok(Path::short(alloc, [numbers[0], numbers[1], number, 0], 3)),
            _ => child_of(alloc, numbers, number),
        }
    }

    /// The same path once more. The error is want of memory.
    pub fn copy(&self, alloc: Global) -> Result<Path, Memory>
        ensures { IfOk result (λ path. path ≡ self.now) }
    {
        let numbers = self.numbers.as_slice();
        match numbers.len() {
            1 => Ok(Path::short(alloc, [numbers[0], 0, 0, 0], 1)),
            2 => Ok(Path::short(alloc, [numbers[0], numbers[1], 0, 0], 2)),
            _ => Path::of(alloc, numbers),
        }
    }

    // The path of so many of these numbers, which lie in it.
    #[inline(always)]
    fn short(alloc: Global, numbers: [u32; SHORT], count: usize) -> Path
        requires { (0 < count) × (count ≤ 4) }
        ensures { result ≡ take count numbers }
    {
        Path {
            numbers: SmallVec::from_buf_and_len(alloc, numbers, count),
        }
    }

    /// Which path stands before the other: the first difference decides, and a task stands before
    /// its children.
    pub fn compare(&self, other: &Path) -> Ordering
        ensures { result ≡ path_order self.now other.now }
    {
        compare_lists(self.numbers.as_slice(), other.numbers.as_slice())
    }

    /// Whether the two paths name one task.
    pub fn is_same(&self, other: &Path) -> bool
        ensures { result ≡ same_path self.now other.now }
    {
        self.compare(other).is_eq()
    }

    /// The numbers, from the root's on; there is at least one.
    pub fn numbers(&self) -> &[u32]
        ensures value { result.now ≡ self.now }
        ensures some { 0 < length self.now }
    {
        self.numbers.as_slice()
    }
}

// The path of a child of one with these numbers: a path of many is copied one number at a time.
#[inline(never)]
fn child_of(alloc: Global, numbers: &[u32], number: u32) -> Result<Path, Memory>
    ensures { IfOk result (λ path. path ≡ numbers.now ++ number ∷ []) }
{
    let mut longer = SmallVec::with_capacity(alloc, numbers.len().saturating_add(1))?;
    longer.extend_from_slice(numbers)?;
    longer.push(number)?;
    Ok(Path { numbers: longer })
}

// Which list stands before the other.
fn compare_lists(left: &[u32], right: &[u32]) -> Ordering
    ensures { result ≡ path_order left.now right.now }
{
    let shared = left.len().min(right.len());
    for i in 0..shared {
        let order = left[i].cmp(&right[i]);
        if order != Ordering::Equal {
            return order;
        }
    }
    left.len().cmp(&right.len())
}
