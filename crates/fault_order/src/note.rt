ghost use Rattle.std.specs.Prelude.{◌≡◌, [], length, IfSome, IfNone};
ghost use Rattle.jade_base.specs.Places.{is_before, key, path_order};
ghost use Rattle.fault_order.specs.Order.{IsFirstNote, comes_before, key_of};

use jade_base::{FaultNote, FaultNotes, Path};
use std::cmp::Ordering;

/// The note with the least key; of notes with one key the one that stands first in the list.
/// `None` exactly where the list is empty. It takes no memory.
pub fn first(notes: &FaultNotes) -> Option<&FaultNote>
    ensures first { IfSome result (λ note. IsFirstNote notes.now note.now) }
    ensures none { IfNone result (notes.now ≡ []) }
{
    if notes.len() == 0 {
        return None;
    }
    let mut best = 0;
    for i in 1..notes.len() {
        if comes_before(notes.at(i), notes.at(best)) {
            best = i;
        }
    }
    Some(notes.at(best))
}

// Whether the first note has the lesser key.
fn comes_before(left: &FaultNote, right: &FaultNote) -> bool
    ensures { result ≡ comes_before left.now right.now }
{
    key_is_before(&left.path, left.children, &right.path, right.children)
}

/// Whether one key is less than another, each given as a path and a number of children. It takes
/// no memory.
pub fn key_is_before(left: &Path, children: u32, right: &Path, others: u32) -> bool
    ensures { result ≡ is_before (key left.now children) (key right.now others) }
{
    compare_keys(left.numbers(), children, right.numbers(), others) == Ordering::Less
}

// The order of two keys, each given as a path and a number of children.
fn compare_keys(left: &[u32], children: u32, right: &[u32], others: u32) -> Ordering
    ensures { result ≡ path_order (key left.now children) (key right.now others) }
{
    for i in 0..left.len().min(right.len()) {
        let order = left[i].cmp(&right[i]);
        if order != Ordering::Equal {
            return order;
        }
    }
    if left.len() < right.len() {
        return children.cmp(&right[left.len()]).then(Ordering::Less);
    }
    if right.len() < left.len() {
        return left[right.len()].cmp(&others).then(Ordering::Greater);
    }
    children.cmp(&others)
}

#[cfg(test)]
mod tests {
    use super::*;
    use jade_base::{Blame, FaultKind, Path};
    use std::test::Fail;

    fn note(path: Path, children: u32) -> FaultNote {
        let blame = Blame {
            kind: FaultKind::Limit,
            pos: None,
        };
        FaultNote {
            path,
            children,
            blame,
        }
    }

    #[test]
    fn takes_the_least_key(rt: HostRuntime) -> Result<(), Fail> {
        let mut list = Vec::new(rt.alloc());
        let root = Path::root(rt.alloc())?;
        let first = root.child(rt.alloc(), 0)?;
        list.push(note(root.copy(rt.alloc())?, 1))?;
        list.push(note(first.child(rt.alloc(), 0)?, 0))?;
        list.push(note(first, 0))?;
        list.push(note(root, 2))?;
        let notes = FaultNotes::from_vec(list);
        assert!(rt; first_path_is(&notes, &[0, 0]));
        Ok(())
    }

    fn first_path_is(notes: &FaultNotes, numbers: &[u32]) -> bool {
        match first(notes) {
            Some(note) => note.path.numbers() == numbers,
            None => false,
        }
    }
}
