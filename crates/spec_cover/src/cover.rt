ghost use Rattle.std.specs.Prelude.{◌≡◌, ◌≤◌, length, false, IfSome, IfNone};
ghost use Rattle.jade_base.specs.Specification.{IsAscending, rights_in};
ghost use Rattle.spec_cover.specs.Cover.{IsCovered, IsCoveredBelow, IsEnoughFrom, covered_on, first_uncovered};

use jade_base::{ObjectId, Rights, Spec};

/// The object of the least number on which the parent's rights do not cover the child's; `None`
/// exactly where they cover all. It takes no memory.
pub fn uncovered(parent: &Spec, child: &Spec) -> Option<ObjectId>
    ensures found { IfSome result (λ object. covered_on parent.now child.now object ≡ false) }
    ensures least { IfSome result (λ object. IsCoveredBelow parent.now child.now object.0) }
    ensures none { IfNone result (IsCovered parent.now child.now) }
{
    merged(parent, child)
}

// The first of the child's entries that the parent's rights do not cover, in one pass over them.
fn merged(parent: &Spec, child: &Spec) -> Option<ObjectId>
    ensures first { result ≡ first_uncovered parent.now.entries child.now.entries }
    ensures ascending { IsAscending child.now.entries }
{
    let mut place = 0;
    for i in 0..child.len() {
        let (object, rights) = child.entry(i);
        let (next, granted) = granted_from(parent, place, object);
        if !granted.covers(rights) {
            return Some(object);
        }
        place = next;
    }
    None
}

// Where the parent's rights on an object are to be sought, found by halves from a place on.
fn place_from(parent: &Spec, start: usize, object: ObjectId) -> usize
    requires enough { IsEnoughFrom parent.now.entries start object.0 }
    ensures enough { IsEnoughFrom parent.now.entries result object.0 }
{
    let mut low = start;
    let mut high = parent.len();
    'halves: while low < high {
        let middle = low + (high - low) / 2;
        let (found, _) = parent.entry(middle);
        if found.0 < object.0 {
            low = middle + 1;
        } else {
            high = middle;
        }
    }
    low
}

// The parent's rights on an object, sought from a place on, and the place where the search ended.
fn granted_from(parent: &Spec, start: usize, object: ObjectId) -> (usize, Rights)
    requires enough { IsEnoughFrom parent.now.entries start object.0 }
    ensures enough { IsEnoughFrom parent.now.entries result.0 object.0 }
    ensures granted { result.1 ≡ rights_in parent.now.entries object }
{
    let first = place_from(parent, start, object);
    for place in first..parent.len() {
        let (found, rights) = parent.entry(place);
        if found.0 == object.0 {
            return (place, rights);
        }
        if found.0 > object.0 {
            return (place, Rights::NONE);
        }
    }
    (parent.len(), Rights::NONE)
}

#[cfg(test)]
mod tests {
    use super::*;
    use jade_base::Right;
    use std::test::Fail;

    const READS: Rights = Rights {
        reads: Right::Immediate,
        writes: Right::Absent,
        commutes: Right::Absent,
    };

    const COMMUTES: Rights = Rights {
        reads: Right::Absent,
        writes: Right::Absent,
        commutes: Right::Deferred,
    };

    #[test]
    fn finds_the_least_object(rt: HostRuntime) -> Result<(), Fail> {
        let mut parent = Spec::empty(rt.alloc());
        for object in [1, 3, 6] {
            parent.declare(rt.alloc(), ObjectId(object), READS)?;
        }
        let mut child = Spec::empty(rt.alloc());
        assert_eq!(rt; uncovered(&parent, &child), None);
        child.declare(rt.alloc(), ObjectId(3), READS)?;
        assert_eq!(rt; uncovered(&parent, &child), None);
        child.declare(rt.alloc(), ObjectId(6), COMMUTES)?;
        child.declare(rt.alloc(), ObjectId(7), READS)?;
        assert_eq!(rt; uncovered(&parent, &child), Some(ObjectId(6)));
        child.declare(rt.alloc(), ObjectId(5), READS)?;
        assert_eq!(rt; uncovered(&parent, &child), Some(ObjectId(5)));
        Ok(())
    }

    #[test]
    fn finds_objects_declared_in_falling_order(rt: HostRuntime) -> Result<(), Fail> {
        let mut parent = Spec::empty(rt.alloc());
        for number in 0..20 {
            parent.declare(rt.alloc(), ObjectId(60 - 3 * number), READS)?;
        }
        parent.declare(rt.alloc(), ObjectId(61), COMMUTES)?;
        assert_eq!(rt; parent.len(), 21);
        assert_eq!(rt; parent.place_of(ObjectId(3)), Some(0));
        assert_eq!(rt; parent.place_of(ObjectId(30)), Some(9));
        assert_eq!(rt; parent.place_of(ObjectId(31)), None);
        assert_eq!(rt; parent.rights(ObjectId(60)), READS);
        assert_eq!(rt; parent.rights(ObjectId(61)), COMMUTES);
        let copy = parent.copy(rt.alloc())?;
        assert_eq!(rt; copy.place_of(ObjectId(61)), Some(20));
        assert_eq!(rt; uncovered(&parent, &copy), Some(ObjectId(61)));
        Ok(())
    }

    #[test]
    fn finds_objects_among_few(rt: HostRuntime) -> Result<(), Fail> {
        let mut parent = Spec::empty(rt.alloc());
        for object in [1, 7, 0, 4] {
            parent.declare(rt.alloc(), ObjectId(object), READS)?;
        }
        assert_eq!(rt; parent.place_of(ObjectId(0)), Some(0));
        assert_eq!(rt; parent.place_of(ObjectId(7)), Some(3));
        assert_eq!(rt; parent.place_of(ObjectId(3)), None);
        Ok(())
    }
}
