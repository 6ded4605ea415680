ghost use Rattle.std.specs.Prelude.{◌≡◌, [], ◌∷◌, ◌++◌, ◌<◌, length, slice_get, Some, IfOk, MatchOption, MatchResult};
ghost use Rattle.std.specs.Option.{option_copied};

use std::alloc::Global;
use std::marker::Model;

/// A list that grows at its end. Contracts see it as the list of its items, and as nothing else:
/// two sequences with the same items are the same value, whatever room either has.
#[derive(Debug, Drop)]
pub struct Sequence<T> {
    items: Vec<T>,
}

impl<T> Model for Sequence<T> {
    ghost use Rattle.std.specs.Prelude.{List};
    ghost use Rattle.std.specs.Coded.{coded_list};

    ghost Value = { List T };

    ghost coded = { coded_list T.code };

    ghost view = { λ s. s.items.items };
}

impl<T> Sequence<T> {
    /// The empty list, which takes no memory. The list keeps the allocator for later pushes.
    pub fn empty(alloc: Global) -> Sequence<T>
        ensures { result ≡ [] }
    {
        Sequence {
            items: Vec::new(alloc),
        }
    }

    /// The items of a vector, in its order. It takes no memory.
    pub fn from_vec(items: Vec<T>) -> Sequence<T>
        ensures { result ≡ items.items }
    {
        Sequence { items }
    }

    /// The items as a vector, in order. It takes no memory.
    pub fn into_vec(self) -> Vec<T>
        ensures { result.items ≡ self }
    {
        self.items
    }

    /// Puts the item last. The error is want of memory: it hands the item back, and the list is
    /// as it was.
    pub fn push(&mut self, item: T) -> Result<(), T>
        ensures { MatchResult result (λ _. self.new ≡ self.old ++ item ∷ []) (λ back. (back ≡ item) × (self.new ≡ self.old)) }
    {
        match self.items.push(item) {
            Ok(()) => Ok(()),
            Err(failed) => Err(failed.value),
        }
    }

    /// The number of items.
    pub fn len(&self) -> usize
        ensures { result ≡ length self.now }
    {
        self.items.len()
    }

    /// The item at a place, counted from 0.
    pub fn at(&self, place: usize) -> &T
        requires { place < length self.now }
        ensures { slice_get self.now place ≡ Some result.now }
    {
        &self.items[place]
    }

    /// Takes the last item out; `None` exactly where the list is empty. It takes no memory.
    pub fn pop(&mut self) -> Option<T>
        ensures { MatchOption result ((self.old ≡ []) × (self.new ≡ [])) (λ last. self.old ≡ self.new ++ last ∷ []) }
    {
        self.items.pop()
    }

    /// The items themselves, in order. It takes no memory.
    pub fn as_slice(&self) -> &[T]
        ensures { result.now ≡ self.now }
    {
        self.items.as_slice()
    }
}

#[cfg(test)]
mod tests {
    use super::*;
    use std::test::Fail;

    #[test]
    fn grows_and_shrinks_at_its_end(rt: HostRuntime) -> Result<(), Fail> {
        let mut list = Sequence::empty(rt.alloc());
        assert_eq!(rt; list.pop(), None);
        for number in [3u32, 1, 4] {
            assert_eq!(rt; list.push(number), Ok(()));
        }
        assert_eq!(rt; list.len(), 3);
        assert_eq!(rt; *list.at(1), 1);
        assert_eq!(rt; list.as_slice(), [3, 1, 4].as_slice());
        assert_eq!(rt; list.pop(), Some(4));
        assert_eq!(rt; Sequence::from_vec(list.into_vec()).len(), 2);
        Ok(())
    }
}
