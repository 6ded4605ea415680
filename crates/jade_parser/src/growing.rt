//! Lists of a tree that grow.

ghost use Rattle.std.specs.Prelude.{◌≡◌, ◌++◌, [], ◌∷◌, MatchResult};
ghost use Rattle.jade_parser.specs.declared.Stop.TheVariants.{Memory};

use crate::Stop;
use jade_list::sequence::Sequence;

/// Puts an item last. The error is want of memory.
pub fn put<T: Drop>(all: &mut Sequence<T>, item: T) -> Result<(), Stop>
    ensures { MatchResult result (λ _. all.new ≡ all.old ++ item ∷ []) (λ e. e ≡ Memory) }
{
    match all.push(item) {
        Ok(()) => Ok(()),
        Err(_) => Err(Stop::Memory),
    }
}
