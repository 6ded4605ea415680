//! Whether a tree can be run with some numbers.

ghost use Rattle.std.specs.Prelude.{◌≡◌, ◌&&◌, length, nat_eq, nat_le};
ghost use Rattle.jade_syntax.specs.declared.objects.TheConstants.{OBJECT_LIMIT};
ghost use Rattle.jade_syntax.specs.Objects.{input_names, sizes};

use jade_syntax::objects::{has_few_objects, has_inputs};
use jade_syntax::tree::Program;

/// Whether there is one number for each input of a tree, and it declares at most 4,096 objects: the
/// tree can then be run with these numbers.
pub fn can_run(program: &Program, numbers: &[i64]) -> bool
    ensures { result ≡ (nat_eq (length numbers.now) (length (input_names program.now.items)) && nat_le (length (sizes program.now.items)) OBJECT_LIMIT) }
{
    has_inputs(&program.items, numbers.len()) && has_few_objects(&program.items)
}
