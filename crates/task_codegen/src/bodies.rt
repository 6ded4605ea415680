//! The code of the bodies of a program.

ghost use Rattle.std.specs.Prelude.{◌≡◌, [], ◌∷◌, ◌++◌, List, length, OnOk};
ghost use Rattle.code_meaning.specs.Meaning.{Body as BodyOf};

use code_meaning::code::Body;
use jade_base::Memory;

// A body whose code is finished takes the place that was kept for it.
pub(crate) fn fill(bodies: &mut Vec<Body>, at: usize, body: Body) -> Result<(), Memory>
    ensures { (base rest : List BodyOf) (old : BodyOf) → bodies.old.items ≡ base ++ old ∷ rest → length base ≡ at → OnOk result (bodies.new.items
        ≡ base ++ body ∷ rest) }
{
    if at >= bodies.len() {
        return Err(Memory);
    }
    bodies[at] = body;
    Ok(())
}
