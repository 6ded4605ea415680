//! Labels of objects.

ghost use Rattle.std.specs.Prelude.{◌≡◌, ℕ, ◌<◌, ◌∷◌, ◌++◌, [], ◌↔◌, IsTrue};
ghost use Rattle.std.specs.Fmt.{decimal};
ghost use Rattle.run_record.specs.Pieces.{IsLabel};
ghost use Rattle.run_record.specs.steps.Cutting.{IsIndex};

use crate::pieces::cut;
use jade_alphabet::is_word;
use number_words::number_of;

/// Whether bytes are an index in brackets.
fn is_index(bytes: &[u8]) -> bool
    ensures { IsTrue result ↔ IsIndex bytes.now }
{
    match bytes {
        [b'[', digits @ .., b']'] => number_of(digits).is_some(),
        _ => false,
    }
}

/// Whether bytes are what an object may be called.
pub(crate) fn is_label(bytes: &[u8]) -> bool
    ensures { IsTrue result ↔ IsLabel bytes.now }
{
    let (name, index) = cut(bytes, b'[');
    is_word(name) && (index.is_empty() || is_index(index))
}
