//! Bytes cut at a byte.

ghost use Rattle.std.specs.Prelude.{◌≡◌, ℕ, List, ◌∷◌, ◌++◌, MatchOption};
ghost use Rattle.run_record.specs.Form.{FirstLine};
ghost use Rattle.run_record.specs.steps.Cutting.{IsCut, IsPiece};

/// What stands before the first such byte, or all where there is none, and the rest from that byte on.
pub(crate) fn cut(bytes: &[u8], byte: u8) -> (&[u8], &[u8])
    ensures { IsCut byte bytes.now result.0.now result.1.now }
{
    let length = bytes.iter().take_while(|b| **b != byte).count();
    bytes.split_at(length)
}

/// The piece after the byte, up to the next such byte or the end, and the rest; `None` where the
/// bytes do not begin with that byte.
pub(crate) fn next_piece(bytes: &[u8], byte: u8) -> Option<(&[u8], &[u8])>
    ensures { MatchOption result ((after : List ℕ) → bytes.now ≡ byte ∷ after → ⊥) (λ p. IsPiece byte bytes.now p.0.now p.1.now) }
{
    match bytes.split_first() {
        Some((first, rest)) if *first == byte => Some(cut(rest, byte)),
        _ => None,
    }
}

/// The first line of bytes, and what stands after its line feed; `None` where there is no line feed.
pub fn first_line(bytes: &[u8]) -> Option<(&[u8], &[u8])>
    ensures { MatchOption result ((line after : List ℕ) → FirstLine bytes.now line after → ⊥) (λ r. FirstLine bytes.now r.0.now r.1.now) }
{
    let (line, rest) = cut(bytes, b'\n');
    match rest.split_first() {
        Some((_, after)) => Some((line, after)),
        None => None,
    }
}

/// What stands after a text; `None` where the bytes do not begin with it.
pub(crate) fn after<'a>(bytes: &'a [u8], text: &[u8]) -> Option<&'a [u8]>
    ensures { MatchOption result ((rest : List ℕ) → bytes.now ≡ text.now ++ rest → ⊥) (λ rest. bytes.now ≡ text.now ++ rest.now) }
{
    bytes.strip_prefix(text)
}
