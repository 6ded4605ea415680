//! What the layout asks of tokens.

ghost use Rattle.std.specs.Prelude.{◌≡◌, [], ◌∷◌, codes};
ghost use Rattle.jade_layout.specs.Layout.{is_among, opens_block, closes_block, is_number, is_free_word, ends_operand, is_sign, breaks, touches};

use jade_alphabet::is_letter;
use jade_syntax::name::{is_declare_word, is_reserved, same_name};

/// Whether the token is `{`.
pub(crate) fn opens_block(token: &[u8]) -> bool
    ensures { result ≡ opens_block token.now }
{
    same_name(token, b"{")
}

/// Whether the token is `}`.
pub(crate) fn closes_block(token: &[u8]) -> bool
    ensures { result ≡ closes_block token.now }
{
    same_name(token, b"}")
}

fn is_number(token: &[u8]) -> bool
    ensures { result ≡ is_number token.now }
{
    match token {
        [] => false,
        [first, ..] => first.is_ascii_digit(),
    }
}

fn is_free_word(token: &[u8]) -> bool
    ensures { result ≡ is_free_word token.now }
{
    match token {
        [] => false,
        [first, ..] => is_letter(*first) && !is_reserved(token),
    }
}

fn ends_operand(token: &[u8]) -> bool
    ensures { result ≡ ends_operand token.now }
{
    same_name(token, b"true")
        || same_name(token, b"false")
        || same_name(token, b")")
        || same_name(token, b"]")
        || is_number(token)
        || is_free_word(token)
}

/// Whether the token is a unary operator, with the token before it.
pub(crate) fn is_sign(before: &[u8], token: &[u8]) -> bool
    ensures { result ≡ is_sign before.now token.now }
{
    same_name(token, b"!") || (same_name(token, b"-") && !ends_operand(before))
}

fn goes_on(token: &[u8]) -> bool
    ensures { result ≡ is_among (codes "do" ∷ codes "else" ∷ codes "cont" ∷ []) token.now }
{
    same_name(token, b"do") || same_name(token, b"else") || same_name(token, b"cont")
}

/// Whether a new line begins between two tokens.
pub(crate) fn breaks(first: &[u8], second: &[u8]) -> bool
    ensures { result ≡ breaks first.now second.now }
{
    same_name(first, b";")
        || (opens_block(first) && !closes_block(second))
        || (closes_block(first) && !goes_on(second))
        || (closes_block(second) && !opens_block(first))
}

fn touches_next(token: &[u8]) -> bool
    ensures { result ≡ is_among (codes "(" ∷ codes "[" ∷ []) token.now }
{
    same_name(token, b"(") || same_name(token, b"[")
}

fn touches_last(token: &[u8]) -> bool
    ensures { result ≡ is_among (codes ")" ∷ codes "]" ∷ codes "[" ∷ codes "," ∷ codes ";" ∷ []) token.now }
{
    same_name(token, b")")
        || same_name(token, b"]")
        || same_name(token, b"[")
        || same_name(token, b",")
        || same_name(token, b";")
}

/// Whether two tokens of one line touch; the first may be a unary operator.
pub(crate) fn touches(first: &[u8], is_sign: bool, second: &[u8]) -> bool
    ensures { result ≡ touches first.now is_sign second.now }
{
    is_sign
        || touches_next(first)
        || touches_last(second)
        || (is_declare_word(first) && same_name(second, b"("))
}
