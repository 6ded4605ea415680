//! What a token of the text is: a sign, a name, a number, or none of them.

ghost use Rattle.std.specs.Prelude.{◌≡◌, ◌+◌, ◌-◌, ◌*◌, ◌<◌, ◌≤◌, length, codes, true, false, not, ◌&&◌, IfOk, IfSome, MatchOption, map};
ghost use Rattle.jade_parser.specs.Kinds.{is_kept, is_free, is_small_run, has_needless_zero, is_counted, token_of_bytes, IsValue, IsNumber};
ghost use Rattle.jade_parser.specs.steps.Reads.{IsSeen};
ghost use Rattle.jade_parser.specs.steps.Reads.{token_of};

use crate::lexicon::sign_of;
use crate::{Kind, Seen};
use jade_alphabet::{GREATEST_NUMBER, WORD_LIMIT, is_word};
use jade_lexer::Tokens;
use jade_syntax::name::same_name;
use std::alloc::{AllocError, Global};

/// Whether some bytes are a reserved word that stands in no form.
fn is_kept(text: &[u8]) -> bool
    ensures { result ≡ is_kept text.now }
{
    same_name(text, b"proc")
}

/// Whether some bytes that are no sign are a name.
fn is_free(text: &[u8]) -> bool
    ensures { result ≡ is_free text.now }
{
    text.len() <= WORD_LIMIT && is_word(text) && !is_kept(text)
}

/// The value of some digits, where it is no greater than the greatest number.
fn value(text: &[u8]) -> Option<u64>
    ensures { MatchOption result (is_small_run text.now ≡ false) (IsValue text.now) }
{
    if text.is_empty() {
        return None;
    }
    let mut value: u64 = 0;
    for byte in text {
        if !byte.is_ascii_digit() {
            return None;
        }
        let unit = u64::from(*byte - b'0');
        if value > (GREATEST_NUMBER - unit) / 10 {
            return None;
        }
        value = 10 * value + unit;
    }
    Some(value)
}

/// Whether a 0 stands in front of more.
fn has_needless_zero(text: &[u8]) -> bool
    ensures { result ≡ has_needless_zero text.now }
{
    match text {
        [first, _, ..] => *first == b'0',
        _ => false,
    }
}

/// The number that some bytes are.
fn number_of(text: &[u8]) -> Option<i64>
    ensures { MatchOption result (is_counted text.now ≡ false) (IsNumber text.now) }
{
    if has_needless_zero(text) {
        return None;
    }
    match value(text) {
        Some(value) => Some(value as i64),
        None => None,
    }
}

/// What some bytes are.
pub fn kind_of(text: &[u8]) -> Kind<'_>
    ensures { token_of result ≡ token_of_bytes text.now }
{
    if let Some(sign) = sign_of(text) {
        return Kind::Fixed(sign);
    }
    if is_free(text) {
        return Kind::Called(text);
    }
    match number_of(text) {
        Some(value) => Kind::Counted(value),
        None => Kind::Unknown,
    }
}

/// What each token of a text is, with its place.
pub fn classified<'t>(alloc: Global, tokens: &Tokens<'t>) -> Result<Vec<Seen<'t>>, AllocError>
    ensures { IfOk result (λ all. IsSeen tokens.now.lexemes all.items) }
{
    let mut all = Vec::new(alloc);
    for place in 0..tokens.len() {
        let lexeme = tokens.at(place);
        all.push(Seen {
            kind: kind_of(lexeme.text),
            pos: lexeme.pos,
        })?;
    }
    Ok(all)
}
