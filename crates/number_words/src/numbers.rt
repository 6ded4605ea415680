//! The number that a word spells.

ghost use Rattle.std.specs.Prelude.{◌≡◌, ℕ, ◌<◌, ◌^◌, ◌↔◌, true, ℤ, Some, IfSome, IsTrue};
ghost use Rattle.std.specs.Fmt.{decimal, signed_decimal};
ghost use Rattle.number_words.specs.Numbers.{is_number};

use itoa::Buffer;
use std::str;

/// The number that a text spells, leading zeros and a plus allowed.
fn parsed(text: &str) -> Option<u32>
    ensures { (n : ℕ) → n < 2 ^ 32 → text.now ≡ decimal n → result ≡ Some n }
{
    match text.parse::<u32>() {
        Ok(number) => Some(number),
        Err(_) => None,
    }
}

/// Whether a word is the decimal spelling of a number.
fn spells(word: &[u8], number: u32) -> bool
    ensures { IsTrue result ↔ (word.now ≡ decimal number) }
{
    let mut buffer = Buffer::new();
    buffer.format(number).as_bytes() == word
}

/// The number that a word spells in decimal, without a needless zero.
pub fn number_of(word: &[u8]) -> Option<u32>
    ensures some { IfSome result (λ n. word.now ≡ decimal n) }
    ensures fits { IfSome result (λ n. n < 4294967296) }
    ensures exact { (n : ℕ) → n < 4294967296 → word.now ≡ decimal n → result ≡ Some n }
{
    match str::from_utf8(word) {
        Ok(text) => match parsed(text) {
            Some(number) if spells(word, number) => Some(number),
            _ => None,
        },
        Err(_) => None,
    }
}

/// The number with its sign that a text spells, leading zeros and a plus allowed.
fn parsed_signed(text: &str) -> Option<i64>
    ensures { (z : ℤ) → is_number z ≡ true → text.now ≡ signed_decimal z → result ≡ Some z }
{
    match text.parse::<i64>() {
        Ok(number) => Some(number),
        Err(_) => None,
    }
}

/// Whether a word is the decimal spelling of a number with its sign.
fn spells_signed(word: &[u8], number: i64) -> bool
    ensures { IsTrue result ↔ (word.now ≡ signed_decimal number) }
{
    let mut buffer = Buffer::new();
    buffer.format(number).as_bytes() == word
}

/// The number with its sign that a word spells in decimal, without a needless zero.
pub fn signed_of(word: &[u8]) -> Option<i64>
    ensures some { IfSome result (λ z. word.now ≡ signed_decimal z) }
    ensures fits { IfSome result (λ z. is_number z ≡ true) }
    ensures exact { (z : ℤ) → is_number z ≡ true → word.now ≡ signed_decimal z → result ≡ Some z }
{
    match str::from_utf8(word) {
        Ok(text) => match parsed_signed(text) {
            Some(number) if spells_signed(word, number) => Some(number),
            _ => None,
        },
        Err(_) => None,
    }
}
