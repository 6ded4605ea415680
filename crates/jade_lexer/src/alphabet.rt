ghost use Rattle.std.specs.Prelude.{◌≡◌, ◌<◌, ◌==◌, false, not, length, slice_index, nat_le};
ghost use Rattle.std.specs.List.{prefix_len};
ghost use Rattle.std.specs.Char.{is_ascii_digit};
ghost use Rattle.jade_lexer.specs.Alphabet.{is_separator, is_opener, is_closer, is_single, is_pair, longest, value_after, is_number};
ghost use Rattle.jade_alphabet.specs.Letters.{is_letter, is_letter_or_digit};
ghost use Rattle.jade_lexer.specs.Reading.{begins_comment};

use jade_alphabet::{GREATEST_NUMBER, is_letter, is_letter_or_digit};

/// Whether a byte separates tokens.
pub(crate) fn is_separator(byte: u8) -> bool
    ensures { result ≡ is_separator byte }
{
    byte == b' ' || byte == b'\t' || byte == b'\r' || byte == b'\n'
}

/// Whether a byte is an opening bracket.
pub(crate) fn is_opener(byte: u8) -> bool
    ensures { result ≡ is_opener byte }
{
    byte == b'(' || byte == b'[' || byte == b'{'
}

/// Whether a byte is a closing bracket.
pub(crate) fn is_closer(byte: u8) -> bool
    ensures { result ≡ is_closer byte }
{
    byte == b')' || byte == b']' || byte == b'}'
}

/// Whether a byte alone is a symbol.
fn is_single(byte: u8) -> bool
    ensures { result ≡ is_single byte }
{
    b"{}()[];:,=<>+-*/%!".contains(&byte)
}

/// Whether two bytes are a symbol together.
fn is_pair(first: u8, second: u8) -> bool
    ensures { result ≡ is_pair first second }
{
    (second == b'=' && b"=!<>".contains(&first)) || (second == first && b"&|.".contains(&first))
}

/// The length of the symbol that some bytes begin with, or 0.
fn symbol_length(bytes: &[u8]) -> usize
    requires nonempty { 0 < length bytes.now }
    requires no_letter { is_letter (slice_index bytes.now 0) ≡ false }
    requires no_digit { is_ascii_digit (slice_index bytes.now 0) ≡ false }
    ensures { result ≡ longest bytes.now }
{
    if bytes.len() > 1 && is_pair(bytes[0], bytes[1]) {
        2
    } else if is_single(bytes[0]) {
        1
    } else {
        0
    }
}

/// How many bytes a word could take of the front.
fn word_length(bytes: &[u8]) -> usize
    ensures { result ≡ prefix_len is_letter_or_digit bytes.now }
{
    bytes
        .iter()
        .take_while(|byte| is_letter_or_digit(**byte))
        .count()
}

/// How many digits stand at the front.
fn run_length(bytes: &[u8]) -> usize
    ensures { result ≡ prefix_len is_ascii_digit bytes.now }
{
    bytes
        .iter()
        .take_while(|byte| byte.is_ascii_digit())
        .count()
}

/// The length of the longest token that some bytes begin with, or 0 where they begin with none.
pub(crate) fn token_length(bytes: &[u8]) -> usize
    requires { 0 < length bytes.now }
    ensures { result ≡ longest bytes.now }
{
    if is_letter(bytes[0]) {
        word_length(bytes)
    } else if bytes[0].is_ascii_digit() {
        run_length(bytes)
    } else {
        symbol_length(bytes)
    }
}

/// Whether a comment begins here.
pub(crate) fn begins_comment(bytes: &[u8]) -> bool
    ensures { result ≡ begins_comment bytes.now }
{
    bytes.len() > 1 && bytes[0] == b'/' && bytes[1] == b'/'
}

/// How many bytes stand before the next line feed, or before the end.
pub(crate) fn line_length(bytes: &[u8]) -> usize
    ensures { result ≡ prefix_len (λ b. not (b == 10)) bytes.now }
{
    bytes.iter().take_while(|byte| **byte != b'\n').count()
}

/// Whether the value of some digits is no greater than the greatest number.
fn is_small(digits: &[u8]) -> bool
    ensures { result ≡ nat_le (value_after 0 digits.now) GREATEST_NUMBER }
{
    let mut value: u64 = 0;
    for digit in digits {
        let unit = u64::from(digit.saturating_sub(b'0'));
        if value > (GREATEST_NUMBER - unit) / 10 {
            return false;
        }
        value = 10 * value + unit;
    }
    true
}

/// Whether a run of digits before some bytes is a number.
pub(crate) fn is_number(run: &[u8], after: &[u8]) -> bool
    requires { 0 < length run.now }
    ensures { result ≡ is_number run.now after.now }
{
    (run.len() == 1 || run[0] != b'0')
        && is_small(run)
        && (after.is_empty() || !is_letter(after[0]))
}
