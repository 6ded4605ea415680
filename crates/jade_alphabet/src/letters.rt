ghost use Rattle.std.specs.Prelude.{◌≡◌};
ghost use Rattle.std.specs.List.{list_all};
ghost use Rattle.jade_alphabet.specs.Letters.{is_letter, is_letter_or_digit, is_word};

/// Whether a word may begin with a byte.
pub fn is_letter(byte: u8) -> bool
    ensures { result ≡ is_letter byte }
{
    byte.is_ascii_alphabetic() || byte == b'_'
}

/// Whether a word may go on with a byte.
pub fn is_letter_or_digit(byte: u8) -> bool
    ensures { result ≡ is_letter_or_digit byte }
{
    is_letter(byte) || byte.is_ascii_digit()
}

fn are_letters_or_digits(bytes: &[u8]) -> bool
    ensures { result ≡ list_all is_letter_or_digit bytes.now }
{
    bytes.iter().all(|byte| is_letter_or_digit(*byte))
}

/// Whether some bytes are a word, of any length. It takes no memory.
pub fn is_word(bytes: &[u8]) -> bool
    ensures { result ≡ is_word bytes.now }
{
    match bytes {
        [] => false,
        [first, rest @ ..] => is_letter(*first) && are_letters_or_digits(rest),
    }
}
