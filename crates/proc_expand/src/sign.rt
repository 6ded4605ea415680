//! What tokens are to procedures and calls.

ghost use Rattle.std.specs.Prelude.{◌≡◌, ◌∷◌, [], IfOk};
ghost use Rattle.proc_expand.specs.Words.{sign_of, word_of, signs, at, before, bytes_at, is_proc, is_main, is_else};
ghost use Rattle.proc_expand.specs.Words.{is_kind, is_semicolon, is_comma, is_called, opens_round};
ghost use Rattle.proc_expand.specs.Words.{ends_statement, ends_item, same_bracket};

use jade_alphabet::is_letter;
use jade_base::Memory;
use jade_lexer::Tokens;
use jade_syntax::name::{is_name, same_name};
use std::alloc::Global;

/// A kind of brackets.
#[derive(Clone, Copy, Debug, PartialEq, Eq)]
pub enum Bracket {
    Round,
    Square,
    Curly,
}

/// What a token is to procedures and calls.
#[derive(Clone, Copy, Debug, PartialEq, Eq)]
pub enum Sign {
    Proc,
    Main,
    Else,
    /// `int` or `bool`.
    Kind,
    /// `input`, `object` or `objects`.
    ItemWord,
    /// A name.
    Called,
    Opens(Bracket),
    Closes(Bracket),
    Semicolon,
    Comma,
    /// Any other token, and what stands beyond the ends of a text.
    Other,
}

/// Where a bracket is closed by its own kind, or the first place at which a closing bracket is not
/// of the kind of what it would close.
#[derive(Clone, Copy, Debug, PartialEq, Eq)]
pub enum End {
    Closed(usize),
    Wrong(usize),
    Never,
}

/// What some bytes are.
#[tactic(auto, using(crate::proofs::WordBytes::one_byte, crate::proofs::WordBytes::sign_of_word))]
fn sign_of(text: &[u8]) -> Sign
    ensures { result ≡ sign_of text.now }
{
    if text.len() == 1 {
        sign_alone(text[0])
    } else {
        word_of(text)
    }
}

/// What a byte is that stands alone.
#[tactic(auto, using(crate::proofs::WordBytes::other_alone))]
fn sign_alone(byte: u8) -> Sign
    ensures { result ≡ sign_of (byte ∷ []) }
{
    match byte {
        b';' => Sign::Semicolon,
        b',' => Sign::Comma,
        b'(' => Sign::Opens(Bracket::Round),
        b')' => Sign::Closes(Bracket::Round),
        b'[' => Sign::Opens(Bracket::Square),
        b']' => Sign::Closes(Bracket::Square),
        b'{' => Sign::Opens(Bracket::Curly),
        b'}' => Sign::Closes(Bracket::Curly),
        _ => letter_alone(byte),
    }
}

/// What a byte is that stands alone and is no bracket, `;` or `,`.
#[tactic(auto, using(crate::proofs::WordBytes::letter_alone))]
fn letter_alone(byte: u8) -> Sign
    ensures { result ≡ word_of (byte ∷ []) }
{
    if is_letter(byte) {
        Sign::Called
    } else {
        Sign::Other
    }
}

/// What some bytes are that are no bracket, `;` or `,`.
fn word_of(text: &[u8]) -> Sign
    ensures { result ≡ word_of text.now }
{
    if same_name(text, b"proc") {
        Sign::Proc
    } else if same_name(text, b"main") {
        Sign::Main
    } else if same_name(text, b"else") {
        Sign::Else
    } else if same_name(text, b"int") || same_name(text, b"bool") {
        Sign::Kind
    } else if same_name(text, b"input")
        || same_name(text, b"object")
        || same_name(text, b"objects")
    {
        Sign::ItemWord
    } else if is_name(text) {
        Sign::Called
    } else {
        Sign::Other
    }
}

/// What the tokens of a text are.
pub(crate) fn signs(alloc: Global, tokens: &Tokens<'_>) -> Result<Vec<Sign>, Memory>
    ensures { IfOk result (λ found. found.items ≡ signs tokens.now.lexemes) }
{
    let mut found: Vec<Sign> = Vec::new(alloc);
    for place in 0..tokens.len() {
        found.push(sign_of(tokens.at(place).text))?;
    }
    Ok(found)
}

/// The bytes of the token at a place; past the end there are none.
pub(crate) fn bytes_at<'t>(tokens: &Tokens<'t>, place: usize) -> &'t [u8]
    ensures { result.now ≡ bytes_at tokens.now.lexemes place }
{
    if place < tokens.len() {
        tokens.at(place).text
    } else {
        b""
    }
}

/// The sign at a place; past the end there is none.
pub(crate) fn sign_at(signs: &[Sign], place: usize) -> Sign
    ensures { result ≡ at signs.now place }
{
    if place < signs.len() {
        signs[place]
    } else {
        Sign::Other
    }
}

/// The sign before a place.
pub(crate) fn sign_before(signs: &[Sign], place: usize) -> Sign
    ensures { result ≡ before signs.now place }
{
    if place == 0 {
        Sign::Other
    } else {
        sign_at(signs, place - 1)
    }
}

/// Whether it is `proc`.
pub(crate) fn is_proc(sign: Sign) -> bool
    ensures { result ≡ is_proc sign }
{
    match sign {
        Sign::Proc => true,
        _ => false,
    }
}

/// Whether it is `main`.
pub(crate) fn is_main(sign: Sign) -> bool
    ensures { result ≡ is_main sign }
{
    match sign {
        Sign::Main => true,
        _ => false,
    }
}

/// Whether it is `else`.
pub(crate) fn is_else(sign: Sign) -> bool
    ensures { result ≡ is_else sign }
{
    match sign {
        Sign::Else => true,
        _ => false,
    }
}

/// Whether it is `;`.
pub(crate) fn is_semicolon(sign: Sign) -> bool
    ensures { result ≡ is_semicolon sign }
{
    match sign {
        Sign::Semicolon => true,
        _ => false,
    }
}

/// Whether it is `,`.
pub(crate) fn is_comma(sign: Sign) -> bool
    ensures { result ≡ is_comma sign }
{
    match sign {
        Sign::Comma => true,
        _ => false,
    }
}

/// Whether it is a name.
pub(crate) fn is_called(sign: Sign) -> bool
    ensures { result ≡ is_called sign }
{
    match sign {
        Sign::Called => true,
        _ => false,
    }
}

/// Whether it is `(`.
pub(crate) fn opens_round(sign: Sign) -> bool
    ensures { result ≡ opens_round sign }
{
    match sign {
        Sign::Opens(Bracket::Round) => true,
        _ => false,
    }
}

/// Whether it is `int` or `bool`.
pub(crate) fn is_kind(sign: Sign) -> bool
    ensures { result ≡ is_kind sign }
{
    match sign {
        Sign::Kind => true,
        _ => false,
    }
}

/// Whether a statement may stand after it.
pub(crate) fn ends_statement(sign: Sign) -> bool
    ensures { result ≡ ends_statement sign }
{
    match sign {
        Sign::Semicolon => true,
        Sign::Opens(Bracket::Curly) => true,
        Sign::Closes(Bracket::Curly) => true,
        _ => false,
    }
}

/// Whether an item may stand after it.
pub(crate) fn ends_item(sign: Sign) -> bool
    ensures { result ≡ ends_item sign }
{
    match sign {
        Sign::Semicolon => true,
        Sign::Closes(Bracket::Curly) => true,
        _ => false,
    }
}

/// Whether two brackets are of one kind.
pub(crate) fn same_bracket(first: Bracket, second: Bracket) -> bool
    ensures { result ≡ same_bracket first second }
{
    match first {
        Bracket::Round => match second {
            Bracket::Round => true,
            Bracket::Square => false,
            Bracket::Curly => false,
        },
        Bracket::Square => match second {
            Bracket::Round => false,
            Bracket::Square => true,
            Bracket::Curly => false,
        },
        Bracket::Curly => match second {
            Bracket::Round => false,
            Bracket::Square => false,
            Bracket::Curly => true,
        },
    }
}
