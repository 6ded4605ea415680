ghost use Rattle.std.specs.Prelude.{◌≡◌, ◌<◌, length, slice_get, Some};

use jade_base::Pos;
use std::marker::Model;

/// Why a text has no tokens: the first refused place, or want of memory.
#[derive(Clone, Copy, Debug, PartialEq, Eq)]
pub enum LexError {
    /// A byte that begins no token, or the 65th byte of a word.
    Byte(Pos),
    /// The first byte of a run of digits that is no number.
    Number(Pos),
    /// An opening bracket that would be the 65th open one.
    Deep(Pos),
    /// Want of memory, which says nothing of the text.
    Memory,
}

/// A token: its bytes as a part of the text, the number of the byte at which it begins, counted
/// from 0, and the position of that byte.
#[derive(Clone, Copy, Debug)]
pub struct Lexeme<'t> {
    pub text: &'t [u8],
    pub start: usize,
    pub pos: Pos,
}

/// The tokens of a whole text in order, and the position of its end. Contracts see the record of
/// both. Only `tokens` makes one.
#[derive(Debug, Drop)]
pub struct Tokens<'t> {
    pub(crate) items: Vec<Lexeme<'t>>,
    pub(crate) end: Pos,
}

impl<'t> Model for Tokens<'t> {
    ghost use Rattle.std.specs.Prelude.{map};
    ghost use Rattle.jade_lexer.specs.Lexemes.{TokenList, token_of};

    ghost Value = { TokenList };

    ghost view = { λ t. record { lexemes = map token_of t.items.items; end = t.end } };
}

impl<'t> Tokens<'t> {
    ghost use Rattle.jade_lexer.specs.Lexemes.{token_of};

    /// The number of tokens.
    pub fn len(&self) -> usize
        ensures { result ≡ length self.now.lexemes }
    {
        self.items.len()
    }

    /// The token at a place, counted from 0.
    pub fn at(&self, place: usize) -> &Lexeme<'t>
        requires { place < length self.now.lexemes }
        ensures { slice_get self.now.lexemes place ≡ Some (token_of result.now) }
    {
        &self.items[place]
    }

    /// The position of the byte that would come next after the text.
    pub fn end(&self) -> Pos
        ensures { result ≡ self.now.end }
    {
        self.end
    }
}
