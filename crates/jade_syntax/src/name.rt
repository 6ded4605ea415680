ghost use Rattle.std.specs.Prelude.{◌≡◌, Bool, true, false, ◌&&◌, ◌||◌, not, length, IfOk, IfErr};
ghost use Rattle.std.specs.List.{list_any};
ghost use Rattle.jade_syntax.specs.Numbering.{same_name};
ghost use Rattle.jade_syntax.specs.Names.{item_words, statement_words, declare_words, is_reserved, is_name};
ghost use Rattle.jade_syntax.specs.Refusals.{IsNameRefusal};

use jade_alphabet::{WORD_LIMIT, is_word};
use std::alloc::{AllocError, Global};
use std::marker::Model;

/// A name of a program, which contracts see as its bytes.
#[derive(Debug, Drop)]
pub struct Name {
    bytes: Vec<u8>,
}

impl Model for Name {
    ghost use Rattle.std.specs.Prelude.{List, ℕ};

    ghost Value = { List ℕ };

    ghost view = { λ n. n.bytes.items };
}

/// Why some bytes were not made a name: they are none, or there was no memory, which says nothing
/// of the bytes.
#[derive(Clone, Copy, Debug, PartialEq, Eq)]
pub enum NameError {
    Shape,
    Memory,
}

impl Name {
    /// The bytes of the name. It takes no memory.
    pub fn bytes(&self) -> &[u8]
        ensures { result.now ≡ self.now }
    {
        self.bytes.as_slice()
    }

    /// A name of at most 64 bytes: letters, digits and `_`, the first no digit, and no reserved
    /// word.
    pub fn of(alloc: Global, bytes: &[u8]) -> Result<Name, NameError>
        ensures made { IfOk result (λ n. n ≡ bytes.now) }
        ensures a_name { IfOk result (λ _. is_name bytes.now ≡ true) }
        ensures refused { IfErr result (IsNameRefusal bytes.now) }
    {
        if !is_name(bytes) {
            return Err(NameError::Shape);
        }
        match Name::copied(alloc, bytes) {
            Ok(name) => Ok(name),
            Err(_) => Err(NameError::Memory),
        }
    }

    /// A name of these bytes.
    pub(crate) fn copied(alloc: Global, bytes: &[u8]) -> Result<Name, AllocError>
        ensures { IfOk result (λ n. n ≡ bytes.now) }
    {
        let bytes = Vec::from_slice(alloc, bytes)?;
        Ok(Name { bytes })
    }
}

/// Whether two names are the same. It takes no memory.
pub fn same_name(first: &[u8], second: &[u8]) -> bool
    ensures { result ≡ same_name first.now second.now }
{
    first == second
}

/// Whether some bytes are a word of items and of values.
pub fn is_item_word(bytes: &[u8]) -> bool
    ensures { result ≡ list_any (same_name bytes.now) item_words }
{
    same_name(bytes, b"input")
        || same_name(bytes, b"object")
        || same_name(bytes, b"objects")
        || same_name(bytes, b"main")
        || same_name(bytes, b"int")
        || same_name(bytes, b"bool")
        || same_name(bytes, b"true")
        || same_name(bytes, b"false")
}

/// Whether some bytes are a word of statements.
pub fn is_statement_word(bytes: &[u8]) -> bool
    ensures { result ≡ list_any (same_name bytes.now) statement_words }
{
    same_name(bytes, b"if")
        || same_name(bytes, b"else")
        || same_name(bytes, b"for")
        || same_name(bytes, b"in")
        || same_name(bytes, b"withonly")
        || same_name(bytes, b"do")
        || same_name(bytes, b"with")
        || same_name(bytes, b"cont")
        || same_name(bytes, b"proc")
}

/// Whether some bytes are a word of declarations.
pub fn is_declare_word(bytes: &[u8]) -> bool
    ensures { result ≡ list_any (same_name bytes.now) declare_words }
{
    same_name(bytes, b"rd")
        || same_name(bytes, b"wr")
        || same_name(bytes, b"rd_wr")
        || same_name(bytes, b"df_rd")
        || same_name(bytes, b"df_wr")
        || same_name(bytes, b"df_rd_wr")
        || same_name(bytes, b"cm")
        || same_name(bytes, b"no_rd")
        || same_name(bytes, b"no_wr")
        || same_name(bytes, b"no_rd_wr")
}

/// Whether some bytes are a word that the language keeps for itself. It takes no memory.
pub fn is_reserved(bytes: &[u8]) -> bool
    ensures { result ≡ is_reserved bytes.now }
{
    is_item_word(bytes) || is_statement_word(bytes) || is_declare_word(bytes)
}

/// Whether some bytes are a name. It takes no memory.
pub fn is_name(bytes: &[u8]) -> bool
    ensures { result ≡ is_name bytes.now }
{
    bytes.len() <= WORD_LIMIT && is_word(bytes) && !is_reserved(bytes)
}
