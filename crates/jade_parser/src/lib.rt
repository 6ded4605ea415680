//! The parser: from the tokens of a text to the tree of its program, or to the first token that is
//! refused, or to the 257th token of an outermost expression.
//!
//! Floor `text`, over `jade_alphabet`, `jade_base`, `jade_lexer`, `jade_list` and `jade_syntax`.
#![tactic(auto)]

mod begins;
mod compound;
mod expressions;
mod growing;
mod items;
mod kinds;
pub mod laws;
mod leaves;
mod lexicon;
mod names;
mod outer;
mod pieces;
mod program;
mod simple;

use jade_base::Pos;
pub use program::parse;

/// A word or a symbol of the language. The grammar's parts are made of signs, so that proofs of
/// other crates name them.
#[derive(Clone, Copy, Debug, PartialEq, Eq)]
pub enum Sign {
    TrueWord,
    FalseWord,
    LeftParen,
    RightParen,
    LeftBracket,
    RightBracket,
    OrSign,
    AndSign,
    EqualSign,
    UnequalSign,
    LessSign,
    LessEqualSign,
    GreaterSign,
    GreaterEqualSign,
    PlusSign,
    MinusSign,
    TimesSign,
    OverSign,
    PercentSign,
    NotSign,
    Semicolon,
    Becomes,
    LeftBrace,
    RightBrace,
    IfWord,
    ElseWord,
    ForWord,
    InWord,
    DotDot,
    IntWord,
    BoolWord,
    WithonlyWord,
    WithWord,
    DoWord,
    ContWord,
    Comma,
    RdWord,
    WrWord,
    RdWrWord,
    DfRdWord,
    DfWrWord,
    DfRdWrWord,
    CmWord,
    NoRdWord,
    NoWrWord,
    NoRdWrWord,
    InputWord,
    ObjectWord,
    ObjectsWord,
    MainWord,
    Colon,
}

/// What a token is. `Unknown` is what stands in no program.
#[derive(Clone, Copy)]
pub(crate) enum Kind<'t> {
    Fixed(Sign),
    Called(&'t [u8]),
    Counted(i64),
    Unknown,
}

/// A token as what it is, and its place.
#[derive(Clone, Copy)]
pub(crate) struct Seen<'t> {
    pub kind: Kind<'t>,
    pub pos: Pos,
}

/// Why no tree was read: the number of the first refused token, or of the 257th token of an
/// outermost expression, counted from 0, or want of memory.
#[derive(Debug, Drop)]
pub(crate) enum Stop {
    Token(usize),
    Long(usize),
    Memory,
}

/// Why a text has no tree: the place of its first refused token, or of its end, where that is
/// refused; the place of the 257th token of an outermost expression; or want of memory, which says
/// nothing of the text.
#[derive(Clone, Copy, Debug, PartialEq, Eq)]
pub enum ParseError {
    Token(Pos),
    Long(Pos),
    Memory,
}
