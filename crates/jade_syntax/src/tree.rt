//! The tree of a program: one type for each production of the grammar. A chain of operators of one
//! level is kept as its first operand and a list of links, and parentheses are kept as a node.

use crate::Name;
use jade_base::Pos;
use jade_list::sequence::Sequence;

/// A number and the place of its first digit.
#[derive(Clone, Copy, Debug, PartialEq, Eq)]
pub struct Number {
    pub value: i64,
    pub pos: Pos,
}

/// A declaration before `main`: an input, a single object with its size in cells, or a family with
/// the number of its members and the size of each.
#[derive(Debug, Drop)]
pub enum Item {
    Input {
        name: Name,
        pos: Pos,
    },
    Single {
        name: Name,
        pos: Pos,
        size: Number,
    },
    Family {
        name: Name,
        pos: Pos,
        count: Number,
        size: Number,
    },
}

/// The kind of a local.
#[derive(Clone, Copy, Debug, PartialEq, Eq)]
pub enum ValueKind {
    Int,
    Bool,
}

/// The word of a declaration in a section.
#[derive(Clone, Copy, Debug, PartialEq, Eq)]
pub enum DeclareWord {
    Rd,
    Wr,
    RdWr,
    DfRd,
    DfWr,
    DfRdWr,
    Cm,
    NoRd,
    NoWr,
    NoRdWr,
}

/// `==`, `!=`, `<`, `<=`, `>`, `>=`.
#[derive(Clone, Copy, Debug, PartialEq, Eq)]
pub enum Relation {
    Equal,
    Unequal,
    Less,
    LessEqual,
    Greater,
    GreaterEqual,
}

/// `+` and `-` between two operands.
#[derive(Clone, Copy, Debug, PartialEq, Eq)]
pub enum SumOp {
    Plus,
    Minus,
}

/// `*`, `/` and `%`.
#[derive(Clone, Copy, Debug, PartialEq, Eq)]
pub enum ProductOp {
    Times,
    Over,
    Remainder,
}

/// `-` and `!` before an operand.
#[derive(Clone, Copy, Debug, PartialEq, Eq)]
pub enum UnaryOp {
    Negative,
    Not,
}

pub type Items = Sequence<Item>;

pub type Block = Sequence<Statement>;

pub type NameList = Sequence<Named>;

pub type AndExprs = Sequence<(Pos, AndExpr)>;

pub type Compares = Sequence<(Pos, Compare)>;

pub type Products = Sequence<(SumOp, Pos, Product)>;

pub type Unaries = Sequence<(ProductOp, Pos, Unary)>;

pub type Signs = Sequence<(UnaryOp, Pos)>;

/// A name of a `do` list and its place.
#[derive(Debug, Drop)]
pub struct Named {
    pub name: Name,
    pub pos: Pos,
}

/// A chain of `||`; each link has the operator's place.
#[cycle(expr)]
#[derive(Drop)]
pub struct Expr {
    pub first: AndExpr,
    pub rest: AndExprs,
}

/// A chain of `&&`; each link has the operator's place.
#[cycle(expr)]
#[derive(Drop)]
pub struct AndExpr {
    pub first: Compare,
    pub rest: Compares,
}

/// One sum, or two that are compared.
#[cycle(expr)]
#[derive(Drop)]
pub struct Compare {
    pub left: Sum,
    pub right: Option<(Relation, Pos, Sum)>,
}

/// A chain of `+` and `-`.
#[cycle(expr)]
#[derive(Drop)]
pub struct Sum {
    pub first: Product,
    pub rest: Products,
}

/// A chain of `*`, `/` and `%`.
#[cycle(expr)]
#[derive(Drop)]
pub struct Product {
    pub first: Unary,
    pub rest: Unaries,
}

/// Signs, the outermost first, before an atom.
#[cycle(expr)]
#[derive(Drop)]
pub struct Unary {
    pub signs: Signs,
    pub atom: Atom,
}

/// A number, a truth value, an expression in parentheses, a name, or a cell of an object.
#[cycle(expr)]
#[derive(Drop)]
pub enum Atom {
    Whole(Number),
    Truth(bool, Pos),
    Group(Pos, Box<Expr>),
    Named(Name, Pos),
    Cell(Box<CellRef>),
}

/// A cell of an object: `name[cell]`, or `name[family][cell]`.
#[cycle(expr)]
#[derive(Drop)]
pub struct CellRef {
    pub name: Name,
    pub pos: Pos,
    pub family: Option<Expr>,
    pub cell: Expr,
}

/// An object: `name`, or `name[member]`.
#[derive(Drop)]
pub struct ObjectRef {
    pub name: Name,
    pub pos: Pos,
    pub member: Option<Expr>,
}

/// A statement, of a body or of a section.
#[derive(Drop)]
pub enum Statement {
    Local {
        kind: ValueKind,
        name: Name,
        pos: Pos,
        value: Expr,
    },
    Assign {
        name: Name,
        pos: Pos,
        value: Expr,
    },
    Store {
        target: CellRef,
        value: Expr,
    },
    If {
        test: Expr,
        then: Block,
        otherwise: Option<Block>,
    },
    For {
        name: Name,
        pos: Pos,
        low: Expr,
        high: Expr,
        body: Block,
    },
    Withonly {
        pos: Pos,
        section: Block,
        names: NameList,
        body: Block,
    },
    With {
        pos: Pos,
        section: Block,
    },
    Declare {
        word: DeclareWord,
        pos: Pos,
        object: ObjectRef,
    },
}

/// A whole program.
#[derive(Drop)]
pub struct Program {
    pub items: Items,
    pub main: Block,
}
