//! Names and trees.

use crate::Stop;
use jade_base::Pos;
use jade_list::sequence::Sequence;
use jade_syntax::Name;
use jade_syntax::tree::{
    AndExpr, Atom, Compare, DeclareWord, Expr, Number, ObjectRef, Product, Program, Statement, Sum,
    SumOp, Unary, ValueKind,
};
use std::alloc::Global;

const AT: Pos = Pos { line: 1, column: 1 };

fn operand(alloc: Global, atom: Atom) -> Product {
    let first = Unary {
        signs: Sequence::empty(alloc),
        atom,
    };
    Product {
        first,
        rest: Sequence::empty(alloc),
    }
}

fn expression(alloc: Global, left: Sum) -> Expr {
    let first = AndExpr {
        first: Compare { left, right: None },
        rest: Sequence::empty(alloc),
    };
    Expr {
        first,
        rest: Sequence::empty(alloc),
    }
}

fn number(value: i64) -> Atom {
    Atom::Whole(Number { value, pos: AT })
}

/// A number and so many more that are added to it.
fn added(alloc: Global, value: i64, more: usize) -> Result<Expr, Stop> {
    let mut rest = Sequence::empty(alloc);
    for _ in 0..more {
        let link = (SumOp::Plus, AT, operand(alloc, number(1)));
        if rest.push(link).is_err() {
            return Err(Stop);
        }
    }
    let first = operand(alloc, number(value));
    Ok(expression(alloc, Sum { first, rest }))
}

/// `1` in so many parentheses.
fn nested(alloc: Global, depth: usize) -> Result<Expr, Stop> {
    let mut inner = added(alloc, 1, 0)?;
    for _ in 0..depth {
        let Ok(boxed) = Box::new(alloc, inner) else {
            return Err(Stop);
        };
        let left = Sum {
            first: operand(alloc, Atom::Group(AT, boxed)),
            rest: Sequence::empty(alloc),
        };
        inner = expression(alloc, left);
    }
    Ok(inner)
}

fn name(alloc: Global, bytes: &[u8]) -> Result<Name, Stop> {
    match Name::of(alloc, bytes) {
        Ok(name) => Ok(name),
        Err(_) => Err(Stop),
    }
}

/// A list with one item.
fn list_of<T: Drop>(alloc: Global, item: T) -> Result<Sequence<T>, Stop> {
    let mut list = Sequence::empty(alloc);
    match list.push(item) {
        Ok(()) => Ok(list),
        Err(_) => Err(Stop),
    }
}

/// Whether `main` with one statement is a program.
fn is_program(alloc: Global, statement: Statement) -> Result<bool, Stop> {
    let main = list_of(alloc, statement)?;
    Ok(Program::of(Sequence::empty(alloc), main).is_ok())
}

/// Whether `main { int a = value; }` is a program.
fn takes(alloc: Global, value: Expr) -> Result<bool, Stop> {
    let local = Statement::Local {
        kind: ValueKind::Int,
        name: name(alloc, b"a")?,
        pos: AT,
        value,
    };
    is_program(alloc, local)
}

/// `word(a);`
fn declare(alloc: Global, word: DeclareWord) -> Result<Statement, Stop> {
    let object = ObjectRef {
        name: name(alloc, b"a")?,
        pos: AT,
        member: None,
    };
    Ok(Statement::Declare {
        word,
        pos: AT,
        object,
    })
}

/// Whether `main { with { word(a); } cont; }` is a program.
fn amends(alloc: Global, word: DeclareWord) -> Result<bool, Stop> {
    let section = list_of(alloc, declare(alloc, word)?)?;
    is_program(alloc, Statement::With { pos: AT, section })
}

/// Which bytes are names.
pub fn names(rt: &HostRuntime) -> Result<(), Stop> {
    for text in ["wr", "1a", "", "wr_1"] {
        println!(rt;
            "{text:?} is a name: {}",
            Name::of(rt.alloc(), text.as_bytes()).is_ok()
        )?;
    }
    Ok(())
}

/// Which trees are those of programs.
pub fn programs(rt: &HostRuntime) -> Result<(), Stop> {
    let alloc = rt.alloc();
    println!(rt; "255 tokens: {}", takes(alloc, added(alloc, 0, 127)?)?)?;
    println!(rt; "257 tokens: {}", takes(alloc, added(alloc, 0, 128)?)?)?;
    println!(rt;
        "a negative number: {}",
        takes(alloc, added(alloc, -1, 0)?)?
    )?;
    println!(rt; "64 brackets: {}", takes(alloc, nested(alloc, 63)?)?)?;
    println!(rt; "65 brackets: {}", takes(alloc, nested(alloc, 64)?)?)?;
    println!(rt; "a change: {}", amends(alloc, DeclareWord::NoRd)?)?;
    println!(rt;
        "a child's word in a change: {}",
        amends(alloc, DeclareWord::DfRd)?
    )?;
    let declared = is_program(alloc, declare(alloc, DeclareWord::Rd)?)?;
    println!(rt; "a declaration in main: {declared}")?;
    Ok(())
}
