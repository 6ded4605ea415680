//! The instructions of a task.

use jade_base::Pos;
use jade_syntax::tree::{DeclareWord, ProductOp, Relation, SumOp, UnaryOp};
use std::marker::Model;

/// An operator that takes two operands.
#[derive(Clone, Copy, Debug, PartialEq, Eq)]
pub enum BinaryOp {
    Relates(Relation),
    Adds(SumOp),
    Multiplies(ProductOp),
}

/// An operator whose first operand may be the answer.
#[derive(Clone, Copy, Debug, PartialEq, Eq)]
pub enum Logic {
    Or,
    And,
}

/// Where an instruction finds a value: in a slot, or in itself.
#[derive(Clone, Copy, Debug, PartialEq, Eq)]
pub enum Operand {
    Slot(u32),
    Whole(i64),
    Truth(bool),
}

/// One instruction. A `target` is the slot that gets the result. A jump tells how many instructions
/// behind the next one it goes to. The positions are those of the faults.
#[derive(Clone, Copy, Debug, PartialEq, Eq)]
pub enum Instruction {
    /// A step begins.
    Step,
    /// A slot gets a value.
    Set(u32, Operand),
    /// A slot gets what a sign makes of a value.
    Sign(UnaryOp, u32, Operand, Pos),
    /// A slot gets what an operator makes of two values.
    Operate(BinaryOp, u32, Operand, Operand, Pos),
    /// A jump, where the value of the slot decides.
    Decide(Logic, u32, u32),
    Jump(u32),
    /// A jump, where the value is not true.
    JumpFalse(Operand, u32),
    /// A loop, whose counter, bound and variable are the slots from this one on: a turn begins, with
    /// a step, or the loop is passed.
    Turn(u32, u32),
    /// The next turn begins, with a step, so many instructions back, or the loop is over.
    Next(u32, u32),
    /// The number of a member of a family, by its index.
    Member {
        first: u32,
        count: u32,
        target: u32,
        index: Operand,
        pos: Pos,
    },
    /// An index of a cell is within a size.
    Within {
        size: u32,
        index: Operand,
        pos: Pos,
    },
    /// The number of a member of a family, and then the index of a cell of it is within its size.
    Reach {
        first: u32,
        count: u32,
        size: u32,
        target: u32,
        index: Operand,
        cell: Operand,
        pos: Pos,
    },
    /// A cell of one object is read.
    ReadOf {
        object: u32,
        size: u32,
        target: u32,
        cell: Operand,
        pos: Pos,
    },
    /// A cell of a member of a family is read.
    ReadIn {
        first: u32,
        count: u32,
        size: u32,
        target: u32,
        index: Operand,
        cell: Operand,
        pos: Pos,
    },
    /// A cell of the object whose number is in a slot is read.
    Read {
        size: u32,
        target: u32,
        object: u32,
        cell: Operand,
        pos: Pos,
    },
    /// A cell of one object is written.
    WriteOf {
        object: u32,
        cell: Operand,
        value: Operand,
        pos: Pos,
    },
    /// A cell of the object whose number is in a slot is written.
    Write {
        object: u32,
        cell: Operand,
        value: Operand,
        pos: Pos,
    },
    /// The specification of a child begins, of so many objects. A task that commutes has a fault here.
    Fresh(u32, Pos),
    /// The task's own specification begins to change. A task that commutes has a fault here.
    Draft(Pos),
    /// A word on an object, by its number.
    Declare(DeclareWord, Operand, Pos),
    /// A task with the body of this number is created.
    Create(u32, Pos),
    /// The task's own specification has changed.
    Commit,
    /// The task ends.
    Finish,
}

/// The body of a task: what its creator gives it, as the creator finds it, the number of its slots,
/// and its instructions. The first slots have the inputs, the first input in the last of them; the
/// next have what the creator gives, the first of it in the last of them.
#[derive(Debug, Drop)]
pub struct Body {
    pub call: Vec<Operand>,
    pub slots: u32,
    pub code: Vec<Instruction>,
}

impl Model for Body {
    ghost use Rattle.code_meaning.specs.Meaning.{Body as BodyOf};

    ghost Value = { BodyOf };

    ghost view = { λ b. record { call = b.call.items; slots = b.slots; code = b.code.items } };
}
