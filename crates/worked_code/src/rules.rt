//! Code that keeps the rules of code, or breaks one.

use code_meaning::{Body, Instruction, Operand};
use jade_base::{Memory, Pos};
use jade_syntax::tree::DeclareWord;
use std::alloc::Global;
use std::io;
use task_code::{At, Bad, Raw, validate};

/// The code of one body with so many slots, which is this instruction and the end, without inputs or
/// objects.
fn alone(alloc: Global, slots: u32, first: Instruction) -> Result<Raw, Memory> {
    let mut code = Vec::new(alloc);
    code.push(first)?;
    code.push(Instruction::Finish)?;
    let mut bodies = Vec::new(alloc);
    bodies.push(Body {
        call: Vec::new(alloc),
        slots,
        code,
    })?;
    Ok(Raw {
        bodies,
        inputs: 0,
        sizes: Vec::new(alloc),
    })
}

/// The first place at which the code breaks a rule; nothing where it keeps all of them.
fn broken(raw: Raw) -> Option<At> {
    if raw.bodies.len() != 1 || raw.bodies[0].code.len() != 2 {
        return None;
    }
    match validate(raw) {
        Ok(_) => None,
        Err(Bad(at)) => Some(at),
    }
}

/// Prints for some instructions whether they may stand first in a body of so many slots.
pub(crate) fn tell_rules(rt: &HostRuntime) -> io::Result<()> {
    let pos = Pos { line: 1, column: 1 };
    let within = Instruction::Within {
        size: 1,
        index: Operand::Whole(0),
        pos,
    };
    let declares = |operand| Instruction::Declare(DeclareWord::Rd, operand, pos);
    let cases = [
        (0, Instruction::Finish),
        (0, Instruction::Step),
        (0, Instruction::Jump(0)),
        (0, Instruction::Jump(1)),
        (0, Instruction::Set(0, Operand::Whole(7))),
        (1, Instruction::Set(0, Operand::Whole(7))),
        (1, Instruction::Set(0, Operand::Slot(1))),
        (2, Instruction::Turn(0, 0)),
        (3, Instruction::Turn(0, 0)),
        (3, Instruction::Next(0, 0)),
        (0, Instruction::Fresh(1, pos)),
        (0, declares(Operand::Whole(0))),
        (1, declares(Operand::Slot(0))),
        (0, within),
    ];
    for (slots, first) in cases {
        let Ok(raw) = alone(rt.alloc(), slots, first) else {
            return println!(rt; "no memory");
        };
        match broken(raw) {
            None => println!(rt; "{slots} slots, {first:?}: ok")?,
            Some(at) => println!(rt; "{slots} slots, {first:?}: bad at {at:?}")?,
        }
    }
    Ok(())
}
