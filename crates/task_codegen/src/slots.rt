//! How many slots the bodies have.

ghost use Rattle.std.specs.Prelude.{◌≡◌, ◌<◌, ◌+◌, ◌++◌, ◌∷◌, [], List, Some, length, slice_get, slice_index_or, IfOk, OnOk};
ghost use Rattle.code_meaning.specs.Meaning.{Body as BodyOf};
ghost use Rattle.task_translation.specs.Room.{calls_of, reach, reaches, needs, room, with_slots, sized};

use crate::expressions::small;
use code_meaning::code::{Body, Instruction, Operand};
use jade_base::Memory;

/// How many slots there are up to that of an operand.
fn reach(operand: Operand) -> u64
    ensures { result ≡ reach operand }
{
    match operand {
        Operand::Slot(slot) => slot as u64 + 1,
        Operand::Whole(_) | Operand::Truth(_) => 0,
    }
}

/// How many slots there are up to those of operands.
fn reaches(operands: &[Operand]) -> u64
    ensures { result ≡ reaches operands.now }
{
    let mut most = 0;
    let mut left = operands.len();
    'operands: while left > 0 {
        left -= 1;
        most = reach(operands[left]).max(most);
    }
    most
}

/// How many slots there are up to those from which a body is given.
fn given_reach(bodies: &[Body], number: u32) -> u64
    ensures { result ≡ reaches (slice_index_or (calls_of bodies.now) number []) }
{
    let number = number as usize;
    if number < bodies.len() {
        let body = &bodies[number];
        reaches(body.call.as_slice())
    } else {
        0
    }
}

/// How many slots there are up to the last that an instruction names.
fn needs(bodies: &[Body], instruction: Instruction) -> u64
    ensures { result ≡ needs (calls_of bodies.now) instruction }
{
    match instruction {
        Instruction::Set(target, value)
        | Instruction::Sign(_, target, value, _)
        | Instruction::Member {
            target,
            index: value,
            ..
        }
        | Instruction::ReadOf {
            target,
            cell: value,
            ..
        } => (target as u64 + 1).max(reach(value)),
        Instruction::Operate(_, target, first, second, _)
        | Instruction::Reach {
            target,
            index: first,
            cell: second,
            ..
        }
        | Instruction::ReadIn {
            target,
            index: first,
            cell: second,
            ..
        }
        | Instruction::Write {
            object: target,
            cell: first,
            value: second,
            ..
        } => (target as u64 + 1).max(reach(first).max(reach(second))),
        Instruction::Read {
            target,
            object,
            cell,
            ..
        } => (target as u64 + 1).max((object as u64 + 1).max(reach(cell))),
        Instruction::WriteOf { cell, value, .. } => reach(cell).max(reach(value)),
        Instruction::Decide(_, slot, _) => slot as u64 + 1,
        Instruction::JumpFalse(value, _)
        | Instruction::Within { index: value, .. }
        | Instruction::Declare(_, value, _) => reach(value),
        Instruction::Turn(base, _) | Instruction::Next(base, _) => base as u64 + 3,
        Instruction::Create(number, _) => given_reach(bodies, number),
        Instruction::Step
        | Instruction::Jump(_)
        | Instruction::Fresh(_, _)
        | Instruction::Draft(_)
        | Instruction::Commit
        | Instruction::Finish => 0,
    }
}

/// How many slots instructions need, at least so many.
fn room(bodies: &[Body], least: u64, code: &[Instruction]) -> u64
    ensures { result ≡ room (calls_of bodies.now) least code.now }
{
    let mut most = least;
    let mut left = code.len();
    'code: while left > 0 {
        left -= 1;
        most = needs(bodies, code[left]).max(most);
    }
    most
}

/// How many slots a body has. The error is that they are too many.
fn slots_of(bodies: &[Body], inputs: u32, body: &Body) -> Result<u32, Memory>
    ensures { IfOk result (λ n. n ≡ (with_slots inputs (calls_of bodies.now) body.now).slots) }
{
    let given = small(body.call.len())?;
    let least = inputs as u64 + given as u64;
    let most = room(bodies, least, body.code.as_slice());
    u32::try_from(most).map_err(|_| Memory)
}

/// A body gets its slots.
fn set_slots(bodies: &mut Vec<Body>, at: usize, slots: u32)
    requires { at < length bodies.old.items }
    ensures { (base rest : List BodyOf) (old : BodyOf) → bodies.old.items ≡ base ++ old ∷ rest → length base ≡ at → bodies.new.items
        ≡ base ++ record { call = old.call; slots = slots; code = old.code } ∷ rest }
{
    bodies[at].slots = slots;
}

/// The bodies get their slots. The error is that they are too many.
pub(crate) fn size(bodies: &mut Vec<Body>, inputs: u32) -> Result<(), Memory>
    ensures { OnOk result (bodies.new.items ≡ sized inputs bodies.old.items) }
{
    'bodies: for at in 0..bodies.len() {
        let slots = slots_of(bodies.as_slice(), inputs, &bodies[at])?;
        set_slots(bodies, at, slots);
    }
    Ok(())
}
