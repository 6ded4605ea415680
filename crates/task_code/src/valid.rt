//! Whether code keeps the rules, and the first place where it does not.

ghost use Rattle.std.specs.Prelude.{◌≡◌, ◌<◌, ◌≤◌, ◌^◌, Some, true, false, length, slice_get, MatchResult};
ghost use Rattle.code_meaning.specs.declared.code.Instruction.{Instruction as InstructionOf};
ghost use Rattle.task_code.specs.Checking.{FirstBad, AnyBad};
ghost use Rattle.task_code.specs.Rules.{Valid, BadAt, IsSmall, is_there, are_there, slots_are_there, is_turn, places_are_there, is_size, have_size, is_object};
ghost use Rattle.task_code.specs.Rules.{objects_are_there, is_given, body_is_there, keeps, begins, fine};

use code_meaning::code::{Body, Instruction, Operand};
use std::marker::Model;

/// Bodies, the number of inputs, and the sizes of the objects. Contracts see these three.
#[derive(Debug, Drop)]
pub struct Raw {
    pub bodies: Vec<Body>,
    pub inputs: u32,
    pub sizes: Vec<u32>,
}

impl Model for Raw {
    ghost use Rattle.task_code.specs.Rules.{TaskCode};

    ghost Value = { TaskCode };

    ghost view = { λ r. record { bodies = r.bodies.items; inputs = r.inputs; sizes = r.sizes.items } };
}

/// A place of a body, both counted from 0.
#[derive(Clone, Copy, Debug, PartialEq, Eq)]
pub struct At {
    pub body: u32,
    pub place: u32,
}

/// The first place at which a rule is broken.
#[derive(Clone, Copy, Debug, PartialEq, Eq)]
pub struct Bad(pub At);

// Whether an operand names no slot past the end.
fn is_there(slots: u32, operand: Operand) -> bool
    ensures { result ≡ is_there slots operand }
{
    match operand {
        Operand::Slot(slot) => slot < slots,
        Operand::Whole(_) | Operand::Truth(_) => true,
    }
}

// Whether the slots that an instruction names are there.
fn slots_are_there(slots: u32, instruction: Instruction) -> bool
    ensures { result ≡ slots_are_there slots instruction }
{
    match instruction {
        Instruction::Set(target, value)
        | Instruction::Sign(_, target, value, _)
        | Instruction::Member {
            target,
            index: value,
            ..
        }
        | Instruction::ReadOf {
            target,
            cell: value,
            ..
        } => target < slots && is_there(slots, value),
        Instruction::Operate(_, target, first, second, _)
        | Instruction::Reach {
            target,
            index: first,
            cell: second,
            ..
        }
        | Instruction::ReadIn {
            target,
            index: first,
            cell: second,
            ..
        } => target < slots && is_there(slots, first) && is_there(slots, second),
        Instruction::Read {
            target,
            object,
            cell,
            ..
        } => target < slots && object < slots && is_there(slots, cell),
        Instruction::WriteOf { cell, value, .. } => is_there(slots, cell) && is_there(slots, value),
        Instruction::Write {
            object,
            cell,
            value,
            ..
        } => object < slots && is_there(slots, cell) && is_there(slots, value),
        Instruction::Decide(_, slot, _) => slot < slots,
        Instruction::JumpFalse(value, _)
        | Instruction::Within { index: value, .. }
        | Instruction::Declare(_, value, _) => is_there(slots, value),
        Instruction::Turn(base, _) | Instruction::Next(base, _) => base as u64 + 2 < slots as u64,
        Instruction::Step
        | Instruction::Jump(_)
        | Instruction::Fresh(_, _)
        | Instruction::Draft(_)
        | Instruction::Create(_, _)
        | Instruction::Commit
        | Instruction::Finish => true,
    }
}

// Whether a loop of these slots begins at a place, and passes so many instructions.
fn is_turn(code: &[Instruction], place: usize, base: u32, passed: u64) -> bool
    ensures { result ≡ is_turn base passed (slice_get code.now place) }
{
    match code.get(place) {
        Some(Instruction::Turn(slot, count)) => *slot == base && *count as u64 == passed,
        _ => false,
    }
}

// Whether the places to which an instruction may go are there.
fn places_are_there(code: &[Instruction], place: usize, instruction: Instruction) -> bool
    requires small { length code.now < 2 ^ 32 }
    requires place { place < length code.now }
    ensures { result ≡ places_are_there code.now place instruction }
{
    match instruction {
        Instruction::Finish => true,
        Instruction::Jump(count)
        | Instruction::Decide(_, _, count)
        | Instruction::JumpFalse(_, count)
        | Instruction::Turn(_, count) => place + 1 + (count as usize) < code.len(),
        Instruction::Next(base, back) => {
            place + 1 < code.len()
                && (back as usize) < place
                && is_turn(code, place - back as usize - 1, base, back as u64 + 1)
        }
        _ => place + 1 < code.len(),
    }
}

// Whether an object is there, with this size.
fn is_size(sizes: &[u32], object: usize, size: u32) -> bool
    ensures { result ≡ is_size size (slice_get sizes.now object) }
{
    match sizes.get(object) {
        Some(other) => *other == size,
        None => false,
    }
}

// Whether so many objects from one on are there, with this size.
fn have_size(sizes: &[u32], first: u32, count: u32, size: u32) -> bool
    ensures { result ≡ have_size sizes.now first count size }
{
    let begin = first as usize;
    'members: for i in 0..count as usize {
        if !is_size(sizes, begin + i, size) {
            return false;
        }
    }
    true
}

// Whether an operand that is itself the number of an object is that of one that is there.
fn is_object(objects: usize, operand: Operand) -> bool
    ensures { result ≡ is_object objects operand }
{
    match operand {
        Operand::Slot(_) => true,
        Operand::Whole(number) => number >= 0 && (number as u64) < (objects as u64),
        Operand::Truth(_) => false,
    }
}

// Whether the objects that an instruction names are there, with their sizes.
fn objects_are_there(sizes: &[u32], instruction: Instruction) -> bool
    ensures { result ≡ objects_are_there sizes.now instruction }
{
    match instruction {
        Instruction::Member { first, count, .. } => {
            0 < count && first as u64 + count as u64 <= sizes.len() as u64
        }
        Instruction::Reach {
            first,
            count,
            size,
            ..
        }
        | Instruction::ReadIn {
            first,
            count,
            size,
            ..
        } => 0 < count && have_size(sizes, first, count, size),
        Instruction::ReadOf { object, size, .. } => is_size(sizes, object as usize, size),
        Instruction::WriteOf { object, .. } => (object as usize) < sizes.len(),
        Instruction::Within { size, .. } | Instruction::Read { size, .. } => sizes.contains(&size),
        Instruction::Declare(_, object, _) => is_object(sizes.len(), object),
        Instruction::Fresh(count, _) => count as usize == sizes.len(),
        _ => true,
    }
}

// Whether operands name no slot past the end.
fn are_there(slots: u32, operands: &[Operand]) -> bool
    ensures { result ≡ are_there slots operands.now }
{
    'operands: for i in 0..operands.len() {
        if !is_there(slots, operands[i]) {
            return false;
        }
    }
    true
}

// Whether the body that an instruction creates is a later one, and finds what it is given.
fn body_is_there(bodies: &[Body], own: usize, slots: u32, instruction: Instruction) -> bool
    ensures { result ≡ body_is_there bodies.now own slots instruction }
{
    match instruction {
        Instruction::Create(number, _) => {
            own < number as usize
                && match bodies.get(number as usize) {
                    None => false,
                    Some(body) => are_there(slots, body.call.as_slice()),
                }
        }
        _ => true,
    }
}

// Whether the instruction at a place keeps the rules.
fn keeps(raw: &Raw, own: usize, body: &Body, place: usize) -> bool
    requires small { length body.now.code < 2 ^ 32 }
    requires place { place < length body.now.code }
    ensures { (x : InstructionOf) → slice_get body.now.code place ≡ Some x → result ≡ keeps raw.now own body.now place x }
{
    let instruction = body.code[place];
    slots_are_there(body.slots, instruction)
        && places_are_there(body.code.as_slice(), place, instruction)
        && objects_are_there(raw.sizes.as_slice(), instruction)
        && body_is_there(raw.bodies.as_slice(), own, body.slots, instruction)
}

// Whether the rules of a body as a whole are kept.
fn begins(raw: &Raw, own: usize, body: &Body) -> bool
    ensures { result ≡ begins raw.now own body.now }
{
    !body.code.is_empty()
        && raw.inputs as u64 + body.call.len() as u64 <= body.slots as u64
        && (0 < own || body.call.len() == 0)
}

// The first place of a body at which a rule is broken.
fn bad_place(raw: &Raw, own: usize, body: &Body) -> Option<usize>
    requires { length body.now.code < 2 ^ 32 }
    ensures { FirstBad raw.now own body.now result }
{
    if !begins(raw, own, body) {
        return Some(0);
    }
    'places: for place in 0..body.code.len() {
        if !keeps(raw, own, body, place) {
            return Some(place);
        }
    }
    None
}

/// Code that keeps the rules of docs/CODE.md: whatever its slots hold, each instruction has its
/// effect or its fault, but for a `Create` or `Commit` outside of its section. Contracts see what is
/// in it.
#[derive(Debug, Drop)]
pub struct Code {
    raw: Raw,
}

impl Model for Code {
    ghost use Rattle.task_code.specs.Rules.{TaskCode, Valid};

    ghost Value = { TaskCode };

    ghost view = { λ c. c.raw };

    ghost invariant = { λ c. Valid c.raw };
}

impl Code {
    /// Code that keeps the rules.
    pub fn of(raw: Raw) -> Code
        requires { Valid raw }
        ensures { result ≡ raw }
    {
        Code { raw }
    }

    /// That it keeps the rules. It does nothing.
    pub fn keeps_rules(&self)
        ensures { Valid self.now }
    {
        let _raw = &self.raw;
    }

    /// What is in it. It takes no memory.
    pub fn raw(&self) -> &Raw
        ensures { result.now ≡ self.now }
    {
        &self.raw
    }
}

// A place as two numbers.
fn bad_at(body: usize, place: usize) -> Bad
    requires body { body < 2 ^ 32 }
    requires place { place < 2 ^ 32 }
    ensures body { result.0.body ≡ body }
    ensures place { result.0.place ≡ place }
{
    Bad(At {
        body: body as u32,
        place: place as u32,
    })
}

// The first place at which a rule is broken.
fn first_bad(raw: &Raw) -> Option<Bad>
    requires { IsSmall raw.now }
    ensures { AnyBad raw.now result }
{
    if raw.bodies.len() == 0 {
        return Some(bad_at(0, 0));
    }
    'bodies: for own in 0..raw.bodies.len() {
        match bad_place(raw, own, &raw.bodies[own]) {
            None => {}
            Some(place) => return Some(bad_at(own, place)),
        }
    }
    None
}

/// Whether code keeps the rules of docs/CODE.md; the error is the first place, by body and then by
/// instruction, at which it breaks one. It takes no memory.
pub fn validate(raw: Raw) -> Result<Code, Bad>
    requires { IsSmall raw }
    ensures { MatchResult result (λ code. (code ≡ raw) × Valid raw) (λ bad. BadAt raw bad.0.body bad.0.place) }
{
    match first_bad(&raw) {
        None => Ok(Code::of(raw)),
        Some(bad) => Err(bad),
    }
}
