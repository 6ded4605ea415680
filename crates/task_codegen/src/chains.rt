//! Instructions are put after one another, and jumps are written back.

ghost use Rattle.std.specs.Prelude.{◌≡◌, [], ◌∷◌, ◌++◌, List, ℕ, length, OnOk, IfOk};
ghost use Rattle.task_translation.specs.Compile.{brought, where_is};
ghost use Rattle.task_codegen.specs.Bodies.{Emits};
ghost use Rattle.code_meaning.specs.declared.code.Instruction.{Instruction as InstructionOf};
ghost use Rattle.task_codegen.specs.Chains.{Codes, Places, counted, opened, closed};

use code_meaning::code::{Instruction, Logic, Operand};
use jade_base::Memory;

/// One more instruction.
pub(crate) fn emit(code: &mut Vec<Instruction>, instr: Instruction) -> Result<(), Memory>
    ensures { OnOk result (Emits code.old.items code.new.items (instr ∷ [])) }
{
    match code.push(instr) {
        Ok(()) => Ok(()),
        Err(_) => Err(Memory),
    }
}

/// The value goes to the slot meant for it, where it is in an operand of its own.
pub(crate) fn bring(
    code: &mut Vec<Instruction>,
    slot: u32,
    value: Option<Operand>,
) -> Result<(), Memory>
    ensures { OnOk result (Emits code.old.items code.new.items (brought slot value)) }
{
    match value {
        None => Ok(()),
        Some(operand) => emit(code, Instruction::Set(slot, operand)),
    }
}

/// The operand in which a value is.
pub(crate) fn where_is(slot: u32, value: Option<Operand>) -> Operand
    ensures { result ≡ where_is slot value }
{
    match value {
        None => Operand::Slot(slot),
        Some(operand) => operand,
    }
}

// An instruction with another count.
fn counted(instr: Instruction, count: u32) -> Instruction
    ensures { result ≡ counted instr count }
{
    match instr {
        Instruction::Decide(logic, slot, _) => Instruction::Decide(logic, slot, count),
        Instruction::Jump(_) => Instruction::Jump(count),
        Instruction::JumpFalse(test, _) => Instruction::JumpFalse(test, count),
        Instruction::Turn(base, _) => Instruction::Turn(base, count),
        _ => instr,
    }
}

/// The jump at a place is written, now that all that it passes is there.
pub(crate) fn patch(code: &mut Vec<Instruction>, at: usize) -> Result<(), Memory>
    ensures { (base rest : List InstructionOf) (old : InstructionOf) → code.old.items ≡ base ++ old ∷ rest → length base ≡ at → OnOk result (code.new.items
        ≡ base ++ counted old (length rest) ∷ rest) }
{
    if at >= code.len() {
        return Err(Memory);
    }
    let passed = code.len() - at - 1;
    if passed as u64 >= 4_294_967_296 {
        return Err(Memory);
    }
    let instr = code[at];
    code[at] = counted(instr, passed as u32);
    Ok(())
}

/// The jumps of a chain are written, the last first.
pub(crate) fn close(code: &mut Vec<Instruction>, places: &Vec<usize>) -> Result<(), Memory>
    ensures { (l : Logic) (t : ℕ) (base : List InstructionOf) (cs : Codes) → Places l t base cs places.now.items → code.old.items ≡ base ++ opened l t cs
        → OnOk result (code.new.items ≡ base ++ closed l t cs) }
{
    let mut left = places.len();
    while left > 0 {
        left -= 1;
        let at = places[left];
        patch(code, at)?;
    }
    Ok(())
}
