//! The slots of a task that begins.

ghost use Rattle.std.specs.Prelude.{◌≡◌, ◌+◌, ◌≤◌, [], ℤ, List, length, pos, slice_index_or, IfOk};
ghost use Rattle.code_meaning.specs.Meaning.{given_slots, passed};
ghost use Rattle.task_machine.specs.Stages.{slots_of};

use crate::frame::{Frame, worth};
use crate::room::emptied;
use code_meaning::code::Operand;
use jade_base::Memory;

/// So many slots, which all hold 0, in a vector that may have been used. The error is want of memory.
pub(crate) fn empty_slots(used: Vec<i64>, count: u32) -> Result<Vec<i64>, Memory>
    ensures empty { IfOk result (λ slots. slots_of slots.items ≡ given_slots []) }
    ensures long { IfOk result (λ slots. length slots.items ≡ count) }
{
    let mut slots = emptied(used, count as usize);
    slots.resize(count as usize, 0)?;
    Ok(slots)
}

// The number at a place, or 0 where there is none.
fn number_at(numbers: &[i64], place: usize) -> i64
    ensures { result ≡ slice_index_or numbers.now place (pos 0) }
{
    if place < numbers.len() {
        numbers[place]
    } else {
        0
    }
}

/// The inputs go to the first of slots that all hold 0, the first input to the last of them.
pub(crate) fn give_inputs(slots: &mut Vec<i64>, numbers: &[i64])
    requires room { length numbers.now ≤ length slots.old.items }
    requires empty { slots_of slots.old.items ≡ given_slots [] }
    ensures slots { slots_of slots.new.items ≡ given_slots numbers.now }
    ensures long { length slots.new.items ≡ length slots.old.items }
{
    let mut left = numbers.len();
    'inputs: while left > 0 {
        left -= 1;
        let number = number_at(numbers, left);
        slots[numbers.len() - left - 1] = number;
    }
}

/// What a creator gives goes to the slots after the inputs, the first of it to the last of them.
pub(crate) fn give_call(slots: &mut Vec<i64>, inputs: usize, call: &[Operand], frame: &Frame)
    requires room { inputs + length call.now ≤ length slots.old.items }
    ensures slots { (zs : List ℤ) → length zs ≡ inputs → slots_of slots.old.items ≡ given_slots zs
        → slots_of slots.new.items ≡ passed zs call.now (slots_of frame.now.slots.items) }
    ensures long { length slots.new.items ≡ length slots.old.items }
{
    let mut left = call.len();
    'call: while left > 0 {
        left -= 1;
        slots[inputs + call.len() - left - 1] = worth(frame, call[left]);
    }
}
