//! Names that a text does not have.

ghost use Rattle.std.specs.Prelude.{◌≡◌, ◌+◌, ◌*◌, ◌^◌, ◌<◌, ◌&&◌, length, drop, nat_lt, IfOk, OnOk};
ghost use Rattle.proc_expand.specs.Names.{is_among};
ghost use Rattle.proc_expand.specs.Written.{numbered_name, next_free as next_from, free_number as number_free};
ghost use Rattle.proc_expand.specs.steps.Replaced.{names_of, taken_names, AreFree};

use crate::naming::is_item;
use crate::taken::Taken;
use itoa::write_digits;
use jade_base::Memory;
use name_scope::NameScope;

/// Writes the name with a number at the end of some bytes, and says where it begins.
pub(crate) fn write_name(number: u64, bytes: &mut [u8]) -> usize
    requires { length bytes.old ≡ 21 }
    ensures start { result < 21 }
    ensures long { length bytes.new ≡ 21 }
    ensures name { drop result bytes.new ≡ numbered_name number }
{
    let start = write_digits(number, bytes, 21);
    bytes[start - 1] = b'v';
    start - 1
}

/// Whether the name with a number is among some.
fn is_known(names: &NameScope<'_, usize>, number: u64) -> bool
    ensures { result ≡ is_among (names_of names.now) (numbered_name number) }
{
    let mut bytes = [0u8; 21];
    let start = write_name(number, &mut bytes);
    is_item(names, &bytes[start..])
}

/// Whether the name with a number is taken.
fn is_taken(taken: &Taken<'_>, number: u64) -> bool
    ensures { result ≡ is_among (taken_names taken.now) (numbered_name number) }
{
    is_known(&taken.names, number)
}

/// Whether the name with a number is taken, where more are to be tried.
fn is_tried(taken: &Taken<'_>, number: u64, left: usize) -> bool
    ensures { result ≡ (nat_lt 0 left && is_among (taken_names taken.now) (numbered_name number)) }
{
    left > 0 && is_taken(taken, number)
}

/// The first number from one on whose name is not taken.
fn next_free(taken: &Taken<'_>, number: u64) -> u64
    requires { number + length (taken_names taken.now) < 2 ^ 64 }
    ensures value { result ≡ next_from (length (taken_names taken.now)) (taken_names taken.now) number }
{
    let mut next = number;
    let mut left = taken.len();
    'trying: while is_tried(taken, next, left) {
        next += 1;
        left -= 1;
    }
    next
}

/// The free number that follows some.
fn next_number(taken: &Taken<'_>, numbers: &[u64]) -> u64
    requires free { AreFree (taken_names taken.now) numbers.now }
    requires few { (length numbers.now + 1) * (length (taken_names taken.now) + 1) < 2 ^ 63 }
    ensures { result ≡ number_free (taken_names taken.now) (length numbers.now) }
{
    let count = numbers.len();
    if count == 0 {
        return next_free(taken, 0);
    }
    next_free(taken, numbers[count - 1] + 1)
}

/// The free number of a place, with those before it.
pub(crate) fn free_number(
    taken: &Taken<'_>,
    numbers: &mut Vec<u64>,
    wanted: usize,
) -> Result<u64, Memory>
    requires free { AreFree (taken_names taken.now) numbers.old.items }
    requires few { (wanted + 1) * (length (taken_names taken.now) + 1) < 2 ^ 63 }
    ensures free { OnOk result (AreFree (taken_names taken.now) numbers.new.items) }
    ensures value { IfOk result (λ number. number ≡ number_free (taken_names taken.now) wanted) }
{
    'growing: while numbers.len() <= wanted {
        numbers.push(next_number(taken, numbers))?;
    }
    Ok(numbers[wanted])
}
