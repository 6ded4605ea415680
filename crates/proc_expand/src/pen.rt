//! Tokens that are written, and the free names that they take.

ghost use Rattle.std.specs.Prelude.{◌≡◌, ◌∷◌, ◌≤◌, ◌<◌, [], List, length, OnOk, Err};
ghost use Rattle.jade_syntax.specs.Abstract.{Name};
ghost use Rattle.proc_expand.specs.steps.Replaced.{taken_names};
ghost use Rattle.proc_expand.specs.Written.{fresh_name, numbered_name};
ghost use Rattle.proc_expand.specs.steps.Sheets.{IsSheet};
ghost use Rattle.proc_expand.specs.steps.Pens.{IsPen, Wrote, IsTooLong, IsSmall, name_by, written};
ghost use Rattle.proc_expand.specs.declared.sheet.Stop.TheVariants.{Grown};

use crate::fresh::{free_number, write_name};
use crate::sheet::{Sheet, Stop, blank, put};
use crate::taken::Taken;
use jade_base::Pos;
use std::alloc::Global;

/// A sheet, and the free numbers of names from the first on, as far as they were wanted.
#[derive(Debug, Drop)]
pub(crate) struct Pen {
    pub(crate) sheet: Sheet,
    pub(crate) free: Vec<u64>,
}

/// Nothing is written.
pub(crate) fn new_pen(alloc: Global) -> Pen
    ensures pen { (names : List Name) → IsPen names result }
    ensures written { written result ≡ [] }
{
    Pen {
        sheet: blank(alloc),
        free: Vec::new(alloc),
    }
}

/// Writes a token as it is.
#[inline(always)]
pub(crate) fn put_bytes(pen: &mut Pen, bytes: &[u8], origin: Pos) -> Result<(), Stop>
    requires { IsSheet pen.old.sheet }
    ensures wrote { OnOk result ((names : List Name) → IsPen names pen.old → Wrote names (record { bytes = bytes.now; origin = origin } ∷ []) pen.old pen.new) }
    ensures grown { result ≡ Err Grown → IsTooLong pen.old (record { bytes = bytes.now; origin = origin } ∷ []) }
{
    put(&mut pen.sheet, bytes, origin)
}

/// Writes the name with a number.
fn put_numbered(pen: &mut Pen, number: u64, origin: Pos) -> Result<(), Stop>
    requires { IsSheet pen.old.sheet }
    ensures wrote { OnOk result ((names : List Name) → IsPen names pen.old → Wrote names (record { bytes = numbered_name number; origin = origin } ∷ []) pen.old pen.new) }
    ensures grown { result ≡ Err Grown → IsTooLong pen.old (record { bytes = numbered_name number; origin = origin } ∷ []) }
{
    let mut bytes = [0u8; 21];
    let start = write_name(number, &mut bytes);
    put_bytes(pen, &bytes[start..], origin)
}

/// Writes the free name with a number.
#[inline(never)]
fn put_fresh(taken: &Taken<'_>, pen: &mut Pen, number: usize, origin: Pos) -> Result<(), Stop>
    requires pen { IsPen (taken_names taken.now) pen.old }
    requires few { length (taken_names taken.now) ≤ 1048576 }
    requires small { number < 2199023255552 }
    ensures wrote { OnOk result (Wrote (taken_names taken.now) (record { bytes = fresh_name (taken_names taken.now) number; origin = origin } ∷ []) pen.old pen.new) }
    ensures grown { result ≡ Err Grown → IsTooLong pen.old (record { bytes = fresh_name (taken_names taken.now) number; origin = origin } ∷ []) }
{
    let free = free_number(taken, &mut pen.free, number)?;
    put_numbered(pen, free, origin)
}

/// Writes the free name with a number, or without one a name as it is.
#[inline(always)]
pub(crate) fn put_name(
    taken: &Taken<'_>,
    pen: &mut Pen,
    number: Option<usize>,
    name: &[u8],
    origin: Pos,
) -> Result<(), Stop>
    requires pen { IsPen (taken_names taken.now) pen.old }
    requires few { length (taken_names taken.now) ≤ 1048576 }
    requires small { IsSmall number }
    ensures wrote { OnOk result (Wrote (taken_names taken.now) (record { bytes = name_by (taken_names taken.now) number name.now; origin = origin } ∷ []) pen.old pen.new) }
    ensures grown { result ≡ Err Grown → IsTooLong pen.old (record { bytes = name_by (taken_names taken.now) number name.now; origin = origin } ∷ []) }
{
    match number {
        None => put_bytes(pen, name, origin),
        Some(number) => put_fresh(taken, pen, number, origin),
    }
}
