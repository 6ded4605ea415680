//! Text that is written token by token.

ghost use Rattle.std.specs.Prelude.{◌≡◌, ◌++◌, ◌∷◌, ◌<◌, [], length, OnOk, IfErr, Err};
ghost use Rattle.proc_expand.specs.steps.Sheets.{tokens_of, spaced_out, IsSheet};
ghost use Rattle.proc_expand.specs.declared.sheet.Stop.TheVariants.{Grown, Memory};

use jade_base::Pos;
use std::alloc::{AllocFailed, Global};

/// Why nothing more is written.
#[derive(Clone, Copy, Debug, PartialEq, Eq)]
pub(crate) enum Stop {
    Grown,
    Memory,
}

impl From<jade_base::Memory> for Stop {
    ghost from_gives = { λ _ stop. stop ≡ Memory };

    fn from(_error: jade_base::Memory) -> Stop {
        Stop::Memory
    }
}

impl<T: Drop> From<AllocFailed<T>> for Stop {
    ghost from_gives = { λ _ stop. stop ≡ Memory };

    fn from(_error: AllocFailed<T>) -> Stop {
        Stop::Memory
    }
}

/// A token that is written: where it begins and ends in the text, and where it comes from.
#[derive(Clone, Copy, Debug, PartialEq, Eq)]
pub(crate) struct Piece {
    pub(crate) start: usize,
    pub(crate) stop: usize,
    pub(crate) origin: Pos,
}

/// Tokens, each written with a space after it.
#[derive(Debug, Drop)]
pub(crate) struct Sheet {
    pub(crate) text: Vec<u8>,
    pub(crate) pieces: Vec<Piece>,
}

/// Nothing is written.
pub(crate) fn blank(alloc: Global) -> Sheet
    ensures sheet { IsSheet result }
    ensures tokens { tokens_of result ≡ [] }
{
    Sheet {
        text: Vec::new(alloc),
        pieces: Vec::new(alloc),
    }
}

/// Writes bytes at the end of others. Often it is one byte, which is written without a call.
#[inline(always)]
fn append(text: &mut Vec<u8>, bytes: &[u8]) -> Result<(), Stop>
    ensures written { OnOk result (text.new.items ≡ text.old.items ++ bytes.now) }
    ensures refused { IfErr result (λ stop. stop ≡ Memory) }
{
    match bytes {
        [byte] => text.push(*byte)?,
        _ => match text.extend_from_slice(bytes) {
            Ok(()) => {}
            Err(_) => return Err(Stop::Memory),
        },
    }
    Ok(())
}

/// Writes a token.
#[inline(always)]
#[tactic(auto, using(crate::proofs::SheetFacts::put_tokens, crate::proofs::SheetFacts::put_sheet, crate::proofs::SheetFacts::too_long))]
pub(crate) fn put(sheet: &mut Sheet, bytes: &[u8], origin: Pos) -> Result<(), Stop>
    requires { IsSheet sheet.old }
    ensures sheet { OnOk result (IsSheet sheet.new) }
    ensures tokens { OnOk result (tokens_of sheet.new ≡ tokens_of sheet.old ++ record { bytes = bytes.now; origin = origin } ∷ []) }
    ensures grown { result ≡ Err Grown → 1048576 < length (spaced_out (tokens_of sheet.old ++ record { bytes = bytes.now; origin = origin } ∷ [])) }
{
    let start = sheet.text.len();
    if bytes.len() >= 1_048_576 - start {
        return Err(Stop::Grown);
    }
    append(&mut sheet.text, bytes)?;
    sheet.text.push(b' ')?;
    sheet.pieces.push(Piece {
        start,
        stop: start + bytes.len(),
        origin,
    })?;
    Ok(())
}
