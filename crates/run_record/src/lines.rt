//! The lines of a recording, each by itself.

ghost use Rattle.std.specs.Prelude.{◌≡◌, ℕ, MatchOption, MatchResult};
ghost use Rattle.run_record.specs.Form.{IsLimitLine, IsNumbersLine, IsTurnsLine, IsAnswerLine};
ghost use Rattle.run_record.specs.steps.Cutting.{SpellsWithin};
ghost use Rattle.run_record.specs.steps.Unfit.{NoNumbers, NoTurns};

use crate::labels::is_label;
use crate::paths::{Unfit, paths_of};
use crate::pieces::{after, cut, next_piece};
use crate::turns::LabelledTurn;
use jade_base::{Memory, Numbers, Word};
use number_words::{number_of, signed_of};
use std::alloc::Global;

/// The most numbers of a run.
const MOST_NUMBERS: usize = 64;

/// The most lines of an answer.
const MOST_LINES: u32 = 4_096;

/// The number between two bounds that a word spells.
fn number_within(word: &[u8], least: u32, most: u32) -> Option<u32>
    ensures { MatchOption result ((n : ℕ) → SpellsWithin word.now least most n → ⊥) (SpellsWithin word.now least most) }
{
    match number_of(word) {
        Some(number) if least <= number && number <= most => Some(number),
        _ => None,
    }
}

/// The limit of the line `limit`.
pub(crate) fn limit_of(line: &[u8]) -> Option<u32>
    ensures { MatchOption result ((limit : ℕ) → IsLimitLine line.now limit → ⊥) (IsLimitLine line.now) }
{
    match after(line, b"limit ") {
        Some(word) => number_within(word, 1, u32::MAX),
        None => None,
    }
}

/// The numbers of the line `numbers`.
pub(crate) fn numbers_of(alloc: Global, line: &[u8]) -> Result<Numbers, Unfit>
    ensures { MatchResult result (IsNumbersLine line.now) (NoNumbers line.now) }
{
    let mut left = match after(line, b"numbers") {
        Some(left) => left,
        None => return Err(Unfit::Form),
    };
    let mut numbers = Numbers::empty(alloc);
    'pieces: while let Some((piece, rest)) = next_piece(left, b' ') {
        let number = match signed_of(piece) {
            Some(number) => number,
            None => return Err(Unfit::Form),
        };
        if numbers.len() >= MOST_NUMBERS {
            return Err(Unfit::Form);
        }
        if numbers.push(number).is_err() {
            return Err(Unfit::Memory);
        }
        left = rest;
    }
    if !left.is_empty() {
        return Err(Unfit::Form);
    }
    Ok(numbers)
}

/// The turns of a line `turns`.
pub(crate) fn turn_of(alloc: Global, line: &[u8]) -> Result<LabelledTurn, Unfit>
    ensures { MatchResult result (IsTurnsLine line.now) (NoTurns line.now) }
{
    let turns = match after(line, b"turns ") {
        Some(turns) => turns,
        None => return Err(Unfit::Form),
    };
    let (label, rest) = cut(turns, b' ');
    if !is_label(label) {
        return Err(Unfit::Form);
    }
    let paths = match paths_of(alloc, rest) {
        Ok(paths) => paths,
        Err(error) => return Err(error),
    };
    match Word::of(alloc, label) {
        Ok(label) => Ok(LabelledTurn { label, paths }),
        Err(Memory) => Err(Unfit::Memory),
    }
}

/// The count of the line `answer`.
pub(crate) fn count_of(line: &[u8]) -> Option<u32>
    ensures { MatchOption result ((count : ℕ) → IsAnswerLine line.now count → ⊥) (IsAnswerLine line.now) }
{
    match after(line, b"answer ") {
        Some(word) => number_within(word, 0, MOST_LINES),
        None => None,
    }
}
