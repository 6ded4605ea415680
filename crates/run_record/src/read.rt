//! A recording read.

ghost use Rattle.std.specs.Prelude.{◌≡◌, ℕ, ◌+◌, ◌≤◌, [], ◌∷◌, ◌++◌, List, length, All, IfSome, IsTrue, ◌↔◌, MatchOption, MatchResult};
ghost use Rattle.run_record.specs.Pieces.{Lacks};
ghost use Rattle.run_record.specs.Recording.{head_line, limit_line, numbers_line, text_line};
ghost use Rattle.run_record.specs.Form.{at_head, at_limit, at_numbers, at_turns, at_answer, FirstLine, IsLimitLine, IsNumbersLine, IsRead, IsRefused, IsUnread};
ghost use Rattle.run_record.specs.steps.Rests.{EndingRead, Passed, TurnsRead, error_at};

use crate::lines::{count_of, limit_of, numbers_of, turn_of};
use crate::paths::Unfit;
use crate::pieces::first_line;
use crate::recorded::{Lines, Record};
use crate::turns::LabelledTurns;
use jade_base::{Memory, Numbers, Word};
use jade_list::sequence::Sequence;
use std::alloc::Global;

/// Why there is no record: the number of the first line that is not of its form, or that is missing
/// at the end; or there was no memory, which says nothing of the bytes.
#[derive(Clone, Copy, Debug, PartialEq, Eq)]
pub enum ReadError {
    Form(u32),
    Memory,
}

/// The bytes from a line on, and the number of that line, counted from 1.
#[derive(Clone, Copy)]
struct Rest<'a> {
    bytes: &'a [u8],
    number: u32,
    ghost within: { number + length bytes.now ≤ 1048577 },
}

impl<'a> Rest<'a> {
    /// The line, and the bytes from the next line on; `None` where no line ends.
    fn line(self) -> Option<(&'a [u8], Rest<'a>)>
        ensures none { MatchOption result ((line after : List ℕ) → FirstLine self.entry.bytes.now line after → ⊥)
            (λ r. FirstLine self.entry.bytes.now r.0.now r.1.bytes.now) }
        ensures next { IfSome result (λ r. r.1.number ≡ self.entry.number + 1) }
    {
        match first_line(self.bytes) {
            Some((line, bytes)) => Some((
                line,
                Rest {
                    bytes,
                    number: self.number + 1,
                },
            )),
            None => None,
        }
    }
}

/// Whether a line is a text.
fn is_text(line: &[u8], text: &[u8]) -> bool
    ensures { IsTrue result ↔ (line.now ≡ text.now) }
{
    line == text
}

/// Why a recording is not read whose line of a number is not.
fn at_line(unfit: Unfit, number: u32) -> ReadError
    ensures { result ≡ error_at number unfit }
{
    match unfit {
        Unfit::Form => ReadError::Form(number),
        Unfit::Memory => ReadError::Memory,
    }
}

/// Passes the first line.
fn read_head<'a>(rest: Rest<'a>) -> Result<Rest<'a>, ReadError>
    ensures { MatchResult result
        (λ r. Passed at_head rest.entry.number rest.entry.bytes.now at_limit r.number r.bytes.now (head_line ∷ []))
        (IsUnread at_head rest.entry.number rest.entry.bytes.now) }
{
    match rest.line() {
        Some((line, next)) => {
            if is_text(line, b"jade record 1") {
                Ok(next)
            } else {
                Err(ReadError::Form(rest.number))
            }
        }
        None => Err(ReadError::Form(rest.number)),
    }
}

/// The limit.
fn read_limit<'a>(rest: Rest<'a>) -> Result<(u32, Rest<'a>), ReadError>
    ensures { MatchResult result
        (λ r. IsLimitLine (limit_line r.0) r.0 × Passed at_limit rest.entry.number rest.entry.bytes.now at_numbers r.1.number r.1.bytes.now (limit_line r.0 ∷ []))
        (IsUnread at_limit rest.entry.number rest.entry.bytes.now) }
{
    match rest.line() {
        Some((line, next)) => match limit_of(line) {
            Some(limit) => Ok((limit, next)),
            None => Err(ReadError::Form(rest.number)),
        },
        None => Err(ReadError::Form(rest.number)),
    }
}

/// The numbers.
fn read_numbers<'a>(alloc: Global, rest: Rest<'a>) -> Result<(Numbers, Rest<'a>), ReadError>
    ensures { MatchResult result
        (λ r. IsNumbersLine (numbers_line r.0) r.0 × Passed at_numbers rest.entry.number rest.entry.bytes.now at_turns r.1.number r.1.bytes.now (numbers_line r.0 ∷ []))
        (IsUnread at_numbers rest.entry.number rest.entry.bytes.now) }
{
    match rest.line() {
        Some((line, next)) => match numbers_of(alloc, line) {
            Ok(numbers) => Ok((numbers, next)),
            Err(unfit) => Err(at_line(unfit, rest.number)),
        },
        None => Err(ReadError::Form(rest.number)),
    }
}

/// The turns, and the count of the answer's lines.
fn read_turns<'a>(
    alloc: Global,
    rest: Rest<'a>,
) -> Result<(LabelledTurns, u32, Rest<'a>), ReadError>
    ensures { MatchResult result
        (λ r. TurnsRead rest.entry.number rest.entry.bytes.now r.0 r.1 r.2.number r.2.bytes.now)
        (IsUnread at_turns rest.entry.number rest.entry.bytes.now) }
{
    let mut turns = Sequence::empty(alloc);
    let mut left = rest;
    'lines: while let Some((line, next)) = left.line() {
        match count_of(line) {
            Some(count) => return Ok((turns, count, next)),
            None => match turn_of(alloc, line) {
                Ok(turn) => {
                    if turns.push(turn).is_err() {
                        return Err(ReadError::Memory);
                    }
                    left = next;
                }
                Err(unfit) => return Err(at_line(unfit, left.number)),
            },
        }
    }
    Err(ReadError::Form(left.number))
}

/// The lines of the answer.
fn read_answer<'a>(
    alloc: Global,
    count: u32,
    rest: Rest<'a>,
) -> Result<(Lines, Rest<'a>), ReadError>
    ensures { MatchResult result
        (λ r. (length r.0 ≡ count) × All (Lacks 10) r.0 × Passed (at_answer count) rest.entry.number rest.entry.bytes.now (at_answer 0) r.1.number r.1.bytes.now r.0)
        (IsUnread (at_answer count) rest.entry.number rest.entry.bytes.now) }
{
    let mut lines = Sequence::empty(alloc);
    let mut left = rest;
    'lines: while lines.len() < count as usize {
        match left.line() {
            Some((line, next)) => {
                let line = match Word::of(alloc, line) {
                    Ok(line) => line,
                    Err(Memory) => return Err(ReadError::Memory),
                };
                if lines.push(line).is_err() {
                    return Err(ReadError::Memory);
                }
                left = next;
            }
            None => return Err(ReadError::Form(left.number)),
        }
    }
    Ok((lines, left))
}

/// The program's text, after the line before it.
fn read_text<'a>(rest: Rest<'a>) -> Result<&'a [u8], ReadError>
    ensures { MatchResult result
        (λ text. rest.entry.bytes.now ≡ text_line ++ 10 ∷ text.now)
        (IsUnread (at_answer 0) rest.entry.number rest.entry.bytes.now) }
{
    match rest.line() {
        Some((line, next)) => {
            if is_text(line, b"text") {
                Ok(next.bytes)
            } else {
                Err(ReadError::Form(rest.number))
            }
        }
        None => Err(ReadError::Form(rest.number)),
    }
}

/// The lines of the answer, and the program's text.
fn read_ending<'a>(alloc: Global, count: u32, rest: Rest<'a>) -> Result<(Lines, Word), ReadError>
    ensures { MatchResult result (λ r. EndingRead count rest.entry.bytes.now r.0 r.1) (IsUnread (at_answer count) rest.entry.number rest.entry.bytes.now) }
{
    let (answer, rest) = match read_answer(alloc, count, rest) {
        Ok(answer) => answer,
        Err(error) => return Err(error),
    };
    let bytes = match read_text(rest) {
        Ok(bytes) => bytes,
        Err(error) => return Err(error),
    };
    match Word::of(alloc, bytes) {
        Ok(text) => Ok((answer, text)),
        Err(Memory) => Err(ReadError::Memory),
    }
}

/// The record whose recording some bytes are. `Form` is answered where they are the recording of
/// none, with the number of the first line, counted from 1, that is not of its form after the lines
/// before it, or that is missing at the end. It takes time in proportion to the bytes.
pub fn read_record(alloc: Global, bytes: &[u8]) -> Result<Record, ReadError>
    requires { length bytes.now ≤ 1048576 }
    ensures { MatchResult result (IsRead bytes.now) (IsRefused bytes.now) }
{
    let rest = match read_head(Rest { bytes, number: 1 }) {
        Ok(rest) => rest,
        Err(error) => return Err(error),
    };
    let (limit, rest) = match read_limit(rest) {
        Ok(limit) => limit,
        Err(error) => return Err(error),
    };
    let (numbers, rest) = match read_numbers(alloc, rest) {
        Ok(numbers) => numbers,
        Err(error) => return Err(error),
    };
    let (turns, count, rest) = match read_turns(alloc, rest) {
        Ok(turns) => turns,
        Err(error) => return Err(error),
    };
    let (answer, text) = match read_ending(alloc, count, rest) {
        Ok(ending) => ending,
        Err(error) => return Err(error),
    };
    Ok(Record {
        limit,
        numbers,
        turns,
        answer,
        text,
    })
}
