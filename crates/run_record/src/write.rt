//! A recording written.

ghost use Rattle.std.specs.Prelude.{◌≡◌, ◌<◌, ◌≤◌, ◌++◌, ◌∷◌, [], length, map, IfOk, OnOk, MatchResult, Some, slice_get};
ghost use Rattle.run_record.specs.Pieces.{each_after, path_text};
ghost use Rattle.run_record.specs.Recording.{answer_line, ended, numbers_line, recording as recording_text, text_line, turns_line};
ghost use Rattle.run_record.specs.Written.{IsWritten, IsUnwritten};
ghost use Rattle.std.specs.Fmt.{decimal, signed_decimal};

use crate::paths::{push_number, push_path};
use crate::recorded::{Lines, Record};
use crate::turns::{LabelledTurn, LabelledTurns};
use itoa::Buffer;
use jade_base::{Numbers, Path};
use std::alloc::{AllocError, Global};

/// The most bytes of a recording.
const MOST_BYTES: usize = 1_048_576;

/// Why there is no recording: it would have more than 1,048,576 bytes, or there was no memory.
#[derive(Clone, Copy, Debug, PartialEq, Eq)]
pub enum RecordError {
    Long,
    Memory,
}

/// Puts a text, a number and a line feed last.
fn push_counted(text: &mut Vec<u8>, head: &[u8], number: u32) -> Result<(), AllocError>
    ensures { OnOk result (text.new.items ≡ text.old.items ++ (head.now ++ decimal number ++ 10 ∷ [])) }
{
    text.extend_from_slice(head)?;
    push_number(text, number)?;
    text.push(b'\n')?;
    Ok(())
}

/// Puts a number with its sign last.
fn push_signed(text: &mut Vec<u8>, number: i64) -> Result<(), AllocError>
    ensures { OnOk result (text.new.items ≡ text.old.items ++ signed_decimal number) }
{
    let mut buffer = Buffer::new();
    text.extend_from_slice(buffer.format(number).as_bytes())
}

/// Puts numbers last, each after a space.
fn push_numbers(text: &mut Vec<u8>, numbers: &[i64]) -> Result<(), AllocError>
    ensures { OnOk result (text.new.items ≡ text.old.items ++ each_after 32 (map signed_decimal numbers.now)) }
{
    for i in 0..numbers.len() {
        text.push(b' ')?;
        push_signed(text, number_at(numbers, i))?;
    }
    Ok(())
}

/// Puts paths last, each after a space.
fn push_paths(text: &mut Vec<u8>, paths: &[Path]) -> Result<(), AllocError>
    ensures { OnOk result (text.new.items ≡ text.old.items ++ each_after 32 (map path_text paths.now)) }
{
    for i in 0..paths.len() {
        text.push(b' ')?;
        push_path(text, path_at(paths, i))?;
    }
    Ok(())
}

/// One of the numbers.
fn number_at(numbers: &[i64], place: usize) -> i64
    requires { place < length numbers.now }
    ensures { slice_get numbers.now place ≡ Some result }
{
    numbers[place]
}

/// One of the paths.
fn path_at(paths: &[Path], place: usize) -> &Path
    requires { place < length paths.now }
    ensures { slice_get paths.now place ≡ Some result.now }
{
    &paths[place]
}

/// Puts the line of the turns on an object last.
fn push_turn(text: &mut Vec<u8>, turn: &LabelledTurn) -> Result<(), AllocError>
    ensures { OnOk result (text.new.items ≡ text.old.items ++ (turns_line turn.now ++ 10 ∷ [])) }
{
    text.extend_from_slice(b"turns ")?;
    text.extend_from_slice(turn.label.bytes())?;
    push_paths(text, turn.paths.as_slice())?;
    text.push(b'\n')?;
    Ok(())
}

/// Puts the lines of turns last.
fn push_turns(text: &mut Vec<u8>, turns: &LabelledTurns) -> Result<(), AllocError>
    ensures { OnOk result (text.new.items ≡ text.old.items ++ ended (map turns_line turns.now)) }
{
    for i in 0..turns.len() {
        push_turn(text, turns.at(i))?;
    }
    Ok(())
}

/// Puts the lines of an answer last.
fn push_lines(text: &mut Vec<u8>, lines: &Lines) -> Result<(), AllocError>
    ensures { OnOk result (text.new.items ≡ text.old.items ++ ended lines.now) }
{
    for i in 0..lines.len() {
        text.extend_from_slice(lines.at(i).bytes())?;
        text.push(b'\n')?;
    }
    Ok(())
}

/// Puts the line of the numbers last.
fn push_numbers_line(text: &mut Vec<u8>, numbers: &Numbers) -> Result<(), AllocError>
    ensures { OnOk result (text.new.items ≡ text.old.items ++ (numbers_line numbers.now ++ 10 ∷ [])) }
{
    text.extend_from_slice(b"numbers")?;
    push_numbers(text, numbers.as_slice())?;
    text.push(b'\n')?;
    Ok(())
}

/// Puts the lines from the answer's count on last.
fn push_answer(text: &mut Vec<u8>, lines: &Lines) -> Result<(), AllocError>
    requires { length lines.now ≤ 4096 }
    ensures { OnOk result (text.new.items ≡ text.old.items ++ (answer_line (length lines.now) ++ 10 ∷ (ended lines.now ++ (text_line ++ 10 ∷ [])))) }
{
    push_counted(text, b"answer ", lines.len() as u32)?;
    push_lines(text, lines)?;
    text.extend_from_slice(b"text\n")?;
    Ok(())
}

/// The recording as text, of any length.
fn whole_text(alloc: Global, recording: &Record) -> Result<Vec<u8>, AllocError>
    ensures { IfOk result (λ text. text.items ≡ recording_text recording.now) }
{
    let mut text = Vec::from_slice(alloc, b"jade record 1\n")?;
    push_counted(&mut text, b"limit ", recording.limit)?;
    push_numbers_line(&mut text, &recording.numbers)?;
    push_turns(&mut text, &recording.turns)?;
    push_answer(&mut text, &recording.answer)?;
    text.extend_from_slice(recording.text.bytes())?;
    Ok(text)
}

/// The recording of a run, as text. `Long` is answered exactly where it would have more than
/// 1,048,576 bytes.
pub fn write_record(alloc: Global, recording: &Record) -> Result<Vec<u8>, RecordError>
    ensures { MatchResult result (λ text. IsWritten recording.now text.items) (IsUnwritten recording.now) }
{
    match whole_text(alloc, recording) {
        Ok(text) => {
            if text.len() > MOST_BYTES {
                Err(RecordError::Long)
            } else {
                Ok(text)
            }
        }
        Err(AllocError) => Err(RecordError::Memory),
    }
}
