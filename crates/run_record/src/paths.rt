//! Paths of tasks as they are spelled.

ghost use Rattle.std.specs.Prelude.{◌≡◌, ◌≢◌, [], map, MatchResult, OnOk, ◌++◌, All};
ghost use Rattle.std.specs.Fmt.{decimal};
ghost use Rattle.run_record.specs.Pieces.{IsPath, each_after, path_text};
ghost use Rattle.run_record.specs.steps.Unfit.{NoPath, NoPaths};

use crate::pieces::{after, next_piece};
use itoa::Buffer;
use jade_base::{Memory, Path, PathList};
use jade_list::sequence::Sequence;
use number_words::number_of;
use smallvec::SmallVec;
use std::alloc::{AllocError, Global};

/// So many numbers of a path are read without memory of their own.
const SHORT: usize = 4;

/// Why a part of a line is not read: it is not of its form, or there was no memory, which says
/// nothing of it.
#[derive(Clone, Copy, Debug, PartialEq, Eq)]
pub(crate) enum Unfit {
    Form,
    Memory,
}

/// The path that a word spells.
fn path_of(alloc: Global, word: &[u8]) -> Result<Path, Unfit>
    ensures { MatchResult result (λ path. (word.now ≡ path_text path) × IsPath path) (NoPath word.now) }
{
    let mut left = match after(word, b"0") {
        Some(left) => left,
        None => return Err(Unfit::Form),
    };
    let mut numbers: SmallVec<u32, SHORT> = SmallVec::new(alloc);
    if numbers.push(0).is_err() {
        return Err(Unfit::Memory);
    }
    'pieces: while let Some((piece, rest)) = next_piece(left, b'.') {
        let number = match number_of(piece) {
            Some(number) => number,
            None => return Err(Unfit::Form),
        };
        if numbers.push(number).is_err() {
            return Err(Unfit::Memory);
        }
        left = rest;
    }
    if !left.is_empty() {
        return Err(Unfit::Form);
    }
    match Path::of(alloc, numbers.as_slice()) {
        Ok(path) => Ok(path),
        Err(Memory) => Err(Unfit::Memory),
    }
}

/// The paths that a text spells, one or more, each after a space.
pub(crate) fn paths_of(alloc: Global, text: &[u8]) -> Result<PathList, Unfit>
    ensures { MatchResult result (λ paths. (text.now ≡ each_after 32 (map path_text paths)) × (paths ≢ []) × All IsPath paths) (NoPaths text.now) }
{
    let mut paths = Sequence::empty(alloc);
    let mut left = text;
    'pieces: while let Some((piece, rest)) = next_piece(left, b' ') {
        let path = match path_of(alloc, piece) {
            Ok(path) => path,
            Err(error) => return Err(error),
        };
        if paths.push(path).is_err() {
            return Err(Unfit::Memory);
        }
        left = rest;
    }
    if paths.len() == 0 {
        return Err(Unfit::Form);
    }
    if !left.is_empty() {
        return Err(Unfit::Form);
    }
    Ok(paths)
}

/// Puts a number last.
pub(crate) fn push_number(text: &mut Vec<u8>, number: u32) -> Result<(), AllocError>
    ensures { OnOk result (text.new.items ≡ text.old.items ++ decimal number) }
{
    let mut buffer = Buffer::new();
    text.extend_from_slice(buffer.format(number).as_bytes())
}

/// Puts numbers last, each after a dot.
fn push_more(text: &mut Vec<u8>, numbers: &[u32]) -> Result<(), AllocError>
    ensures { OnOk result (text.new.items ≡ text.old.items ++ each_after 46 (map decimal numbers.now)) }
{
    for i in 0..numbers.len() {
        text.push(b'.')?;
        push_number(text, numbers[i])?;
    }
    Ok(())
}

/// Puts a path last.
pub(crate) fn push_path(text: &mut Vec<u8>, path: &Path) -> Result<(), AllocError>
    ensures { OnOk result (text.new.items ≡ text.old.items ++ path_text path.now) }
{
    if let Some((first, more)) = path.numbers().split_first() {
        push_number(text, *first)?;
        push_more(text, more)?;
    }
    Ok(())
}
