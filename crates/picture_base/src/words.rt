//! The words after a program's name.

ghost use Rattle.std.specs.Prelude.{◌≤◌, vec_len, IfOk};

use crate::stop::Stop;
use jade_base::Word;
use std::alloc::Global;
use std::env::{Env, FillError};
use std::str;

/// The room in which a word is read, in bytes; a longer one is no number.
const ROOM: usize = 64;

/// So many numbers are read at most: one more than a program has inputs at most.
const MOST_NUMBERS: usize = 65;

/// The word at this place, or none where there are fewer. At place 0 stands the program's name. The
/// error is a word of more than 64 bytes, or want of memory.
pub fn word_at<E: Env>(system: &E, alloc: Global, place: usize) -> Result<Option<Word>, Stop> {
    let mut room = Vec::new(alloc);
    room.resize(ROOM, 0)?;
    match system.arg(place, &mut room) {
        Ok(length) => Ok(Some(Word::of(alloc, &room[..length])?)),
        Err(FillError::NotPresent) => Ok(None),
        Err(FillError::TooLong) => Err(Stop::Words),
    }
}

/// The count that the word at this place spells. The error is another word or none, or want of
/// memory.
pub fn count_at<E: Env>(system: &E, alloc: Global, place: usize) -> Result<u32, Stop> {
    let Some(word) = word_at(system, alloc, place)? else {
        return Err(Stop::Words);
    };
    match str::from_utf8(word.bytes()) {
        Ok(text) => match text.parse::<u32>() {
            Ok(count) => Ok(count),
            Err(_) => Err(Stop::Words),
        },
        Err(_) => Err(Stop::Words),
    }
}

/// The number that a word spells.
fn number_of(word: &Word) -> Result<i64, Stop> {
    match str::from_utf8(word.bytes()) {
        Ok(text) => match text.parse::<i64>() {
            Ok(number) => Ok(number),
            Err(_) => Err(Stop::Words),
        },
        Err(_) => Err(Stop::Words),
    }
}

/// The numbers that the words from this place on spell, at most 65. The error is a word that spells
/// none, or want of memory.
pub fn numbers_from<E: Env>(system: &E, alloc: Global, place: usize) -> Result<Vec<i64>, Stop>
    ensures { IfOk result (λ numbers. vec_len numbers ≤ 65) }
{
    let mut numbers = Vec::new(alloc);
    for count in 0..MOST_NUMBERS {
        match word_at(system, alloc, place.saturating_add(count))? {
            Some(word) => numbers.push(number_of(&word)?)?,
            None => break,
        }
    }
    Ok(numbers)
}
