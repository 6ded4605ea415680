//! The words after the program's name.

use picture_base::{Stop, count_at, numbers_from, word_at};
use std::alloc::Global;
use std::env::Env;

/// The word that leaves out times and threads.
const UNTIMED: &[u8] = b"untimed";

/// What the words give.
#[derive(Drop)]
pub(crate) struct Words {
    pub(crate) is_timed: bool,
    pub(crate) workers: u32,
    pub(crate) limit: u32,
    pub(crate) numbers: Vec<i64>,
}

/// Whether the first word leaves out times and threads.
fn is_untimed<E: Env>(system: &E, alloc: Global) -> Result<bool, Stop> {
    match word_at(system, alloc, 1)? {
        Some(word) => Ok(word.bytes() == UNTIMED),
        None => Err(Stop::Words),
    }
}

/// What the words WORKERS LIMIT NUMBER* give, which may stand after `untimed`.
pub(crate) fn given<E: Env>(system: &E, alloc: Global) -> Result<Words, Stop> {
    let is_timed = !is_untimed(system, alloc)?;
    let place = if is_timed { 1 } else { 2 };
    Ok(Words {
        is_timed,
        workers: count_at(system, alloc, place)?,
        limit: count_at(system, alloc, place + 1)?,
        numbers: numbers_from(system, alloc, place + 2)?,
    })
}
