ghost use Rattle.std.specs.Prelude.{◌≡◌, ℕ, ◌<◌, ◌≤◌, [], length, take, drop, IsOk, IfOk, OnOk, OnErr, Some};
ghost use Rattle.std.specs.Option.{ForSome};
ghost use Rattle.jade_base.specs.Bytes.{Rose, left_after, taken_with, room_after, Filled, WholeText, CutText};
ghost use Rattle.jade_base.specs.Text.{OnFailed, OnTooLong, OnMemory};

use crate::sink::Sink;
use crate::source::Source;
use crate::{Failed, Memory};
use std::alloc::Global;

/// The most bytes that a text may have.
const MOST_BYTES: usize = 1_048_576;

/// Why a text was not read.
#[derive(Clone, Copy, Debug, PartialEq, Eq)]
pub enum TextError {
    /// The source failed.
    Failed,
    /// The source had more than 1,048,576 bytes.
    TooLong,
    /// Memory was wanting.
    Memory,
}

/// Reads a source to its end, at most 1,048,577 bytes in all. The memory is taken before the first
/// byte is read.
pub fn read_text<S: Source>(alloc: Global, source: &mut S) -> Result<Vec<u8>, TextError>
    ensures ok { IfOk result (λ text. WholeText (S.left source.old) (S.left source.new) text.items) }
    ensures too_long { OnTooLong result (CutText (S.left source.old) (S.left source.new)) }
    ensures failed { OnFailed result (Rose (S.faults source.old) (S.faults source.new)) }
    ensures stopped { OnFailed result
        ((k : ℕ) × (k ≤ 1048576) × (S.left source.new ≡ left_after k (S.left source.old))) }
    ensures memory { OnMemory result (source.new ≡ source.old) }
    ensures count { S.faults source.old ≤ S.faults source.new }
{
    let mut text = match zeros(alloc, MOST_BYTES + 1) {
        Ok(text) => text,
        Err(Memory) => return Err(TextError::Memory),
    };
    match fill(source, text.as_mut_slice()) {
        Err(Failed) => Err(TextError::Failed),
        Ok(filled) if filled > MOST_BYTES => Err(TextError::TooLong),
        Ok(filled) => {
            text.truncate(filled);
            Ok(text)
        }
    }
}

// Fills the buffer from its head on, until the end of the source or of the buffer, and answers
// how many bytes it filled.
fn fill<S: Source>(source: &mut S, buffer: &mut [u8]) -> Result<usize, Failed>
    ensures filled { IfOk result (λ n. Filled (S.left source.old) (S.left source.new) n buffer.new) }
    ensures ended { IfOk result (λ n. n < length buffer.new
        → ForSome (S.left source.old) (λ b. n ≡ length b)) }
    ensures stopped { OnErr result ((k : ℕ) × (k < length buffer.new)
        × (S.left source.new ≡ left_after k (S.left source.old))) }
    ensures fault { OnErr result (Rose (S.faults source.old) (S.faults source.new)) }
    ensures count { S.faults source.old ≤ S.faults source.new }
{
    let mut filled = 0;
    while filled < buffer.len() {
        match source.read(&mut buffer[filled..]) {
            Ok(0) => return Ok(filled),
            Ok(count) => filled += count,
            Err(Failed) => return Err(Failed),
        }
    }
    Ok(filled)
}

// So many zero bytes.
fn zeros(alloc: Global, size: usize) -> Result<Vec<u8>, Memory>
    ensures { IfOk result (λ v. length v.items ≡ size) }
{
    Ok(vec![in alloc; 0; size]?)
}

/// Writes a text whole; an empty text makes no write. After `Failed` the sink took a part of the
/// text from its head on. It takes no memory.
pub fn write_text<K: Sink>(sink: &mut K, text: &[u8]) -> Result<(), Failed>
    ensures ok { OnOk result (K.taken sink.new ≡ taken_with (K.taken sink.old) text.now) }
    ensures less { OnOk result (K.room sink.new ≡ room_after (K.room sink.old) (length text.now)) }
    ensures failed { OnErr result (Rose (K.faults sink.old) (K.faults sink.new)) }
    ensures stopped { OnErr result ((k : ℕ) × (k < length text.now)
        × (K.taken sink.new ≡ taken_with (K.taken sink.old) (take k text.now))) }
    ensures fits { ForSome (K.room sink.old) (λ r. length text.now ≤ r → IsOk result) }
    ensures quiet { ForSome (K.room sink.old)
        (λ r. length text.now ≤ r → K.faults sink.new ≡ K.faults sink.old) }
    ensures empty { length text.now ≡ 0 → IsOk result × (sink.new ≡ sink.old) }
    ensures count { K.faults sink.old ≤ K.faults sink.new }
{
    let mut written = 0;
    while written < text.len() {
        written += sink.write(&text[written..])?;
    }
    Ok(())
}
