//! Sources and sinks.
ghost use Rattle.std.specs.Prelude.{◌≡◌, ◌≤◌, ◌++◌, length, IfOk, IsOk};
ghost use Rattle.jade_base.specs.Text.{OnFailed};

use crate::Stop;
use jade_base::{
    Failed, MemorySink, MemorySource, SureSink, SureSource, TextError, read_text, write_text,
};
use std::alloc::Global;

/// A text of one line.
const LINE: &str = "s = 7\n";

/// What callers know of the sure source: the text is all that it had, and it does not fail.
fn read_surely(alloc: Global, source: &mut SureSource) -> Result<Vec<u8>, TextError>
    ensures whole { IfOk result (λ text. text.items ≡ source.old) }
    ensures never { OnFailed result ⊥ }
{
    read_text(alloc, source)
}

/// What callers know of the sure sink: it takes what it has room for.
fn write_surely(sink: &mut SureSink, text: &[u8]) -> Result<(), Failed>
    requires { length text.now ≤ sink.old.room }
    ensures { IsOk result × (sink.new.taken ≡ sink.old.taken ++ text.now) }
{
    write_text(sink, text)
}

/// The calls that fail: one.
fn one(alloc: Global, call: u64) -> Result<Vec<u64>, Stop> {
    let mut calls = Vec::new(alloc);
    calls.push(call)?;
    Ok(calls)
}

/// A source that gives so many bytes a call, and of which one call fails.
pub fn sources(rt: &HostRuntime) -> Result<(), Stop> {
    let alloc = rt.alloc();
    for (cut, failing) in [(1, 9), (4, 9), (4, 0), (4, 1), (4, 2), (4, 3)] {
        let bytes = Vec::from_slice(alloc, LINE.as_bytes())?;
        let mut source = MemorySource::new(bytes, cut, one(alloc, failing)?);
        match read_text(alloc, &mut source) {
            Ok(text) => println!(rt; "cut {cut}, failing {failing}: {} bytes", text.len())?,
            Err(error) => println!(rt; "cut {cut}, failing {failing}: {error:?}")?,
        }
    }
    Ok(())
}

/// Texts of about 1 MiB, of which the longest are refused.
pub fn long_texts(rt: &HostRuntime) -> Result<(), Stop> {
    let alloc = rt.alloc();
    for count in [0, 1_048_576, 1_048_577, 1_048_578] {
        let mut bytes = Vec::new(alloc);
        bytes.resize(count, b'a')?;
        match read_surely(alloc, &mut SureSource::new(bytes)) {
            Ok(text) => println!(rt; "{count} given: {} read", text.len())?,
            Err(error) => println!(rt; "{count} given: {error:?}")?,
        }
    }
    Ok(())
}

/// A sink that takes so many bytes a call, of which one call fails, with so much room.
pub fn sinks(rt: &HostRuntime) -> Result<(), Stop> {
    let alloc = rt.alloc();
    for (cut, failing, room) in [(3, 1, 64), (3, 0, 64), (3, 2, 64), (9, 9, 6), (9, 9, 5)] {
        let mut sink = MemorySink::new(alloc, cut, one(alloc, failing)?, room)?;
        let written = write_text(&mut sink, LINE.as_bytes()).is_ok();
        let taken = sink.taken().len();
        println!(rt; "cut {cut}, failing {failing}, room {room}: {taken} taken, {written}")?;
    }
    Ok(())
}

/// A sink that can't fail takes what fits.
pub fn sure_sinks(rt: &HostRuntime) -> Result<(), Stop> {
    let mut sink = SureSink::new(rt.alloc(), 8)?;
    for text in ["abc", "", "ab", "1234567"] {
        let written = write_text(&mut sink, text.as_bytes()).is_ok();
        println!(rt; "{:?}: {written}, {} taken", text, sink.taken().len())?;
    }
    let mut sink = SureSink::new(rt.alloc(), 8)?;
    let written = write_surely(&mut sink, b"12345678").is_ok();
    println!(rt; "surely: {written}, {} taken", sink.taken().len())?;
    Ok(())
}
