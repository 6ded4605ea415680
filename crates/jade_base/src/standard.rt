ghost use Rattle.std.specs.Prelude.{◌≡◌, ◌<◌, ◌≤◌, length, None, IfOk, OnOk, OnErr};
ghost use Rattle.std.specs.Io.KnownBytes.{ReadConsumes, WriteAppends};
ghost use Rattle.jade_base.specs.Bytes.{Rose};
ghost use Rattle.jade_base.specs.InMemory.{one_more};
ghost use Rattle.jade_base.specs.Standard.{reader_left, writer_holds, source_faults, sink_faults};

use crate::Failed;
use crate::sink::Sink;
use crate::source::Source;
use std::io::{Read, Write};

/// A reader of the system as a source. It tells no bytes.
#[derive(Drop)]
pub struct StdSource<R> {
    reader: R,
    faults: u64,
}

impl<R: Read> StdSource<R> {
    /// Each call of the source is one call of the reader; its errors are the faults.
    pub fn new(reader: R) -> StdSource<R>
        ensures reader { reader_left R.remaining result ≡ R.remaining reader }
        ensures faults { source_faults result ≡ 0 }
    {
        StdSource { reader, faults: 0 }
    }
}

impl<R: Read> Source for StdSource<R> {
    ghost left = { λ _. None };

    ghost faults = { source_faults };

    fn read(&mut self, buffer: &mut [u8]) -> Result<usize, Failed>
        ensures reader { ReadConsumes (reader_left R.remaining self.old)
            (reader_left R.remaining self.new) result buffer.new }
        ensures within { IfOk result (λ n. n ≤ length buffer.new) }
        ensures one { OnErr result (source_faults self.new ≡ one_more (source_faults self.old)) }
        ensures none { OnOk result (source_faults self.new ≡ source_faults self.old) }
        ensures fault { OnErr result (Rose (source_faults self.old) (source_faults self.new)) }
        ensures count { source_faults self.old ≤ source_faults self.new }
    {
        match self.reader.read(buffer) {
            Ok(count) => Ok(count),
            Err(_) => {
                self.faults = self.faults.saturating_add(1);
                Err(Failed)
            }
        }
    }
}

/// A writer of the system as a sink. It tells no bytes and no room.
#[derive(Drop)]
pub struct StdSink<W> {
    writer: W,
    faults: u64,
}

impl<W: Write> StdSink<W> {
    /// Each call of the sink is one call of the writer; its errors are the faults, and so is a call
    /// that takes nothing.
    pub fn new(writer: W) -> StdSink<W>
        ensures writer { writer_holds W.contents result ≡ W.contents writer }
        ensures faults { sink_faults result ≡ 0 }
    {
        StdSink { writer, faults: 0 }
    }
}

impl<W: Write> Sink for StdSink<W> {
    ghost taken = { λ _. None };

    ghost room = { λ _. None };

    ghost faults = { sink_faults };

    fn write(&mut self, piece: &[u8]) -> Result<usize, Failed>
        ensures writer { WriteAppends (writer_holds W.contents self.old)
            (writer_holds W.contents self.new) result piece.now }
        ensures some { IfOk result (λ n. 0 < n) }
        ensures within { IfOk result (λ n. n ≤ length piece.now) }
        ensures one { OnErr result (sink_faults self.new ≡ one_more (sink_faults self.old)) }
        ensures none { OnOk result (sink_faults self.new ≡ sink_faults self.old) }
        ensures fault { OnErr result (Rose (sink_faults self.old) (sink_faults self.new)) }
        ensures count { sink_faults self.old ≤ sink_faults self.new }
    {
        match self.writer.write(piece) {
            Ok(count) if count > 0 => Ok(count),
            _ => {
                self.faults = self.faults.saturating_add(1);
                Err(Failed)
            }
        }
    }
}
