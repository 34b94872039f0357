// The adapters over real streams.
ghost use Rattle.std.specs.Prelude.{◌≡◌, ◌<◌, length, take, None, OnOk, OnErr, IfOk};
ghost use Rattle.std.specs.Io.{ReadsAtMost, WritesAtMost};
ghost use Rattle.std.specs.Io.KnownBytes.{Appends};
ghost use Rattle.aql_io.specs.Bytes.{ReadsNext, AppendsFirst};
ghost use Rattle.aql_io.specs.Causes.{HasCause, one_more};
ghost use Rattle.aql_io.specs.Streams.{ReaderCounts, WriterCounts};

use crate::asking::{AskedReader, AskedWriter};
use crate::{ReadFailed, Sink, Source, WriteFailed};
use std::io::{Read, Write};
use std::marker::Model;

/// A source over a reader. It tells the bytes that are left where the reader tells them. Each read
/// asks the reader once, and is counted where the reader fails it, also by an interruption.
#[derive(Drop)]
pub struct StdSource<R: Read> {
    reader: AskedReader<R>,
}

impl<R: Read> Model for StdSource<R> {
    ghost use Rattle.aql_io.specs.Streams.{ReaderCounts};

    ghost Value = { ReaderCounts R };

    ghost view = { λ s. s.reader };
}

impl<R: Read> StdSource<R> {
    /// A source over this reader that has not failed yet.
    pub fn new(reader: R) -> Self
        ensures { result ≡ record { stream = reader; asked = 0; faults = 0 } }
    {
        StdSource {
            reader: AskedReader::new(reader),
        }
    }
}

impl<R: Read> Source for StdSource<R> {
    ghost left = { λ s. R.remaining s.stream };

    ghost faults = { λ s. s.faults };

    fn read_some(&mut self, into: &mut [u8]) -> Result<usize, ReadFailed>
        ensures bound { ReadsAtMost result into.new }
        ensures bytes { ReadsNext (R.remaining self.old.stream) (R.remaining self.new.stream)
            result into.new }
        ensures cause { HasCause self.old.faults self.new.faults result }
        ensures quiet { OnOk result (self.new.faults ≡ self.old.faults) }

        // The reader is asked once, unless there is no room; its failure is this one's.
        ensures idle { length into.old ≡ 0 → self.new ≡ self.old }
        ensures once { 0 < length into.old → self.new.asked ≡ one_more self.old.asked }
        ensures counted { OnErr result (self.new.faults ≡ one_more self.old.faults) }
    {
        if into.is_empty() {
            return Ok(0);
        }
        self.reader.read(into)
    }
}

/// A sink over a writer. Each write asks the writer once to take bytes, and then to flush them.
/// Where the writer takes nothing, the write has failed, and where the flush fails, it has too. The
/// sink does not tell what was written, since a writer may have taken bytes before a failed flush.
#[derive(Drop)]
pub struct StdSink<W: Write> {
    writer: AskedWriter<W>,
}

impl<W: Write> Model for StdSink<W> {
    ghost use Rattle.aql_io.specs.Streams.{WriterCounts};

    ghost Value = { WriterCounts W };

    ghost view = { λ s. s.writer };
}

impl<W: Write> StdSink<W> {
    /// A sink over this writer that has not failed yet.
    pub fn new(writer: W) -> Self
        ensures { result ≡ record { stream = writer; asked = 0; faults = 0; unflushed = 0 } }
    {
        StdSink {
            writer: AskedWriter::new(writer),
        }
    }
}

impl<W: Write> Sink for StdSink<W> {
    ghost written = { λ _. None };

    ghost faults = { λ s. s.faults };

    fn write_some(&mut self, piece: &[u8]) -> Result<usize, WriteFailed>
        ensures bound { WritesAtMost result piece.now }
        ensures bytes { AppendsFirst None None result piece.now }
        ensures cause { HasCause self.old.faults self.new.faults result }
        ensures quiet { OnOk result (self.new.faults ≡ self.old.faults) }

        // The writer is asked once, unless there are no bytes; its failure is this one's.
        ensures idle { length piece.now ≡ 0 → self.new ≡ self.old }
        ensures once { 0 < length piece.now → self.new.asked ≡ one_more self.old.asked }
        ensures counted { OnErr result (self.new.faults ≡ one_more self.old.faults) }

        // What the writer took, where it tells it: all that was written, and it was flushed; after
        // a failure what was not flushed, which is nothing where the write itself failed.
        ensures taken { IfOk result (λ n. Appends
            (W.contents self.old.stream) (W.contents self.new.stream) (take n piece.now)) }
        ensures flushed { OnOk result (0 < length piece.now → self.new.unflushed ≡ 0) }
        ensures front { OnErr result
            (Appends (W.contents self.old.stream) (W.contents self.new.stream)
            (take self.new.unflushed piece.now)) }
    {
        if piece.is_empty() {
            return Ok(0);
        }
        let count = self.writer.write(piece)?;
        self.writer.flush()?;
        Ok(count)
    }
}
