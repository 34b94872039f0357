// Real streams, each call of which asks the stream once and counts it. What a stream does is beyond
// any proof, so these few lines are the trusted edge.
ghost use Rattle.std.specs.Prelude.{◌≡◌, ◌<◌, length, take, MatchResult};
ghost use Rattle.std.specs.Io.{ReadsAtMost, WritesAtMost};
ghost use Rattle.std.specs.Io.KnownBytes.{Appends, Keeps, ReadConsumes};
ghost use Rattle.aql_io.specs.Causes.{HasCause, one_more};
ghost use Rattle.aql_io.specs.Streams.{ReaderCounts, WriterCounts};

use crate::{ReadFailed, WriteFailed};
use std::io::{Read, Write};
use std::marker::Model;

/// A reader that counts how often it was asked and how often it failed.
#[derive(Drop)]
pub(crate) struct AskedReader<R: Read> {
    reader: R,
    asked: u64,
    faults: u64,
}

impl<R: Read> Model for AskedReader<R> {
    ghost use Rattle.aql_io.specs.Streams.{ReaderCounts};

    ghost Value = { ReaderCounts R };

    ghost view = { λ r. record { stream = r.reader; asked = r.asked; faults = r.faults } };
}

impl<R: Read> AskedReader<R> {
    pub(crate) fn new(reader: R) -> Self
        ensures { result ≡ record { stream = reader; asked = 0; faults = 0 } }
    {
        AskedReader {
            reader,
            asked: 0,
            faults: 0,
        }
    }

    // Asks the reader once. Each failure is counted, also one that was only interrupted.
    pub(crate) fn read(&mut self, into: &mut [u8]) -> Result<usize, ReadFailed>
        ensures bound { ReadsAtMost result into.new }
        ensures bytes { ReadConsumes (R.remaining self.old.stream) (R.remaining self.new.stream)
            result into.new }
        ensures room { length into.new ≡ length into.old }
        ensures once { self.new.asked ≡ one_more self.old.asked }
        ensures cause { HasCause self.old.faults self.new.faults result }
        ensures counted { MatchResult result
            (λ _. self.new.faults ≡ self.old.faults)
            (λ _. self.new.faults ≡ one_more self.old.faults) }
    {
        self.asked = self.asked.saturating_add(1);
        match self.reader.read(into) {
            Ok(count) => Ok(count),
            Err(_) => {
                self.faults = self.faults.saturating_add(1);
                Err(ReadFailed)
            }
        }
    }
}

/// A writer that counts how often it was asked and how often it failed, and knows how many bytes it
/// took that no flush followed.
#[derive(Drop)]
pub(crate) struct AskedWriter<W: Write> {
    writer: W,
    asked: u64,
    faults: u64,
    unflushed: usize,
}

impl<W: Write> Model for AskedWriter<W> {
    ghost use Rattle.aql_io.specs.Streams.{WriterCounts};

    ghost Value = { WriterCounts W };

    ghost view = { λ w. record {
      stream = w.writer;
      asked = w.asked;
      faults = w.faults;
      unflushed = w.unflushed;
    } };
}

impl<W: Write> AskedWriter<W> {
    pub(crate) fn new(writer: W) -> Self
        ensures { result ≡ record { stream = writer; asked = 0; faults = 0; unflushed = 0 } }
    {
        AskedWriter {
            writer,
            asked: 0,
            faults: 0,
            unflushed: 0,
        }
    }

    // Asks the writer once to take bytes. Where it takes none, that is a failure too.
    pub(crate) fn write(&mut self, piece: &[u8]) -> Result<usize, WriteFailed>
        ensures bound { WritesAtMost result piece.now }
        ensures some { MatchResult result (λ n. 0 < n) (λ _. self.new.unflushed ≡ 0) }
        ensures taken { MatchResult result
            (λ n. Appends (W.contents self.old.stream) (W.contents self.new.stream)
            (take n piece.now))
            (λ _. Keeps (W.contents self.old.stream) (W.contents self.new.stream)) }
        ensures unflushed { MatchResult result
            (λ n. self.new.unflushed ≡ n)
            (λ _. self.new.unflushed ≡ 0) }
        ensures once { self.new.asked ≡ one_more self.old.asked }
        ensures cause { HasCause self.old.faults self.new.faults result }
        ensures counted { MatchResult result
            (λ _. self.new.faults ≡ self.old.faults)
            (λ _. self.new.faults ≡ one_more self.old.faults) }
    {
        self.asked = self.asked.saturating_add(1);
        match self.writer.write(piece) {
            Ok(count) if count > 0 => {
                self.unflushed = count;
                Ok(count)
            }
            _ => {
                self.unflushed = 0;
                self.faults = self.faults.saturating_add(1);
                Err(WriteFailed)
            }
        }
    }

    // Asks the writer once to pass on what it took.
    pub(crate) fn flush(&mut self) -> Result<(), WriteFailed>
        ensures kept { Keeps (W.contents self.old.stream) (W.contents self.new.stream) }
        ensures unflushed { MatchResult result
            (λ _. self.new.unflushed ≡ 0)
            (λ _. self.new.unflushed ≡ self.old.unflushed) }
        ensures once { self.new.asked ≡ self.old.asked }
        ensures cause { HasCause self.old.faults self.new.faults result }
        ensures counted { MatchResult result
            (λ _. self.new.faults ≡ self.old.faults)
            (λ _. self.new.faults ≡ one_more self.old.faults) }
    {
        match self.writer.flush() {
            Ok(()) => {
                self.unflushed = 0;
                Ok(())
            }
            Err(_) => {
                self.faults = self.faults.saturating_add(1);
                Err(WriteFailed)
            }
        }
    }
}
