use crate::tests::pages::expect;
use aql_io::{
    MemorySink, MemorySource, ReadAllFault, ReadFailed, Sink, Source, StdSink, StdSource,
    WriteFailed, read_all, write_all,
};
use std::alloc::Global;
use std::io;
use std::io::{ErrorKind, Read, Write};
use std::process::Abort;

const TEXT: &[u8] = b"abcde";

// Whether the source gives `TEXT`, or this fault.
fn reads(
    alloc: Global,
    source: &mut MemorySource,
    limit: u64,
    fault: Option<ReadAllFault>,
) -> bool {
    match read_all(alloc, source, limit) {
        Ok(bytes) => bytes.as_slice() == TEXT && fault == None,
        Err(found) => fault == Some(found),
    }
}

// The same of a source of `TEXT` in memory.
fn reads_text(
    alloc: Global,
    piece: usize,
    fail_at: Option<u64>,
    limit: u64,
    fault: Option<ReadAllFault>,
) -> bool {
    match TEXT.to_vec(alloc) {
        Ok(bytes) if piece >= 1 => {
            let mut source = MemorySource::new(bytes, piece, fail_at);
            reads(alloc, &mut source, limit, fault)
        }
        _ => false,
    }
}

// The piece, the bytes before a fault, the limit, and the fault that is due.
static READS: [(usize, Option<u64>, u64, Option<ReadAllFault>); 17] = [
    (1, None, 5, None),
    (3, None, 5, None),
    (100, None, 5, None),
    (100, None, 6, None),
    (3, Some(6), 5, None),
    (1, None, 4, Some(ReadAllFault::TooLong)),
    (3, None, 4, Some(ReadAllFault::TooLong)),
    (100, None, 4, Some(ReadAllFault::TooLong)),
    (1, None, 0, Some(ReadAllFault::TooLong)),
    (1, Some(0), 5, Some(ReadAllFault::Failed)),
    (100, Some(0), 0, Some(ReadAllFault::Failed)),
    (1, Some(2), 5, Some(ReadAllFault::Failed)),
    (3, Some(4), 5, Some(ReadAllFault::Failed)),
    (100, Some(4), 5, Some(ReadAllFault::Failed)),
    (1, Some(5), 5, Some(ReadAllFault::Failed)),
    (1, Some(2), 1, Some(ReadAllFault::TooLong)),
    (3, Some(2), 2, Some(ReadAllFault::Failed)),
];

#[test]
fn reads_whole(rt: HostRuntime) {
    for (piece, fail_at, limit, fault) in &READS {
        let is_read = reads_text(rt.alloc(), *piece, *fail_at, *limit, *fault);
        expect(&rt, is_read, "read", "");
    }
}

// The room, and what a read into it gives.
static PIECES: [(usize, Result<&[u8], ReadFailed>); 6] = [
    (2, Ok(b"ab")),
    (0, Ok(b"")),
    (8, Ok(b"cd")),
    (0, Ok(b"")),
    (8, Err(ReadFailed)),
    (1, Err(ReadFailed)),
];

fn reads_piece(source: &mut MemorySource, room: usize, want: Result<&[u8], ReadFailed>) -> bool {
    let mut buffer = [0; 8];
    if room > 8 {
        return false;
    }
    match source.read_some(&mut buffer[..room]) {
        Ok(count) => Ok(&buffer[..count]) == want,
        Err(fault) => Err(fault) == want,
    }
}

fn check_pieces(rt: &impl Abort, source: &mut MemorySource) {
    for (room, want) in &PIECES {
        expect(rt, reads_piece(source, *room, *want), "a piece", "");
    }
}

fn check_at_once(rt: &impl Abort, source: &mut MemorySource) {
    let mut buffer = [0; 8];
    expect(rt, source.read_some(&mut buffer) == Ok(5), "all", "");
    expect(rt, source.read_some(&mut buffer) == Ok(0), "the end", "");
}

#[test]
fn reads_pieces(rt: HostRuntime) {
    match TEXT.to_vec(rt.alloc()) {
        Ok(bytes) => check_pieces(&rt, &mut MemorySource::new(bytes, 3, Some(4))),
        Err(_) => expect(&rt, false, "no memory", ""),
    }
}

#[test]
fn reads_at_once(rt: HostRuntime) {
    match TEXT.to_vec(rt.alloc()) {
        Ok(bytes) => check_at_once(&rt, &mut MemorySource::new(bytes, 8, None)),
        Err(_) => expect(&rt, false, "no memory", ""),
    }
}

fn writes(sink: &mut MemorySink, room: usize, want: &[u8]) -> bool {
    let is_whole = want.len() == 5;
    write_all(sink, b"") == Ok(())
        && sink.reserve(room).is_ok()
        && write_all(sink, TEXT) == (if is_whole { Ok(()) } else { Err(WriteFailed) })
        && sink.written() == want
}

// The piece, the bytes before a fault, the room, and what is written of `TEXT`.
static WRITES: [(usize, Option<u64>, usize, &[u8]); 10] = [
    (1, None, 5, b"abcde"),
    (3, None, 5, b"abcde"),
    (100, None, 9, b"abcde"),
    (3, Some(5), 5, b"abcde"),
    (1, None, 4, b"abcd"),
    (100, None, 2, b"ab"),
    (3, None, 0, b""),
    (1, Some(0), 9, b""),
    (3, Some(4), 9, b"abcd"),
    (100, Some(3), 2, b"ab"),
];

#[test]
fn writes_whole(rt: HostRuntime) {
    for (piece, fail_at, room, want) in &WRITES {
        assert!(rt; *piece >= 1);
        let mut sink = MemorySink::new(rt.alloc(), *piece, *fail_at);
        expect(&rt, writes(&mut sink, *room, want), "written", "");
    }
}

fn adds_up(sink: &mut MemorySink) -> bool {
    sink.reserve(2).is_ok()
        && sink.reserve(1).is_ok()
        && sink.write_some(TEXT) == Ok(3)
        && sink.write_some(TEXT) == Err(WriteFailed)
        && sink.reserve(1).is_ok()
        && sink.write_some(TEXT) == Ok(1)
        && sink.written() == b"abca".as_slice()
        && sink.reserve(usize::MAX).is_err()
}

#[test]
fn room_adds_up(rt: HostRuntime) {
    let mut sink = MemorySink::new(rt.alloc(), 8, None);
    expect(&rt, adds_up(&mut sink), "room", "");
}

// A stream that gives no byte and takes each, until it breaks.
#[derive(Drop)]
struct Pipe {
    flushes: u32,
    breaks_at: u32,
}

impl Pipe {
    fn new(breaks_at: u32) -> Pipe {
        Pipe {
            flushes: 0,
            breaks_at,
        }
    }
}

impl Read for Pipe {
    fn read(&mut self, _buffer: &mut [u8]) -> io::Result<usize> {
        Err(io::Error::from(ErrorKind::BrokenPipe))
    }
}

impl Write for Pipe {
    fn write(&mut self, bytes: &[u8]) -> io::Result<usize> {
        Ok(bytes.len().min(2))
    }

    fn flush(&mut self) -> io::Result<()> {
        self.flushes = self.flushes.saturating_add(1);
        if self.flushes == self.breaks_at {
            return Err(io::Error::from(ErrorKind::BrokenPipe));
        }
        Ok(())
    }
}

fn gives_text(alloc: Global, source: &mut StdSource<&[u8]>) -> bool {
    match read_all(alloc, source, 5) {
        Ok(bytes) => bytes.as_slice() == TEXT,
        Err(_) => false,
    }
}

#[test]
fn adapts_sources(rt: HostRuntime) {
    let mut broken = StdSource::new(Pipe::new(0));
    expect(&rt, broken.read_some(&mut []) == Ok(0), "nothing", "");
    expect(
        &rt,
        broken.read_some(&mut [0; 4]) == Err(ReadFailed),
        "broken",
        "",
    );
    let mut source = StdSource::new(TEXT);
    expect(&rt, gives_text(rt.alloc(), &mut source), "the text", "");
}

#[test]
fn adapts_sinks(rt: HostRuntime) {
    let mut written = Vec::new(rt.alloc());
    let is_whole = write_all(&mut StdSink::new(&mut written), TEXT) == Ok(());
    expect(&rt, is_whole && written.as_slice() == TEXT, "whole", "");

    // A slice takes nothing more once it is full.
    let mut full = [0; 3];
    let is_cut = write_all(&mut StdSink::new(full.as_mut_slice()), TEXT) == Err(WriteFailed);
    expect(
        &rt,
        is_cut && full.as_slice() == b"abc".as_slice(),
        "full",
        "",
    );
}

static FLUSHES: [(u32, Result<(), WriteFailed>, u32); 2] = [
    (0, Ok(()), 3),
    (2, Err(WriteFailed), 2),
];

// Each of the three pieces is flushed; the second flush of the other pipe fails.
#[test]
fn flushes(rt: HostRuntime) {
    for (breaks_at, due, flushes) in &FLUSHES {
        let mut pipe = Pipe::new(*breaks_at);
        let is_due = write_all(&mut StdSink::new(&mut pipe), TEXT) == *due;
        expect(&rt, is_due && pipe.flushes == *flushes, "flushed", "");
    }
}
