// A source and a sink in memory, which fail where they are told to.
ghost use Rattle.std.specs.Prelude.{◌≡◌, ◌≤◌, ◌<◌, ◌+◌, ◌↔◌, [], length, drop, take};
ghost use Rattle.std.specs.Prelude.{◌≢◌, None, Some, IsTrue, IsErr, IfOk, OnOk, OnErr};
ghost use Rattle.std.specs.declared.option.Option.{Option};
ghost use Rattle.std.specs.Io.{ReadsAtMost, WritesAtMost};
ghost use Rattle.aql_io.specs.Bytes.{ReadsNext, AppendsFirst};
ghost use Rattle.aql_io.specs.Causes.{HasCause};
ghost use Rattle.aql_io.specs.Memory.{Reading, Writing, count_within, limit_after};
ghost use Rattle.aql_io.specs.Memory.{ReadFails, read_count, after_read, after_failed_read};
ghost use Rattle.aql_io.specs.Memory.{WriteFails, write_count, after_write, after_failed_write};

use crate::{ReadFailed, Sink, Source, WriteFailed};
use aql_value::OutOfMemory;
use std::alloc::Global;
use std::marker::Model;

// A count, cut down to the limit where there is one.
fn count_within(limit: Option<u64>, count: usize) -> usize
    ensures { result ≡ count_within limit count }
{
    match limit {
        None => count,
        Some(limit) => (count as u64).min(limit) as usize,
    }
}

// What is left of the limit once so many bytes passed.
fn limit_after(limit: Option<u64>, count: usize) -> Option<u64>
    ensures { result ≡ limit_after limit count }
{
    limit.map(|limit| limit.saturating_sub(count as u64))
}

// Whether the limit is used up.
fn is_used_up(limit: Option<u64>) -> bool
    ensures { IsTrue result ↔ (limit ≡ Some 0) }
{
    match limit {
        None => false,
        Some(limit) => limit == 0,
    }
}

// Copies `count` bytes of `from`, from place `at` on, to the front of `into`.
fn copy_front(into: &mut [u8], from: &[u8], at: usize, count: usize)
    requires room { count ≤ length into.old }
    requires bytes { at + count ≤ length from.now }
    ensures front { take count into.new ≡ take count (drop at from.now) }
    ensures len { length into.new ≡ length into.old }
{
    into[..count].copy_from_slice(&from[at..at + count]);
}

/// A source of bytes in memory, for tests and for programs that read a text of their own.
#[derive(Drop)]
pub struct MemorySource {
    bytes: Vec<u8>,
    at: usize,
    piece: usize,
    until_fault: Option<u64>,
    faults: u64,
}

impl Model for MemorySource {
    ghost use Rattle.std.specs.Prelude.{◌≤◌, ◌<◌, drop, length};
    ghost use Rattle.aql_io.specs.Memory.{Reading};

    ghost Value = { Reading };

    ghost view = { λ s. record {
      left = drop s.at s.bytes.items;
      piece = s.piece;
      until_fault = s.until_fault;
      faults = s.faults;
    } };

    ghost invariant = { λ s. (s.at ≤ length s.bytes.items) × (0 < s.piece) };
}

impl MemorySource {
    /// A source of these bytes that hands out at most `piece` of them a read. Once `fail_at` bytes
    /// were handed out, each read into a buffer that is not empty fails; with `None` no read fails.
    pub fn new(bytes: Vec<u8>, piece: usize, fail_at: Option<u64>) -> Self
        requires { 1 ≤ piece }
        ensures { result ≡ record {
          left = bytes.items;
          piece = piece;
          until_fault = fail_at;
          faults = 0;
        } }
    {
        MemorySource {
            bytes,
            at: 0,
            piece,
            until_fault: fail_at,
            faults: 0,
        }
    }

    // How many bytes a read into this much room hands out.
    fn count(&self, room: usize) -> usize
        ensures value { result ≡ read_count self.now room }
        ensures ends { result ≡ 0 → 0 < room → self.now.until_fault ≢ Some 0
            → self.now.left ≡ [] }
    {
        let most = room.min(self.piece).min(self.bytes.len() - self.at);
        count_within(self.until_fault, most)
    }
}

impl Source for MemorySource {
    ghost left = { λ s. Some s.left };

    ghost faults = { λ s. s.faults };

    fn read_some(&mut self, into: &mut [u8]) -> Result<usize, ReadFailed>
        ensures bound { ReadsAtMost result into.new }
        ensures bytes { ReadsNext (Some self.old.left) (Some self.new.left) result into.new }
        ensures cause { HasCause self.old.faults self.new.faults result }
        ensures quiet { OnOk result (self.new.faults ≡ self.old.faults) }

        ensures fails { IsErr result ↔ ReadFails self.old (length into.old) }
        ensures count { IfOk result (λ n. n ≡ read_count self.old (length into.old)) }
        ensures after { IfOk result (λ n. self.new ≡ after_read self.old n) }
        ensures after_fault { OnErr result (self.new ≡ after_failed_read self.old) }
    {
        if into.is_empty() {
            return Ok(0);
        }
        if is_used_up(self.until_fault) {
            self.faults = self.faults.saturating_add(1);
            return Err(ReadFailed);
        }
        let count = self.count(into.len());
        copy_front(into, &self.bytes, self.at, count);
        self.at += count;
        self.until_fault = limit_after(self.until_fault, count);
        Ok(count)
    }
}

/// A sink in memory. It writes into room that [`MemorySink::reserve`] made, and takes no memory.
#[derive(Drop)]
pub struct MemorySink {
    bytes: Vec<u8>,
    piece: usize,
    until_fault: Option<u64>,
    room: usize,
    faults: u64,
}

impl Model for MemorySink {
    ghost use Rattle.std.specs.Prelude.{◌≤◌, ◌<◌, ◌+◌, vec_len, vec_capacity};
    ghost use Rattle.aql_io.specs.Memory.{Writing};

    ghost Value = { Writing };

    ghost view = { λ s. record {
      written = s.bytes.items;
      piece = s.piece;
      until_fault = s.until_fault;
      room = s.room;
      faults = s.faults;
    } };

    ghost invariant = { λ s.
        (vec_len s.bytes + s.room ≤ vec_capacity s.bytes) × (0 < s.piece) };
}

impl MemorySink {
    /// An empty sink with no room that takes at most `piece` bytes a write. Once it took `fail_at`
    /// bytes, and where no room is left, each write of a piece that is not empty fails; with `None`
    /// only the room counts. The call takes no memory.
    pub fn new(alloc: Global, piece: usize, fail_at: Option<u64>) -> Self
        requires { 1 ≤ piece }
        ensures { result ≡ record {
          written = [];
          piece = piece;
          until_fault = fail_at;
          room = 0;
          faults = 0;
        } }
    {
        MemorySink {
            bytes: Vec::new(alloc),
            piece,
            until_fault: fail_at,
            room: 0,
            faults: 0,
        }
    }

    /// What was written.
    pub fn written(&self) -> &[u8]
        ensures { result.now ≡ self.now.written }
    {
        &self.bytes
    }

    /// Makes room for that many more bytes.
    pub fn reserve(&mut self, bytes: usize) -> Result<(), OutOfMemory>
        ensures ok { OnOk result (self.new ≡ record self.old { room = self.old.room + bytes }) }
        ensures err { OnErr result (self.new ≡ self.old) }
    {
        let room = self.room.checked_add(bytes).ok_or(OutOfMemory)?;
        self.bytes.reserve(room)?;
        self.room = room;
        Ok(())
    }
}

impl Sink for MemorySink {
    ghost written = { λ s. Some s.written };

    ghost faults = { λ s. s.faults };

    fn write_some(&mut self, piece: &[u8]) -> Result<usize, WriteFailed>
        ensures bound { WritesAtMost result piece.now }
        ensures bytes { AppendsFirst (Some self.old.written) (Some self.new.written)
            result piece.now }
        ensures cause { HasCause self.old.faults self.new.faults result }
        ensures quiet { OnOk result (self.new.faults ≡ self.old.faults) }

        ensures fails { IsErr result ↔ WriteFails self.old (length piece.now) }
        ensures count { IfOk result (λ n. n ≡ write_count self.old (length piece.now)) }
        ensures after { IfOk result (λ n. self.new ≡ after_write self.old piece.now n) }
        ensures after_fault { OnErr result (self.new ≡ after_failed_write self.old) }
    {
        if piece.is_empty() {
            return Ok(0);
        }
        if self.room == 0 || is_used_up(self.until_fault) {
            self.faults = self.faults.saturating_add(1);
            return Err(WriteFailed);
        }
        let most = piece.len().min(self.piece).min(self.room);
        let count = count_within(self.until_fault, most);
        // The room was reserved.
        if self.bytes.extend_from_slice(&piece[..count]).is_err() {
            unreachable!();
        }
        self.room -= count;
        self.until_fault = limit_after(self.until_fault, count);
        Ok(count)
    }
}
