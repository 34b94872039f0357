// Whole inputs and whole outputs.
ghost use Rattle.std.specs.Prelude.{◌≡◌, ◌≢◌, ◌≤◌, ◌<◌, ⊤, length, Err, OnOk, OnErr, IfOk, IsErrOf};
ghost use Rattle.std.specs.Io.KnownBytes.{Consumes, Appends, IsAtEnd};
ghost use Rattle.aql_io.specs.Bytes.{AppendsPrefix, HandsOut};
ghost use Rattle.aql_io.specs.Causes.{Rose, HasCause};

use crate::{Sink, Source, WriteFailed};
use std::alloc::Global;
use thiserror::Error;

/// Why a source was not read whole.
#[derive(Debug, Clone, Copy, PartialEq, Eq, Drop, Error)]
pub enum ReadAllFault {
    /// A read failed.
    #[error("a read failed")]
    Failed,
    /// More bytes than the limit were handed out.
    #[error("more bytes than the limit")]
    TooLong,
    /// Memory ran out.
    #[error("out of memory")]
    Memory,
}

// How many bytes are asked for at a time.
const CHUNK: usize = 4096;

/// All the bytes that the source has left, up to its end, at most `limit` of them.
///
/// It stops at the first read that fails or goes past the limit. After a fault the bytes that were
/// read until then are gone.
pub fn read_all<S: Source>(
    alloc: Global,
    source: &mut S,
    limit: u64,
) -> Result<Vec<u8>, ReadAllFault>
    ensures whole { IfOk result (λ bytes.
        Consumes (S.left source.old) (S.left source.new) bytes.items) }
    ensures end { OnOk result (IsAtEnd (S.left source.new)) }
    ensures within { IfOk result (λ bytes. length bytes.items ≤ limit) }

    // Failed: a read failed, and until then no more than the limit was handed out.
    ensures failed { IsErrOf result ReadAllFault.Failed
        → Rose (S.faults source.old) (S.faults source.new) }
    ensures failed_within { IsErrOf result ReadAllFault.Failed
        → HandsOut (S.left source.old) (S.left source.new) (λ taken. length taken ≤ limit) }

    // TooLong: more than the limit was handed out.
    ensures too_long { IsErrOf result ReadAllFault.TooLong
        → HandsOut (S.left source.old) (S.left source.new) (λ taken. limit < length taken) }

    // After any fault the source has lost some of its next bytes, and nothing else.
    ensures front { OnErr result (HandsOut (S.left source.old) (S.left source.new) (λ _. ⊤)) }

    // A read that fails is not tried again: no other answer comes after one.
    ensures quiet { result ≢ Err ReadAllFault.Failed
        → S.faults source.new ≡ S.faults source.old }
    ensures later { S.faults source.old ≤ S.faults source.new }
{
    let mut bytes = Vec::new(alloc);
    let mut chunk = [0u8; CHUNK];
    'chunks: loop {
        let Ok(count) = source.read_some(&mut chunk) else {
            return Err(ReadAllFault::Failed);
        };
        if count == 0 {
            return Ok(bytes);
        }
        if count as u64 > limit - bytes.len() as u64 {
            return Err(ReadAllFault::TooLong);
        }
        if bytes.extend_from_slice(&chunk[..count]).is_err() {
            return Err(ReadAllFault::Memory);
        }
    }
}

/// Writes all the bytes. It takes no memory. At the first write that fails it stops, and then some
/// of the bytes were written, from the first on, and not all.
pub fn write_all<K: Sink>(sink: &mut K, bytes: &[u8]) -> Result<(), WriteFailed>
    ensures whole { OnOk result (Appends (K.written sink.old) (K.written sink.new) bytes.now) }
    ensures front { OnErr result
        (AppendsPrefix (K.written sink.old) (K.written sink.new) bytes.now) }
    ensures cause { HasCause (K.faults sink.old) (K.faults sink.new) result }
    ensures quiet { OnOk result (K.faults sink.new ≡ K.faults sink.old) }
{
    let mut at = 0;
    'pieces: while at < bytes.len() {
        at += sink.write_some(&bytes[at..])?;
    }
    Ok(())
}
