// What bytes are read from and written to.
ghost use Rattle.std.specs.Prelude.{◌≡◌, ℕ, List, OnOk};
ghost use Rattle.std.specs.declared.option.Option.{Option};
ghost use Rattle.std.specs.Io.{ReadsAtMost, WritesAtMost};
ghost use Rattle.aql_io.specs.Bytes.{ReadsNext, AppendsFirst};
ghost use Rattle.aql_io.specs.Causes.{HasCause};

use thiserror::Error;

/// A read failed. It took nothing from the source.
#[derive(Debug, Clone, Copy, PartialEq, Eq, Drop, Error)]
#[error("the read failed")]
pub struct ReadFailed;

/// A write failed. It appended nothing to the sink.
#[derive(Debug, Clone, Copy, PartialEq, Eq, Drop, Error)]
#[error("the write failed")]
pub struct WriteFailed;

/// What bytes are read from.
pub trait Source {
    /// The bytes that are left, where the source tells them.
    ghost left: { Self → Option (List ℕ) };

    /// How often a read has failed. The count never falls, and a read that succeeds leaves it.
    ghost faults: { Self → ℕ };

    /// Reads some of the next bytes to the front of `into`, and returns how many: 0 at the end of
    /// the source or where `into` is empty, else from 1 to the length of `into`.
    fn read_some(&mut self, into: &mut [u8]) -> Result<usize, ReadFailed>
        ensures bound { ReadsAtMost result into.new }
        ensures bytes { ReadsNext (left self.old) (left self.new) result into.new }
        ensures cause { HasCause (faults self.old) (faults self.new) result }
        ensures quiet { OnOk result (faults self.new ≡ faults self.old) };
}

/// What bytes are written to.
pub trait Sink {
    /// The bytes that were written, where the sink tells them.
    ghost written: { Self → Option (List ℕ) };

    /// How often a write has failed. The count never falls, and a write that succeeds leaves it.
    ghost faults: { Self → ℕ };

    /// Appends some of the first bytes of `piece`, and returns how many: 0 where `piece` is empty,
    /// else from 1 to its length.
    fn write_some(&mut self, piece: &[u8]) -> Result<usize, WriteFailed>
        ensures bound { WritesAtMost result piece.now }
        ensures bytes { AppendsFirst (written self.old) (written self.new) result piece.now }
        ensures cause { HasCause (faults self.old) (faults self.new) result }
        ensures quiet { OnOk result (faults self.new ≡ faults self.old) };
}
