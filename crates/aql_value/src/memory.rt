use std::alloc::{AllocError, AllocFailed};
use thiserror::Error;

/// Memory ran out. A call that answers so may answer so at any time; no contract says when.
#[derive(Debug, Clone, Copy, PartialEq, Eq, Drop, Error)]
#[error("out of memory")]
pub struct OutOfMemory;

impl From<AllocError> for OutOfMemory {
    fn from(_: AllocError) -> OutOfMemory {
        OutOfMemory
    }
}

impl<T: Drop> From<AllocFailed<T>> for OutOfMemory {
    fn from(_: AllocFailed<T>) -> OutOfMemory {
        OutOfMemory
    }
}
