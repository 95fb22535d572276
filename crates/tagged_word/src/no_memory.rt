//! Want of memory: the one answer that no clause ties to a cause.

use std::alloc::{AllocError, AllocFailed};

/// Memory was refused. It says nothing more, and nothing was changed. It is made from a refusal of
/// the allocator alone, so that no code answers it without one in plain sight.
#[derive(Clone, Copy, Debug, PartialEq, Eq)]
pub struct NoMemory {
    refused: (),
}

impl From<AllocError> for NoMemory {
    fn from(_refused: AllocError) -> Self {
        NoMemory { refused: () }
    }
}

impl<T: Drop> From<AllocFailed<T>> for NoMemory {
    fn from(_refused: AllocFailed<T>) -> Self {
        NoMemory { refused: () }
    }
}
