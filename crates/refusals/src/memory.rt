//! The refusal of memory: the value that says that memory ran out.
ghost use Rattle.std.specs.Prelude.{IsSome, ◌↔◌};

use crate::libraries::Library;
use std::alloc::{AllocError, AllocFailed};
use thiserror::Error;

/// An allocation was refused. There is one such value, which only a refused allocation gives, or a library's error
/// that says so.
#[derive(Clone, Copy, Debug, PartialEq, Eq, Error)]
#[error("out of memory")]
pub struct OutOfMemory {
    refused: (),
}

impl OutOfMemory {
    /// The refusal of memory that a library's error tells. `None` if the error doesn't say that memory ran
    /// out.
    pub fn told_by<L: Library>(error: &L::Error) -> Option<OutOfMemory>
        ensures { IsSome result ↔ L.for_memory error.now }
    {
        if L::is_for_memory(error) {
            Some(OutOfMemory { refused: () })
        } else {
            None
        }
    }
}

impl From<AllocError> for OutOfMemory {
    /// The refusal of memory that a refused allocation gives.
    fn from(_error: AllocError) -> OutOfMemory {
        OutOfMemory { refused: () }
    }
}

impl<T: Drop> From<AllocFailed<T>> for OutOfMemory {
    /// The refusal of memory that the failed allocation of a value gives.
    fn from(_error: AllocFailed<T>) -> OutOfMemory {
        OutOfMemory { refused: () }
    }
}

// The one place where an `AllocError` is written: it hands on that memory ran out.
impl From<OutOfMemory> for AllocError {
    /// The error of an allocation, made from a refusal of memory.
    fn from(_refused: OutOfMemory) -> AllocError {
        AllocError
    }
}
