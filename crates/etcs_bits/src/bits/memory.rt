//! `Memory`: the error if memory runs out.

use std::alloc::{AllocError, AllocFailed};
use thiserror::Error;

/// Memory ran out: the allocator did not let a list grow. A list that would have more than
/// `usize::MAX` bits gives the same error.
#[derive(Clone, Copy, Debug, PartialEq, Eq, Error)]
#[error("out of memory")]
pub struct Memory;

impl From<AllocError> for Memory {
    fn from(_error: AllocError) -> Memory {
        Memory
    }
}

impl<T: Drop> From<AllocFailed<T>> for Memory {
    fn from(_failed: AllocFailed<T>) -> Memory {
        Memory
    }
}
