//! Want of memory.

use std::alloc::AllocError;
use thiserror::Error;

/// No memory was found. What was called is as before.
#[derive(Clone, Copy, Debug, PartialEq, Eq, Error)]
#[error("out of memory")]
pub struct Memory;

impl From<AllocError> for Memory {
    fn from(_: AllocError) -> Memory {
        Memory
    }
}
