//! [`OutOfMemory`]: the error of each call of the crates above that takes memory.

use std::alloc::{AllocError, AllocFailed};
use thiserror::Error;

/// Memory was refused. The one error of calls that grow and judge nothing (this project's own rule).
#[derive(Clone, Copy, Debug, PartialEq, Eq, Error)]
#[error("out of memory")]
pub struct OutOfMemory;

impl From<AllocError> for OutOfMemory {
    fn from(_error: AllocError) -> OutOfMemory {
        OutOfMemory
    }
}

impl<T: Drop> From<AllocFailed<T>> for OutOfMemory {
    fn from(_error: AllocFailed<T>) -> OutOfMemory {
        OutOfMemory
    }
}
