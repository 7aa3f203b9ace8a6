//! Why there is no answer.

use std::alloc::AllocError;
use thiserror::Error;

/// A call ran out of memory.
#[derive(Clone, Copy, Debug, PartialEq, Eq, Error)]
pub enum PermuteError {
    #[error("out of memory")]
    Memory,
}

impl From<AllocError> for PermuteError {
    fn from(_: AllocError) -> PermuteError {
        PermuteError::Memory
    }
}
