//! What can go wrong.

use std::alloc::{AllocError, AllocFailed};
use thiserror::Error;

/// A call found no memory.
#[derive(Clone, Copy, Debug, PartialEq, Eq, Error)]
pub enum RaceError {
    #[error("out of memory")]
    Memory,
}

impl From<AllocError> for RaceError {
    fn from(_: AllocError) -> RaceError {
        RaceError::Memory
    }
}

impl<T: Drop> From<AllocFailed<T>> for RaceError {
    fn from(_: AllocFailed<T>) -> RaceError {
        RaceError::Memory
    }
}
