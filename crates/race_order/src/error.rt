//! What can go wrong.

use order_sets::KnownError;
use std::alloc::{AllocError, AllocFailed};
use thiserror::Error;

/// A call found no memory.
#[derive(Clone, Copy, Debug, PartialEq, Eq, Error)]
pub enum OrderError {
    #[error("out of memory")]
    Memory,
}

impl From<KnownError> for OrderError {
    fn from(_: KnownError) -> OrderError {
        OrderError::Memory
    }
}

impl From<AllocError> for OrderError {
    fn from(_: AllocError) -> OrderError {
        OrderError::Memory
    }
}

impl<T: Drop> From<AllocFailed<T>> for OrderError {
    fn from(_: AllocFailed<T>) -> OrderError {
        OrderError::Memory
    }
}
