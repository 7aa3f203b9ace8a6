//! Why a text was not made.

use std::alloc::{AllocError, AllocFailed};

/// There was no memory for a text.
#[derive(Clone, Copy, Debug, PartialEq, Eq)]
pub enum TextError {
    Memory,
}

impl From<AllocError> for TextError {
    fn from(_: AllocError) -> TextError {
        TextError::Memory
    }
}

impl<T: Drop> From<AllocFailed<T>> for TextError {
    fn from(_: AllocFailed<T>) -> TextError {
        TextError::Memory
    }
}
