//! Why no machine was made.

ghost use Rattle.std.specs.Prelude.{◌≡◌};
ghost use Rattle.cell_gen.specs.declared.error.GenError.TheVariants as gen_error;

use std::alloc::{AllocError, AllocFailed};
use thiserror::Error;

/// Why there is no machine of so many rounds: they are more than 64, or there was no memory.
#[derive(Clone, Copy, Debug, PartialEq, Eq, Error)]
pub enum GenError {
    #[error("{n} rounds are more than 64")]
    TooLarge { n: u32 },
    #[error("out of memory")]
    Memory,
}

impl From<AllocError> for GenError {
    ghost from_gives = { λ _ e. e ≡ gen_error.Memory };

    fn from(_: AllocError) -> GenError {
        GenError::Memory
    }
}

impl<T: Drop> From<AllocFailed<T>> for GenError {
    ghost from_gives = { λ _ e. e ≡ gen_error.Memory };

    fn from(_: AllocFailed<T>) -> GenError {
        GenError::Memory
    }
}
