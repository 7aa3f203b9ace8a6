//! Why a text is no record, and why steps are no run.

ghost use Rattle.std.specs.Prelude.{◌≡◌};
ghost use Rattle.run_record.specs.declared.error.RecordError.TheVariants as record_error;
ghost use Rattle.run_record.specs.declared.error.ReplayError.TheVariants as replay_error;

use cell_machine::MachineError;
use std::alloc::{AllocError, AllocFailed};
use thiserror::Error;

/// Why no record was read.
#[derive(Clone, Copy, Debug, PartialEq, Eq, Error)]
pub enum RecordError {
    /// The first line outside the form of a record, counted from 1. A line that is missing is the one after the last.
    #[error("line {line} is outside the form of a record")]
    BadLine { line: u32 },
    #[error("out of memory")]
    Memory,
}

impl From<AllocError> for RecordError {
    ghost from_gives = { λ _ e. e ≡ record_error.Memory };

    fn from(_: AllocError) -> RecordError {
        RecordError::Memory
    }
}

impl<T: Drop> From<AllocFailed<T>> for RecordError {
    ghost from_gives = { λ _ e. e ≡ record_error.Memory };

    fn from(_: AllocFailed<T>) -> RecordError {
        RecordError::Memory
    }
}

/// Why no machine was made from a setup and steps.
#[derive(Clone, Copy, Debug, PartialEq, Eq, Error)]
pub enum ReplayError {
    /// The first `at` steps are a run, and the next isn't allowed or is one more than the budget.
    #[error("step {at} is not allowed")]
    NotARun { at: u32 },
    #[error("out of memory")]
    Memory,
}

impl From<MachineError> for ReplayError {
    ghost from_gives = { λ _ e. e ≡ replay_error.Memory };

    fn from(_: MachineError) -> ReplayError {
        ReplayError::Memory
    }
}

/// A machine refused a step: the first `at` steps are a run, and the next isn't allowed or is one more than the budget.
#[derive(Clone, Copy, Debug, PartialEq, Eq, Error)]
#[error("step {at} is not allowed")]
pub struct RefusedStep {
    pub at: u32,
}
