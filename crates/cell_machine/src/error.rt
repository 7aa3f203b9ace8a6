//! Why a machine was not made.

use cell_host::HostError;
use local_store::StoreError;
use lock_lines::LockError;
use main_memory::MemoryError;
use spu_regs::RegsError;
use std::alloc::{AllocError, AllocFailed};

/// There was no memory for a machine.
#[derive(Clone, Copy, Debug, PartialEq, Eq)]
pub enum MachineError {
    Memory,
}

impl From<AllocError> for MachineError {
    fn from(_: AllocError) -> MachineError {
        MachineError::Memory
    }
}

impl<T: Drop> From<AllocFailed<T>> for MachineError {
    fn from(_: AllocFailed<T>) -> MachineError {
        MachineError::Memory
    }
}

impl From<RegsError> for MachineError {
    fn from(_: RegsError) -> MachineError {
        MachineError::Memory
    }
}

impl From<StoreError> for MachineError {
    fn from(_: StoreError) -> MachineError {
        MachineError::Memory
    }
}

impl From<MemoryError> for MachineError {
    fn from(_: MemoryError) -> MachineError {
        MachineError::Memory
    }
}

impl From<LockError> for MachineError {
    fn from(_: LockError) -> MachineError {
        MachineError::Memory
    }
}

impl From<HostError> for MachineError {
    fn from(_: HostError) -> MachineError {
        MachineError::Memory
    }
}
