//! Why a text was not assembled.

ghost use Rattle.std.specs.Prelude.{◌≡◌};
ghost use Rattle.spu_asm.specs.declared.error.AsmError.TheVariants.{Memory};

use std::alloc::{AllocError, AllocFailed};
use thiserror::Error;

/// The first faulty line of the first phase that has one, counted from 1, and the first kind of fault there.
#[derive(Debug, Drop, Error)]
pub enum AsmError {
    #[error("line {line}: {kind:?}")]
    At { line: u32, kind: AsmKind },
    #[error("out of memory")]
    Memory,
}

impl From<AllocError> for AsmError {
    ghost from_gives = { λ _ e. e ≡ Memory };

    fn from(_: AllocError) -> AsmError {
        AsmError::Memory
    }
}

impl<T: Drop> From<AllocFailed<T>> for AsmError {
    ghost from_gives = { λ _ e. e ≡ Memory };

    fn from(_: AllocFailed<T>) -> AsmError {
        AsmError::Memory
    }
}

/// What is wrong with a line. The phases are tried in the order in which they stand here.
#[derive(Clone, Copy, Debug, PartialEq, Eq)]
pub enum AsmKind {
    /// A byte that stands nowhere, an unfinished string or comment, or a wrong escape (phase of tokens).
    BadChar,
    /// A word that begins with a digit and is no number (phase of tokens).
    BadNumber,
    /// A statement begins with no mnemonic and no directive (phase of statements).
    UnknownName,
    /// A directive that may not stand in its section, or with other arguments than its own.
    BadDirective,
    /// Operands of another form than the mnemonic's.
    BadOperand,
    /// A label that was defined before.
    Twice,
    /// A place (phase of addresses) or a value (phase of values) that is no multiple of what it has to be.
    NotMultiple,
    /// `.org` below the present address (phase of addresses).
    Overlap,
    /// The line ends behind the local store (phase of addresses).
    OutsideStore,
    /// A label that no line defines (phase of values).
    Undefined,
    /// A value outside its range (phase of values).
    OutOfRange,
}
