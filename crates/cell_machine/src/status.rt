//! What a processor and a machine can come to.

use mfc_command::DmaFault;

/// What a processor does. One that doesn't run never runs again.
#[derive(Clone, Copy, Debug, PartialEq, Eq)]
pub enum Status {
    Running,
    /// It made a `stop`, whose 14-bit code this is.
    Stopped { code: u16 },
    /// The condition of a halt instruction held.
    Halted,
    /// The word at its PC spells no instruction.
    BadWord,
    /// Its instruction names a channel that isn't there, or that goes the other way.
    BadChannel,
    /// Its flow controller refused a command or a list element.
    DmaFault { kind: DmaFault },
}

/// How a run ended.
#[derive(Clone, Copy, Debug, PartialEq, Eq)]
pub enum End {
    /// No step is allowed, no processor runs, no command is outstanding and no atomic slot is taken.
    AllStopped,
    /// No step is allowed otherwise.
    Stuck,
    /// A step would be allowed, but the record has as many steps as the budget.
    Budget,
}

/// Why a step was not made.
#[derive(Clone, Copy, Debug, PartialEq, Eq)]
pub enum Refused {
    /// The machine doesn't allow it now.
    NotAllowed,
    /// The record has as many steps as the budget.
    Spent,
}
