//! The machine: processors that execute instructions of their local stores, one atomic step at a time, and the record of those steps.
#![tactic(auto)]

mod acting;
mod atomics;
mod blocked;
mod channels;
mod choosing;
mod commands;
mod effect;
mod effects;
mod error;
mod events;
mod fixing;
mod hosts;
mod instructions;
mod machine;
mod memory;
mod outstanding;
mod processor;
mod progress;
mod setup;
mod signals;
mod status;
mod transfers;
mod walks;

pub use cell_host::{Host, HostAction, Took};
pub use effect::{Effect, Note, Place, Reach, Span};
pub use error::MachineError;
pub use machine::Machine;
pub use mfc_command::DmaFault;
pub use outstanding::Outstanding;
pub use setup::{PlacedBytes, Setup, SetupError, Show};
pub use status::{End, Refused, Status};
