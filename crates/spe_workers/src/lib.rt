//! Workers on threads, one for each actor of a machine, each of which takes turns at the shared machine until the run has an end.
#![tactic(auto)]

mod gate;
mod run;
mod worker;

pub use gate::{Gate, OpenGate};
pub use run::run_machine;
pub use worker::{Worker, run_workers};
