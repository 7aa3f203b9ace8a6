//! The generator of a machine with transfers, of any number of rounds, with which runs and checks can be measured.
#![tactic(auto)]

mod error;
mod making;
mod program;

pub use error::GenError;
pub use making::generate;
