//! Sets of steps of a record that are known to come before something.
//!
//! With P processors the steps stand in 3P + 1 chains: chain p has the instructions of processor p, P + p its atomic commands,
//! 2P + p the steps of its queued commands, and 3P the host's actions.
#![tactic(auto)]

mod facts;
mod known;
mod parts;
mod rest;
mod run;
mod runs;

pub use facts::{At, Fact};
pub use known::{Known, KnownError};
