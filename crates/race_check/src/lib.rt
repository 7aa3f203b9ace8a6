//! Which steps of a run race, and that a run without a race is the same in every order that keeps its ordered pairs.
//!
//! A run is searched as it is made, or made again for it, with the order of its steps and a shadow: for each line of memory and stores,
//! the accesses that no later one stands for.
#![tactic(auto)]

mod access;
mod check;
mod crowd;
mod crowds;
mod entry;
mod error;
mod later;
mod line;
mod numbers;
mod search;
mod shadow;
mod stack;

pub use check::{Verdict, check_races};
pub use error::RaceError;
pub use search::Search;
