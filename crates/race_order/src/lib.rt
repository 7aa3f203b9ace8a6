//! Which steps of a run are ordered: an orderer takes a run step by step, and tells which steps come before the last one.
//!
//! Of each kind of later step it keeps the set of the steps that come before it, so that a step only joins the sets that it looks at.
#![tactic(auto)]

mod applying;
mod boxes;
mod brought;
mod buckets;
mod entering;
mod error;
mod gathering;
mod going;
mod lists;
mod lives;
mod looks;
mod moves;
mod numbers;
mod orderer;
mod own;
mod passes;
mod plain;
mod progress;
mod roles;
mod sets;
mod stamps;
mod table;
mod touched;

pub use error::OrderError;
pub use orderer::Orderer;
pub use progress::{Progress, begin, step_on};
