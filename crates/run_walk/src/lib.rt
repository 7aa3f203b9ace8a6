//! A run as it is made, with the order of its steps: who looks at a run step by step stands on one walk over it.
#![tactic(auto)]

mod walk;

pub use walk::Walk;
