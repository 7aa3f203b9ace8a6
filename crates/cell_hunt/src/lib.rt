//! Many runs of one machine under random schedules that a seed chooses, each searched for races.
//!
//! A race that only one of many runs shows is found by making many. The classes of the runs, by what their actors touched in which order, tell how
//! much is left to be seen. A run makes its choices by one of four strategies: it walks, which draws an actor for each choice, or it gives each
//! processor, atomic slot and queued command and the host a key, and who has the greatest key makes the step. In three strategies a processor goes
//! on with instructions that no other actor can see.
#![tactic(auto)]

mod alone;
mod chooser;
mod ending;
mod error;
mod executed;
mod keys;
mod locals;
mod mixing;
mod offers;
mod origins;
mod outcome;
mod owners;
mod polls;
mod racing;
mod running;
mod site;
mod so_far;
mod strategy;
mod touched;
mod touches;

pub use alone::machine_of_seed;
pub use ending::Ended;
pub use error::HuntError;
pub use executed::Executed;
pub use outcome::{Outcome, outcome_of};
pub use racing::Racing;
pub use running::{SeedRun, run_of_seed};
pub use site::{Site, Sites};
