//! What many runs tell together: the different texts that they tell, each with how many runs tell it and the first of these, and what went
//! wrong in how many of them, and of how many kinds they are.
#![tactic(auto)]

mod count;
mod counted;
mod coverage;
mod executed;
mod flaws;
mod hunted;
mod kinds;
mod report;
mod tally;
mod telling;
mod tellings;

pub use count::Count;
pub use coverage::{LineCoverage, SourceCoverage};
pub use executed::Executed;
pub use flaws::{FlawCounts, Flaws};
pub use hunted::Hunted;
pub use kinds::{Kind, Kinds};
pub use report::Report;
pub use tally::{Line, Tally};
pub use telling::Telling;
