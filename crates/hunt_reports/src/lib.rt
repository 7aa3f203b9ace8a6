//! The report of one run: how it ends, what it leaves, its data races, the expected lines that it misses, its findings and its warnings.
#![tactic(auto)]

mod asked;
mod budgets;
mod compared;
mod coverage;
mod ended;
mod findings;
mod livelocks;
mod locations;
mod missing;
mod origins;
mod places;
mod race_lines;
mod races;
mod reporting;
mod spent;
mod stops;
mod waits;
mod warnings;

pub use asked::Asked;
pub use coverage::coverage_of;
pub use origins::{Placed, Places, Placing, Source, SourceLine};
pub use places::{put_key, put_sites};
pub use reporting::report_of;
