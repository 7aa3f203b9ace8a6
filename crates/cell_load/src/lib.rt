//! Machine files: a text is read into the list of what its lines say, or the first faulty line is
//! named; and with the images of its sources it gives the setup of a machine.
#![tactic(auto)]

mod admit;
mod form;
mod host_form;
mod line;
mod loading;
mod loads;
mod plan;
mod rows;
mod source;

pub use loading::{LoadError, load};
pub use plan::{Plan, PlanError, read_machine};
pub use source::SourceName;
