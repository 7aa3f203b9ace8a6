//! What tools read of runs: a form of words, with files in a store and an output in a sink.
#![tactic(auto)]

mod before;
mod choices;
mod choosing;
mod fault;
mod following;
mod listing;
mod plan;
mod program;
mod ranges;
mod reading;
mod telling;
mod words;

pub use fault::{Fault, Status};
pub use following::{is_before, make_all, take};
pub use program::{trace, trace_form};
pub use reading::{read_recorded, read_start};
pub use words::{Form, form_of};
