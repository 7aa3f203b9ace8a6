//! What `hunt` does: a form of words, with files in a store and an output in a sink.
#![tactic(auto)]

mod batch;
mod each;
mod ending;
mod expected;
mod fault;
mod heard;
mod help;
mod hunting;
mod input;
mod lines;
mod naming;
mod numbers;
mod parts;
mod passes;
mod placings;
mod program;
mod progress;
mod runs;
mod sources;
mod statements;
mod target;
mod threads;
mod words;

pub use fault::{Fault, FileId, Status};
pub use program::{hunt, hunt_quiet};
pub use progress::Progress;
pub use words::{Form, Hunt, Warn, form_of};
