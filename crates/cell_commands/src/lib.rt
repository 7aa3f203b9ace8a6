//! What `cell` does: a form of words, with files in a store and an output in a sink.
#![tactic(auto)]

mod asm;
mod causes;
mod check;
mod checking;
mod debug;
mod fault;
mod generated;
mod judging;
mod looks;
mod permute;
mod program;
mod reading;
mod run;
mod words;

pub use fault::{Fault, FileId, Status};
pub use program::{cell, cell_quiet};
pub use reading::{RECORD_LIMIT, TEXT_LIMIT, load_plan, read_file, read_plan, read_setup};
pub use run::write_run;
pub use words::{Form, form_of, number_of};
