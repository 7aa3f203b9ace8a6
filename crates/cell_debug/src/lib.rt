//! A debugger for runs: a script is read into the list of what its lines ask for, or the first faulty
//! line is named; run on a machine it makes turns, and prints what the machine is between them.
#![tactic(auto)]

mod error;
mod form;
mod line;
mod printing;
mod running;
mod script;
mod turns;

pub use error::{DebugError, ScriptError};
pub use running::run_script;
pub use script::{Script, read_script};
