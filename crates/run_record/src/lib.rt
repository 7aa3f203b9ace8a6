//! Records as text: reading one back, and replaying its steps on a machine.
#![tactic(auto)]

mod error;
mod reading;
mod recorded;
mod replaying;

pub use error::{RecordError, RefusedStep, ReplayError};
pub use reading::read_record;
pub use recorded::Recorded;
pub use replaying::{make_steps, replay};
