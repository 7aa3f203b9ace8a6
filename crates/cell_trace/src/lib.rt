//! The lines that tools read of a run: what each step does, what the flow controllers hold, and which steps may come next.
#![tactic(auto)]

mod allowed;
mod effects;
mod fields;
mod flows;
mod following;
mod logs;
mod looking;

pub use allowed::put_allowed;
pub use effects::put_effects;
pub use flows::put_flows;
pub use following::follow;
pub use logs::put_log;
