//! The signal-notification registers of a processor, and its events.
#![tactic(auto)]

mod events;
mod signals;

pub use events::Events;
pub use signals::{NotReady, Signals};
