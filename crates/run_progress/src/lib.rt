//! Whether a run still made progress when it ended, or was a livelock: the last change that other actors can see, and what each processor did after it.
#![tactic(auto)]

mod changes;
mod progress;
mod reads;
mod recent;
mod recents;
mod repeat;
mod tracks;
mod writes;

pub use progress::{AddressRange, Poll, Progress, SpeProgress, progress_of};
