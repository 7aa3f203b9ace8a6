//! The steps of a run that read bytes of a local store that nothing wrote.
#![tactic(auto)]

mod known;
mod placed;
mod range;
mod reads;
mod unwritten;

pub use reads::UnwrittenReads;
pub use unwritten::Unwritten;
