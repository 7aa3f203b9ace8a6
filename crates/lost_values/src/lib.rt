//! The values that a run loses: a step sets each of them, and another step replaces it before any step reads it.
#![tactic(auto)]

mod loss;
mod losses;
mod touches;
mod unread;

pub use loss::{Loss, LossKind};
pub use losses::Losses;
