//! What all the crates speak of: quadwords and their lanes, the machine's steps, and the frame of the line formats.
#![tactic(auto)]

mod format;
mod immediates;
mod lanes;
pub mod line_text;
mod quad;
mod scalars;
mod steps;

pub use format::Format;
pub use immediates::{byte_mask, has_bit, low_bytes, ten_bit_halves, ten_bit_words};
pub use quad::Quad;
pub use scalars::{extended_half, extended_word};
pub use steps::{Actor, ChannelOp, Step};
