//! The texts that the program prints.
#![tactic(auto)]

mod error;
mod host;
mod image;
mod record;
mod result;
mod shows;
mod states;
mod summary;
mod verdict;

pub use error::TextError;
pub use image::image_text;
pub use record::{put_step, record_text, record_text_1};
pub use result::result_text;
pub use states::states_text;
pub use summary::summary_text;
pub use verdict::verdict_text;
