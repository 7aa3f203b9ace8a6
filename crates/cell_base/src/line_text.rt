//! The one frame of the line formats: the lines of a text, the words of a line, and numbers.

mod hex;
mod numbers;
mod words;

pub use hex::{put_hex, put_hex_bytes};
pub use numbers::{number_at, put_decimal, word_number};
pub use words::{before_comment, first_line, next_word};
