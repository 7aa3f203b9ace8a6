//! A machine that threads share. It stands in one slot of a table, beside one word: the turn word, twice the length of the record, and 1 more while a thread has the turn.
//! A thread that finds the word even has the turn, and steps the machine where it stands. No lock stands round it.
#![tactic(auto)]

mod pass;
mod plays;
mod shared;
mod turn;
mod view;

pub use pass::Pass;
pub use shared::{Shared, StartError, Tried, Turned};
