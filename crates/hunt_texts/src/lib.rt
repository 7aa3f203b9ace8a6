//! What a hunt prints: its text, or JSON.
#![tactic(auto)]

mod about;
mod commands;
mod coverage;
mod endings;
mod ends;
mod finding;
mod findings;
mod found;
mod groups;
mod heads;
mod jsons;
mod kinds;
mod lists;
mod numbers;
mod results;
mod rows;
mod sources;
mod texts;
mod unexecuted;
mod watches;

pub use about::About;
pub use jsons::hunt_json;
pub use texts::hunt_text;
