//! What is asked of each run of a hunt.

use crate::origins::Places;

/// What is asked of each run.
#[derive(Drop)]
pub struct Asked {
    /// What the lines of the machine file place: races are told apart by these lines.
    pub places: Places,
    /// Lines that the states are to have, without line feeds.
    pub expected: Vec<Vec<u8>>,
    /// The keys of races that are left out.
    pub passed: Vec<Vec<u8>>,
    /// Whether lost values and reads of unwritten bytes are reported.
    pub warns: bool,
}
