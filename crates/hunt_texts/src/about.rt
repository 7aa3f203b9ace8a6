//! What the text of a hunt says besides the sums of its runs.

use hunt_tally::SourceCoverage;

/// A hunt, as its text names it.
#[derive(Clone, Copy)]
pub struct About<'a> {
    /// The machine file, as the user typed it.
    pub machine: &'a [u8],
    /// The folder of the tools, as the user would type it.
    pub tools: &'a [u8],
    pub seed: u64,
    /// The number of the first run.
    pub from: u32,
    /// Whether lines were expected.
    pub expects: bool,
    /// Whether the number of steps ended the hunt.
    pub by_steps: bool,
    /// Whether all findings are printed.
    pub all: bool,
    /// Which lines of the sources the runs executed.
    pub coverage: &'a [SourceCoverage],
}
