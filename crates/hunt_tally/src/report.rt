//! What one run tells of itself.

use crate::flaws::Flaws;
use crate::telling::Telling;
use std::marker::Model;

/// What one run tells.
#[derive(Drop)]
pub struct Report {
    /// What went wrong in it.
    pub flaws: Flaws,
    /// How it ended, without a line feed.
    pub ending: Vec<u8>,
    /// What it left: lines, each with its line feed.
    pub result: Vec<u8>,
    /// Its different races.
    pub races: Vec<Telling>,
    /// The expected lines that it doesn't have, without line feeds.
    pub missed: Vec<Vec<u8>>,
    /// Its findings. A key begins with the word of the finding's kind.
    pub findings: Vec<Telling>,
    /// Its warnings. A key begins with the word of the warning's kind.
    pub warnings: Vec<Telling>,
    /// Whether a race was left out that was passed.
    pub leaves_out: bool,
    /// The digest of its kind.
    pub kind: u64,
    /// How many steps it has.
    pub steps: u32,
    /// The instructions that it executed, each by its number.
    pub executed: Vec<usize>,
}

impl Model for Report {
    ghost use Rattle.std.specs.Prelude.{map};
    ghost use Rattle.hunt_tally.specs.Reports.{Reported};

    ghost Value = { Reported };

    ghost view = { λ r. record { flaws = r.flaws; ending = r.ending.items; result = r.result.items; races = r.races.items; missed = map (λ line. line.items) r.missed.items; findings = r.findings.items; warnings = r.warnings.items; leaves_out = r.leaves_out; kind = r.kind; steps = r.steps; executed = r.executed.items } };
}
