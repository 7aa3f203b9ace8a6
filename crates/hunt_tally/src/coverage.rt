//! Which lines of the sources a hunt executed.

use std::marker::Model;

/// A line with an instruction: its number, counted from 1, and whether a run executed it.
#[derive(Clone, Copy)]
pub struct LineCoverage {
    pub number: u32,
    pub executed: bool,
}

/// A source, by its name, and its lines with an instruction, in their order.
#[derive(Drop)]
pub struct SourceCoverage {
    pub name: Vec<u8>,
    pub lines: Vec<LineCoverage>,
}

impl Model for SourceCoverage {
    ghost use Rattle.hunt_tally.specs.Coverage.{SourceLines};

    ghost Value = { SourceLines };

    ghost view = { λ s. record { name = s.name.items; lines = s.lines.items } };
}
