//! Steps, and what covers them.

/// A step of a record by its chain, its place in the record counted from 0 and, for a step of a queued command, the numbers of
/// the command and of its element; for other steps these two are 0.
#[derive(Clone, Copy, Debug, PartialEq, Eq)]
pub struct At {
    pub chain: u8,
    pub cmd: u32,
    pub elem: u16,
    pub place: u32,
}

/// What covers steps.
#[derive(Clone, Copy, Debug, PartialEq, Eq)]
pub enum Fact {
    /// Each step of the chain at or below the place.
    Upto { chain: u8, place: u32 },
    /// Each step of the command.
    Whole { chain: u8, cmd: u32 },
    /// Each step of the command's elements below this one.
    Elements { chain: u8, cmd: u32, below: u16 },
    /// The one step.
    One { at: At },
}
