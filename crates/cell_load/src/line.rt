// What a line of a machine file says, and what the lines before it allow.

use cell_host::HostAction;

/// A line with words.
#[derive(Drop)]
pub(crate) enum Line {
    Head,
    Lines { n: u32 },
    Budget { n: u32 },
    Spe,
    Entry { at: u32 },
    Code { at: u32, bytes: Vec<u8> },
    Bytes { at: u32, bytes: Vec<u8> },
    Source { name: String },
    MemoryBytes { at: u32, bytes: Vec<u8> },
    Host { action: HostAction },
    OrMode { spe: u8, register: u8 },
    ShowLocal { spe: u32, at: u32, len: u32 },
    ShowMemory { at: u32, len: u32 },
}

/// Why a line has no place.
#[derive(Clone, Copy)]
pub(crate) enum Refusal {
    /// It is outside the form.
    Form,
    /// It is in the form, and a number or a count is outside its limits.
    Limit,
    Memory,
}

/// How far the file has come.
#[derive(Clone, Copy)]
pub(crate) enum Stage {
    /// No line with words came.
    Start,
    /// The line `cell-machine 1` came.
    Headed,
    /// The number of memory lines came too.
    Sized { lines: u32 },
    /// The first three lines came, and these are counted of the others.
    Body { counts: Counts },
}

/// How many lines the memory has, and what is counted of the lines behind the first three.
#[derive(Clone, Copy)]
pub(crate) struct Counts {
    /// Of main memory, 128 bytes each.
    pub(crate) lines: u32,
    pub(crate) spes: u32,
    /// Whether the latest processor has its entry line.
    pub(crate) entry: bool,
    pub(crate) sources: u32,
    /// Host actions.
    pub(crate) actions: u32,
    pub(crate) shows: u32,
}
