//! The formats of a record.

/// How a record of steps is written.
#[derive(Clone, Copy, Debug, PartialEq, Eq)]
pub enum Format {
    /// Format 1: each step has its line.
    One,
    /// Format 2: each longest stretch of instructions of one processor has one line with their number, and each other step its own.
    Two,
}
