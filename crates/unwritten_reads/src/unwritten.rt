//! A read of unwritten bytes.

/// A step that reads bytes of a local store that nothing wrote: an instruction that loads a quadword with no known byte, or a step of
/// the MFC that reads a byte that isn't known. A byte is known if the machine file placed it, or an earlier step wrote or read it.
#[derive(Clone, Copy, Debug, PartialEq, Eq)]
pub struct Unwritten {
    /// The place of the step in the run, from 0.
    pub place: u32,
    /// The processor whose local store it is.
    pub spe: u8,
    /// The address of the first byte that it reads and that isn't known.
    pub at: u32,
}
