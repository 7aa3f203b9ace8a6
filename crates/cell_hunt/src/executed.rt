//! Instructions that a run executed.

/// An instruction that a step of a run executed: the processor, and the address in its local store.
#[derive(Clone, Copy)]
pub struct Executed {
    pub spe: u8,
    pub at: u32,
}
