use cell_base::ChannelOp;

/// What comes after an instruction.
#[derive(Clone, Copy, Debug, PartialEq, Eq)]
pub enum Flow {
    /// The instruction at an address.
    Next(u32),
    /// The processor stops with a code of 14 bits; it may go on at `next`.
    Stop { code: u16, next: u32 },
    /// The processor halts; it may go on at `next`.
    Halt { next: u32 },
    /// The machine has to act on a channel, and to go on at the next address once it has.
    Channel(ChannelOp),
}
