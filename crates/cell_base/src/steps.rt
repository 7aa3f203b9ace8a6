//! Who makes a step of the machine, and what it is.

/// Who makes a step: the unit that executes instructions, the memory flow controller of a processor, or the host.
#[derive(Clone, Copy, Debug, PartialEq, Eq)]
pub enum Actor {
    Spu(u8),
    Mfc(u8),
    Host,
}

/// One atomic step of the machine.
#[derive(Clone, Copy, Debug, PartialEq, Eq)]
pub enum Step {
    /// One instruction of a processor.
    Exec {
        spe: u8,
    },
    /// One piece of a transfer: of which command, of which element of its list (0 for a plain command), and which part.
    Piece {
        spe: u8,
        cmd: u32,
        elem: u16,
        part: u16,
    },
    /// The reading of a list's next element.
    Elem {
        spe: u8,
        cmd: u32,
    },
    /// The end of a command that has no pieces.
    Retire {
        spe: u8,
        cmd: u32,
    },
    /// The atomic command of a processor.
    Atomic {
        spe: u8,
    },
    /// The next action of the host script.
    Host,
}

/// What a channel instruction asks for: a read or a count into register `rt`, or a write of a value.
#[derive(Clone, Copy, Debug, PartialEq, Eq)]
pub enum ChannelOp {
    Read { rt: u8, ch: u8 },
    Count { rt: u8, ch: u8 },
    Write { ch: u8, value: u32 },
}
