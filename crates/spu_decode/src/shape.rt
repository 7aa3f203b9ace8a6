/// Where the opcode and the fields of a word stand.
#[derive(Clone, Copy, Debug, PartialEq, Eq)]
pub enum Format {
    /// Three registers: RB, RA, RT.
    Rr,
    /// As `Rr`, but a word with interrupt bit 12 or 13 set is no instruction.
    Indirect,
    /// Four registers: RT, RB, RA, RC.
    Rrr,
    /// An immediate of seven bits, RA, RT.
    Ri7,
    /// An immediate of ten bits, RA, RT.
    Ri10,
    /// An immediate of sixteen bits, RT.
    Ri16,
    /// An immediate of eighteen bits, RT.
    Ri18,
    /// The code of `stop`, fourteen bits.
    Stop,
}

/// The operands of a row in the order in which they are written, and what an assembler takes for each of them.
#[derive(Clone, Copy, Debug, PartialEq, Eq)]
pub enum Operands {
    /// `rt,disp(ra)`: a multiple of 16 from -8192 to 8176, of which a sixteenth is kept.
    RtDisplacementRa,
    /// `rt,imm(ra)`: from -64 to 127.
    RtSevenRa,
    /// `rt,ra,rb`.
    RtRaRb,
    /// `rt,ra,rb,rc`.
    RtRaRbRc,
    /// `rt,ra`.
    RtRa,
    /// `ra,rb`.
    RaRb,
    /// `ra`.
    Ra,
    /// `rt,addr`: an address, of which a quarter is kept.
    RtAbsolute,
    /// `rt,addr`: an address, of whose distance from the instruction a quarter is kept.
    RtRelative,
    /// `addr`: as in `RtAbsolute`.
    Absolute,
    /// `addr`: as in `RtRelative`.
    Relative,
    /// `rt,imm`: from -32768 to 32767.
    RtSignedHalf,
    /// `rt,imm`: from -32768 to 65535.
    RtHalf,
    /// `rt,imm`: from 0 to 262143.
    RtUnsigned,
    /// `rt,ra,imm`: from -512 to 511.
    RtRaTen,
    /// `rt,ra,imm`: for each byte, from -128 to 255.
    RtRaByte,
    /// `rt,ra,imm`: from -64 to 127.
    RtRaSeven,
    /// `ra,imm`: from -512 to 511.
    RaTen,
    /// `code`: from 0 to 16383.
    Code,
    /// `rt,ch`: the channel stands in RA.
    RtChannel,
    /// `ch,rt`: the channel stands in RA.
    ChannelRt,
    /// Nothing, or a register that is ignored.
    OptionalRegister,
    /// `expr,ra`: a hint, of which nothing is kept.
    HintRa,
    /// `expr,expr`: a hint, of which nothing is kept.
    HintAddresses,
    /// Nothing.
    Bare,
}

/// The part of the table that decoding needs.
#[derive(Clone, Copy, Debug, PartialEq, Eq)]
pub struct Shape {
    pub format: Format,
    pub opcode: u32,
    pub operands: Operands,
}
