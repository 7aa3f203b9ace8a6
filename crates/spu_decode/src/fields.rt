ghost use Rattle.std.specs.Prelude.{◌≡◌, ◌-◌, ◌*◌, ◌^◌, ◌<◌};
ghost use Rattle.std.specs.Int.Bits.{bit_and};
ghost use Rattle.spu_decode.specs.Reading.{reading_of};
ghost use Rattle.spu_decode.specs.Spelling.{fields_of, named, IsWithin, placed, opcode_bits};

use crate::Instr;
use crate::row::Row;
use crate::shape::{Format, Operands, Shape};

/// How the words of a row are read.
#[derive(Clone, Copy)]
pub(crate) struct Reading {
    /// What a word of ones is read as: each field that the row names is a mask of its bits, and each other 0.
    pub(crate) ones: Instr,
    /// The bits that must be 0.
    pub(crate) clear: u32,
    /// How far from the right RT and the immediate stand. The other fields stand at the same place in all words.
    pub(crate) rt_shift: u8,
    pub(crate) imm_shift: u8,
}

/// A register's number, of the rightmost bits and the mask of its own.
#[inline(always)]
fn masked(bits: u32, mask: u8) -> u8
    ensures { result ≡ bit_and bits mask }
{
    (bits & u32::from(mask)) as u8
}

/// The fields that a row names, as they stand in a word.
#[inline(always)]
pub(crate) fn read_fields(reading: Reading, w: u32) -> Instr
    requires { reading ≡ reading_of reading.ones.row }
    ensures { result ≡ fields_of reading.ones.row w }
{
    let ones = reading.ones;
    Instr {
        row: ones.row,
        rt: masked(w >> reading.rt_shift, ones.rt),
        ra: masked(w >> 7, ones.ra),
        rb: masked(w >> 14, ones.rb),
        rc: masked(w, ones.rc),
        imm: w >> reading.imm_shift & ones.imm,
    }
}

/// The instruction with 0 in each field that the operands do not name.
pub fn keep_named(operands: Operands, i: Instr) -> Instr
    ensures { result ≡ named operands i }
{
    match operands {
        Operands::RtRaRbRc => Instr { imm: 0, ..i },
        Operands::RtRaRb => Instr { rc: 0, imm: 0, ..i },
        Operands::RtRa | Operands::RtChannel | Operands::ChannelRt => Instr {
            rb: 0,
            rc: 0,
            imm: 0,
            ..i
        },
        Operands::RaRb => Instr {
            rt: 0,
            rc: 0,
            imm: 0,
            ..i
        },
        Operands::Ra => Instr {
            rt: 0,
            rb: 0,
            rc: 0,
            imm: 0,
            ..i
        },
        Operands::RtDisplacementRa
        | Operands::RtSevenRa
        | Operands::RtRaTen
        | Operands::RtRaByte
        | Operands::RtRaSeven => Instr { rb: 0, rc: 0, ..i },
        Operands::RaTen => Instr {
            rt: 0,
            rb: 0,
            rc: 0,
            ..i
        },
        Operands::RtAbsolute
        | Operands::RtRelative
        | Operands::RtSignedHalf
        | Operands::RtHalf
        | Operands::RtUnsigned => Instr {
            ra: 0,
            rb: 0,
            rc: 0,
            ..i
        },
        Operands::Absolute | Operands::Relative | Operands::Code => Instr {
            rt: 0,
            ra: 0,
            rb: 0,
            rc: 0,
            ..i
        },
        Operands::OptionalRegister | Operands::HintRa | Operands::HintAddresses | Operands::Bare =>
            Instr {
                rt: 0,
                ra: 0,
                rb: 0,
                rc: 0,
                imm: 0,
                ..i
            },
    }
}

/// The opcode at its place in a word.
pub(crate) fn place_opcode(shape: Shape) -> u32
    requires { shape.opcode < 2 ^ opcode_bits shape.format }
    ensures { result ≡ shape.opcode * 2 ^ (32 - opcode_bits shape.format) }
{
    match shape.format {
        Format::Rr | Format::Indirect | Format::Ri7 | Format::Stop => shape.opcode << 21,
        Format::Rrr => shape.opcode << 28,
        Format::Ri10 => shape.opcode << 24,
        Format::Ri16 => shape.opcode << 23,
        Format::Ri18 => shape.opcode << 25,
    }
}

/// The fields at their places in a word.
pub(crate) fn place_fields(format: Format, i: Instr) -> u32
    requires { IsWithin format i }
    ensures { result ≡ placed format i }
{
    let rt = i.rt as u32;
    let ra = i.ra as u32;
    let rb = i.rb as u32;
    match format {
        Format::Rr => (rb << 14) + (ra << 7) + rt,
        Format::Indirect => (ra << 7) + rt,
        Format::Rrr => (rt << 21) + (rb << 14) + (ra << 7) + i.rc as u32,
        Format::Ri7 | Format::Ri10 => (i.imm << 14) + (ra << 7) + rt,
        Format::Ri16 | Format::Ri18 => (i.imm << 7) + rt,
        Format::Stop => i.imm,
    }
}
