//! What a halt instruction compared.

ghost use Rattle.std.specs.Prelude.{◌≡◌, ◌+◌, ◌%◌, ◌<◌, ◌++◌, length, Some, OnOk};
ghost use Rattle.cell_machine.specs.Spe.{Spe};
ghost use Rattle.cell_machine.specs.Run.{spe_of};
ghost use Rattle.spu_decode.specs.Spelling.{FieldsFit};
ghost use Rattle.hunt_reports.specs.Compared.{compared_at, compared_by, compared_in, compared_text, operand_of, operand_text};

use crate::locations::Location;
use cell_base::line_text::{put_decimal, put_hex};
use cell_machine::Machine;
use spu_decode::{Instr, Row, decode};
use std::alloc::AllocError;

/// How many bytes a local store has.
const STORE_BYTES: u32 = 262_144;

/// A register and its preferred word.
#[derive(Clone, Copy)]
pub struct Operand {
    pub register: u8,
    pub word: u32,
}

/// The registers that an instruction compares.
#[derive(Clone, Copy)]
pub enum Compared {
    /// It is no halt instruction.
    Nothing,
    /// One register, with an immediate.
    One { first: Operand },
    /// Two registers.
    Two { first: Operand, second: Operand },
}

/// The registers that an instruction of a row compares, if these are its RA and RB.
fn compared_by(row: Row, first: Operand, second: Operand) -> Compared
    ensures { result ≡ compared_by row first second }
{
    match row {
        Row::Heq => Compared::Two { first, second },
        Row::Hgt => Compared::Two { first, second },
        Row::Hlgt => Compared::Two { first, second },
        Row::Heqi => Compared::One { first },
        Row::Hgti => Compared::One { first },
        Row::Hlgti => Compared::One { first },
        _ => Compared::Nothing,
    }
}

/// A register of a processor, and its preferred word.
fn operand_of(m: &Machine, spe: u8, register: u8) -> Operand
    requires spe { spe < length m.now.setup.entries }
    requires register { register < 128 }
    ensures { (P : Spe) → spe_of m.now spe ≡ Some P → result ≡ operand_of P register }
{
    Operand {
        register,
        word: m.register(spe, register).word(0),
    }
}

/// The registers that an instruction of a processor compares.
fn compared_in(m: &Machine, spe: u8, i: Instr) -> Compared
    requires spe { spe < length m.now.setup.entries }
    requires fits { FieldsFit i }
    ensures { (P : Spe) → spe_of m.now spe ≡ Some P → result ≡ compared_in P i }
{
    let first = operand_of(m, spe, i.ra);
    let second = operand_of(m, spe, i.rb);
    compared_by(i.row, first, second)
}

/// The registers that the instruction at an address of a processor's local store compares.
pub fn compared_at(m: &Machine, location: Location) -> Compared
    requires { location.spe < length m.now.setup.entries }
    ensures { (P : Spe) → spe_of m.now location.spe ≡ Some P → result ≡ compared_at P location.at }
{
    if location.at % 4 != 0 || location.at >= STORE_BYTES {
        return Compared::Nothing;
    }
    match decode(m.local(location.spe).word(location.at)) {
        Some(i) => compared_in(m, location.spe, i),
        None => Compared::Nothing,
    }
}

/// Writes a register and its word.
fn put_operand(out: &mut Vec<u8>, operand: Operand) -> Result<(), AllocError>
    ensures { OnOk result (out.new.items ≡ out.old.items ++ operand_text operand) }
{
    out.push(b'$')?;
    put_decimal(out, u32::from(operand.register))?;
    out.extend_from_slice(b" = 0x")?;
    put_hex(out, 8, operand.word)
}

/// Writes the registers that an instruction compares.
pub fn put_compared(out: &mut Vec<u8>, compared: Compared) -> Result<(), AllocError>
    ensures { OnOk result (out.new.items ≡ out.old.items ++ compared_text compared) }
{
    match compared {
        Compared::Nothing => Ok(()),
        Compared::One { first } => {
            out.extend_from_slice(b": ")?;
            put_operand(out, first)
        }
        Compared::Two { first, second } => {
            out.extend_from_slice(b": ")?;
            put_operand(out, first)?;
            out.extend_from_slice(b", ")?;
            put_operand(out, second)
        }
    }
}
