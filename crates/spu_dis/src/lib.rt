//! The disassembler: a word at an address, in the language of the assembler.
#![tactic(auto)]

ghost use Rattle.std.specs.Prelude.{◌≡◌, ◌%◌, ◌<◌, ◌^◌, ◌++◌, OnOk, IfOk};
ghost use Rattle.spu_decode.specs.Spelling.{FieldsFit};
ghost use Rattle.spu_dis.specs.Disassembly.{number_at, instruction_text, word_text, is_written, dis_text};
ghost use Rattle.spu_dis.specs.Law.{AssemblesAgain};

mod error;
mod numbers;
mod operands;

use cell_base::line_text::put_hex;
pub use error::DisError;
use numbers::{Number, number_in, value_of};
use operands::{put_operands, written_slots};
use spu_asm::{allowed, is_hint, range_of};
use spu_decode::{Instr, decode, encode, mnemonic, row_shape};
use std::alloc::{AllocError, Global};

/// The text of the word `w` at the address `at`, without a line feed: its instruction where the assembler makes `w` of it,
/// else `.long` and the word. Whichever it is, the assembler makes `w` of it again.
#[tactic(auto, using(crate::proofs::Assembles::assembles_again), unfolding(crate::specs::Disassembly::dis_text))]
pub fn disassemble(alloc: Global, at: u32, w: u32) -> Result<Vec<u8>, DisError>
    requires aligned { at % 4 ≡ 0 }
    requires within { at < 262144 }
    ensures text { IfOk result (λ text. text.items ≡ dis_text at w) }
    ensures again { AssemblesAgain at w }
{
    let mut out = Vec::new(alloc);
    match decode(w) {
        Some(i) if is_written(at, w, i) => put_instruction(&mut out, at, i)?,
        _ => put_word(&mut out, w)?,
    }
    Ok(out)
}

/// The number in the operands of an instruction.
fn number_at(at: u32, i: Instr) -> Number
    requires at { at < 262144 }
    requires fits { FieldsFit i }
    ensures { result ≡ number_at at i }
{
    number_in(row_shape(i.row).operands, at, i.imm)
}

/// Whether a word is written as its instruction.
fn is_written(at: u32, w: u32, i: Instr) -> bool
    requires at { at < 262144 }
    requires fits { FieldsFit i }
    ensures { result ≡ is_written at w i }
{
    let operands = row_shape(i.row).operands;
    !is_hint(operands)
        && encode(i) == w
        && allowed(range_of(operands), value_of(number_at(at, i))).is_ok()
}

/// Writes an instruction at an address.
fn put_instruction(out: &mut Vec<u8>, at: u32, i: Instr) -> Result<(), AllocError>
    requires at { at < 262144 }
    requires fits { FieldsFit i }
    ensures { OnOk result (out.new.items ≡ out.old.items ++ instruction_text at i) }
{
    out.extend_from_slice(mnemonic(i.row).as_bytes())?;
    let slots = written_slots(row_shape(i.row).operands);
    put_operands(out, slots, number_at(at, i), i)
}

/// Writes a word as a number.
fn put_word(out: &mut Vec<u8>, w: u32) -> Result<(), AllocError>
    ensures { OnOk result (out.new.items ≡ out.old.items ++ word_text w) }
{
    out.extend_from_slice(b".long 0x")?;
    put_hex(out, 8, w)
}
