//! The instruction table of the SPU, both ways: words to instructions, and instructions to words.
#![tactic(auto)]

ghost use Rattle.std.specs.Prelude.{◌≡◌, ℕ, ◌+◌, ◌-◌, ◌*◌, ◌/◌, ◌%◌, ◌^◌, ◌<◌, ◌≤◌, ◌↔◌, slice_index, slice_get, IfSome};
ghost use Rattle.std.specs.Option.{option_map};
ghost use Rattle.spu_decode.specs.Reading.{reading_of};
ghost use Rattle.spu_decode.specs.Spelling.{shape_of, Spells, Begins, FieldsFit, word_of, instr_of};
ghost use Rattle.spu_decode.specs.declared.Instr.{Instr};
ghost use Rattle.spu_decode.specs.declared.row.Row.{Row};

mod fields;
mod names;
mod readings;
mod row;
mod shape;
mod table;

pub use fields::keep_named;
use fields::{Reading, place_fields, place_opcode, read_fields};
pub use names::{mnemonic, row_named};
use readings::READINGS;
pub use row::Row;
pub use shape::{Format, Operands, Shape};
use table::{ROW_NUMBERS, ROWS, SHAPES};

/// An instruction: its row, and the raw fields of its word.
/// A field that the row does not name is 0, and a channel stands in `ra`.
#[derive(Clone, Copy, Debug, PartialEq, Eq)]
pub struct Instr {
    pub row: Row,
    /// Registers, below 128.
    pub rt: u8,
    pub ra: u8,
    pub rb: u8,
    pub rc: u8,
    /// The immediate as it stands in the word, not extended.
    pub imm: u32,
}

/// The instruction that a word spells, or `None` where no row spells it. Bits that the row does not name are ignored.
#[inline(always)]
pub fn decode(w: u32) -> Option<Instr>
    ensures exact { (i : Instr) → (result ≡ Some i) ↔ Spells w i }
    ensures means { result ≡ instr_of w }
    // No opcode is a prefix of another.
    ensures one_row { (r s : Row) → Begins w r → Begins w s → r ≡ s }
    ensures fits { IfSome result FieldsFit }
{
    let reading = find_reading(w)?;
    Some(read_fields(reading, w))
}

/// The row of the instruction that a word spells, or `None` where no row spells it.
#[inline(always)]
pub fn row_spelled(w: u32) -> Option<Row>
    ensures { result ≡ option_map (λ i. i.row) (instr_of w) }
{
    let reading = find_reading(w)?;
    Some(reading.ones.row)
}

/// The word of an instruction, with 0 in the bits that its row does not name.
pub fn encode(i: Instr) -> u32
    requires { FieldsFit i }
    ensures word { result ≡ word_of i }
    ensures spells { Spells result i }
    ensures means { instr_of result ≡ Some i }
{
    let shape = row_shape(i.row);
    place_opcode(shape) + place_fields(shape.format, i)
}

/// The shape of a row's words.
pub fn row_shape(row: Row) -> Shape
    ensures { result ≡ shape_of row }
{
    SHAPES[index_of(row)]
}

/// How the words of the row that a word spells are read, or `None` where no row spells it.
#[inline(always)]
fn find_reading(w: u32) -> Option<Reading>
    ensures { result ≡ option_map (λ i. reading_of i.row) (instr_of w) }
{
    let number = row_number(w >> 21);
    if number == 0 {
        return None;
    }
    let reading = reading_at(number - 1);
    if w & reading.clear == 0 {
        Some(reading)
    } else {
        None
    }
}

/// One more than the number of the row that begins a word with these eleven bits, or 0.
#[inline(always)]
fn row_number(top: u32) -> u8
    requires { top < 2048 }
    ensures bound { result < 162 }
    ensures at { result ≡ slice_index ROW_NUMBERS top }
{
    ROW_NUMBERS[top as usize]
}

/// How the words of the row with a number are read.
#[inline(always)]
fn reading_at(number: u8) -> Reading
    requires { number < 161 }
    ensures row { slice_get ROWS number ≡ Some result.ones.row }
    ensures reading { result ≡ reading_of result.ones.row }
{
    READINGS[number as usize]
}

/// The place of a row among all.
fn index_of(row: Row) -> usize
    ensures bound { result < 161 }
    ensures at { slice_get ROWS result ≡ Some row }
{
    row as usize
}
