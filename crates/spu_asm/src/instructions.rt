//! Words of instructions.

ghost use Rattle.std.specs.Prelude.{◌≡◌, ◌≤◌, ◌<◌, ◌^◌, pos, neg_ℤ, ◌≤ℤ◌, IfOk, IfSome};
ghost use Rattle.spu_decode.specs.Spelling.{immediate_bits, shape_of, FieldsFit};
ghost use Rattle.spu_asm.specs.Encoding.{range, range_of, is_in, allowed, scaled, field, is_hint, lnop, instr, instr_at, instr_bytes, valued, encoded, IsNarrow};
ghost use Rattle.spu_asm.specs.Expressions.{IsOf};
ghost use Rattle.spu_asm.specs.Operands.{GivenFits};
ghost use Rattle.spu_asm.specs.Source.{labels_view};

use crate::AsmKind;
use crate::syntax::{Expression, Given, Range};
use crate::values::{defined, modulo, quotient};
use indexmap::IndexMap;
use spu_decode::{Format, Instr, Operands, Row, Shape, encode, keep_named, row_shape};

pub(crate) fn range(low: i128, high: i128, step: u32) -> Range
    ensures { result ≡ range low high step }
{
    Range { low, high, step }
}

/// What the value in operands has to be.
pub fn range_of(operands: Operands) -> Range
    ensures range { result ≡ range_of operands }
    ensures narrow { IsNarrow result }
{
    match operands {
        Operands::RtDisplacementRa => range(-8192, 8176, 16),
        Operands::RtAbsolute | Operands::RtRelative | Operands::Absolute | Operands::Relative => {
            range(0, 262143, 4)
        }
        Operands::RtSignedHalf => range(-32768, 32767, 1),
        Operands::RtHalf => range(-32768, 65535, 1),
        Operands::RtUnsigned => range(0, 262143, 1),
        Operands::RtRaTen | Operands::RaTen => range(-512, 511, 1),
        Operands::RtRaByte => range(-128, 255, 1),
        Operands::RtSevenRa | Operands::RtRaSeven => range(-64, 127, 1),
        Operands::Code => range(0, 16383, 1),
        _ => range(0, 0, 1),
    }
}

/// A value that a range allows, or what is wrong with it.
#[tactic(auto, unfolding(crate::specs::Encoding::allowed))]
pub fn allowed(r: Range, v: i128) -> Result<i128, AsmKind>
    requires { 0 < r.step }
    ensures allowed { result ≡ allowed r v }
    ensures low { IfOk result (λ x. r.low ≤ℤ x) }
    ensures high { IfOk result (λ x. x ≤ℤ r.high) }
{
    if modulo(v, r.step) == 0 {
        if r.low <= v && v <= r.high {
            Ok(v)
        } else {
            Err(AsmKind::OutOfRange)
        }
    } else {
        Err(AsmKind::NotMultiple)
    }
}

/// How many values a field has.
fn field_size(format: Format) -> u32
    ensures size { result ≡ 2 ^ immediate_bits format }
    ensures some { 0 < result }
{
    match format {
        Format::Ri7 => 1 << 7,
        Format::Ri10 => 1 << 10,
        Format::Ri16 => 1 << 16,
        Format::Ri18 => 1 << 18,
        Format::Stop => 1 << 14,
        _ => 1,
    }
}

/// What is kept of a value at an address.
fn scaled(operands: Operands, at: u32, v: i128) -> i128
    requires low { neg_ℤ (pos (2 ^ 20)) ≤ℤ v }
    requires high { v ≤ℤ pos (2 ^ 20) }
    ensures { result ≡ scaled operands at v }
{
    match operands {
        Operands::RtDisplacementRa => quotient(v, 16),
        Operands::RtAbsolute | Operands::Absolute => quotient(v, 4),
        Operands::RtRelative | Operands::Relative => quotient(v - at as i128, 4),
        _ => v,
    }
}

/// The field of a value at an address.
#[tactic(auto, unfolding(crate::specs::Encoding::field))]
fn field(shape: Shape, at: u32, value: Option<i128>) -> Result<u32, AsmKind>
    ensures field { result ≡ field shape at value }
    ensures bound { IfOk result (λ n. n < 2 ^ immediate_bits shape.format) }
{
    let size = field_size(shape.format);
    match value {
        None => Ok(0),
        Some(v) => {
            let v = allowed(range_of(shape.operands), v)?;
            Ok(modulo(scaled(shape.operands, at, v), size))
        }
    }
}

/// Whether the operands are those of a hint, of which nothing is kept.
pub fn is_hint(operands: Operands) -> bool
    ensures { result ≡ is_hint operands }
{
    match operands {
        Operands::HintRa | Operands::HintAddresses => true,
        _ => false,
    }
}

pub(crate) fn lnop() -> Instr
    ensures lnop { result ≡ lnop }
    ensures fits { FieldsFit result }
{
    Instr {
        row: Row::Lnop,
        rt: 0,
        ra: 0,
        rb: 0,
        rc: 0,
        imm: 0,
    }
}

/// The fields of a word; those that the row does not name are 0.
fn instr(row: Row, given: Given, imm: u32) -> Instr
    requires rt { given.rt < 128 }
    requires ra { given.ra < 128 }
    requires rb { given.rb < 128 }
    requires rc { given.rc < 128 }
    requires imm { imm < 2 ^ immediate_bits (shape_of row).format }
    ensures instr { result ≡ instr row given imm }
    ensures fits { FieldsFit result }
{
    let all = Instr {
        row,
        rt: given.rt,
        ra: given.ra,
        rb: given.rb,
        rc: given.rc,
        imm,
    };
    keep_named(row_shape(row).operands, all)
}

/// An instruction at an address, by the value in its operands.
#[tactic(auto, unfolding(crate::specs::Encoding::instr_at))]
fn instr_at(at: u32, row: Row, given: Given, value: Option<i128>) -> Result<Instr, AsmKind>
    requires rt { given.rt < 128 }
    requires ra { given.ra < 128 }
    requires rb { given.rb < 128 }
    requires rc { given.rc < 128 }
    ensures instr { result ≡ instr_at at row given value }
    ensures fits { IfOk result FieldsFit }
{
    let shape = row_shape(row);
    if is_hint(shape.operands) {
        Ok(lnop())
    } else {
        let imm = field(shape, at, value)?;
        Ok(instr(row, given, imm))
    }
}

/// The four bytes of an instruction.
#[tactic(auto, unfolding(crate::specs::Encoding::instr_bytes))]
pub(crate) fn instr_bytes(i: Instr) -> [u8; 4]
    requires { FieldsFit i }
    ensures { result ≡ instr_bytes i }
{
    encode(i).to_be_bytes()
}

/// The value of an expression where there is one.
fn valued(
    text: &[u8],
    labels: &IndexMap<&[u8], u32>,
    places: &[u32],
    e: Option<Expression>,
) -> Result<Option<i128>, AsmKind>
    requires { IfSome e (IsOf text.now) }
    ensures { result ≡ valued text.now (labels_view labels.now.entries) places.now e }
{
    match e {
        None => Ok(None),
        Some(e) => {
            let v = defined(text, labels, places, e)?;
            Ok(Some(v))
        }
    }
}

/// The bytes of an instruction at an address.
#[tactic(auto, unfolding(crate::specs::Encoding::encoded))]
pub(crate) fn encoded(
    text: &[u8],
    labels: &IndexMap<&[u8], u32>,
    places: &[u32],
    at: u32,
    row: Row,
    given: Given,
) -> Result<[u8; 4], AsmKind>
    requires { GivenFits text.now given }
    ensures { result ≡ encoded text.now (labels_view labels.now.entries) places.now at row given }
{
    let value = valued(text, labels, places, given.value)?;
    let _ = valued(text, labels, places, given.second)?;
    let i = instr_at(at, row, given, value)?;
    Ok(instr_bytes(i))
}
