//! Values in data and text, and their big-endian bytes.

ghost use Rattle.std.specs.Prelude.{◌≡◌, ◌<◌, ◌++◌, OnOk, IfErr};
ghost use Rattle.std.specs.List.{All};
ghost use Rattle.spu_asm.specs.declared.error.AsmError.TheVariants.{Memory};
ghost use Rattle.spu_asm.specs.Encoding.{range_of_size, number_bytes, values_of, spelled, defined, allowed};
ghost use Rattle.spu_asm.specs.Expressions.{IsOf};
ghost use Rattle.spu_asm.specs.Outcomes.{on_line, Shows};
ghost use Rattle.spu_asm.specs.Source.{labels_view};

use crate::AsmError;
use crate::instructions::{allowed, range};
use crate::syntax::{Expression, Range, Size};
use crate::values::defined;
use indexmap::IndexMap;
use std::alloc::Global;

/// What a value of a size has to be.
fn range_of_size(size: Size) -> Range
    ensures range { result ≡ range_of_size size }
    ensures some { 0 < result.step }
{
    match size {
        Size::Byte => range(-128, 255, 1),
        Size::Half => range(-32768, 65535, 1),
        Size::Word => range(-2147483648, 4294967295, 1),
        Size::Double => range(-9223372036854775808, 18446744073709551615, 1),
    }
}

/// Adds the bytes of a value that its size allows.
fn spell(size: Size, v: i128, out: &mut Vec<u8>) -> Result<(), AsmError>
    ensures err { IfErr result (λ e. e ≡ Memory) }
    ensures ok { OnOk result (out.new.items ≡ out.old.items ++ number_bytes size v) }
{
    match size {
        Size::Byte => out.push(v.rem_euclid(256) as u8)?,
        Size::Half => out.extend_from_slice(&(v.rem_euclid(65536) as u16).to_be_bytes())?,
        Size::Word => out.extend_from_slice(&(v.rem_euclid(4294967296) as u32).to_be_bytes())?,
        Size::Double => {
            out.extend_from_slice(&(v.rem_euclid(18446744073709551616) as u64).to_be_bytes())?
        }
    }
    Ok(())
}

/// The value of an expression of a line.
fn value_on(
    text: &[u8],
    labels: &IndexMap<&[u8], u32>,
    places: &[u32],
    number: u32,
    e: Expression,
) -> Result<i128, AsmError>
    requires { IsOf text.now e }
    ensures { result ≡ on_line number (defined text.now (labels_view labels.now.entries) places.now e) }
{
    match defined(text, labels, places, e) {
        Ok(v) => Ok(v),
        Err(kind) => Err(AsmError::At { line: number, kind }),
    }
}

/// The values of some expressions.
pub(crate) fn values_of(
    alloc: Global,
    text: &[u8],
    labels: &IndexMap<&[u8], u32>,
    places: &[u32],
    number: u32,
    es: &[Expression],
) -> Result<Vec<i128>, AsmError>
    requires { All (IsOf text.now) es.now }
    ensures { Shows (λ v. v.items) result (on_line number (values_of text.now (labels_view labels.now.entries) places.now es.now)) }
{
    let mut found = Vec::new(alloc);
    for e in es {
        found.push(value_on(text, labels, places, number, *e)?)?;
    }
    Ok(found)
}

/// A value that its size allows, in a line.
fn allowed_on(number: u32, size: Size, v: i128) -> Result<i128, AsmError>
    ensures { result ≡ on_line number (allowed (range_of_size size) v) }
{
    match allowed(range_of_size(size), v) {
        Ok(v) => Ok(v),
        Err(kind) => Err(AsmError::At { line: number, kind }),
    }
}

/// The bytes of some values, each of which its size allows.
pub(crate) fn spelled(
    alloc: Global,
    number: u32,
    size: Size,
    values: &[i128],
) -> Result<Vec<u8>, AsmError>
    ensures { Shows (λ v. v.items) result (on_line number (spelled size values.now)) }
{
    let mut out = Vec::new(alloc);
    for v in values {
        let allowed = allowed_on(number, size, *v)?;
        spell(size, allowed, &mut out)?;
    }
    Ok(out)
}
