//! Values of labels and expressions.

ghost use Rattle.std.specs.Prelude.{◌≡◌, ◌<◌, ◌-◌, slice_get};
ghost use Rattle.spu_asm.specs.Expressions.{IsOf};
ghost use Rattle.spu_asm.specs.Encoding.{defined};
ghost use Rattle.spu_asm.specs.Source.{labels_view, line_of};
ghost use Rattle.spu_asm.specs.Values.{value_of_label, value_of, quotient, modulo, part_of};

use crate::AsmKind;
use crate::reading::word;
use crate::syntax::{Expression, Part};
use indexmap::IndexMap;

/// The number of the line that defines a label.
fn line_of(labels: &IndexMap<&[u8], u32>, name: &[u8]) -> Option<u32>
    ensures { result ≡ line_of (labels_view labels.now.entries) name.now }
{
    labels.get(name).copied()
}

/// The place of the line with a number.
fn place_of(places: &[u32], number: u32) -> Option<u32>
    ensures { result ≡ slice_get places.now (number - 1) }
{
    places.get((number as usize).saturating_sub(1)).copied()
}

/// The value of a label: the place of its line.
pub(crate) fn value_of_label(
    labels: &IndexMap<&[u8], u32>,
    places: &[u32],
    name: &[u8],
) -> Option<u32>
    ensures { result ≡ value_of_label (labels_view labels.now.entries) places.now name.now }
{
    let number = line_of(labels, name)?;
    place_of(places, number)
}

/// A whole number divided, downwards.
pub(crate) fn quotient(v: i128, n: u32) -> i128
    requires { 0 < n }
    ensures { result ≡ quotient v n }
{
    v.div_euclid(n as i128)
}

/// What is left over.
pub(crate) fn modulo(v: i128, n: u32) -> u32
    requires { 0 < n }
    ensures value { result ≡ modulo v n }
    ensures bound { result < n }
{
    v.rem_euclid(n as i128) as u32
}

fn part_of(part: Part, v: i128) -> i128
    ensures { result ≡ part_of part v }
{
    match part {
        Part::Whole => v,
        Part::High => quotient(v, 65536),
        Part::Low => modulo(v, 65536) as i128,
    }
}

/// The value of an expression, where its label is defined.
#[tactic(auto, unfolding(crate::specs::Values::value_of))]
fn value_of(
    text: &[u8],
    labels: &IndexMap<&[u8], u32>,
    places: &[u32],
    e: Expression,
) -> Option<i128>
    requires { IsOf text.now e }
    ensures { result ≡ value_of text.now (labels_view labels.now.entries) places.now e }
{
    match e.label {
        None => Some(e.offset),
        Some(t) => {
            let at = value_of_label(labels, places, word(text, t))?;
            Some(part_of(e.part, at as i128 + e.offset))
        }
    }
}

/// The value of an expression, whose label is defined.
pub(crate) fn defined(
    text: &[u8],
    labels: &IndexMap<&[u8], u32>,
    places: &[u32],
    e: Expression,
) -> Result<i128, AsmKind>
    requires { IsOf text.now e }
    ensures { result ≡ defined text.now (labels_view labels.now.entries) places.now e }
{
    value_of(text, labels, places, e).ok_or(AsmKind::Undefined)
}
