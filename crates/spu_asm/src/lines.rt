//! The bytes of lines.

ghost use Rattle.std.specs.Prelude.{◌≡◌, ◌≤◌, IfOk, IfErr};
ghost use Rattle.spu_asm.specs.declared.error.AsmError.TheVariants.{Memory};
ghost use Rattle.spu_asm.specs.Encoding.{bytes_of, text_bytes, value_bytes};
ghost use Rattle.spu_asm.specs.Outcomes.{on_line, Shows};
ghost use Rattle.spu_asm.specs.Reading.{Within};
ghost use Rattle.spu_asm.specs.ReadLines.{IsReadLine};
ghost use Rattle.spu_asm.specs.Source.{line_view, labels_view};
ghost use Rattle.spu_asm.specs.Statements.{expressions_among};

use crate::AsmError;
use crate::filling::{align_len, filling, org_len, skip_len, zeros};
use crate::instructions::encoded;
use crate::lists::expressions;
use crate::numbers::{spelled, values_of};
use crate::reading::word;
use crate::strings::string_bytes;
use crate::syntax::{Line, Size, Statement};
use indexmap::IndexMap;
use spu_lex::Token;
use std::alloc::Global;

/// The bytes of a line at its address.
#[tactic(auto, unfolding(crate::specs::Encoding::bytes_of))]
pub(crate) fn line_bytes(
    alloc: Global,
    text: &[u8],
    labels: &IndexMap<&[u8], u32>,
    places: &[u32],
    at: u32,
    line: &Line,
) -> Result<Vec<u8>, AsmError>
    requires at { at ≤ 262144 }
    requires read { IsReadLine text.now line.now }
    ensures { Shows (λ v. v.items) result (on_line line.now.number (bytes_of text.now (labels_view labels.now.entries) places.now at (line_view line.now))) }
{
    match line.statement {
        Statement::Nothing => Ok(Vec::new(alloc)),
        Statement::Choose(_) => Ok(Vec::new(alloc)),
        Statement::Align(n) => {
            let len = align_len(line.section, at, n);
            Ok(filling(alloc, line.section, len)?)
        }
        Statement::Org(n) => {
            let len = org_len(line.section, at, n);
            Ok(zeros(alloc, len)?)
        }
        Statement::Skip(n) => {
            let len = skip_len(line.section, at, n);
            Ok(zeros(alloc, len)?)
        }
        Statement::Instruction(row, given) => {
            match encoded(text, labels, places, at, row, given) {
                Ok(word) => Ok(Vec::from_slice(alloc, word.as_slice())?),
                Err(kind) => Err(AsmError::At {
                    line: line.number,
                    kind,
                }),
            }
        }
        Statement::Values(size, _) => value_bytes(
            alloc,
            text,
            labels,
            places,
            line.number,
            size,
            line.arguments,
        ),
        Statement::Bytes(_, zero_byte) => text_bytes(alloc, text, line.arguments, zero_byte),
    }
}

/// The bytes of a list of expressions.
fn value_bytes(
    alloc: Global,
    text: &[u8],
    labels: &IndexMap<&[u8], u32>,
    places: &[u32],
    number: u32,
    size: Size,
    arguments: &[Token],
) -> Result<Vec<u8>, AsmError>
    requires { Within text.now arguments.now }
    ensures { Shows (λ v. v.items) result (on_line number (value_bytes text.now (labels_view labels.now.entries) places.now size (expressions_among text.now arguments.now))) }
{
    let es = expressions(alloc, text, arguments)?;
    let values = values_of(alloc, text, labels, places, number, &es)?;
    spelled(alloc, number, size, &values)
}

/// The bytes of a string, and a zero byte where one follows.
fn text_bytes(
    alloc: Global,
    text: &[u8],
    arguments: &[Token],
    zero_byte: bool,
) -> Result<Vec<u8>, AsmError>
    requires { Within text.now arguments.now }
    ensures given { IfOk result (λ v. v.items ≡ text_bytes text.now arguments.now zero_byte) }
    ensures err { IfErr result (λ e. e ≡ Memory) }
{
    let mut out = match arguments {
        [] => Vec::new(alloc),
        [t, ..] => string_bytes(alloc, word(text, *t))?,
    };
    if zero_byte {
        out.push(0)?;
    }
    Ok(out)
}
