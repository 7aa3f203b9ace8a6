//! The text of a record.

ghost use Rattle.std.specs.Prelude.{◌≡◌, ◌++◌, ◌<◌, ◌≤◌, length, OnOk, IfOk};
ghost use Rattle.std.specs.List.{prefix_len};
ghost use Rattle.cell_base.specs.declared.format.Format.TheVariants.{One, Two};
ghost use Rattle.cell_base.specs.declared.steps.Step.TheVariants.{Exec};
ghost use Rattle.cell_base.specs.Records.{field, step_line, stretch_line, are_of_one, count_line, spelling};

use crate::error::TextError;
use cell_base::Step;
use cell_base::line_text::put_decimal;
use std::alloc::{AllocError, Global};

/// Writes a space and a number at the end.
pub fn put_field(out: &mut Vec<u8>, n: u32) -> Result<(), AllocError>
    ensures { OnOk result (out.new.items ≡ out.old.items ++ field n) }
{
    out.push(b' ')?;
    put_decimal(out, n)
}

/// Writes the line of a step at the end.
pub fn put_step(out: &mut Vec<u8>, step: Step) -> Result<(), AllocError>
    ensures { OnOk result (out.new.items ≡ out.old.items ++ step_line step) }
{
    match step {
        Step::Exec { spe } => {
            out.push(b'x')?;
            put_field(out, u32::from(spe))?;
        }
        Step::Piece {
            spe,
            cmd,
            elem,
            part,
        } => {
            out.push(b'p')?;
            put_field(out, u32::from(spe))?;
            put_field(out, cmd)?;
            put_field(out, u32::from(elem))?;
            put_field(out, u32::from(part))?;
        }
        Step::Elem { spe, cmd } => {
            out.push(b'e')?;
            put_field(out, u32::from(spe))?;
            put_field(out, cmd)?;
        }
        Step::Retire { spe, cmd } => {
            out.push(b'r')?;
            put_field(out, u32::from(spe))?;
            put_field(out, cmd)?;
        }
        Step::Atomic { spe } => {
            out.push(b'a')?;
            put_field(out, u32::from(spe))?;
        }
        Step::Host => out.push(b'h')?,
    }
    out.push(b'\n')?;
    Ok(())
}

/// The line of a stretch of which both numbers have one digit, as most lines have where several processors take turns.
fn short_line(spe: u8, count: u32) -> [u8; 6]
    requires spe { spe < 10 }
    requires count { count < 10 }
    ensures { result ≡ stretch_line (Exec spe) count }
{
    [b'x', b' ', b'0' + spe, b' ', b'0' + count as u8, b'\n']
}

/// The same of a processor whose number has two digits.
fn longer_line(spe: u8, count: u32) -> [u8; 7]
    requires high { 10 ≤ spe }
    requires spe { spe < 100 }
    requires count { count < 10 }
    ensures { result ≡ stretch_line (Exec spe) count }
{
    let tens = b'0' + spe / 10;
    let ones = b'0' + spe % 10;
    [b'x', b' ', tens, ones, b' ', b'0' + count as u8, b'\n']
}

/// Writes the line of a stretch at the end, which in format 2 stands for a step so many times.
fn put_stretch(out: &mut Vec<u8>, step: Step, count: u32) -> Result<(), AllocError>
    ensures { OnOk result (out.new.items ≡ out.old.items ++ stretch_line step count) }
{
    match step {
        Step::Exec { spe } => {
            if count < 10 && spe < 10 {
                return out.extend_from_slice(&short_line(spe, count));
            }
            if count < 10 && spe < 100 {
                return out.extend_from_slice(&longer_line(spe, count));
            }
            out.push(b'x')?;
            put_field(out, u32::from(spe))?;
            put_field(out, count)?;
            out.push(b'\n')?;
            Ok(())
        }
        other => put_step(out, other),
    }
}

/// Whether both are instructions of one processor.
fn are_of_one(first: &Step, second: &Step) -> bool
    ensures { result ≡ are_of_one first.now second.now }
{
    match (first, second) {
        (Step::Exec { spe: p }, Step::Exec { spe: q }) => p == q,
        _ => false,
    }
}

/// How many of the steps go on with the stretch of instructions that this one belongs to.
fn further(first: &Step, steps: &[Step]) -> usize
    ensures len { result ≡ prefix_len (are_of_one first.now) steps.now }
    ensures within { result ≤ length steps.now }
{
    steps.iter().take_while(|s| are_of_one(first, s)).count()
}

/// Writes the last line of a record at the end.
fn put_count(out: &mut Vec<u8>, steps: &[Step]) -> Result<(), AllocError>
    requires { length steps.now < 4294967296 }
    ensures { OnOk result (out.new.items ≡ out.old.items ++ count_line (length steps.now)) }
{
    out.extend_from_slice(b"steps")?;
    put_field(out, steps.len() as u32)?;
    out.push(b'\n')?;
    Ok(())
}

/// The record of these steps as text, format 2. There are fewer than 2^32. Its only refusal is want of memory.
pub fn record_text(alloc: Global, steps: &[Step]) -> Result<Vec<u8>, TextError>
    requires { length steps.now < 4294967296 }
    ensures { IfOk result (λ v. v.items ≡ spelling Two steps.now) }
{
    let mut out = Vec::new(alloc);
    out.extend_from_slice(b"cell-record 2\n")?;
    let mut rest = steps;
    while let Some((first, behind)) = rest.split_first() {
        let more = further(first, behind);
        put_stretch(&mut out, *first, more as u32 + 1)?;
        rest = &behind[more..];
    }
    put_count(&mut out, steps)?;
    Ok(out)
}

/// The record of these steps as text, format 1. There are fewer than 2^32. Its only refusal is want of memory.
pub fn record_text_1(alloc: Global, steps: &[Step]) -> Result<Vec<u8>, TextError>
    requires { length steps.now < 4294967296 }
    ensures { IfOk result (λ v. v.items ≡ spelling One steps.now) }
{
    let mut out = Vec::new(alloc);
    out.extend_from_slice(b"cell-record 1\n")?;
    for step in steps {
        put_step(&mut out, *step)?;
    }
    put_count(&mut out, steps)?;
    Ok(out)
}
