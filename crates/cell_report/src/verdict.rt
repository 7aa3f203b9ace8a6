//! The text of the verdict on a run.

ghost use Rattle.std.specs.Prelude.{◌≡◌, ◌++◌, ◌<◌, length, OnOk, IfOk};
ghost use Rattle.cell_report.specs.Verdicts.{accepted_line, race_line, line_at, verdict_lines, NamesSteps};

use crate::error::TextError;
use crate::record::{put_field, put_step};
use cell_base::Step;
use cell_machine::Machine;
use race_check::Verdict;
use std::alloc::{AllocError, Global};

/// Writes how many steps were accepted at the end.
fn put_accepted(out: &mut Vec<u8>, steps: u32) -> Result<(), AllocError>
    ensures { OnOk result (out.new.items ≡ out.old.items ++ accepted_line steps) }
{
    out.extend_from_slice(b"accepted")?;
    put_field(out, steps)?;
    out.push(b'\n')?;
    Ok(())
}

/// Writes which two steps race at the end.
fn put_race(out: &mut Vec<u8>, first: u32, second: u32) -> Result<(), AllocError>
    ensures { OnOk result (out.new.items ≡ out.old.items ++ race_line first second) }
{
    out.extend_from_slice(b"race")?;
    put_field(out, first)?;
    put_field(out, second)?;
    out.push(b'\n')?;
    Ok(())
}

/// Writes a word and the record's line of the step at a place at the end.
fn put_step_at(out: &mut Vec<u8>, name: &[u8], steps: &[Step], at: u32) -> Result<(), AllocError>
    requires { at < length steps.now }
    ensures { OnOk result (out.new.items ≡ out.old.items ++ name.now ++ line_at steps.now at) }
{
    out.extend_from_slice(name)?;
    put_step(out, steps[at as usize])
}

/// Writes the verdict on the machine's run at the end.
pub(crate) fn put_verdict(out: &mut Vec<u8>, m: &Machine, v: Verdict) -> Result<(), AllocError>
    requires { NamesSteps m.now.steps v }
    ensures { OnOk result (out.new.items ≡ out.old.items ++ verdict_lines m.now.steps v) }
{
    let steps = m.steps();
    match v {
        Verdict::Accepted => put_accepted(out, steps.len() as u32)?,
        Verdict::Race { first, second } => {
            put_race(out, first, second)?;
            put_step_at(out, b"first ", steps, first)?;
            put_step_at(out, b"second ", steps, second)?;
        }
    }
    Ok(())
}

/// The verdict on the machine's run as text: `accepted N` with the number of steps; or `race I J` with the places of two steps, counted from
/// 0, and behind `first` and `second` their lines of the record.
pub fn verdict_text(alloc: Global, m: &Machine, v: Verdict) -> Result<Vec<u8>, TextError>
    requires { NamesSteps m.now.steps v }
    ensures { IfOk result (λ text. text.items ≡ verdict_lines m.now.steps v) }
{
    let mut out = Vec::new(alloc);
    put_verdict(&mut out, m, v)?;
    Ok(out)
}
