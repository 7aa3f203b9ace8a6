//! Checking a record file against a setup.

ghost use Rattle.std.specs.Prelude.{◌≡◌, ◌≤◌, ◌<◌, ◌^◌, drop, length, Ok, IfErr, IfNone, IfOk, IfSome};
ghost use Rattle.run_record.specs.Form.{BeginsWith};
ghost use Rattle.cell_commands.specs.Causes.{IsOfInput};
ghost use Rattle.cell_commands.specs.Checks.{BeginsWithRun, DifferAt, Finds, RecordsRun, RefusesOrMemory};
ghost use Rattle.cell_commands.specs.Judging.{IsJudged};

use crate::causes::record_fault;
use crate::fault::Fault;
use crate::judging::{Judged, judge};
use cell_machine::{Machine, Setup};
use cell_report::states_text;
use run_record::{Recorded, read_record};
use std::alloc::Global;

/// The first place where the texts differ, counted from 0. A text that ends early differs at its end.
fn difference(found: &[u8], wanted: &[u8]) -> Option<usize>
    ensures differ { IfSome result (λ at. DifferAt at found.now wanted.now) }
    ensures within { IfSome result (λ at. at ≤ length found.now) }
    ensures same { IfNone result (found.now ≡ wanted.now) }
{
    let shorter = found.len().min(wanted.len());
    for at in 0..shorter {
        if found[at] != wanted[at] {
            return Some(at);
        }
    }
    if found.len() == wanted.len() {
        None
    } else {
        Some(shorter)
    }
}

/// Compares what stands in a record file from byte `end` on, behind the record of the machine's run, with the states of the machine.
/// Nothing has to stand there.
fn check_states(alloc: Global, machine: &Machine, text: &[u8], end: usize) -> Result<(), Fault>
    requires fits { length text.now < 2 ^ 32 }
    requires end { end ≤ length text.now }
    requires begins { BeginsWithRun machine.now text.now (drop end text.now) }
    ensures input { IfErr result IsOfInput }
    ensures run { IfOk result (λ done. RecordsRun machine.now text.now) }
    ensures refused { IfErr result (RefusesOrMemory machine.now.setup text.now) }
{
    let found = &text[end..];
    if found.is_empty() {
        return Ok(());
    }
    let Ok(wanted) = states_text(alloc, machine) else {
        return Err(Fault::Memory);
    };
    match difference(found, wanted.as_slice()) {
        None => Ok(()),
        Some(place) => Err(Fault::StatesDiffer {
            at: (end + place) as u32,
        }),
    }
}

/// Makes the steps of the record that stands at the front of a record file, judges their run, and compares the states.
fn check_steps(
    alloc: Global,
    setup: &Setup,
    text: &[u8],
    record: &Recorded,
    reorders: bool,
) -> Result<Judged, Fault>
    requires some { 0 < length setup.now.entries }
    requires fits { length text.now < 2 ^ 32 }
    requires found { BeginsWith text.now record.now }
    ensures input { IfErr result IsOfInput }
    ensures run { IfOk result (λ judged. Finds setup.now text.now (Ok judged.machine)) }
    ensures judged { IfOk result (IsJudged reorders) }
    ensures refused { IfErr result (RefusesOrMemory setup.now text.now) }
{
    let judged = match judge(alloc, setup, record.steps(), reorders) {
        Ok(judged) => judged,
        Err(fault) => return Err(fault),
    };
    match check_states(alloc, &judged.machine, text, record.end()) {
        Ok(()) => Ok(judged),
        Err(fault) => Err(fault),
    }
}

/// The run that a record file is, judged: its record's steps are made again, and the states after it are compared.
pub fn check_record(
    alloc: Global,
    setup: &Setup,
    text: &[u8],
    reorders: bool,
) -> Result<Judged, Fault>
    requires some { 0 < length setup.now.entries }
    requires fits { length text.now < 2 ^ 32 }
    ensures input { IfErr result IsOfInput }
    ensures run { IfOk result (λ judged. Finds setup.now text.now (Ok judged.machine)) }
    ensures judged { IfOk result (IsJudged reorders) }
    ensures refused { IfErr result (RefusesOrMemory setup.now text.now) }
{
    match read_record(alloc, text) {
        Ok(record) => check_steps(alloc, setup, text, &record, reorders),
        Err(error) => Err(record_fault(error)),
    }
}
