//! The report of a run.

ghost use Rattle.std.specs.Prelude.{◌≡◌, length, Some, IfOk};
ghost use Rattle.cell_machine.specs.declared.status.End.{End as AnEnd};
ghost use Rattle.cell_machine.specs.State.{State};
ghost use Rattle.cell_machine.specs.Run.{state_of, IsEnd};
ghost use Rattle.cell_report.specs.States.{states_of, result_of};
ghost use Rattle.hunt_reports.specs.Lists.{bytes_in};
ghost use Rattle.hunt_reports.specs.Missing.{missed_in};
ghost use Rattle.hunt_reports.specs.Spent.{has_livelock};
ghost use Rattle.hunt_reports.specs.Reports.{flaws_by, report_by, IsReport};

use crate::asked::Asked;
use crate::coverage::numbers_of;
use crate::ended::{AtEnd, ended_of, ending_text, has_fault, has_halt, is_budget, is_stuck};
use crate::findings::take_end;
use crate::missing::missed_in;
use crate::races::{Found, races_of};
use crate::spent::{Spent, has_livelock, spent_of};
use crate::stops::take_stops;
use crate::waits::running_of;
use crate::warnings::warnings_of;
use cell_hunt::SeedRun;
use cell_machine::{End, Machine};
use cell_report::{result_text, states_text};
use hunt_tally::{Flaws, Report, Telling};
use std::alloc::{AllocError, Global};

/// What a run left.
fn left_of(alloc: Global, machine: &Machine) -> Result<Vec<u8>, AllocError>
    ensures { IfOk result (λ text. (M : State) → state_of machine.now ≡ Some M → text.items ≡ result_of M machine.now.setup.shows) }
{
    match result_text(alloc, machine) {
        Ok(text) => Ok(text),
        Err(_) => Err(AllocError),
    }
}

/// The expected lines that the states of a run don't have.
fn missed_of(
    alloc: Global,
    machine: &Machine,
    expected: &[Vec<u8>],
) -> Result<Vec<Vec<u8>>, AllocError>
    ensures { IfOk result (λ v. (M : State) (end : AnEnd) → state_of machine.now ≡ Some M → IsEnd M machine.now.setup.budget (Some end) → bytes_in v.items ≡ missed_in (states_of M machine.now.setup.shows (Some end)) (bytes_in expected.now)) }
{
    if expected.is_empty() {
        return Ok(Vec::new(alloc));
    }
    match states_text(alloc, machine) {
        Ok(text) => missed_in(alloc, text.as_slice(), expected),
        Err(_) => Err(AllocError),
    }
}

/// How many steps a run has.
fn steps_of(machine: &Machine) -> u32
    ensures { result ≡ length machine.now.steps }
{
    machine.steps().len() as u32
}

/// What went wrong in a run.
fn flaws_by(
    spes: &[AtEnd],
    end: End,
    spent: &Option<Spent>,
    races: &[Telling],
    missed: &[Vec<u8>],
) -> Flaws
    ensures { result ≡ flaws_by spes.now end (has_livelock spent.now) races.now (bytes_in missed.now) }
{
    let livelock = has_livelock(spent);
    Flaws {
        race: !races.is_empty(),
        stuck: is_stuck(end),
        livelock,
        budget: is_budget(end) && !livelock,
        fault: has_fault(spes),
        halt: has_halt(spes),
        missed: !missed.is_empty(),
    }
}

/// The report by its parts.
fn report_by(
    flaws: Flaws,
    ending: Vec<u8>,
    left: Vec<u8>,
    found: Found,
    warnings: Vec<Telling>,
    missed: Vec<Vec<u8>>,
    kind: u64,
    steps: u32,
    executed: Vec<usize>,
) -> Report
    ensures { result ≡ report_by flaws ending.items left.items found.races.items found.findings.items warnings.items found.leaves_out (bytes_in missed.items) kind steps executed.items }
{
    let Found {
        races,
        findings,
        leaves_out,
    } = found;
    Report {
        flaws,
        ending,
        result: left,
        races,
        missed,
        findings,
        warnings,
        leaves_out,
        kind,
        steps,
        executed,
    }
}

/// The report of a run.
pub fn report_of(alloc: Global, run: &SeedRun, asked: &Asked) -> Result<Report, AllocError>
    ensures { IfOk result (IsReport run.now asked.now) }
{
    let machine = run.machine();
    let end = run.end();
    let spes = ended_of(alloc, machine)?;
    let ending = ending_text(alloc, end, spes.as_slice())?;
    let running = running_of(alloc, spes.as_slice())?;
    let spent = spent_of(alloc, run, running.as_slice(), end)?;
    let left = left_of(alloc, machine)?;
    let missed = missed_of(alloc, machine, asked.expected.as_slice())?;
    let warnings = warnings_of(alloc, run, asked)?;
    let executed = numbers_of(alloc, run.executed())?;
    let places = &asked.places;
    let mut found = races_of(alloc, run.races(), places, asked.passed.as_slice())?;
    take_stops(alloc, &mut found.findings, places, machine, run.endings())?;
    take_end(
        alloc,
        &mut found.findings,
        places,
        running.as_slice(),
        end,
        &spent,
        missed.as_slice(),
    )?;
    let flaws = flaws_by(
        spes.as_slice(),
        end,
        &spent,
        found.races.as_slice(),
        missed.as_slice(),
    );
    Ok(report_by(
        flaws,
        ending,
        left,
        found,
        warnings,
        missed,
        run.kind(),
        steps_of(machine),
        executed,
    ))
}
