//! The findings of a run besides its data races.

ghost use Rattle.std.specs.Prelude.{◌≡◌, ◌≤◌, ◌++◌, length, map, IfSome, IfOk, OnOk};
ghost use Rattle.hunt_reports.specs.Lists.{bytes_in};
ghost use Rattle.hunt_reports.specs.Findings.{end_told, missed_told};

use crate::budgets::take_spent;
use crate::locations::Location;
use crate::origins::Places;
use crate::spent::Spent;
use crate::waits::take_stuck;
use cell_machine::End;
use hunt_tally::Telling;
use std::alloc::{AllocError, Global};

/// The finding of a missed line.
fn missed_told(alloc: Global, line: &[u8]) -> Result<Telling, AllocError>
    ensures { IfOk result (λ t. t ≡ missed_told line.now) }
{
    let mut key = Vec::from_slice(alloc, b"missed ")?;
    key.extend_from_slice(line)?;
    let mut shown = Vec::from_slice(alloc, b"  ")?;
    shown.extend_from_slice(line)?;
    shown.push(b'\n')?;
    Ok(Telling { key, shown })
}

/// Takes in the findings of missed lines.
fn take_missed(
    alloc: Global,
    findings: &mut Vec<Telling>,
    missed: &[Vec<u8>],
) -> Result<(), AllocError>
    ensures { OnOk result (findings.new.items ≡ findings.old.items ++ map missed_told (bytes_in missed.now)) }
{
    for line in missed {
        findings.push(missed_told(alloc, line.as_slice())?)?;
    }
    Ok(())
}

/// Takes in a deadlock, a livelock or a spent budget, and missed lines.
pub fn take_end(
    alloc: Global,
    findings: &mut Vec<Telling>,
    places: &Places,
    running: &[Location],
    end: End,
    spent: &Option<Spent>,
    missed: &[Vec<u8>],
) -> Result<(), AllocError>
    requires running { length running.now ≤ 16 }
    requires loops { IfSome spent.now (λ s. length s.loops.items ≤ 16) }
    ensures { OnOk result (findings.new.items ≡ findings.old.items ++ end_told places.now running.now end spent.now (bytes_in missed.now)) }
{
    take_stuck(alloc, findings, places, running, end)?;
    take_spent(alloc, findings, places, running, spent)?;
    take_missed(alloc, findings, missed)
}
