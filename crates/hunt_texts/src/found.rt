//! The failures and the warnings by kind.

ghost use Rattle.std.specs.Prelude.{◌≡◌, ◌++◌, [], ◌∷◌, if◌then◌else◌, map, IfOk, OnOk};
ghost use Rattle.hunt_tally.specs.Tallies.{told_in};
ghost use Rattle.hunt_tally.specs.Lines.{told_by};
ghost use Rattle.hunt_texts.specs.Findings.{is_of_kind, of_kind, failures_in, warnings_in, by_kind};
ghost use Rattle.hunt_texts.specs.Founds.{found_by};

use crate::finding::Finding;
use hunt_tally::{Line, Tally};
use std::alloc::{AllocError, Global};

/// A failure or a warning, and its kind.
#[derive(Clone, Copy)]
pub struct Found<'a> {
    pub kind: Finding,
    pub line: Line<'a>,
}

/// Adds what is of a kind, and nothing else.
fn add_if_of<'a>(
    found: &mut Vec<Found<'a>>,
    kind: Finding,
    line: Line<'a>,
) -> Result<(), AllocError>
    ensures { OnOk result (map found_by found.new.items ≡ map found_by found.old.items ++ (if is_of_kind kind (told_by line.entry) then record { kind = kind; told = told_by line.entry } ∷ [] else [])) }
{
    if kind.is_of(line) {
        found.push(Found { kind, line })?;
    }
    Ok(())
}

/// Adds all of a kind.
fn add_kind<'a>(
    found: &mut Vec<Found<'a>>,
    kind: Finding,
    findings: &'a Tally,
) -> Result<(), AllocError>
    ensures { OnOk result (map found_by found.new.items ≡ map found_by found.old.items ++ of_kind kind (told_in findings.now)) }
{
    for place in 0..findings.len() {
        add_if_of(found, kind, findings.get(place))?;
    }
    Ok(())
}

/// Adds the failures, by kind.
fn add_failures<'a>(found: &mut Vec<Found<'a>>, findings: &'a Tally) -> Result<(), AllocError>
    ensures { OnOk result (map found_by found.new.items ≡ map found_by found.old.items ++ failures_in (told_in findings.now)) }
{
    add_kind(found, Finding::Race, findings)?;
    add_kind(found, Finding::Halt, findings)?;
    add_kind(found, Finding::Fault, findings)?;
    add_kind(found, Finding::Deadlock, findings)?;
    add_kind(found, Finding::Livelock, findings)?;
    add_kind(found, Finding::Missed, findings)?;
    add_kind(found, Finding::Budget, findings)
}

/// Adds the warnings, by kind.
fn add_warnings<'a>(found: &mut Vec<Found<'a>>, warnings: &'a Tally) -> Result<(), AllocError>
    ensures { OnOk result (map found_by found.new.items ≡ map found_by found.old.items ++ warnings_in (told_in warnings.now)) }
{
    add_kind(found, Finding::LostSignal, warnings)?;
    add_kind(found, Finding::UnreadPutllc, warnings)?;
    add_kind(found, Finding::UnreadTags, warnings)?;
    add_kind(found, Finding::UnwrittenBytes, warnings)
}

/// The failures, and then the warnings, by kind.
pub fn by_kind<'a>(
    alloc: Global,
    findings: &'a Tally,
    warnings: &'a Tally,
) -> Result<Vec<Found<'a>>, AllocError>
    ensures { IfOk result (λ v. map found_by v.items ≡ by_kind (told_in findings.now) (told_in warnings.now)) }
{
    let mut found = Vec::new(alloc);
    add_failures(&mut found, findings)?;
    add_warnings(&mut found, warnings)?;
    Ok(found)
}
