//! The failures and the warnings, each with the commands that show its first run.

ghost use Rattle.std.specs.Prelude.{◌≡◌, ◌++◌, map, take, OnOk};
ghost use Rattle.std.specs.List.{flat_map};
ghost use Rattle.hunt_texts.specs.About.{facts};
ghost use Rattle.hunt_texts.specs.Findings.{why_line, debug_line, stepping_line, ended_lines, advice_lines, share_text, finding_lines, printed, left_text, more_lines, found_lines, findings_lines};
ghost use Rattle.hunt_texts.specs.Founds.{found_by};

use crate::about::About;
use crate::commands::put_command_line;
use crate::finding::Finding;
use crate::found::{Found, by_kind};
use crate::numbers::{put_first_run, put_runs, put_units, put_word};
use hunt_tally::Hunted;
use std::alloc::{AllocError, Global};

/// How many findings are printed without `--all`.
const PRINTED: usize = 4;

fn put_why(out: &mut Vec<u8>, purpose: &[u8], about: &About, run: u64) -> Result<(), AllocError>
    ensures { OnOk result (out.new.items ≡ out.old.items ++ why_line purpose.now (facts about.now) run) }
{
    put_command_line(out, purpose, about, b"race", run)
}

fn put_debug(out: &mut Vec<u8>, about: &About, run: u64) -> Result<(), AllocError>
    ensures { OnOk result (out.new.items ≡ out.old.items ++ debug_line (facts about.now) run) }
{
    put_command_line(out, b"  backwards from its end: ", about, b"debug", run)
}

/// Writes the command that opens a run with a warning, which need not end badly.
fn put_stepping(out: &mut Vec<u8>, about: &About, run: u64) -> Result<(), AllocError>
    ensures { OnOk result (out.new.items ≡ out.old.items ++ stepping_line (facts about.now) run) }
{
    put_command_line(out, b"  step through this run: ", about, b"debug", run)
}

#[tactic(auto, unfolding(crate::specs::Findings::ended_lines))]
fn put_ended(out: &mut Vec<u8>, about: &About, run: u64) -> Result<(), AllocError>
    ensures { OnOk result (out.new.items ≡ out.old.items ++ ended_lines (facts about.now) run) }
{
    put_why(out, b"  why: ", about, run)?;
    put_debug(out, about, run)
}

/// Writes the commands that show a run with a finding of a kind.
fn put_advice(out: &mut Vec<u8>, about: &About, kind: Finding, run: u64) -> Result<(), AllocError>
    ensures { OnOk result (out.new.items ≡ out.old.items ++ advice_lines (facts about.now) kind run) }
{
    match kind {
        Finding::Race => put_why(out, b"  why, and how to fix it: ", about, run),
        Finding::Halt => put_ended(out, about, run),
        Finding::Fault => put_ended(out, about, run),
        Finding::Deadlock => put_ended(out, about, run),
        Finding::Livelock => put_ended(out, about, run),
        Finding::Missed => {
            put_command_line(out, b"  the states of this run: ", about, b"states", run)
        }
        Finding::Budget => put_debug(out, about, run),
        Finding::LostSignal => put_stepping(out, about, run),
        Finding::UnreadPutllc => put_stepping(out, about, run),
        Finding::UnreadTags => put_stepping(out, about, run),
        Finding::UnwrittenBytes => put_stepping(out, about, run),
    }
}

/// Writes how many of all runs have a finding, and the first of them.
#[tactic(auto, unfolding(crate::specs::Findings::share_text))]
fn put_share(out: &mut Vec<u8>, runs: u32, all: u32, first: u64) -> Result<(), AllocError>
    ensures { OnOk result (out.new.items ≡ out.old.items ++ share_text runs all first) }
{
    out.extend_from_slice(b" in ")?;
    put_word(out, u64::from(runs), b" of ")?;
    put_runs(out, all)?;
    put_first_run(out, first)?;
    out.push(b'\n')?;
    Ok(())
}

/// Writes a finding.
#[tactic(auto, unfolding(crate::specs::Findings::finding_lines))]
fn put_finding(
    out: &mut Vec<u8>,
    about: &About,
    all: u32,
    found: Found<'_>,
) -> Result<(), AllocError>
    ensures { OnOk result (out.new.items ≡ out.old.items ++ finding_lines (facts about.now) all (found_by found.entry)) }
{
    let first = u64::from(about.from) + u64::from(found.line.first);
    out.push(b'\n')?;
    out.extend_from_slice(found.kind.words())?;
    put_share(out, found.line.runs, all, first)?;
    out.extend_from_slice(found.line.shown)?;
    put_advice(out, about, found.kind, first)
}

/// How many findings are printed.
fn printed(all: bool, findings: usize) -> usize
    ensures { result ≡ printed all findings }
{
    if all { findings } else { PRINTED }
}

/// Writes the first findings.
fn put_printed(
    out: &mut Vec<u8>,
    about: &About,
    all: u32,
    found: &[Found<'_>],
    most: usize,
) -> Result<(), AllocError>
    ensures { OnOk result (out.new.items ≡ out.old.items ++ flat_map (finding_lines (facts about.now) all) (take most (map found_by found.now))) }
{
    for place in 0..found.len().min(most) {
        put_finding(out, about, all, found[place])?;
    }
    Ok(())
}

#[tactic(auto, unfolding(crate::specs::Findings::left_text))]
fn put_left(out: &mut Vec<u8>, findings: usize) -> Result<(), AllocError>
    ensures { OnOk result (out.new.items ≡ out.old.items ++ left_text findings) }
{
    out.extend_from_slice(b"\nand ")?;
    put_units(out, findings as u64, b"1 more finding", b" more findings")?;
    out.extend_from_slice(b": --all prints them\n")
}

/// Writes how many findings are not printed, if there are any.
fn put_more(out: &mut Vec<u8>, all: bool, findings: usize) -> Result<(), AllocError>
    ensures { OnOk result (out.new.items ≡ out.old.items ++ more_lines all findings) }
{
    if all || findings <= PRINTED {
        return Ok(());
    }
    put_left(out, findings - PRINTED)
}

#[tactic(auto, unfolding(crate::specs::Findings::found_lines))]
fn put_found(
    out: &mut Vec<u8>,
    about: &About,
    all: u32,
    found: &[Found<'_>],
) -> Result<(), AllocError>
    ensures { OnOk result (out.new.items ≡ out.old.items ++ found_lines (facts about.now) all (map found_by found.now)) }
{
    put_printed(out, about, all, found, printed(about.all, found.len()))?;
    put_more(out, about.all, found.len())
}

/// Writes the failures and the warnings.
pub fn put_findings(
    out: &mut Vec<u8>,
    alloc: Global,
    about: &About,
    hunted: &Hunted,
) -> Result<(), AllocError>
    ensures { OnOk result (out.new.items ≡ out.old.items ++ findings_lines (facts about.now) hunted.now) }
{
    let found = by_kind(alloc, hunted.findings(), hunted.warnings())?;
    put_found(out, about, hunted.runs(), found.as_slice())
}
