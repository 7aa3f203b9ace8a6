//! The first lines of the text: which runs were made, how many of them have a failure, and how many warnings there are.

ghost use Rattle.std.specs.Prelude.{◌≡◌, ◌++◌, ◌||◌, nat_lt, false, IfOk, OnOk};
ghost use Rattle.hunt_texts.specs.Lists.{item_text, items_text};
ghost use Rattle.hunt_texts.specs.About.{facts};
ghost use Rattle.hunt_texts.specs.Heads.{from_text, seed_text, runs_made, outcome_text, outcome, outcomes, none_text, found_text, warnings_text, warnings_note, head_line, missed_note, missed_text, steps_line, limit_line};

use crate::about::About;
use crate::lists::put_gap;
use crate::numbers::{put_number, put_runs, put_units, put_word};
use crate::unexecuted::{lines_in, missed_among};
use hunt_tally::{Count, FlawCounts, Hunted};
use std::alloc::{AllocError, Global};

#[tactic(auto, unfolding(crate::specs::Heads::from_text))]
fn put_from(out: &mut Vec<u8>, from: u32) -> Result<(), AllocError>
    ensures { OnOk result (out.new.items ≡ out.old.items ++ from_text from) }
{
    if from == 0 {
        return Ok(());
    }
    out.extend_from_slice(b" from run ")?;
    put_number(out, u64::from(from))
}

#[tactic(auto, unfolding(crate::specs::Heads::seed_text))]
fn put_seed(out: &mut Vec<u8>, seed: u64) -> Result<(), AllocError>
    ensures { OnOk result (out.new.items ≡ out.old.items ++ seed_text seed) }
{
    out.extend_from_slice(b", seed ")?;
    put_word(out, seed, b": ")
}

/// Writes the machine file, and which runs of it were made.
#[tactic(auto, unfolding(crate::specs::Heads::runs_made))]
fn put_made(out: &mut Vec<u8>, about: &About, runs: u32) -> Result<(), AllocError>
    ensures { OnOk result (out.new.items ≡ out.old.items ++ runs_made (facts about.now) runs) }
{
    out.extend_from_slice(about.machine)?;
    out.extend_from_slice(b": ")?;
    put_runs(out, runs)?;
    put_from(out, about.from)?;
    put_seed(out, about.seed)
}

#[tactic(auto, unfolding(crate::specs::Heads::outcome_text))]
fn put_outcome_text(out: &mut Vec<u8>, words: &[u8], runs: u32) -> Result<(), AllocError>
    ensures { OnOk result (out.new.items ≡ out.old.items ++ outcome_text words.now runs) }
{
    out.extend_from_slice(words)?;
    out.extend_from_slice(b" in ")?;
    put_runs(out, runs)
}

/// Writes how many runs have a failure, after those that were written, and returns whether one is written now.
#[tactic(auto, unfolding(crate::specs::Lists::item_text))]
fn put_outcome(
    out: &mut Vec<u8>,
    begun: bool,
    words: &[u8],
    count: Count,
) -> Result<bool, AllocError>
    ensures text { OnOk result (out.new.items ≡ out.old.items ++ item_text begun (outcome words.now count)) }
    ensures begun { IfOk result (λ b. b ≡ (begun || nat_lt 0 count.runs)) }
{
    if count.runs == 0 {
        return Ok(begun);
    }
    put_gap(out, begun)?;
    put_outcome_text(out, words, count.runs)?;
    Ok(true)
}

fn put_outcomes(out: &mut Vec<u8>, c: FlawCounts) -> Result<(), AllocError>
    ensures { OnOk result (out.new.items ≡ out.old.items ++ items_text false (outcomes c)) }
{
    let race = put_outcome(out, false, b"DATA RACE", c.race)?;
    let halt = put_outcome(out, race, b"HALT", c.halt)?;
    let fault = put_outcome(out, halt, b"FAULT", c.fault)?;
    let stuck = put_outcome(out, fault, b"DEADLOCK", c.stuck)?;
    let livelock = put_outcome(out, stuck, b"LIVELOCK", c.livelock)?;
    let missed = put_outcome(out, livelock, b"EXPECTED LINE MISSING", c.missed)?;
    put_outcome(out, missed, b"BUDGET SPENT", c.budget)?;
    Ok(())
}

fn put_none(out: &mut Vec<u8>, expects: bool) -> Result<(), AllocError>
    ensures { OnOk result (out.new.items ≡ out.old.items ++ none_text expects) }
{
    if expects {
        return out.extend_from_slice(
            b"no data race, halt, fault, deadlock, livelock, spent budget or missing line",
        );
    }
    out.extend_from_slice(b"no data race, halt, fault, deadlock, livelock or spent budget")
}

/// Writes what was found, or what was looked for.
fn put_found(out: &mut Vec<u8>, c: FlawCounts, expects: bool) -> Result<(), AllocError>
    ensures { OnOk result (out.new.items ≡ out.old.items ++ found_text c expects) }
{
    if c.is_some() {
        return put_outcomes(out, c);
    }
    put_none(out, expects)
}

#[tactic(auto, unfolding(crate::specs::Heads::warnings_text))]
fn put_warnings_text(out: &mut Vec<u8>, warnings: u64) -> Result<(), AllocError>
    ensures { OnOk result (out.new.items ≡ out.old.items ++ warnings_text warnings) }
{
    out.extend_from_slice(b"; ")?;
    put_units(out, warnings, b"1 warning", b" warnings")
}

/// Writes how many different warnings the runs have, if there are any.
fn put_warnings(out: &mut Vec<u8>, warnings: u64) -> Result<(), AllocError>
    ensures { OnOk result (out.new.items ≡ out.old.items ++ warnings_note warnings) }
{
    if warnings == 0 {
        return Ok(());
    }
    put_warnings_text(out, warnings)
}

#[tactic(auto, unfolding(crate::specs::Heads::missed_text))]
fn put_missed_text(out: &mut Vec<u8>, lines: u64, missed: u64) -> Result<(), AllocError>
    ensures { OnOk result (out.new.items ≡ out.old.items ++ missed_text lines missed) }
{
    out.extend_from_slice(b"; ")?;
    put_word(out, missed, b" of ")?;
    put_word(out, lines, b" lines with instructions never executed")?;
    Ok(())
}

/// Writes how many lines no run executed, if there are any.
fn put_missed(out: &mut Vec<u8>, lines: u64, missed: u64) -> Result<(), AllocError>
    ensures { OnOk result (out.new.items ≡ out.old.items ++ missed_note lines missed) }
{
    if missed == 0 {
        return Ok(());
    }
    put_missed_text(out, lines, missed)
}

/// Writes the first line.
#[tactic(auto, unfolding(crate::specs::Heads::head_line))]
pub fn put_head(
    out: &mut Vec<u8>,
    alloc: Global,
    about: &About,
    hunted: &Hunted,
) -> Result<(), AllocError>
    ensures { OnOk result (out.new.items ≡ out.old.items ++ head_line (facts about.now) hunted.now) }
{
    let lines = lines_in(alloc, about.coverage)?;
    let missed = missed_among(alloc, lines.as_slice())?;
    put_made(out, about, hunted.runs())?;
    put_found(out, hunted.flaws(), about.expects)?;
    put_warnings(out, hunted.warnings().len() as u64)?;
    put_missed(out, lines.len() as u64, missed.len() as u64)?;
    out.push(b'\n')?;
    Ok(())
}

#[tactic(auto, unfolding(crate::specs::Heads::steps_line))]
fn put_steps(out: &mut Vec<u8>, steps: u64) -> Result<(), AllocError>
    ensures { OnOk result (out.new.items ≡ out.old.items ++ steps_line steps) }
{
    out.extend_from_slice(b"ended after ")?;
    put_word(out, steps, b" steps, the limit of a hunt without --runs\n")?;
    Ok(())
}

/// Writes the number of steps if it ended the hunt.
pub fn put_limit(out: &mut Vec<u8>, steps: u64, by_steps: bool) -> Result<(), AllocError>
    ensures { OnOk result (out.new.items ≡ out.old.items ++ limit_line steps by_steps) }
{
    if by_steps {
        return put_steps(out, steps);
    }
    Ok(())
}
