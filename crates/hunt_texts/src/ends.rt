//! How the runs ended.

ghost use Rattle.std.specs.Prelude.{◌≡◌, ◌++◌, ◌||◌, nat_lt, false, [], ◌∷◌, if◌then◌else◌, take, filter, map, IfOk, OnOk};
ghost use Rattle.std.specs.List.{flat_map};
ghost use Rattle.hunt_tally.specs.Lines.{told_by};
ghost use Rattle.hunt_tally.specs.Tallies.{told_in};
ghost use Rattle.hunt_texts.specs.Lists.{item_text, items_text};
ghost use Rattle.hunt_texts.specs.Ends.{end_item, end_items, all_text, ends_line, is_stopped, ending_line, more_endings, stopped_lines, ends_lines};

use crate::lists::put_gap;
use crate::numbers::{put_counted, put_word};
use hunt_tally::{Hunted, Line, Tally};
use std::alloc::{AllocError, Global};

/// How many endings, or results of an ending, are printed.
pub const PRINTED: usize = 8;

/// Writes how many runs ended so, after those that were written, and returns whether some are written now.
#[tactic(auto, unfolding(crate::specs::Lists::item_text))]
fn put_end(out: &mut Vec<u8>, begun: bool, word: &[u8], runs: u64) -> Result<bool, AllocError>
    ensures text { OnOk result (out.new.items ≡ out.old.items ++ item_text begun (end_item word.now runs)) }
    ensures begun { IfOk result (λ b. b ≡ (begun || nat_lt 0 runs)) }
{
    if runs == 0 {
        return Ok(begun);
    }
    put_gap(out, begun)?;
    put_word(out, runs, word)?;
    Ok(true)
}

fn put_items(out: &mut Vec<u8>, stopped: u64, stuck: u64, spent: u64) -> Result<(), AllocError>
    ensures { OnOk result (out.new.items ≡ out.old.items ++ items_text false (end_items stopped stuck spent)) }
{
    let begun = put_end(out, false, b" AllStopped", stopped)?;
    let begun_stuck = put_end(out, begun, b" Stuck", stuck)?;
    put_end(out, begun_stuck, b" Budget", spent)?;
    Ok(())
}

/// Writes whether all runs ended alike.
fn put_all(
    out: &mut Vec<u8>,
    runs: u64,
    stopped: u64,
    stuck: u64,
    spent: u64,
) -> Result<(), AllocError>
    ensures { OnOk result (out.new.items ≡ out.old.items ++ all_text runs stopped stuck spent) }
{
    if stopped == runs || stuck == runs || spent == runs {
        return out.extend_from_slice(b"all ");
    }
    Ok(())
}

#[tactic(auto, unfolding(crate::specs::Ends::ends_line))]
fn put_ends_line(
    out: &mut Vec<u8>,
    runs: u64,
    stopped: u64,
    stuck: u64,
    spent: u64,
) -> Result<(), AllocError>
    ensures { OnOk result (out.new.items ≡ out.old.items ++ ends_line runs stopped stuck spent) }
{
    out.extend_from_slice(b"\nends: ")?;
    put_all(out, runs, stopped, stuck, spent)?;
    put_items(out, stopped, stuck, spent)?;
    out.push(b'\n')?;
    Ok(())
}

/// Whether all processors stopped in the runs of an ending.
pub fn is_stopped(line: Line<'_>) -> bool
    ensures { result ≡ is_stopped (told_by line.entry) }
{
    line.key.starts_with(b"AllStopped")
}

/// Adds the line of an ending in which all processors stopped, and no other.
fn add_stopped<'a>(lines: &mut Vec<Line<'a>>, line: Line<'a>) -> Result<(), AllocError>
    ensures { OnOk result (map told_by lines.new.items ≡ map told_by lines.old.items ++ (if is_stopped (told_by line.entry) then told_by line.entry ∷ [] else [])) }
{
    if is_stopped(line) {
        lines.push(line)?;
    }
    Ok(())
}

/// The endings in which all processors stopped.
fn stopped_of<'a>(alloc: Global, endings: &'a Tally) -> Result<Vec<Line<'a>>, AllocError>
    ensures { IfOk result (λ v. map told_by v.items ≡ filter is_stopped (told_in endings.now)) }
{
    let mut lines = Vec::new(alloc);
    for place in 0..endings.len() {
        add_stopped(&mut lines, endings.get(place))?;
    }
    Ok(lines)
}

#[tactic(auto, unfolding(crate::specs::Ends::ending_line))]
fn put_ending(out: &mut Vec<u8>, from: u32, line: Line<'_>) -> Result<(), AllocError>
    ensures { OnOk result (out.new.items ≡ out.old.items ++ ending_line from (told_by line.entry)) }
{
    out.extend_from_slice(b"  ")?;
    put_counted(out, from, line.runs, line.first)?;
    out.extend_from_slice(b": ")?;
    out.extend_from_slice(line.key)?;
    out.push(b'\n')?;
    Ok(())
}

/// Writes the first endings.
fn put_first(out: &mut Vec<u8>, from: u32, endings: &[Line<'_>]) -> Result<(), AllocError>
    ensures { OnOk result (out.new.items ≡ out.old.items ++ flat_map (ending_line from) (take 8 (map told_by endings.now))) }
{
    for place in 0..endings.len().min(PRINTED) {
        put_ending(out, from, endings[place])?;
    }
    Ok(())
}

/// Writes how many endings are not printed, if there are any.
#[tactic(auto, unfolding(crate::specs::Ends::more_endings))]
fn put_more(out: &mut Vec<u8>, endings: usize) -> Result<(), AllocError>
    ensures { OnOk result (out.new.items ≡ out.old.items ++ more_endings endings) }
{
    if endings <= PRINTED {
        return Ok(());
    }
    out.extend_from_slice(b"  and ")?;
    put_word(out, (endings - PRINTED) as u64, b" more\n")
}

/// Writes endings, if there is more than one.
fn put_stopped(out: &mut Vec<u8>, from: u32, endings: &[Line<'_>]) -> Result<(), AllocError>
    ensures { OnOk result (out.new.items ≡ out.old.items ++ stopped_lines from (map told_by endings.now)) }
{
    if endings.len() < 2 {
        return Ok(());
    }
    put_first(out, from, endings)?;
    put_more(out, endings.len())
}

/// Writes how the runs ended.
#[tactic(auto, unfolding(crate::specs::Ends::ends_lines))]
pub fn put_ends(
    out: &mut Vec<u8>,
    alloc: Global,
    from: u32,
    hunted: &Hunted,
) -> Result<(), AllocError>
    ensures { OnOk result (out.new.items ≡ out.old.items ++ ends_lines from hunted.now) }
{
    let flaws = hunted.flaws();
    let stopped = stopped_of(alloc, hunted.endings())?;
    put_ends_line(
        out,
        u64::from(hunted.runs()),
        u64::from(hunted.all_stopped()),
        u64::from(flaws.stuck.runs),
        u64::from(flaws.livelock.runs) + u64::from(flaws.budget.runs),
    )?;
    put_stopped(out, from, stopped.as_slice())
}
