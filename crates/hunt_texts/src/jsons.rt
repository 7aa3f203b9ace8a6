//! What a hunt prints as JSON.

ghost use Rattle.std.specs.Prelude.{◌≡◌, ◌++◌, IfOk, OnOk};
ghost use Rattle.hunt_texts.specs.Jsons.{bool_json, first_json, field_json, flaw_json, ended_json, faulted_json, runs_of_json, sums_json, head_json, hunt_json};

use crate::kinds::put_kinds_json;
use crate::numbers::put_number;
use crate::rows::{Row, put_rows};
use crate::sources::put_sources_json;
use hunt_tally::{Count, FlawCounts, Hunted, SourceCoverage};
use std::alloc::{AllocError, Global};

fn put_bool(out: &mut Vec<u8>, b: bool) -> Result<(), AllocError>
    ensures { OnOk result (out.new.items ≡ out.old.items ++ bool_json b) }
{
    if b {
        return out.extend_from_slice(b"true");
    }
    out.extend_from_slice(b"false")
}

fn put_first(out: &mut Vec<u8>, from: u32, count: Count) -> Result<(), AllocError>
    ensures { OnOk result (out.new.items ≡ out.old.items ++ first_json from count) }
{
    if count.runs == 0 {
        return out.extend_from_slice(b"null");
    }
    put_number(out, u64::from(from) + u64::from(count.first))
}

/// Writes a name and a number.
#[tactic(auto, unfolding(crate::specs::Jsons::field_json))]
pub fn put_field_json(out: &mut Vec<u8>, name: &[u8], n: u64) -> Result<(), AllocError>
    ensures { OnOk result (out.new.items ≡ out.old.items ++ field_json name.now n) }
{
    out.extend_from_slice(name)?;
    put_number(out, n)
}

#[tactic(auto, unfolding(crate::specs::Jsons::flaw_json))]
fn put_flaw(out: &mut Vec<u8>, from: u32, name: &[u8], count: Count) -> Result<(), AllocError>
    ensures { OnOk result (out.new.items ≡ out.old.items ++ flaw_json from name.now count) }
{
    out.extend_from_slice(name)?;
    put_field_json(out, b"{\"runs\":", u64::from(count.runs))?;
    out.extend_from_slice(b",\"first\":")?;
    put_first(out, from, count)?;
    out.extend_from_slice(b"}")
}

#[tactic(auto, unfolding(crate::specs::Jsons::ended_json))]
fn put_ended(out: &mut Vec<u8>, from: u32, c: FlawCounts) -> Result<(), AllocError>
    ensures { OnOk result (out.new.items ≡ out.old.items ++ ended_json from c) }
{
    put_flaw(out, from, b",\"race\":", c.race)?;
    put_flaw(out, from, b",\"stuck\":", c.stuck)?;
    put_flaw(out, from, b",\"livelock\":", c.livelock)?;
    put_flaw(out, from, b",\"budget\":", c.budget)
}

#[tactic(auto, unfolding(crate::specs::Jsons::faulted_json))]
fn put_faulted(out: &mut Vec<u8>, from: u32, c: FlawCounts) -> Result<(), AllocError>
    ensures { OnOk result (out.new.items ≡ out.old.items ++ faulted_json from c) }
{
    put_flaw(out, from, b",\"fault\":", c.fault)?;
    put_flaw(out, from, b",\"halt\":", c.halt)?;
    put_flaw(out, from, b",\"missed\":", c.missed)
}

/// Writes which runs there were, and whether lines were expected.
#[tactic(auto, unfolding(crate::specs::Jsons::runs_of_json))]
fn put_runs(
    out: &mut Vec<u8>,
    seed: u64,
    from: u32,
    runs: u32,
    expects: bool,
) -> Result<(), AllocError>
    ensures { OnOk result (out.new.items ≡ out.old.items ++ runs_of_json seed from runs expects) }
{
    put_field_json(out, b"{\"hunt\":1,\"seed\":", seed)?;
    put_field_json(out, b",\"from\":", u64::from(from))?;
    put_field_json(out, b",\"runs\":", u64::from(runs))?;
    out.extend_from_slice(b",\"expects\":")?;
    put_bool(out, expects)
}

#[tactic(auto, unfolding(crate::specs::Jsons::sums_json))]
fn put_sums(out: &mut Vec<u8>, stopped: u32, left: u32, steps: u64) -> Result<(), AllocError>
    ensures { OnOk result (out.new.items ≡ out.old.items ++ sums_json stopped left steps) }
{
    put_field_json(out, b",\"all_stopped\":", u64::from(stopped))?;
    put_field_json(out, b",\"left_out\":", u64::from(left))?;
    put_field_json(out, b",\"steps\":", steps)
}

/// Writes the object of the hunt.
#[tactic(auto, unfolding(crate::specs::Jsons::head_json))]
fn put_head(
    out: &mut Vec<u8>,
    hunted: &Hunted,
    seed: u64,
    from: u32,
    expects: bool,
) -> Result<(), AllocError>
    ensures { OnOk result (out.new.items ≡ out.old.items ++ head_json hunted.now seed from expects) }
{
    let flaws = hunted.flaws();
    put_runs(out, seed, from, hunted.runs(), expects)?;
    put_sums(out, hunted.all_stopped(), hunted.left_out(), hunted.steps())?;
    put_ended(out, from, flaws)?;
    put_faulted(out, from, flaws)?;
    out.extend_from_slice(b"}\n")?;
    Ok(())
}

/// What runs of a seed tell together, as JSON, one object a line: of the hunt, of each race, ending, result, missed line, finding and warning, of each source, and of all kinds.
/// `from` is the number of the first run, `expects` whether lines were expected, and `coverage` which lines of the sources the runs executed.
pub fn hunt_json(
    alloc: Global,
    hunted: &Hunted,
    seed: u64,
    from: u32,
    expects: bool,
    coverage: &[SourceCoverage],
) -> Result<Vec<u8>, AllocError>
    ensures { IfOk result (λ text. text.items ≡ hunt_json hunted.now seed from expects coverage.now) }
{
    let mut out = Vec::new(alloc);
    put_head(&mut out, hunted, seed, from, expects)?;
    put_rows(&mut out, Row::Race, from, hunted.races())?;
    put_rows(&mut out, Row::Ending, from, hunted.endings())?;
    put_rows(&mut out, Row::Result, from, hunted.results())?;
    put_rows(&mut out, Row::Missed, from, hunted.missed())?;
    put_rows(&mut out, Row::Finding, from, hunted.findings())?;
    put_rows(&mut out, Row::Warning, from, hunted.warnings())?;
    put_sources_json(&mut out, coverage)?;
    put_kinds_json(&mut out, hunted.kinds())?;
    Ok(out)
}
