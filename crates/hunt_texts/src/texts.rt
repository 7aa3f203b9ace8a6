//! What a hunt prints as text.

ghost use Rattle.std.specs.Prelude.{◌≡◌, ◌++◌, IfOk, OnOk};
ghost use Rattle.hunt_texts.specs.About.{facts};
ghost use Rattle.hunt_texts.specs.Texts.{suppressed_text, suppressed_line, caution_line, hunt_text};

use crate::about::About;
use crate::coverage::put_coverage;
use crate::endings::put_all_results;
use crate::ends::put_ends;
use crate::findings::put_findings;
use crate::heads::{put_head, put_limit};
use crate::numbers::put_units;
use crate::unexecuted::put_unexecuted;
use hunt_tally::{FlawCounts, Hunted};
use std::alloc::{AllocError, Global};

fn put_suppressed_runs(out: &mut Vec<u8>, runs: u64) -> Result<(), AllocError>
    ensures { OnOk result (out.new.items ≡ out.old.items ++ suppressed_text runs) }
{
    out.extend_from_slice(b"suppressed: ")?;
    put_units(out, runs, b"1 run has", b" runs have")?;
    out.extend_from_slice(b" a data race that --pass names\n")?;
    Ok(())
}

/// Writes how many runs have a race that was left out, if there are any.
fn put_suppressed(out: &mut Vec<u8>, runs: u32) -> Result<(), AllocError>
    ensures { OnOk result (out.new.items ≡ out.old.items ++ suppressed_line runs) }
{
    if runs == 0 {
        return Ok(());
    }
    put_suppressed_runs(out, u64::from(runs))
}

/// Writes that other runs may fail, if none of these did.
fn put_caution(out: &mut Vec<u8>, c: FlawCounts) -> Result<(), AllocError>
    ensures { OnOk result (out.new.items ≡ out.old.items ++ caution_line c) }
{
    if c.is_some() {
        return Ok(());
    }
    out.extend_from_slice(
        b"other runs may still fail: docs/guide/hunting.md says what such a hunt misses\n",
    )
}

/// The text of a hunt.
pub fn hunt_text(alloc: Global, hunted: &Hunted, about: &About) -> Result<Vec<u8>, AllocError>
    ensures { IfOk result (λ text. text.items ≡ hunt_text hunted.now (facts about.now)) }
{
    let mut out = Vec::new(alloc);
    put_head(&mut out, alloc, about, hunted)?;
    put_limit(&mut out, hunted.steps(), about.by_steps)?;
    put_findings(&mut out, alloc, about, hunted)?;
    put_ends(&mut out, alloc, about.from, hunted)?;
    put_all_results(&mut out, alloc, about, hunted.endings(), hunted.results())?;
    put_coverage(&mut out, hunted.kinds(), hunted.runs())?;
    put_unexecuted(&mut out, alloc, about.coverage)?;
    put_suppressed(&mut out, hunted.left_out())?;
    put_caution(&mut out, hunted.flaws())?;
    Ok(out)
}
