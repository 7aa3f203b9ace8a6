//! The finding of a spent budget: a livelock, or a run that still progressed.

ghost use Rattle.std.specs.Prelude.{◌≡◌, ◌≤◌, ◌<◌, ◌++◌, length, false, IfSome, IfOk, OnOk};
ghost use Rattle.hunt_reports.specs.Budgets.{budget_told, one_told, progress_line, spent_told};
ghost use Rattle.hunt_reports.specs.Spent.{is_livelock};

use crate::livelocks::livelock_told;
use crate::locations::{Location, put_numbered};
use crate::origins::Places;
use crate::spent::{Spent, is_livelock};
use crate::waits::running_shown;
use cell_base::line_text::put_decimal;
use hunt_tally::Telling;
use std::alloc::{AllocError, Global};

/// Writes the last change of a run that still progressed.
#[tactic(auto, unfolding(crate::specs::Budgets::progress_line))]
fn put_progress(out: &mut Vec<u8>, spent: &Spent) -> Result<(), AllocError>
    requires { 0 < spent.now.last_change }
    ensures { OnOk result (out.new.items ≡ out.old.items ++ progress_line spent.now) }
{
    put_numbered(
        out,
        b"  still progressing: the last change is step ",
        spent.last_change - 1,
    )?;
    out.extend_from_slice(b" of ")?;
    put_decimal(out, spent.budget)?;
    out.push(b'\n')?;
    Ok(())
}

/// The finding of a run that still progressed.
fn budget_told(
    alloc: Global,
    places: &Places,
    running: &[Location],
    spent: &Spent,
) -> Result<Telling, AllocError>
    requires few { length running.now ≤ 16 }
    requires progress { is_livelock spent.now ≡ false }
    ensures { IfOk result (λ t. t ≡ budget_told places.now running.now spent.now) }
{
    let key = Vec::from_slice(alloc, b"budget")?;
    let mut shown = running_shown(alloc, places, b" runs", running)?;
    put_progress(&mut shown, spent)?;
    Ok(Telling { key, shown })
}

/// The finding of a spent budget.
fn one_told(
    alloc: Global,
    places: &Places,
    running: &[Location],
    spent: &Spent,
) -> Result<Telling, AllocError>
    requires running { length running.now ≤ 16 }
    requires loops { length spent.now.loops.items ≤ 16 }
    ensures { IfOk result (λ t. t ≡ one_told places.now running.now spent.now) }
{
    if is_livelock(spent) {
        livelock_told(alloc, places, spent)
    } else {
        budget_told(alloc, places, running, spent)
    }
}

/// Takes in the finding of a spent budget, if it is spent.
pub fn take_spent(
    alloc: Global,
    findings: &mut Vec<Telling>,
    places: &Places,
    running: &[Location],
    spent: &Option<Spent>,
) -> Result<(), AllocError>
    requires running { length running.now ≤ 16 }
    requires loops { IfSome spent.now (λ s. length s.loops.items ≤ 16) }
    ensures { OnOk result (findings.new.items ≡ findings.old.items ++ spent_told places.now running.now spent.now) }
{
    match spent {
        Some(spent) => findings.push(one_told(alloc, places, running, spent)?)?,
        None => {}
    }
    Ok(())
}
