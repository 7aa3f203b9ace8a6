//! Runs that are made one after the other, and what was found in them.

ghost use Rattle.std.specs.Prelude.{◌<◌, ◌+◌, ◌^◌, length, IfOk, OnOk};
ghost use Rattle.hunt_command.specs.Hunts.{IsReportOfSeed, HasTaken};

use crate::input::Target;
use cell_hunt::run_of_seed;
use hunt_reports::report_of;
use hunt_tally::{Hunted, Report};
use std::alloc::{AllocError, Global};

/// The report of a run.
fn report_of_run(alloc: Global, target: &Target, seed: u64, run: u32) -> Result<Report, AllocError>
    requires { 0 < length target.now.setup.entries }
    ensures { IfOk result (IsReportOfSeed target.now.setup target.now.asked seed run) }
{
    match run_of_seed(alloc, &target.setup, seed, run) {
        Ok(made) => report_of(alloc, &made, &target.asked),
        Err(_) => Err(AllocError),
    }
}

/// Makes this many runs after those that were made, one after the other, and takes their reports in.
pub fn take_runs(
    sums: &mut Hunted,
    alloc: Global,
    target: &Target,
    seed: u64,
    from: u32,
    made: u32,
    count: u32,
) -> Result<(), AllocError>
    requires some { 0 < length target.now.setup.entries }
    requires numbered { from + (made + count) < 2 ^ 32 }
    requires room { made + count + 2 < 2 ^ 32 }
    requires taken { HasTaken target.now seed from made sums.old }
    ensures { OnOk result (HasTaken target.now seed from (made + count) sums.new) }
{
    for run in made..made + count {
        sums.take(alloc, report_of_run(alloc, target, seed, from + run)?)?;
    }
    Ok(())
}
