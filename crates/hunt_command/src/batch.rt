//! How the runs of a hunt are made: in batches.

ghost use Rattle.std.specs.Prelude.{◌+◌, OnOk};
ghost use Rattle.hunt_command.specs.Hunts.{IsNext, HasTaken};

use crate::input::Target;
use crate::runs::take_runs;
use crate::words::Hunt;
use hunt_tally::Hunted;
use std::alloc::{AllocError, Global};

/// The runs that are made next: their number, and on how many threads.
#[derive(Clone, Copy)]
pub struct Batch {
    pub runs: u32,
    pub jobs: u32,
}

/// How a batch is made, and the number of threads if the words don't give it.
#[derive(Drop)]
pub struct BatchMaker<F: Fn(&Target, &Hunt, u32, Batch, &mut Hunted) -> Result<(), AllocError>> {
    pub cores: u32,
    pub make: F,
}

/// Makes the runs of a batch one after the other on the caller's thread, and adds their reports to the sums.
pub fn make_alone(
    alloc: Global,
    target: &Target,
    hunt: &Hunt,
    made: u32,
    batch: Batch,
    sums: &mut Hunted,
) -> Result<(), AllocError>
    requires { IsNext target.now hunt.now made batch sums.old }
    ensures { OnOk result (HasTaken target.now hunt.now.seed hunt.now.from (made + batch.runs) sums.new) }
{
    take_runs(sums, alloc, target, hunt.seed, hunt.from, made, batch.runs)
}
