//! The runs of a hunt, batch by batch.

ghost use Rattle.std.specs.Prelude.{[], ◌≡◌, ◌≤◌, ◌<◌, true, false, length, OnOk, IsTrue, IsFalse};
ghost use Rattle.hunt_tally.specs.Reports.{hunted};
ghost use Rattle.hunt_command.specs.Words.{most_made, AreRuns};
ghost use Rattle.hunt_command.specs.Hunts.{ends_at, HasMade, MakesBatches};

use crate::batch::{Batch, BatchMaker};
use crate::ending::{ends_at, next_end};
use crate::input::Target;
use crate::progress::Progress;
use crate::words::{Hunt, MOST_JOBS, most_made};
use hunt_tally::Hunted;
use std::alloc::AllocError;

/// What is made next of the runs that are left to the next end, on at most so many threads, of which each wants to make so many.
fn next_batch(left: u32, most: u32, wanted: u32) -> Batch
    requires left { 0 < left }
    requires most { 0 < most }
    ensures some { 0 < result.runs }
    ensures within { result.runs ≤ left }
{
    let runs = wanted.max(1).saturating_mul(most).min(left);
    Batch {
        runs,
        jobs: most.min(runs),
    }
}

/// Whether more runs are made: some always, and then until the hunt ends or somebody ends it.
fn goes_on<P: Progress>(asked: Option<u32>, made: u32, steps: u64, progress: &mut P) -> bool
    requires { 0 < most_made asked }
    ensures more { IsTrue result → ends_at asked made steps ≡ false }
    ensures some { IsFalse result → 0 < made }
    ensures ended { IsFalse result → P.stopped progress.new ≡ false → ends_at asked made steps ≡ true }
{
    !ends_at(asked, made, steps) && (made == 0 || progress.goes_on())
}

/// Makes the runs of a hunt batch by batch, until it ends or somebody ends it, and takes their reports in.
fn make_batches<F, P>(
    maker: &BatchMaker<F>,
    target: &Target,
    hunt: &Hunt,
    progress: &mut P,
    sums: &mut Hunted,
) -> Result<(), AllocError>
where
    F: Fn(&Target, &Hunt, u32, Batch, &mut Hunted) -> Result<(), AllocError>,
    P: Progress,
    requires makes { MakesBatches (F.pre maker.now.make) (F.post maker.now.make) }
    requires some { 0 < length target.now.setup.entries }
    requires within { AreRuns hunt.now.from (most_made hunt.now.runs) }
    requires none { sums.old ≡ hunted [] }
    ensures { OnOk result (HasMade target.now hunt.now.seed hunt.now.from hunt.now.runs (P.stopped progress.new) sums.new) }
{
    let most = hunt.jobs.unwrap_or(maker.cores).clamp(1, MOST_JOBS);
    let mut made = 0;
    while goes_on(hunt.runs, made, sums.steps(), progress) {
        let left = next_end(hunt.runs, made) - made;
        let batch = next_batch(left, most, progress.share());
        (maker.make)(target, hunt, made, batch, sums)?;
        made += batch.runs;
        progress.show(sums, most_made(hunt.runs));
    }
    Ok(())
}

/// Makes the runs of a hunt, all or as many as were made when somebody ended it, and takes their reports in. Who looks on is told of the end, also
/// if the hunt ends because it is out of memory.
pub fn hunt_runs<F, P>(
    maker: &BatchMaker<F>,
    target: &Target,
    hunt: &Hunt,
    progress: &mut P,
    sums: &mut Hunted,
) -> Result<(), AllocError>
where
    F: Fn(&Target, &Hunt, u32, Batch, &mut Hunted) -> Result<(), AllocError>,
    P: Progress,
    requires makes { MakesBatches (F.pre maker.now.make) (F.post maker.now.make) }
    requires some { 0 < length target.now.setup.entries }
    requires within { AreRuns hunt.now.from (most_made hunt.now.runs) }
    requires none { sums.old ≡ hunted [] }
    ensures { OnOk result (HasMade target.now hunt.now.seed hunt.now.from hunt.now.runs (P.stopped progress.new) sums.new) }
{
    let made = make_batches(maker, target, hunt, progress, sums);
    progress.end();
    made
}
