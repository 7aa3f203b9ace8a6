//! The runs of a hunt, on threads.

ghost use Rattle.std.specs.Prelude.{◌<◌, ◌+◌, ◌^◌, ℕ, length, IfOk, OnOk};
ghost use Rattle.hunt_command.specs.declared.input.Target.{Target as ATarget};
ghost use Rattle.hunt_command.specs.Hunts.{IsNext, HasTaken, AreParts, GaveParts};

use crate::batch::{Batch, make_alone};
use crate::input::Target;
use crate::parts::{Part, make_parts, take_parts};
use crate::words::Hunt;
use hunt_tally::Hunted;
use std::alloc::{AllocError, Global};
use std::sync::atomic::AtomicU32;
use std::thread::{Threads, available_parallelism, map_indices};

/// On how many threads runs are made by default: one for each core.
pub fn cores_of<R: Threads>(rt: &R) -> u32 {
    match available_parallelism(rt) {
        Ok(cores) => u32::try_from(cores.get()).unwrap_or(u32::MAX),
        Err(_) => 1,
    }
}

/// What the threads tell that make the runs of a batch, after those that were made.
fn make_on_each<R: Threads + Sync>(
    rt: &R,
    alloc: Global,
    target: &Target,
    seed: u64,
    from: u32,
    made: u32,
    batch: Batch,
) -> Result<Vec<Result<Vec<Part>, AllocError>>, AllocError>
    requires some { 0 < length target.now.setup.entries }
    requires numbered { from + (made + batch.runs) < 2 ^ 32 }
    requires room { made + batch.runs + 2 < 2 ^ 32 }
    ensures { IfOk result (λ told. GaveParts target.now seed from (made + batch.runs) told.items) }
{
    let taken = AtomicU32::new(made);
    let end = made + batch.runs;
    map_indices(
        rt,
        alloc,
        batch.jobs as usize,
        &|_job| make_parts(alloc, target, seed, from, end, batch.jobs, &taken),
    )
}

/// The parts of all threads, in the order of the runs.
fn all_parts(
    alloc: Global,
    told: Vec<Result<Vec<Part>, AllocError>>,
) -> Result<Vec<Part>, AllocError>
    ensures { IfOk result (λ parts. (target : ATarget) (seed from end : ℕ) → GaveParts target seed from end told.items → AreParts target seed from end parts.items) }
{
    let mut parts = Vec::new(alloc);
    for made in told {
        parts.append(&mut made?)?;
    }
    parts.sort_by_key(|part| part.first)?;
    Ok(parts)
}

/// Makes the runs of a batch, after those that were made, on threads, and takes their reports in. One thread needs no parts.
pub fn make_on_threads<R: Threads + Sync>(
    rt: &R,
    alloc: Global,
    target: &Target,
    hunt: &Hunt,
    made: u32,
    batch: Batch,
    sums: &mut Hunted,
) -> Result<(), AllocError>
    requires { IsNext target.now hunt.now made batch sums.old }
    ensures { OnOk result (HasTaken target.now hunt.now.seed hunt.now.from (made + batch.runs) sums.new) }
{
    if batch.jobs == 1 {
        return make_alone(alloc, target, hunt, made, batch, sums);
    }
    let told = make_on_each(rt, alloc, target, hunt.seed, hunt.from, made, batch)?;
    let parts = all_parts(alloc, told)?;
    let end = made + batch.runs;
    take_parts(sums, alloc, target, hunt.seed, hunt.from, made, end, parts)
}
