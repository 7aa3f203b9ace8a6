//! The parts of a batch: runs that follow one another, and that one thread makes.

ghost use Rattle.std.specs.Prelude.{◌≤◌, ◌<◌, ◌+◌, ◌^◌, max, length, IfOk, IfSome, OnOk};
ghost use Rattle.hunt_command.specs.Hunts.{HasTaken, IsPart, AreParts};

use crate::input::Target;
use crate::runs::take_runs;
use hunt_tally::Hunted;
use std::alloc::{AllocError, Global};
use std::sync::atomic::{AtomicU32, Ordering};

/// Into how many parts each thread's share of the runs that are left is cut: with fewer all wait longer for a slow core, and more have to be joined.
const CUTS: u32 = 4;

/// Runs that follow one another: how many runs of the hunt stand before them, and how many they are.
#[derive(Clone, Copy)]
struct Runs {
    first: u32,
    count: u32,
}

/// The reports of runs that follow one another, and how many runs of the hunt come before them.
#[derive(Drop)]
pub struct Part {
    pub first: u32,
    pub sums: Hunted,
}

/// The runs that a thread makes next, of those before `end` that nobody has taken. The fewer are left the fewer they are, so that all threads end
/// together. That nobody else makes them, too, hangs on the counter, of which no contract speaks: nothing is proved by it.
fn next_runs(taken: &AtomicU32, end: u32, jobs: u32) -> Option<Runs>
    requires { 0 < jobs }
    ensures { IfSome result (λ runs. runs.first + runs.count ≤ end) }
{
    let left = end.saturating_sub(taken.load(Ordering::SeqCst));
    let count = (left / jobs / CUTS).max(1);
    let first = taken.fetch_add(count, Ordering::SeqCst);
    if first >= end {
        return None;
    }
    Some(Runs {
        first,
        count: count.min(end - first),
    })
}

/// Makes runs one after the other, and takes their reports in.
fn make_part(
    alloc: Global,
    target: &Target,
    seed: u64,
    from: u32,
    runs: Runs,
) -> Result<Part, AllocError>
    requires some { 0 < length target.now.setup.entries }
    requires numbered { from + (runs.first + runs.count) < 2 ^ 32 }
    requires room { runs.first + runs.count + 2 < 2 ^ 32 }
    ensures { IfOk result (IsPart target.now seed from (runs.first + runs.count)) }
{
    let mut sums = Hunted::new(alloc);
    take_runs(
        &mut sums,
        alloc,
        target,
        seed,
        from + runs.first,
        0,
        runs.count,
    )?;
    Ok(Part {
        first: runs.first,
        sums,
    })
}

/// Makes runs part by part, until none before `end` are left that nobody has taken.
pub fn make_parts(
    alloc: Global,
    target: &Target,
    seed: u64,
    from: u32,
    end: u32,
    jobs: u32,
    taken: &AtomicU32,
) -> Result<Vec<Part>, AllocError>
    requires some { 0 < length target.now.setup.entries }
    requires numbered { from + end < 2 ^ 32 }
    requires room { end + 2 < 2 ^ 32 }
    requires jobs { 0 < jobs }
    ensures { IfOk result (λ parts. AreParts target.now seed from end parts.items) }
{
    let mut parts = Vec::new(alloc);
    for _ in 0..end {
        let Some(runs) = next_runs(taken, end, jobs) else {
            break;
        };
        parts.push(make_part(alloc, target, seed, from, runs)?)?;
    }
    Ok(parts)
}

/// Takes in what a part tells, after the runs that were taken in, and answers how many were then. Runs between them are made here, and a part
/// with runs that were taken in is left out: as the counter counts there are neither.
fn take_part(
    sums: &mut Hunted,
    alloc: Global,
    target: &Target,
    seed: u64,
    from: u32,
    made: u32,
    part: Part,
) -> Result<u32, AllocError>
    requires some { 0 < length target.now.setup.entries }
    requires numbered { from + (part.first + part.sums.runs) < 2 ^ 32 }
    requires room { part.first + part.sums.runs + 2 < 2 ^ 32 }
    requires taken { HasTaken target.now seed from made sums.old }
    requires behind { HasTaken target.now seed (from + part.first) part.sums.runs part.sums }
    ensures taken { IfOk result (λ all. HasTaken target.now seed from all sums.new) }
    ensures within { IfOk result (λ all. all ≤ max made (part.first + part.sums.runs)) }
{
    let Part {
        first,
        sums: behind,
    } = part;
    if first < made {
        return Ok(made);
    }
    take_runs(sums, alloc, target, seed, from, made, first - made)?;
    let count = behind.runs();
    sums.join(alloc, behind)?;
    Ok(first + count)
}

/// Takes in what parts tell, in the order of the runs, after those that were taken in, up to `end`. Runs that stand in no part are made here.
pub fn take_parts(
    sums: &mut Hunted,
    alloc: Global,
    target: &Target,
    seed: u64,
    from: u32,
    made: u32,
    end: u32,
    parts: Vec<Part>,
) -> Result<(), AllocError>
    requires some { 0 < length target.now.setup.entries }
    requires numbered { from + end < 2 ^ 32 }
    requires room { end + 2 < 2 ^ 32 }
    requires made { made ≤ end }
    requires taken { HasTaken target.now seed from made sums.old }
    requires parts { AreParts target.now seed from end parts.items }
    ensures { OnOk result (HasTaken target.now seed from end sums.new) }
{
    let mut made = made;
    for part in parts {
        made = take_part(sums, alloc, target, seed, from, made, part)?;
    }
    take_runs(sums, alloc, target, seed, from, made, end - made)
}
