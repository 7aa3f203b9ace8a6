//! What the processors did in a run that spent its budget.

ghost use Rattle.std.specs.Prelude.{◌≡◌, ◌<◌, length, map, All, IfSome, IfOk};
ghost use Rattle.std.specs.List.{range_with_len};
ghost use Rattle.cell_hunt.specs.Sites.{IsSite};
ghost use Rattle.run_progress.specs.Made.{made_of};
ghost use Rattle.run_progress.specs.Progress.{last_change, spe_progress};
ghost use Rattle.hunt_reports.specs.Lists.{BothOrNone};
ghost use Rattle.hunt_reports.specs.Spent.{first_in, has_livelock, is_fair, is_livelock, last_in, IsLoop, IsPoll, IsSpent, IsSpentBy};

use crate::locations::Location;
use cell_hunt::{SeedRun, Site};
use cell_machine::End;
use run_progress::{AddressRange, Poll, Progress, progress_of};
use std::alloc::{AllocError, Global};

/// The bytes of main memory that an MFC polls.
#[derive(Clone, Copy)]
pub struct Polled {
    /// The address of the first one.
    pub at: u32,
    /// How many they are.
    pub len: u32,
    /// Where the last step comes from that wrote one of them. None if no step did.
    pub writer: Option<Site>,
}

/// What a processor that still runs did after the last change.
#[derive(Clone, Copy)]
pub struct Loop {
    /// The first instruction of its loop. If it executed none, the one at its PC.
    pub first: Location,
    /// The address of the last instruction of its loop. None if it executed none.
    pub last: Option<u32>,
    /// What its MFC read last. None if it read nothing.
    pub polled: Option<Polled>,
}

/// A run that spent its budget.
#[derive(Drop)]
pub struct Spent {
    /// How many steps it has up to the last change, and with it. 0 if there is none.
    pub last_change: u32,
    /// How many steps it has.
    pub budget: u32,
    /// Its processors that still run.
    pub loops: Vec<Loop>,
}

/// Whether a fair strategy chooses the step at this place.
fn is_fair(budget: u32, place: u32) -> bool
    ensures { result ≡ is_fair budget place }
{
    3 * u64::from(budget) <= 4 * u64::from(place)
}

/// Whether no step that is chosen fairly is a change.
pub fn is_livelock(spent: &Spent) -> bool
    ensures { result ≡ is_livelock spent.now }
{
    spent.last_change == 0 || !is_fair(spent.budget, spent.last_change - 1)
}

/// Whether the run spent its budget and is a livelock.
pub fn has_livelock(spent: &Option<Spent>) -> bool
    ensures { result ≡ has_livelock spent.now }
{
    match spent {
        Some(spent) => is_livelock(spent),
        None => false,
    }
}

/// Where the step at this place comes from.
fn writer_of(run: &SeedRun, place: Option<u32>) -> Option<Site>
    requires { IfSome place (λ i. i < length run.now.steps) }
    ensures { BothOrNone (IsSite run.now) place result }
{
    match place {
        Some(place) => Some(run.site(place)),
        None => None,
    }
}

/// What an MFC polls, with the site of the step that wrote it.
fn polled_of(run: &SeedRun, poll: Option<Poll>) -> Option<Polled>
    requires { IfSome poll (λ poll. IfSome poll.writer (λ i. i < length run.now.steps)) }
    ensures { BothOrNone (IsPoll run.now) poll result }
{
    match poll {
        Some(poll) => Some(Polled {
            at: poll.at,
            len: poll.len,
            writer: writer_of(run, poll.writer),
        }),
        None => None,
    }
}

/// The first instruction of a loop.
fn first_in(here: Location, executed: Option<AddressRange>) -> Location
    ensures { result ≡ first_in here executed }
{
    match executed {
        Some(range) => Location {
            spe: here.spe,
            at: range.least,
        },
        None => here,
    }
}

/// The address of the last instruction of a loop.
fn last_in(executed: Option<AddressRange>) -> Option<u32>
    ensures { result ≡ last_in executed }
{
    match executed {
        Some(range) => Some(range.greatest),
        None => None,
    }
}

/// What a processor did after the last change, if its PC is here.
fn loop_of(run: &SeedRun, progress: &Progress, here: Location) -> Loop
    requires spe { here.spe < length run.now.setup.entries }
    requires long { length (made_of run.now) ≡ length run.now.steps }
    requires spes { progress.now.spes.items ≡ map (spe_progress (made_of run.now)) (range_with_len 0 (length run.now.setup.entries)) }
    ensures { IsLoop run.now here result }
{
    let did = progress.spes[usize::from(here.spe)];
    Loop {
        first: first_in(here, did.executed),
        last: last_in(did.executed),
        polled: polled_of(run, did.polled),
    }
}

/// What the processors that run did after the last change.
fn spent_by(
    alloc: Global,
    run: &SeedRun,
    running: &[Location],
    progress: &Progress,
) -> Result<Spent, AllocError>
    requires within { All (λ here. here.spe < length run.now.setup.entries) running.now }
    requires long { length (made_of run.now) ≡ length run.now.steps }
    requires change { progress.now.last_change ≡ last_change (made_of run.now) }
    requires spes { progress.now.spes.items ≡ map (spe_progress (made_of run.now)) (range_with_len 0 (length run.now.setup.entries)) }
    ensures { IfOk result (IsSpent run.now running.now) }
{
    let mut loops = Vec::new(alloc);
    for here in running {
        loops.push(loop_of(run, progress, *here))?;
    }
    Ok(Spent {
        last_change: progress.last_change,
        budget: run.machine().setup().budget(),
        loops,
    })
}

/// What the processors that run did after the last change, if the run ends with its budget.
pub fn spent_of(
    alloc: Global,
    run: &SeedRun,
    running: &[Location],
    end: End,
) -> Result<Option<Spent>, AllocError>
    requires { All (λ here. here.spe < length run.now.setup.entries) running.now }
    ensures { IfOk result (IsSpentBy run.now running.now end) }
{
    match end {
        End::Budget => {
            let progress = progress_of(alloc, run.machine())?;
            Ok(Some(spent_by(alloc, run, running, &progress)?))
        }
        End::AllStopped => Ok(None),
        End::Stuck => Ok(None),
    }
}
