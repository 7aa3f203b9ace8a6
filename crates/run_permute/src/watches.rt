//! The watches, as a run goes on by a step.

ghost use Rattle.std.specs.Prelude.{◌≡◌, ℕ, ◌+◌, ◌<◌, ◌↔◌, IfOk, IsTrue, Some, length, slice_get};
ghost use Rattle.cell_machine.specs.Run.{Ran};
ghost use Rattle.run_permute.specs.SettledLists.{Each};
ghost use Rattle.run_permute.specs.Online.{IsSettledAt};
ghost use Rattle.run_permute.specs.Walks.{IsAt, IsMade};
ghost use Rattle.run_permute.specs.Watches.{IsFresh, AreWatches, may_act};

use crate::made::Made;
use crate::watch::Watch;
use cell_base::Step;
use cell_machine::Note;
use run_walk::Walk;
use std::alloc::{AllocError, Global};

/// A watch for each processor.
pub fn no_watches(alloc: Global, spes: u8) -> Result<Vec<Watch>, AllocError>
    ensures many { IfOk result (λ watches. length watches.items ≡ spes) }
    ensures fresh { IfOk result (λ watches. Each IsFresh watches.items) }
{
    let mut watches = Vec::new(alloc);
    for _ in 0..spes {
        watches.push(Watch::new(alloc))?;
    }
    Ok(watches)
}

/// Whether a settled run may have an action of the host that tells this: it delivers no signal.
fn may_act(note: Note) -> bool
    ensures { result ≡ may_act note }
{
    match note {
        Note::Signal { .. } => false,
        _ => true,
    }
}

/// Takes the last step of the walk, and answers whether a settled run may have it there.
pub fn follow(
    alloc: Global,
    walk: &Walk,
    place: u32,
    step: Step,
    made: &Made,
    watches: &mut [Watch],
) -> Result<bool, AllocError>
    ghost m: { Ran }
    requires at { IsAt walk.now m (place + 1) }
    requires step { slice_get m.steps place ≡ Some step }
    requires made { IsMade m place step made.now }
    requires watches { AreWatches m place watches.old }
    requires settled { (p k : ℕ) → k < place → IsSettledAt m p k }
    ensures settled { IfOk result (λ settled. IsTrue settled ↔ ((p : ℕ) → IsSettledAt m p place)) }
    ensures watches { IfOk result (λ settled. IsTrue settled → AreWatches m (place + 1) watches.new) }
{
    match step {
        Step::Exec { spe } => {
            let watch = &mut watches[usize::from(spe)];
            watch.execute(alloc, walk, spe, place, made)
        }
        Step::Piece { spe, .. } => {
            watches[usize::from(spe)].transfer(spe, place, step, made)?;
            Ok(true)
        }
        Step::Elem { spe, .. } => {
            watches[usize::from(spe)].transfer(spe, place, step, made)?;
            Ok(true)
        }
        Step::Retire { spe, .. } => {
            watches[usize::from(spe)].transfer(spe, place, step, made)?;
            Ok(true)
        }
        Step::Atomic { .. } => Ok(true),
        Step::Host => Ok(may_act(made.effect.note)),
    }
}
