//! The steps of all actors so far: a track for each processor, and one for the host.

ghost use Rattle.std.specs.Prelude.{◌≡◌, ◌+◌, ◌<◌, ◌≤◌, IfOk, length};
ghost use Rattle.reorder_laws.specs.OrderedLaws.{IsOrdered};
ghost use Rattle.race_order.specs.Orderly.{IsWithin};
ghost use Rattle.run_permute.specs.Needs.{AreNeedsOf};
ghost use Rattle.run_permute.specs.Walks.{Here, IsAt};
ghost use Rattle.run_permute.specs.Tracks.{AreTracks, IsEndAt};

use crate::hints::{Hints, Row};
use crate::track::{Spot, Track};
use cell_base::Step;
use run_walk::Walk;
use std::alloc::{AllocError, Global};

/// The number of the track to which a step goes.
pub fn track_of(step: Step, spes: u8) -> usize
    requires { IsWithin spes step }
    ensures { result ≤ spes }
{
    match step {
        Step::Exec { spe } => usize::from(spe),
        Step::Piece { spe, .. } => usize::from(spe),
        Step::Elem { spe, .. } => usize::from(spe),
        Step::Retire { spe, .. } => usize::from(spe),
        Step::Atomic { spe } => usize::from(spe),
        Step::Host => usize::from(spes),
    }
}

/// Whether the step may go to the chain of its track: an instruction, an action of the host, or an atomic command, which mostly comes right
/// behind its issue.
fn links(step: Step) -> bool {
    match step {
        Step::Exec { .. } => true,
        Step::Host => true,
        Step::Piece { .. } => false,
        Step::Elem { .. } => false,
        Step::Retire { .. } => false,
        Step::Atomic { .. } => true,
    }
}

/// The tracks of so many processors and the host before the first step.
pub fn no_tracks(alloc: Global, spes: u8) -> Result<Vec<Track>, AllocError>
    ensures long { IfOk result (λ tracks. length tracks.items ≡ spes + 1) }
    ensures tracks { IfOk result (λ tracks. (h : Here) → AreTracks h.run 0 tracks.items) }
{
    let mut tracks = Vec::new(alloc);
    for _ in 0..usize::from(spes) + 1 {
        tracks.push(Track::new(alloc))?;
    }
    Ok(tracks)
}

/// Puts what the last step of the walk needs in the place of what the list has. It goes to the track of this number: answers what was found
/// for it there.
pub fn gather(
    tracks: &[Track],
    walk: &Walk,
    step: Step,
    own: usize,
    hints: &mut Hints,
    needs: &mut Vec<u32>,
) -> Result<Spot, AllocError>
    ghost here: { Here }
    requires at { IsAt walk.now here.run (here.place + 1) }
    requires own { own < length tracks.now }
    requires tracks { AreTracks here.run here.place tracks.now }
    ensures needs { IfOk result (λ _. AreNeedsOf (IsOrdered here.run) here.place needs.new.items) }
    ensures end { IfOk result (λ spot. IsEndAt here.run here.place tracks.now own spot.end) }
{
    needs.clear();
    let mut spot = Spot::none();
    let row = Row::of(step, own);
    for k in 0..tracks.len() {
        let hint = hints.of(row, k);
        let found = tracks[k].gather(walk, hint, needs)?;
        hints.keep(row, k, found.end);
        if k == own {
            spot = found;
        }
    }
    Ok(spot)
}

/// Adds the last step of the walk to its track, which has this number, and on which this was found for it.
pub fn add(
    alloc: Global,
    tracks: &mut [Track],
    walk: &Walk,
    place: u32,
    step: Step,
    own: usize,
    spot: Spot,
) -> Result<(), AllocError>
    ghost here: { Here }
    requires at { IsAt walk.now here.run (here.place + 1) }
    requires place { place ≡ here.place }
    requires own { own < length tracks.old }
    requires tracks { AreTracks here.run here.place tracks.old }
    requires end { IsEndAt here.run here.place tracks.old own spot.end }
    ensures long { length tracks.new ≡ length tracks.old }
    ensures tracks { IfOk result (λ _. AreTracks here.run (here.place + 1) tracks.new) }
{
    tracks[own].add(alloc, walk, place, links(step), spot)?;
    Ok(())
}
