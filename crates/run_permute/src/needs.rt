//! What each step of a run needs, as the run is made.

ghost use Rattle.std.specs.Prelude.{◌≡◌, [], IfOk, OnOk, OnErr, Some, length, slice_get};
ghost use Rattle.cell_machine.specs.Opening.{Opening};
ghost use Rattle.reorder_laws.specs.Places.{until};
ghost use Rattle.run_walk.specs.Walks.{IsLast, walked};
ghost use Rattle.run_permute.specs.Gathered.{Gathers};

use crate::few::Few;
use crate::hints::Hints;
use crate::track::Track;
use crate::tracks::{add, gather, no_tracks, track_of};
use cell_base::Step;
use run_walk::Walk;
use std::alloc::{AllocError, Global};

/// Of each step of a run so far some that are ordered before it, such that every other one that is so is ordered before one of them.
/// After want of memory no step can be taken any more.
#[derive(Drop)]
pub struct Needs {
    alloc: Global,
    spes: u8,
    // the steps so far, by which those that a step needs are found
    tracks: Vec<Track>,
    hints: Hints,
    // those that the last step needs
    found: Vec<u32>,
    pub(crate) needs: Vec<Few>,
}

impl Needs {
    /// Before the first step of a run of so many processors, with room for what so many steps need.
    pub fn new(alloc: Global, spes: u8, room: usize) -> Result<Needs, AllocError>
        ensures { IfOk result (λ needs. (setup : Opening) → length setup.entries ≡ spes → Gathers (record { setup = setup; steps = [] }) needs) }
    {
        let tracks = no_tracks(alloc, spes)?;
        let hints = Hints::new(alloc)?;
        let needs = Vec::with_capacity(alloc, room)?;
        Ok(Needs {
            alloc,
            spes,
            tracks,
            hints,
            found: Vec::new(alloc),
            needs,
        })
    }

    /// Takes the last step of the walk, which stands at this place of its run. Want of memory is the only refusal: then what the steps before it
    /// need stays.
    pub fn follow(&mut self, walk: &Walk, place: u32, step: Step) -> Result<(), AllocError>
        requires last { IsLast walk.now place }
        requires step { slice_get (walked walk.now).steps place ≡ Some step }
        requires gathers { Gathers (until (walked walk.now) place) self.old }
        ensures gathers { OnOk result (Gathers (walked walk.now) self.new) }
        ensures failed { OnErr result (self.new.needs.items ≡ self.old.needs.items) }
    {
        let _steps = walk.machine().steps(); // which are a run, as its contract says
        let own = track_of(step, self.spes);
        let (hints, found) = (&mut self.hints, &mut self.found);
        let spot = gather(&self.tracks, walk, step, own, hints, found)?;
        let tracks = self.tracks.as_mut_slice();
        add(self.alloc, tracks, walk, place, step, own, spot)?;
        let needs = Few::of(self.alloc, &self.found)?;
        self.needs.push(needs)?;
        Ok(())
    }
}
