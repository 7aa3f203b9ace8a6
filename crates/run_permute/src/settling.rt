//! Whether a run is settled, as it is made.

ghost use Rattle.std.specs.Prelude.{◌≡◌, ◌↔◌, [], IfOk, OnOk, OnErr, IsTrue, Some, length, slice_get};
ghost use Rattle.cell_machine.specs.Opening.{Opening};
ghost use Rattle.cell_machine.specs.Run.{Ran};
ghost use Rattle.reorder_laws.specs.Places.{until};
ghost use Rattle.reorder_laws.specs.Settled.{IsSettled};
ghost use Rattle.run_walk.specs.Walks.{IsLast, walked};
ghost use Rattle.run_permute.specs.Settlings.{Follows, IsSettledSoFar};
ghost use Rattle.run_permute.specs.Walks.{IsMadeFrom};

use crate::faults::has_no_fault;
use crate::made::Made;
use crate::watch::Watch;
use crate::watches::{follow, no_watches};
use cell_base::Step;
use cell_machine::Machine;
use run_walk::Walk;
use std::alloc::{AllocError, Global};

/// Whether a run is settled so far, and while it is, what is kept of each processor. After want of memory no step can be taken any more.
#[derive(Drop)]
pub struct Settling {
    alloc: Global,
    settled: bool,
    watches: Vec<Watch>,
}

impl Settling {
    /// Before the first step of a run of so many processors.
    pub fn new(alloc: Global, spes: u8) -> Result<Settling, AllocError>
        ensures { IfOk result (λ settling. (setup : Opening) → length setup.entries ≡ spes → Follows (record { setup = setup; steps = [] }) settling) }
    {
        let watches = no_watches(alloc, spes)?;
        Ok(Settling {
            alloc,
            settled: true,
            watches,
        })
    }

    /// Takes the last step of the walk, which stands at this place of its run, and did and asked for this. Want of memory is the only refusal:
    /// then it tells of the run without that step what it told.
    pub fn follow(
        &mut self,
        walk: &Walk,
        place: u32,
        step: Step,
        made: &Made,
    ) -> Result<(), AllocError>
        requires last { IsLast walk.now place }
        requires step { slice_get (walked walk.now).steps place ≡ Some step }
        requires made { IsMadeFrom (until (walked walk.now) place) step made.now }
        requires follows { Follows (until (walked walk.now) place) self.old }
        ensures follows { OnOk result (Follows (walked walk.now) self.new) }
        ensures failed { OnErr result (self.new.settled ≡ self.old.settled) }
    {
        let _steps = walk.machine().steps(); // which are a run, as its contract says
        if !self.settled {
            return Ok(());
        }
        let watches = self.watches.as_mut_slice();
        self.settled = follow(self.alloc, walk, place, step, made, watches)?;
        Ok(())
    }

    /// Whether the run so far is settled, but for DMA faults.
    pub fn is_settled_so_far(&self) -> bool
        ensures { (m : Ran) → Follows m self.now → IsTrue result ↔ IsSettledSoFar m }
    {
        self.settled
    }

    /// Whether the run, which the machine has made, is settled.
    pub fn is_settled(&self, machine: &Machine) -> bool
        requires { Follows machine.now self.now }
        ensures settled { IsTrue result ↔ IsSettled machine.now }
        ensures so_far { IsTrue result → IsSettledSoFar machine.now }
    {
        let _steps = machine.steps(); // which are a run, as its contract says
        self.settled && has_no_fault(machine)
    }
}
