//! What is looked at in a run that is to be reordered.

ghost use Rattle.std.specs.Prelude.{◌≡◌, ◌∷◌, ◌++◌, [], IfOk, OnOk, OnErr, Some, length, slice_get};
ghost use Rattle.cell_machine.specs.Effects.{effect_in};
ghost use Rattle.race_check.specs.Races.{IsVerdict};
ghost use Rattle.race_check.specs.Searches.{HasMadeAtMost, IsClear, run_of};
ghost use Rattle.reorder_laws.specs.Places.{until};
ghost use Rattle.run_walk.specs.Walks.{IsLast, walked};
ghost use Rattle.run_permute.specs.Walks.{IsMadeFrom};
ghost use Rattle.cell_commands.specs.Judging.{LooksAt};

use cell_base::Step;
use cell_machine::{Effect, Setup};
use race_check::{Search, Verdict};
use run_permute::{Made, Needs, Settling};
use run_walk::Walk;
use std::alloc::{AllocError, Global};

/// Whether the run is settled, and where it is so far, what its steps need.
#[derive(Drop)]
pub struct Looks {
    pub settling: Settling,
    pub needs: Needs,
}

impl Looks {
    /// Before the first step of a run, with room for what so many steps need.
    pub fn new(alloc: Global, setup: &Setup, room: usize) -> Result<Looks, AllocError>
        ensures { IfOk result (LooksAt (record { setup = setup.now; steps = [] })) }
    {
        let spes = setup.spes();
        let settling = Settling::new(alloc, spes)?;
        let needs = Needs::new(alloc, spes, room)?;
        Ok(Looks { settling, needs })
    }

    /// Takes the last step of the walk, which stands at this place of its run, and did and asked for this.
    fn take(&mut self, walk: &Walk, place: u32, step: Step, made: &Made) -> Result<(), AllocError>
        requires last { IsLast walk.now place }
        requires step { slice_get (walked walk.now).steps place ≡ Some step }
        requires made { IsMadeFrom (until (walked walk.now) place) step made.now }
        requires looks { LooksAt (until (walked walk.now) place) self.old }
        ensures { OnOk result (LooksAt (walked walk.now) self.new) }
    {
        let _steps = walk.machine().steps(); // which are a run, as its contract says
        self.settling.follow(walk, place, step, made)?;
        if !self.settling.is_settled_so_far() {
            return Ok(());
        }
        self.needs.follow(walk, place, step)?;
        Ok(())
    }

    /// Makes the next step of the search, which stands at this place, and takes it where no race is found. Want of memory is the only refusal:
    /// then the run is the old one, or already that with the step.
    pub fn advance(
        &mut self,
        search: &mut Search,
        place: u32,
        step: Step,
        effect: &Effect,
    ) -> Result<Verdict, AllocError>
        requires looks { LooksAt (run_of search.old) self.old }
        requires clear { IsClear search.old }
        requires effect { effect_in (run_of search.old) step ≡ Some effect.now }
        requires place { place ≡ length (run_of search.old).steps }
        ensures run { IfOk result (λ _. run_of search.new ≡ record (run_of search.old) { steps = (run_of search.old).steps ++ step ∷ [] }) }
        ensures verdict { IfOk result (IsVerdict (run_of search.new)) }
        ensures clear { IfOk result (λ v. v ≡ Verdict.Accepted → IsClear search.new) }
        ensures looks { IfOk result (λ v. v ≡ Verdict.Accepted → LooksAt (run_of search.new) self.new) }
        ensures failed { OnErr result (HasMadeAtMost (run_of search.old) step (run_of search.new)) }
    {
        let made = Made::of(search.machine(), step, *effect);
        let Ok(verdict) = search.advance(step, effect) else {
            return Err(AllocError);
        };
        match verdict {
            Verdict::Race { .. } => Ok(verdict),
            Verdict::Accepted => {
                self.take(search.walk(), place, step, &made)?;
                Ok(verdict)
            }
        }
    }
}
