//! A run of a seed as it is made.

ghost use Rattle.std.specs.Prelude.{◌≡◌, ℕ, ◌+◌, ◌^◌, ◌<◌, [], length, Some, IfOk, IsSome, OnOk};
ghost use Rattle.cell_machine.specs.Effects.{effect_in};
ghost use Rattle.cell_machine.specs.Run.{next_of};
ghost use Rattle.race_check.specs.Races.{IsLatest};
ghost use Rattle.race_check.specs.Walks.{RaceIn};
ghost use Rattle.cell_hunt.specs.Endings.{HasNote};
ghost use Rattle.cell_hunt.specs.Origins.{Knows};
ghost use Rattle.cell_hunt.specs.Runs.{with_step};

use crate::ending::Ended;
use crate::error::HuntError;
use crate::locals::is_ended;
use crate::origins::Origins;
use crate::racing::Racing;
use crate::touched::Touched;
use cell_base::Step;
use cell_machine::{Effect, Note, Setup};
use lost_values::Losses;
use race_check::Search;
use std::alloc::Global;
use unwritten_reads::UnwrittenReads;

/// A run as it is made, and what is known of it so far.
#[derive(Drop)]
pub struct SoFar {
    pub search: Search,
    pub origins: Origins,
    pub least: Option<Racing>,
    pub races: Vec<Racing>,
    pub touched: Touched,
    pub endings: Vec<Ended>,
    pub losses: Losses,
    pub unwritten_reads: UnwrittenReads,
}

impl SoFar {
    ghost use Rattle.cell_hunt.specs.SoFar.{AreEndingsTo, IsLeastTo, IsSearchedTo, made_by};

    /// Before the first step of a run.
    pub fn new(alloc: Global, setup: &Setup) -> Result<SoFar, HuntError>
        requires { 0 < length setup.now.entries }
        ensures run { IfOk result (λ so_far. made_by so_far ≡ record { setup = setup.now; steps = [] }) }
        ensures searched { IfOk result (IsSearchedTo 0) }
    {
        let search = Search::new(alloc, setup, 0)?;
        let unwritten_reads = UnwrittenReads::new(alloc, setup)?;
        Ok(SoFar {
            search,
            origins: Origins::new(alloc),
            least: None,
            races: Vec::new(alloc),
            touched: Touched::new(alloc, setup.lines()),
            endings: Vec::new(alloc),
            losses: Losses::new(alloc),
            unwritten_reads,
        })
    }

    /// Makes sure that the least race is known, where the last step, which is at `second`, races with an earlier one.
    fn add_least(&mut self, second: u32)
        requires searched { IsSearchedTo second self.old }
        requires last { second + 1 ≡ length (made_by self.old).steps }
        requires some { (i : ℕ) × RaceIn (made_by self.old) i second }
        ensures rest { self.new ≡ record self.old { least = self.new.least } }
        ensures least { IsLeastTo (second + 1) (made_by self.new) self.new.least }
    {
        if self.least.is_some() {
            return;
        }
        let first = self.search.first_race(second);
        let sites = self.origins.sites(self.search.machine(), first, second);
        self.least = Some(Racing {
            first,
            second,
            sites,
        });
    }

    /// Takes in that the last step, which is at `second`, races with earlier ones, of which `latest` is the latest.
    fn add_race(&mut self, latest: u32, second: u32) -> Result<(), HuntError>
        requires searched { IsSearchedTo second self.old }
        requires last { second + 1 ≡ length (made_by self.old).steps }
        requires latest { IsLatest (RaceIn (made_by self.old)) latest second }
        ensures run { OnOk result (made_by self.new ≡ made_by self.old) }
        ensures searched { OnOk result (IsSearchedTo (second + 1) self.new) }
    {
        self.add_least(second);
        let sites = self.origins.sites(self.search.machine(), latest, second);
        self.races.push(Racing {
            first: latest,
            second,
            sites,
        })?;
        Ok(())
    }

    /// Takes in the last step, which is at this place and has this note, if a processor ends with it.
    fn add_ending(&mut self, note: Note, place: u32) -> Result<(), HuntError>
        requires knows { Knows (made_by self.old) self.old.origins }
        requires last { place + 1 ≡ length (made_by self.old).steps }
        requires note { HasNote (made_by self.old) place note }
        requires endings { AreEndingsTo place (made_by self.old) self.old.endings.items }
        ensures rest { OnOk result (self.new ≡ record self.old { endings = self.new.endings }) }
        ensures endings { OnOk result (AreEndingsTo (place + 1) (made_by self.old) self.new.endings.items) }
    {
        if is_ended(note) {
            let site = self.origins.site(self.search.machine(), place);
            self.endings.push(Ended { step: place, site })?;
        }
        Ok(())
    }

    /// Makes the next step of the run, which is the one at this place and has this effect.
    pub fn advance(&mut self, step: Step, effect: &Effect, place: u32) -> Result<(), HuntError>
        requires allowed { IsSome (next_of (made_by self.old) step) }
        requires effect { effect_in (made_by self.old) step ≡ Some effect.now }
        requires searched { IsSearchedTo place self.old }
        requires place { length (made_by self.old).steps ≡ place }
        requires few { place + 1 < 2 ^ 32 }
        ensures run { OnOk result (made_by self.new ≡ with_step (made_by self.old) step) }
        ensures searched { OnOk result (IsSearchedTo (place + 1) self.new) }
    {
        self.origins
            .add(self.search.machine(), step, effect, place)?;
        self.touched.add(step, effect)?;
        self.losses.add(self.search.machine(), step, effect, place)?;
        self.unwritten_reads
            .add(self.search.machine(), step, effect, place)?;
        let latest = self.search.go_on(step, effect)?;
        self.add_ending(effect.note, place)?;
        let Some(latest) = latest else {
            return Ok(());
        };
        self.add_race(latest, place)?;
        Ok(())
    }
}
