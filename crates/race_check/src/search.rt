//! A run that is searched for races as it is made.

ghost use Rattle.std.specs.Prelude.{◌≡◌, ℕ, ◌+◌, ◌<◌, ◌↔◌, [], ◌∷◌, ◌++◌, IsTrue, IfOk, OnErr, Some, None, length};
ghost use Rattle.cell_machine.specs.Effects.{effect_in};
ghost use Rattle.race_check.specs.Races.{IsFirst, IsVerdict, RaceBy, TellsLatest};
ghost use Rattle.run_walk.specs.Ordered.{IsOrdered};
ghost use Rattle.run_walk.specs.Walks.{IsLast, Stands, walked};
ghost use Rattle.race_check.specs.Walks.{RaceIn};
ghost use Rattle.race_check.specs.Searches.{HasMadeAtMost, IsClear, Keeps, run_of};

use crate::access::{Access, access_of, conflicts};
use crate::check::Verdict;
use crate::error::RaceError;
use crate::shadow::Shadow;
use cell_base::Step;
use cell_machine::{Effect, Machine, Setup};
use run_walk::Walk;
use std::alloc::Global;

/// Whether the step at i races with the last one that was made.
fn is_race(accesses: &[Access], i: u32, last: u32, walk: &Walk) -> bool
    requires below { i < last }
    requires inside { last < length accesses.now }
    requires last { IsLast walk.now last }
    ensures { IsTrue result ↔ RaceBy (IsOrdered (walked walk.now)) accesses.now i last }
{
    conflicts(&accesses[i as usize], &accesses[last as usize]) && !walk.before(i)
}

/// The first step that races with the last one that was made.
fn first_race(accesses: &[Access], last: u32, walk: &Walk) -> u32
    requires inside { last < length accesses.now }
    requires last { IsLast walk.now last }
    requires some { (i : ℕ) × RaceBy (IsOrdered (walked walk.now)) accesses.now i last }
    ensures { IsFirst (RaceBy (IsOrdered (walked walk.now)) accesses.now) result last }
{
    for i in 0..last {
        if is_race(accesses, i, last, walk) {
            return i;
        }
    }
    unreachable!()
}

/// A machine whose steps are searched for races as they are made.
#[derive(Drop)]
pub struct Search {
    walk: Walk,
    shadow: Shadow,
    accesses: Vec<Access>,
}

impl Search {
    /// Before the first step of a run, from a setup that has a processor, with room for what so many steps touch. Want of memory is the
    /// only refusal.
    pub fn new(alloc: Global, setup: &Setup, room: usize) -> Result<Search, RaceError>
        requires { 0 < length setup.now.entries }
        ensures run { IfOk result (λ search. run_of search ≡ record { setup = setup.now; steps = [] }) }
        ensures clear { IfOk result IsClear }
    {
        let walk = Walk::new(alloc, setup)?;
        let shadow = Shadow::new(alloc, setup.spes(), setup.lines())?;
        let accesses = Vec::with_capacity(alloc, room)?;
        Ok(Search {
            walk,
            shadow,
            accesses,
        })
    }

    /// The machine, which has made the steps so far.
    pub fn machine(&self) -> &Machine
        ensures { result.now ≡ run_of self.now }
    {
        self.walk.machine()
    }

    /// The run so far, with the order of its steps.
    pub fn walk(&self) -> &Walk
        ensures run { walked result.now ≡ run_of self.now }
        ensures stands { Keeps self.now → Stands result.now }
    {
        &self.walk
    }

    /// Makes the next step, of which the machine tells this effect, and answers the latest step that races with it, None exactly where
    /// none does. Want of memory is the only refusal: then the run is the old one, or already that with the step.
    pub fn go_on(&mut self, step: Step, effect: &Effect) -> Result<Option<u32>, RaceError>
        requires keeps { Keeps self.old }
        requires effect { effect_in (run_of self.old) step ≡ Some effect.now }
        ensures run { IfOk result (λ _. run_of self.new ≡ record (run_of self.old) { steps = (run_of self.old).steps ++ step ∷ [] }) }
        ensures latest { IfOk result (TellsLatest (RaceIn (run_of self.new)) (length (run_of self.old).steps)) }
        ensures keeps { IfOk result (λ _. Keeps self.new) }
        ensures clear { IfOk result (λ latest. IsClear self.old → latest ≡ None → IsClear self.new) }
        ensures failed { OnErr result (HasMadeAtMost (run_of self.old) step (run_of self.new)) }
    {
        let last = self.accesses.len() as u32;
        // kept before the other calls, and read where it is kept: so it is copied once
        let access = access_of(effect);
        self.accesses.push(access)?;
        self.walk.advance(step, effect)?;
        let kept = &self.accesses[last as usize];
        let latest = self.shadow.visit(kept, last, &self.walk)?;
        Ok(latest)
    }

    /// The first step that races with the last one that was made, which is this one, where one does.
    pub fn first_race(&self, last: u32) -> u32
        requires keeps { Keeps self.now }
        requires last { last + 1 ≡ length (run_of self.now).steps }
        requires some { (i : ℕ) × RaceIn (run_of self.now) i last }
        ensures { IsFirst (RaceIn (run_of self.now)) result last }
    {
        first_race(self.accesses.as_slice(), last, &self.walk)
    }

    /// Makes the next step of a run without a race, of which the machine tells this effect, and answers the verdict on the run with it.
    /// Only after `Accepted` can it be called again, `go_on` always. Want of memory is the only refusal: then the run is the old one, or
    /// already that with the step.
    pub fn advance(&mut self, step: Step, effect: &Effect) -> Result<Verdict, RaceError>
        requires clear { IsClear self.old }
        requires effect { effect_in (run_of self.old) step ≡ Some effect.now }
        ensures run { IfOk result (λ _. run_of self.new ≡ record (run_of self.old) { steps = (run_of self.old).steps ++ step ∷ [] }) }
        ensures verdict { IfOk result (IsVerdict (run_of self.new)) }
        ensures clear { IfOk result (λ v. v ≡ Verdict.Accepted → IsClear self.new) }
        ensures keeps { IfOk result (λ _. Keeps self.new) }
        ensures failed { OnErr result (HasMadeAtMost (run_of self.old) step (run_of self.new)) }
    {
        let last = self.accesses.len() as u32;
        if self.go_on(step, effect)?.is_none() {
            return Ok(Verdict::Accepted);
        }
        Ok(Verdict::Race {
            first: self.first_race(last),
            second: last,
        })
    }

    /// The machine alone.
    pub fn into_machine(self) -> Machine
        ensures { result ≡ run_of self }
    {
        self.walk.into_machine()
    }
}
