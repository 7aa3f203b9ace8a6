//! The order of a run, step by step.

ghost use Rattle.std.specs.Prelude.{Some, ◌≡◌, ◌+◌, ◌-◌, ◌*◌, ◌<◌, ◌≤◌, ◌^◌, ◌↔◌, ◌++◌, ◌∷◌, [], IfOk, IfSome, IsTrue, length};
ghost use Rattle.race_order.specs.Trace.{Trace};
ghost use Rattle.race_order.specs.Rules.{Rule, Ordered};
ghost use Rattle.race_order.specs.StatusRules.{Rule as RuleByStatus};
ghost use Rattle.race_order.specs.Stamps.{event_of};
ghost use Rattle.race_order.specs.Bringing.{IsPlain};
ghost use Rattle.race_order.specs.Orderly.{MayCome};
ghost use Rattle.race_order.specs.Premises.{QueueMay};
ghost use Rattle.race_order.specs.Standing.{StandsFor, known_in};
ghost use Rattle.race_order.specs.Tables.{AreOf};
ghost use Rattle.race_order.specs.OrderedRuns.{OnTrace, StandsForRun};
ghost use Rattle.race_order.specs.RunLaws.{TracesTell, TracesAreOrderly};
ghost use Rattle.cell_machine.specs.Run.{Ran};
ghost use Rattle.cell_machine.specs.Effects.{effect_in};

use crate::applying::take_in;
use crate::boxes::Boxes;
use crate::brought::Brought;
use crate::error::OrderError;
use crate::gathering::fill;
use crate::lives::{Live, is_only_step, moves_line, no_lives};
use crate::plain::plain_of;
use crate::sets::Sets;
use crate::stamps::{fact, name};
use cell_base::Step;
use cell_machine::{Effect, Setup};
use order_sets::{At, Known};
use std::alloc::Global;

#[derive(Drop)]
pub struct Orderer {
    spes: u8,
    sets: Sets,
    boxes: Boxes,
    names: Vec<At>,
    // the outstanding commands of each processor
    lives: Vec<Vec<Live>>,
    // the processor of the last step, where that was an instruction that tells nothing: the set of its instructions has what is known before it
    own: Option<u8>,
    // else what is known before the last step
    last: Known,
    // a set by way of which sets go into one another
    spare: Known,
}

impl Orderer {
    /// The orderer of the empty trace of `spes` processors, with room for the names of so many steps.
    fn of_processors(alloc: Global, spes: u8, room: u32) -> Result<Orderer, OrderError>
        requires { (1 ≤ spes) × (spes ≤ 16) }
        ensures stands { IfOk result (λ orderer. StandsFor orderer []) }
        ensures spes { IfOk result (λ orderer. orderer.spes ≡ spes) }
    {
        Ok(Orderer {
            spes,
            sets: Sets::new(alloc, spes)?,
            boxes: Boxes::new(alloc, spes)?,
            names: Vec::with_capacity(alloc, room as usize)?,
            lives: no_lives(alloc, spes)?,
            own: None,
            last: Known::new(alloc, spes)?,
            spare: Known::new(alloc, spes)?,
        })
    }

    /// Takes any next step of a trace, and answers its place. The effect comes by value, so that it is copied here alone, and not for a plain instruction.
    fn take_any(&mut self, step: Step, effect: Effect) -> Result<u32, OrderError>
        ghost trace: { Trace }
        requires stands { StandsFor self.old trace }
        requires may { MayCome self.old.spes trace (event_of step effect) }
        requires queue { QueueMay trace (event_of step effect) }
        requires room { length trace + 1 < 2 ^ 32 }
        ensures stands { IfOk result (λ place. StandsFor self.new (trace ++ (event_of step effect ∷ []))) }
        ensures place { IfOk result (λ place. place ≡ length trace) }
        ensures spes { self.new.spes ≡ self.old.spes }
    {
        let place = self.names.len() as u32;
        let at = name(self.spes, place, step, &effect);
        let whole = moves_line(&self.lives, step);
        fill(
            &mut self.last,
            &self.sets,
            &self.boxes,
            whole,
            step,
            &effect,
        )?;
        let brought = Brought {
            spes: self.spes,
            step,
            effect: &effect,
            whole,
            known: &self.last,
            fact: fact(self.spes, at, step, is_only_step(&self.lives, step)),
        };
        take_in(
            &mut self.sets,
            &mut self.spare,
            &mut self.lives,
            &self.boxes,
            &brought,
        )?;
        self.boxes.note(effect.note);
        self.names.push(at)?;
        self.own = None;
        Ok(place)
    }

    /// Takes an instruction that tells nothing: it goes into the set of its processor's instructions, which has what is known before it.
    fn take_plain(&mut self, spe: u8, step: Step, effect: &Effect) -> Result<u32, OrderError>
        ghost trace: { Trace }
        requires plain { IsPlain step effect.now spe }
        requires stands { StandsFor self.old trace }
        requires may { MayCome self.old.spes trace (event_of step effect.now) }
        requires queue { QueueMay trace (event_of step effect.now) }
        requires room { length trace + 1 < 2 ^ 32 }
        ensures stands { IfOk result (λ place. StandsFor self.new (trace ++ (event_of step effect.now ∷ []))) }
        ensures place { IfOk result (λ place. place ≡ length trace) }
        ensures spes { self.new.spes ≡ self.old.spes }
    {
        let place = self.names.len() as u32;
        let at = name(self.spes, place, step, effect);
        self.sets.extend_own(spe, place)?;
        self.names.push(at)?;
        self.own = Some(spe);
        Ok(place)
    }

    /// Takes the next step of a trace, and answers its place.
    fn take(&mut self, step: Step, effect: Effect) -> Result<u32, OrderError>
        ghost trace: { Trace }
        requires stands { StandsFor self.old trace }
        requires may { MayCome self.old.spes trace (event_of step effect) }
        requires queue { QueueMay trace (event_of step effect) }
        requires room { length trace + 1 < 2 ^ 32 }
        ensures stands { IfOk result (λ place. StandsFor self.new (trace ++ (event_of step effect ∷ []))) }
        ensures place { IfOk result (λ place. place ≡ length trace) }
        ensures spes { self.new.spes ≡ self.old.spes }
    {
        match plain_of(&step, &effect) {
            Some(spe) => self.take_plain(spe, step, &effect),
            None => self.take_any(step, effect),
        }
    }

    /// Whether the step is known before the last one.
    fn knows(&self, at: &At) -> bool
        requires sets { AreOf (3 * self.now.spes + 1) self.now.sets }
        requires own { IfSome self.now.own (λ spe. spe < self.now.spes) }
        requires last { self.now.last.chains ≡ 3 * self.now.spes + 1 }
        requires chain { at.now.chain < 3 * self.now.spes + 1 }
        ensures { result ≡ known_in self.now.own self.now.sets self.now.last at.now }
    {
        match self.own {
            Some(spe) => self.sets.has_own(spe, at),
            None => self.last.has(*at),
        }
    }

    /// Whether step i of a trace is ordered before the last one.
    fn is_before(&self, i: u32) -> bool
        ghost trace: { Trace }
        requires stands { StandsFor self.now trace }
        requires below { i + 1 < length trace }
        ensures { IsTrue result ↔ Ordered RuleByStatus trace i (length trace - 1) }
    {
        self.knows(&self.names[i as usize])
    }

    /// The orderer of the empty run from a setup, which has a processor.
    pub fn new(alloc: Global, setup: &Setup) -> Result<Orderer, OrderError>
        requires { 0 < length setup.now.entries }
        ensures stands { IfOk result (λ orderer. StandsForRun orderer (record { setup = setup.now; steps = [] })) }
    {
        let spes = setup.spes();
        let budget = setup.budget();
        Orderer::of_processors(alloc, spes, budget)
    }

    /// Takes the next step of the run with its effect, and answers its place, counted from 0. The run with this step is one too.
    /// After want of memory the orderer stands for no run, and is only dropped.
    ///
    /// Of every run the steps tell by their effects what the order looks at: how far each queued command has come, as the machine
    /// has it, and what a mailbox, a slot and a tag status hold.
    pub fn advance(&mut self, step: Step, effect: Effect) -> Result<u32, OrderError>
        ghost m: { Ran }
        requires stands { StandsForRun self.old m }
        requires next { effect_in m step ≡ Some effect }
        ensures stands { IfOk result (λ place. StandsForRun self.new (record m { steps = m.steps ++ step ∷ [] })) }
        ensures place { IfOk result (λ place. place ≡ length m.steps) }
        ensures tells { TracesTell }
        ensures orderly { TracesAreOrderly }
    {
        self.take(step, effect)
    }

    /// Whether step `i`, counted from 0, is ordered before the last one.
    pub fn before(&self, i: u32) -> bool
        ghost m: { Ran }
        requires stands { StandsForRun self.now m }
        requires below { i + 1 < length m.steps }
        ensures ordered { OnTrace m (λ trace. IsTrue result ↔ Ordered Rule trace i (length m.steps - 1)) }
    {
        self.is_before(i)
    }
}
