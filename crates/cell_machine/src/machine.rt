//! The whole machine.

ghost use Rattle.std.specs.Prelude.{◌≡◌, ◌+◌, ◌*◌, ◌<◌, ◌≤◌, ◌↔◌, [], ◌∷◌, ◌++◌, Some, None, length, IfOk, IsOk, OnErr, is_some, IsSome, IsSomeAnd, IfSome, IfNone, All, slice_get};
ghost use Rattle.cell_base.specs.Records.{AreSteps};
ghost use Rattle.cell_base.specs.declared.steps.Step.{Step};
ghost use Rattle.cell_machine.specs.Next.{act, next};
ghost use Rattle.cell_machine.specs.Moves.{outstanding};
ghost use Rattle.cell_machine.specs.Exec.{asks};
ghost use Rattle.cell_machine.specs.Shown.{line_held_by, line_reserved_by, shown_from};
ghost use Rattle.cell_machine.specs.Choices.{queued_of};
ghost use Rattle.spu_exec.specs.Places.{IsPlace};
ghost use Rattle.spu_regs.specs.Registers.{register};
ghost use Rattle.cell_machine.specs.Opening.{Opening, opening_spes};
ghost use Rattle.cell_machine.specs.Limits.{IsOpening, shown};
ghost use Rattle.cell_machine.specs.Run.{Ran, IsRun, state_of, next_of, spe_of, picked_of, first_of, picked, allowed, is_quiet, IsEnd};
ghost use Rattle.cell_machine.specs.Actors.{MissesNone};
ghost use Rattle.cell_machine.specs.Effects.{effect_in};
ghost use Rattle.cell_machine.specs.Reaches.{HasReach, reach_in};
ghost use Rattle.cell_machine.specs.EffectLaws.{FixesOnce, LooksAlone, WritesAlone};
ghost use Rattle.cell_machine.specs.Order.{IsInOrder};
ghost use Rattle.cell_machine.specs.Lists.{ListsAreInOrder};
ghost use Rattle.cell_machine.specs.Locks.{AreLocksKept};
ghost use Rattle.cell_machine.specs.Sound.{EachByte, EffectsFit, IsSound};
ghost use Rattle.cell_machine.specs.ByteRuns.{RunsOnBytes};
ghost use Rattle.cell_machine.specs.Shows.{AllTwo, ShowsSpe};
ghost use Rattle.cell_machine.specs.Blocked.{AreBlocked};

use crate::acting::{act, act_exec, act_first, act_picked};
use crate::blocked::Blocked;
use crate::choosing::{first_step, has_atomic_step, is_quiet, nth_queued, nth_step};
use crate::effect::{Effect, Reach};
use crate::effects::{allowed_effect, effect_of};
use crate::error::MachineError;
use crate::memory::SharedMemory;
use crate::outstanding::Outstanding;
use crate::processor::Processor;
use crate::setup::{PlacedBytes, Setup};
use crate::status::{End, Refused, Status};
use cell_base::{Actor, ChannelOp, Quad, Step};
use cell_channels::Channels;
use cell_host::Host;
use cell_signals::{Events, Signals};
use local_store::LocalStore;
use mailboxes::Mailbox;
use main_memory::Memory;
use std::alloc::Global;
use std::marker::Model;
use tag_groups::Tags;

/// A machine, which stands for a run from its setup.
#[derive(Drop)]
pub struct Machine {
    setup: Setup,
    processors: Vec<Processor>,
    memory: SharedMemory,
    host: Host,
    steps: Vec<Step>,
    /// The processors that `step_as` and `step_any` needn't try.
    blocked: Blocked,
}

impl Model for Machine {
    ghost use Rattle.std.specs.Prelude.{vec_capacity};
    ghost use Rattle.cell_machine.specs.Run.{Ran};

    ghost Value = { Ran };

    ghost use Rattle.cell_machine.specs.Shows.{IsMachine};
    ghost use Rattle.cell_machine.specs.Blocked.{AreBlocked};

    ghost view = { λ a. record { setup = a.setup; steps = a.steps.items } };

    ghost invariant = { λ a. IsMachine a.setup a.steps.items (vec_capacity a.steps) a.processors.items a.memory a.host × AreBlocked a.blocked a.processors.items };
}

/// The processors at the start.
fn opening_processors(
    alloc: Global,
    entries: &[u32],
    or_modes: u32,
    placed: &[PlacedBytes],
) -> Result<Vec<Processor>, MachineError>
    requires many { length entries.now ≤ 16 }
    requires places { All IsPlace entries.now }
    requires fits { All (λ x. x.at + length x.bytes.items ≤ 262144) placed.now }
    ensures { IfOk result (λ v. (S : Opening) → S.entries ≡ entries.now → S.or_modes ≡ or_modes → S.placed ≡ shown placed.now → AllTwo ShowsSpe v.items (opening_spes S)) }
{
    let mut processors = Vec::new(alloc);
    for spe in 0..entries.len() {
        processors.push(Processor::new(alloc, spe as u8, entries[spe], or_modes, placed)?)?;
    }
    Ok(processors)
}

impl Machine {
    /// A machine at its start, with room for a whole run.
    pub fn new(alloc: Global, setup: Setup) -> Result<Machine, MachineError>
        requires { 0 < length setup.entries }
        ensures { IfOk result (λ m. m ≡ record { setup = setup; steps = [] }) }
    {
        let processors = opening_processors(alloc, &setup.entries, setup.or_modes, &setup.placed)?;
        let spes = setup.entries.len() as u8;
        let memory = SharedMemory::new(alloc, setup.lines, spes, &setup.memory)?;
        let host = Host::new(alloc, &setup.actions)?;
        let steps = Vec::with_capacity(alloc, setup.budget as usize)?;
        let blocked = Blocked::new();
        Ok(Machine {
            setup,
            processors,
            memory,
            host,
            steps,
            blocked,
        })
    }

    /// Makes a step and answers its place in the record, counted from 0. `Spent` where the record has as many steps as the
    /// budget, else `NotAllowed` where the machine doesn't allow it; then nothing changes. It takes no memory.
    pub fn step(&mut self, s: Step) -> Result<u32, Refused>
        ensures made { IfOk result (λ at. (at ≡ length self.old.steps) × (self.new ≡ record self.old { steps = self.old.steps ++ s ∷ [] })) }
        ensures spent { (result ≡ Err Refused.Spent) ↔ (length self.old.steps ≡ self.old.setup.budget) }
        ensures allowed { IsOk result ↔ IsSome (next_of self.old s) }
        ensures err { OnErr result (self.new ≡ self.old) }
    {
        let at = self.steps.len();
        if at >= self.setup.budget() as usize {
            return Err(Refused::Spent);
        }
        if let Step::Exec { spe } = s {
            if !act_exec(&mut self.processors, &self.memory, &mut self.blocked, spe) {
                return Err(Refused::NotAllowed);
            }
            let _ = self.steps.push(Step::Exec { spe });
            return Ok(at as u32);
        }
        if !act(
            &mut self.processors,
            &mut self.memory,
            &mut self.host,
            &mut self.blocked,
            s,
        ) {
            return Err(Refused::NotAllowed);
        }
        let _ = self.steps.push(s);
        Ok(at as u32)
    }

    /// The setup that it began with, which has its processors and is within the limits.
    pub fn setup(&self) -> &Setup
        ensures setup { result.now ≡ self.now.setup }
        ensures opening { IsOpening self.now.setup }
        ensures some { 0 < length self.now.setup.entries }
        ensures count { IsSomeAnd (state_of self.now) (λ M. length M.spes ≡ length self.now.setup.entries) }
    {
        &self.setup
    }

    /// The steps made so far, which are a run from its setup. Each step of a queued command comes after the commands that go
    /// before it are complete (CBEA, "Command ordering"), what is complete stays complete, and a command keeps its number.
    /// The elements of a list are read in their order, each after the one before it was copied and, where the list stalls behind
    /// it, that was acknowledged. A PUTLLC stores exactly where its processor's latest GETLLAR or PUTLLC was a GETLLAR of that line
    /// and no store has touched the line since. The state after them is sound: its memory, local stores and registers have their
    /// sizes, all commands, elements and actions of the script fit, and no list has more elements read than it has. What the steps
    /// read and write by their effects, done on the opening bytes alone, reads what the machine reads and leaves the machine's bytes.
    /// A record can have each of them, in its number of steps and in each number of a step.
    pub fn steps(&self) -> &[Step]
        ensures steps { result.now ≡ self.now.steps }
        ensures run { IsRun self.now.setup self.now.steps }
        ensures order { IsInOrder self.now }
        ensures lists { ListsAreInOrder self.now }
        ensures locks { AreLocksKept self.now }
        ensures recorded { AreSteps self.now.steps }
        ensures sound { IsSomeAnd (state_of self.now) (IsSound self.now.setup.lines (length self.now.steps)) }
        ensures bytes { RunsOnBytes self.now }
    {
        &self.steps
    }

    /// What a processor that is there does.
    pub fn status(&self, spe: u8) -> Status
        requires { spe < length self.now.setup.entries }
        ensures { IsSomeAnd (spe_of self.now spe) (λ P. P.status ≡ result) }
    {
        self.processors[spe as usize].status
    }

    /// The PC of a processor that is there.
    pub fn pc(&self, spe: u8) -> u32
        requires { spe < length self.now.setup.entries }
        ensures { IsSomeAnd (spe_of self.now spe) (λ P. P.pc ≡ result) }
    {
        self.processors[spe as usize].pc
    }

    /// How many queued commands are outstanding in a processor that is there.
    pub fn queued(&self, spe: u8) -> u32
        requires { spe < length self.now.setup.entries }
        ensures { IsSomeAnd (spe_of self.now spe) (λ P. result ≡ length (outstanding P)) }
    {
        self.processors[spe as usize].queued()
    }

    /// Register `r`, below 128, of a processor that is there.
    pub fn register(&self, spe: u8, r: u8) -> Quad
        requires spe { spe < length self.now.setup.entries }
        requires register { r < 128 }
        ensures { IsSomeAnd (spe_of self.now spe) (λ P. register P.registers r ≡ result) }
    {
        let processor = &self.processors[spe as usize];
        processor.registers.get(r)
    }

    /// The local store of a processor that is there.
    pub fn local(&self, spe: u8) -> &LocalStore
        requires { spe < length self.now.setup.entries }
        ensures { IsSomeAnd (spe_of self.now spe) (λ P. P.store ≡ result.now) }
    {
        let processor = &self.processors[spe as usize];
        &processor.store
    }

    /// The parameters of the next command, the atomic slot, and the unread atomic and stall statuses of a processor that is there.
    pub fn channels(&self, spe: u8) -> &Channels
        requires { spe < length self.now.setup.entries }
        ensures { IsSomeAnd (spe_of self.now spe) (λ P. P.channels ≡ result.now) }
    {
        let processor = &self.processors[spe as usize];
        &processor.channels
    }

    /// The mask, the pending request and the unread status of its tag groups.
    pub fn tags(&self, spe: u8) -> &Tags
        requires { spe < length self.now.setup.entries }
        ensures { IsSomeAnd (spe_of self.now spe) (λ P. P.tags ≡ result.now) }
    {
        let processor = &self.processors[spe as usize];
        &processor.tags
    }

    /// Its signal registers.
    pub fn signals(&self, spe: u8) -> &Signals
        requires { spe < length self.now.setup.entries }
        ensures { IsSomeAnd (spe_of self.now spe) (λ P. P.signals ≡ result.now) }
    {
        let processor = &self.processors[spe as usize];
        &processor.signals
    }

    /// Its pending events, and their mask.
    pub fn events(&self, spe: u8) -> &Events
        requires { spe < length self.now.setup.entries }
        ensures { IsSomeAnd (spe_of self.now spe) (λ P. P.events ≡ result.now) }
    {
        let processor = &self.processors[spe as usize];
        &processor.events
    }

    /// Its inbound mailbox.
    pub fn inbound(&self, spe: u8) -> &Mailbox<4>
        requires { spe < length self.now.setup.entries }
        ensures { IsSomeAnd (spe_of self.now spe) (λ P. P.inbound ≡ result.now) }
    {
        let processor = &self.processors[spe as usize];
        &processor.inbound
    }

    /// Its outbound mailbox.
    pub fn outbound(&self, spe: u8) -> &Mailbox<1>
        requires { spe < length self.now.setup.entries }
        ensures { IsSomeAnd (spe_of self.now spe) (λ P. P.outbound ≡ result.now) }
    {
        let processor = &self.processors[spe as usize];
        &processor.outbound
    }

    /// Its outbound interrupt mailbox.
    pub fn interrupt(&self, spe: u8) -> &Mailbox<1>
        requires { spe < length self.now.setup.entries }
        ensures { IsSomeAnd (spe_of self.now spe) (λ P. P.interrupt ≡ result.now) }
    {
        let processor = &self.processors[spe as usize];
        &processor.interrupt
    }

    /// The line of main memory that a processor that is there holds: it reserved that last, and no store has touched it since.
    pub fn line_held(&self, spe: u8) -> Option<u32>
        requires { spe < length self.now.setup.entries }
        ensures { IsSomeAnd (state_of self.now) (λ M. IsSomeAnd (slice_get M.spes spe) (λ P. result ≡ line_held_by M.memory P)) }
    {
        self.memory.locks.line_held(spe)
    }

    /// The line of main memory that a processor that is there reserved last, held still or lost. None comes exactly where it reserved
    /// none, or a PUTLLC gave that up.
    pub fn line_reserved(&self, spe: u8) -> Option<u32>
        requires { spe < length self.now.setup.entries }
        ensures { IsSomeAnd (spe_of self.now spe) (λ P. result ≡ line_reserved_by P) }
    {
        self.memory.locks.line_reserved(spe)
    }

    /// The first outstanding command, of at least this number, of a processor that is there, and how far it has come.
    pub fn outstanding_from(&self, spe: u8, number: u32) -> Option<Outstanding>
        requires { spe < length self.now.setup.entries }
        ensures { IsSomeAnd (spe_of self.now spe) (λ P. result ≡ shown_from P number) }
    {
        self.processors[spe as usize].outstanding_from(number)
    }

    /// What the next instruction of a processor that is there asks of a channel, whether it is allowed or not.
    pub fn asks(&self, spe: u8) -> Option<ChannelOp>
        requires { spe < length self.now.setup.entries }
        ensures { IsSomeAnd (spe_of self.now spe) (λ P. result ≡ asks P) }
    {
        self.processors[spe as usize].asks()
    }

    /// What the next instruction of a processor that is there uses: `Other` also if none is allowed.
    pub fn reach(&self, spe: u8) -> Reach
        requires { spe < length self.now.setup.entries }
        ensures reach { result ≡ reach_in self.now spe }
        ensures has { HasReach result self.now spe }
    {
        if self.steps.len() >= self.setup.budget() as usize {
            return Reach::Other;
        }
        self.processors[spe as usize].reach()
    }

    /// The number of the outstanding command at an index of the queue of a processor that is there, counted from 0. None comes exactly
    /// behind the last one.
    pub fn queued_number(&self, spe: u8, index: usize) -> Option<u32>
        requires { spe < length self.now.setup.entries }
        ensures { IsSomeAnd (spe_of self.now spe) (λ P. result ≡ slice_get (outstanding P) index) }
    {
        self.processors[spe as usize].queued_number(index)
    }

    /// The main memory.
    pub fn memory(&self) -> &Memory
        ensures memory { IsSomeAnd (state_of self.now) (λ M. M.memory.bytes ≡ result.now) }
        ensures long { length result.now ≡ 128 * self.now.setup.lines }
    {
        &self.memory.bytes
    }

    /// The host: its script, how many of the actions were done, and the values that these took.
    pub fn host(&self) -> &Host
        ensures host { IsSomeAnd (state_of self.now) (λ M. M.host ≡ result.now) }
        ensures script { result.now.script ≡ self.now.setup.actions }
    {
        &self.host
    }

    /// All registers of a processor that is there, in the order of their numbers.
    pub fn registers(&self, spe: u8) -> &[Quad]
        requires { spe < length self.now.setup.entries }
        ensures all { IsSomeAnd (spe_of self.now spe) (λ P. P.registers ≡ result.now) }
        ensures count { length result.now ≡ 128 }
    {
        let processor = &self.processors[spe as usize];
        processor.registers.quads()
    }

    /// The allowed step of an actor at place `choice` modulo the number of its allowed steps, in their order.
    /// None where it has none, or the budget is spent. Each step that is allowed is among those of its actor, so that some choice picks it.
    pub fn pick(&self, actor: Actor, choice: u64) -> Option<Step>
        ensures picked { result ≡ picked_of self.now actor choice }
        ensures allowed { IfSome result (λ s. IsSome (next_of self.now s)) }
        ensures complete { IsSomeAnd (state_of self.now) MissesNone }
    {
        if self.steps.len() >= self.setup.budget() as usize {
            return None;
        }
        nth_step(&self.processors, &self.host, actor, choice)
    }

    /// Of the outstanding command at index `index` of a processor's queue, in the order of their numbers, the allowed step at place `choice` modulo the number of its
    /// allowed steps. None where it has none, no command stands at the index, or the budget is spent.
    pub fn pick_queued(&self, spe: u8, index: usize, choice: u64) -> Option<Step>
        ensures picked { result ≡ queued_of self.now spe index choice }
        ensures allowed { IfSome result (λ s. IsSome (next_of self.now s)) }
    {
        if self.steps.len() >= self.setup.budget() as usize {
            return None;
        }
        nth_queued(&self.processors, spe, index, choice)
    }

    /// Whether the atomic command in a processor's slot can be done: false where the slot is free, the flow controller is at fault, or the budget is spent.
    pub fn has_atomic_step(&self, spe: u8) -> bool
        ensures { result ≡ is_some (next_of self.now (Step.Atomic spe)) }
    {
        if self.steps.len() >= self.setup.budget() as usize {
            return false;
        }
        has_atomic_step(&self.processors, spe)
    }

    /// The first allowed step of the first actor that has one: the processors, their flow controllers, the host.
    /// None where no step is allowed, or the budget is spent.
    pub fn any_step(&self) -> Option<Step>
        ensures first { result ≡ first_of self.now }
        ensures allowed { IfSome result (λ s. IsSome (next_of self.now s)) }
        ensures none { IfNone result ((s : Step) → next_of self.now s ≡ None) }
    {
        if self.steps.len() >= self.setup.budget() as usize {
            return None;
        }
        first_step(&self.processors, &self.host)
    }

    /// Makes the step that `pick` answers, and answers it. None exactly where `pick` answers None; then nothing changes.
    /// It takes no memory.
    pub fn step_as(&mut self, actor: Actor, choice: u64) -> Option<Step>
        ensures picked { result ≡ picked_of self.old actor choice }
        ensures made { IfSome result (λ s. self.new ≡ record self.old { steps = self.old.steps ++ s ∷ [] }) }
        ensures allowed { IfSome result (λ s. IsSome (next_of self.old s)) }
        ensures complete { IsSomeAnd (state_of self.old) MissesNone }
        ensures none { IfNone result (self.new ≡ self.old) }
    {
        if self.steps.len() >= self.setup.budget() as usize {
            return None;
        }
        let step = act_picked(
            &mut self.processors,
            &mut self.memory,
            &mut self.host,
            &mut self.blocked,
            actor,
            choice,
        )?;
        let _ = self.steps.push(step);
        Some(step)
    }

    /// Makes the step that `any_step` answers, and answers it. None exactly where `any_step` answers None; then nothing changes.
    /// It takes no memory.
    pub fn step_any(&mut self) -> Option<Step>
        ensures first { result ≡ first_of self.old }
        ensures made { IfSome result (λ s. self.new ≡ record self.old { steps = self.old.steps ++ s ∷ [] }) }
        ensures allowed { IfSome result (λ s. IsSome (next_of self.old s)) }
        ensures none { IfNone result ((s : Step) → next_of self.old s ≡ None) }
        ensures same { IfNone result (self.new ≡ self.old) }
    {
        if self.steps.len() >= self.setup.budget() as usize {
            return None;
        }
        let step = act_first(
            &mut self.processors,
            &mut self.memory,
            &mut self.host,
            &mut self.blocked,
        )?;
        let _ = self.steps.push(step);
        Some(step)
    }

    /// What a step would do, None exactly where `step` would refuse it: the bytes that it fetches, reads and writes, what it tells, and
    /// whether a tag status is fixed at its end. Nothing changes, and it takes no memory.
    ///
    /// After the step all bytes of all places are as before, but those that the effect writes, which the step has of its own or copies
    /// from those that it reads. Where only bytes differ that it neither fetches nor reads, the step is allowed as well, has the same
    /// effect and writes the same bytes. In a sound state the spans lie in their places. A tag status is fixed exactly where the
    /// processor has a request after what the step does, and none at the step's end.
    pub fn effect(&self, s: Step) -> Option<Effect>
        ensures effect { result ≡ effect_in self.now s }
        ensures allowed { IsSome result ↔ IsSome (next_of self.now s) }
        ensures writes { WritesAlone }
        ensures looks { LooksAlone }
        ensures fits { EffectsFit }
        ensures bytes { EachByte }
        ensures fixed { FixesOnce }
    {
        if self.steps.len() >= self.setup.budget() as usize {
            return None;
        }
        effect_of(&self.processors, &self.memory, &self.host, s)
    }

    /// The effect of a step, which is allowed.
    pub fn allowed_effect(&self, s: Step) -> Effect
        requires { IsSome (next_of self.now s) }
        ensures { effect_in self.now s ≡ Some result }
    {
        allowed_effect(&self.processors, &self.memory, &self.host, s)
    }

    /// How the run ended; None where a step is allowed under the budget.
    pub fn end(&self) -> Option<End>
        ensures { IsSomeAnd (state_of self.now) (λ M. IsEnd M self.now.setup.budget result) }
    {
        if first_step(&self.processors, &self.host).is_some() {
            if self.steps.len() >= self.setup.budget() as usize {
                Some(End::Budget)
            } else {
                None
            }
        } else if is_quiet(&self.processors) {
            Some(End::AllStopped)
        } else {
            Some(End::Stuck)
        }
    }
}
