//! The host script's actions.

ghost use Rattle.std.specs.Prelude.{◌≡◌, ◌≤◌, ◌<◌, length, Option, is_some, true, Some, None, IfSome, IfNone, IsSomeAnd, MatchBool};
ghost use Rattle.std.specs.Bool.{OnFalse};
ghost use Rattle.cell_host.specs.Script.{Progress, takes};
ghost use Rattle.lock_lines.specs.Stands.{HasSameSize};
ghost use Rattle.cell_machine.specs.Spe.{Spe};
ghost use Rattle.cell_machine.specs.State.{State};
ghost use Rattle.cell_machine.specs.Hosts.{sent, taken, taken_interrupt, awaited, given, at_spe, acted, host};
ghost use Rattle.cell_machine.specs.Limits.{IsRegister};
ghost use Rattle.cell_machine.specs.Next.{closed_in};
ghost use Rattle.cell_machine.specs.Signals.{with_signal};
ghost use Rattle.cell_base.specs.declared.steps.Step.{Step};
ghost use Rattle.cell_machine.specs.Shows.{Shows, Gives, Leaves, Fits, IsFit, IsStill, AreSettled, NamesRegister};

use crate::events::{INBOUND_FILLED, INTERRUPT_EMPTY, OUTBOUND_EMPTY};
use crate::memory::SharedMemory;
use crate::processor::Processor;
use crate::signals::lose;
use cell_host::{Host, HostAction};

/// How many values the inbound mailbox takes.
const INBOUND_PLACES: u32 = 4;

/// What an action took, if it is one that takes a value.
#[derive(Clone, Copy)]
pub(crate) struct Taken {
    pub(crate) value: Option<u32>,
}

impl Processor {
    ghost use Rattle.cell_machine.specs.Shows.{ShowsSpe};

    /// Takes a value into the inbound mailbox, if it has a free place.
    fn receive(&mut self, value: u32) -> Option<Taken>
        ensures made { (P : Spe) → ShowsSpe self.old P → IsStill P → Gives P result (sent value P) self.new }
        ensures refused { IfNone result (self.new ≡ self.old) }
        ensures takes { IfSome result (λ t. t.value ≡ None) }
    {
        let is_first = self.inbound.len() == 0;
        if self.inbound.put(value).is_err() {
            return None;
        }
        self.raise_if(is_first, INBOUND_FILLED);
        Some(Taken { value: None })
    }

    /// Gives the oldest value of the outbound mailbox, if there is one.
    fn give_outbound(&mut self) -> Option<Taken>
        ensures made { (P : Spe) → ShowsSpe self.old P → IsStill P → Gives P result (taken P) self.new }
        ensures refused { IfNone result (self.new ≡ self.old) }
        ensures takes { IfSome result (λ t. is_some t.value ≡ true) }
    {
        let Some(value) = self.outbound.take() else {
            return None;
        };
        let is_empty = self.outbound.len() == 0;
        self.raise_if(is_empty, OUTBOUND_EMPTY);
        Some(Taken { value: Some(value) })
    }

    /// Gives the oldest value of the outbound interrupt mailbox, if there is one.
    fn give_interrupt(&mut self) -> Option<Taken>
        ensures made { (P : Spe) → ShowsSpe self.old P → IsStill P → Gives P result (taken_interrupt P) self.new }
        ensures refused { IfNone result (self.new ≡ self.old) }
        ensures takes { IfSome result (λ t. is_some t.value ≡ true) }
    {
        let Some(value) = self.interrupt.take() else {
            return None;
        };
        let is_empty = self.interrupt.len() == 0;
        self.raise_if(is_empty, INTERRUPT_EMPTY);
        Some(Taken { value: Some(value) })
    }

    /// Takes a value into a signal register.
    fn receive_signal(&mut self, register: u8, value: u32) -> Option<Taken>
        requires { IsRegister register }
        ensures made { (P : Spe) → ShowsSpe self.old P → IsStill P → Gives P result (Some (record { spe = with_signal P register value; took = None })) self.new }
        ensures refused { IfNone result (self.new ≡ self.old) }
        ensures takes { IfSome result (λ t. t.value ≡ None) }
    {
        self.deliver(register, value);
        Some(Taken { value: None })
    }

    /// Lets the host go on, if the processor doesn't run.
    fn let_go(&self) -> Option<Taken>
        ensures made { (P : Spe) → ShowsSpe self.now P → IsStill P → Gives P result (awaited P) self.now }
        ensures takes { IfSome result (λ t. t.value ≡ None) }
    {
        if self.is_running() {
            return None;
        }
        Some(Taken { value: None })
    }

    /// Does what an action asks of its processor, with its events, or leaves it as it is where that isn't allowed.
    fn answer(&mut self, action: HostAction) -> Option<Taken>
        requires { NamesRegister action }
        ensures made { (P : Spe) → ShowsSpe self.old P → IsStill P → Gives P result (given action P) self.new }
        ensures refused { IfNone result (self.new ≡ self.old) }
        ensures takes { IfSome result (λ t. is_some t.value ≡ takes action) }
    {
        match action {
            HostAction::Send { value, .. } => self.receive(value),
            HostAction::Take { .. } => self.give_outbound(),
            HostAction::TakeIntr { .. } => self.give_interrupt(),
            HostAction::Store { .. } => Some(Taken { value: None }),
            HostAction::Await { .. } => self.let_go(),
            HostAction::Signal {
                register,
                value,
                ..
            } => self.receive_signal(register, value),
        }
    }

    /// Whether it lets the host do an action.
    fn lets(&self, action: HostAction) -> bool
        ensures { (P : Spe) → ShowsSpe self.now P → result ≡ is_some (given action P) }
    {
        match action {
            HostAction::Send { .. } => self.inbound.len() < INBOUND_PLACES,
            HostAction::Take { .. } => self.outbound.len() > 0,
            HostAction::TakeIntr { .. } => self.interrupt.len() > 0,
            HostAction::Store { .. } => true,
            HostAction::Await { .. } => !self.is_running(),
            HostAction::Signal { .. } => true,
        }
    }
}

/// Does what an action asks of processor `spe`, or leaves all as it is where that isn't allowed.
fn answer_at(processors: &mut [Processor], spe: u8, action: HostAction) -> Option<Taken>
    requires many { length processors.old ≤ 16 }
    requires register { NamesRegister action }
    ensures made { (memory : SharedMemory) (host : Progress) (M : State) → Shows processors.old memory host M → AreSettled M.spes → Leaves M result (at_spe M spe (given action)) processors.new memory host }
    ensures refused { IfNone result (processors.new ≡ processors.old) }
    ensures takes { IfSome result (λ t. is_some t.value ≡ takes action) }
{
    if spe as usize >= processors.len() {
        return None;
    }
    processors[spe as usize].answer(action)
}

/// Whether processor `spe` lets the host do an action.
fn lets_at(processors: &[Processor], spe: u8, action: HostAction) -> bool
    ensures { (memory : SharedMemory) (host : Progress) (M : State) → Shows processors.now memory host M → result ≡ is_some (at_spe M spe (given action)) }
{
    if spe as usize >= processors.len() {
        return false;
    }
    let processor = &processors[spe as usize];
    processor.lets(action)
}

/// Does an action, or leaves all as it is where it isn't allowed.
fn perform(
    processors: &mut [Processor],
    memory: &mut SharedMemory,
    action: HostAction,
) -> Option<Taken>
    requires many { length processors.old ≤ 16 }
    requires fits { Fits (length processors.old) memory.old action }
    ensures made { (host : Progress) (M : State) → Shows processors.old memory.old host M → AreSettled M.spes → Leaves M result (acted M action) processors.new memory.new host }
    ensures refused { IfNone result ((processors.new ≡ processors.old) × (memory.new ≡ memory.old)) }
    ensures takes { IfSome result (λ t. is_some t.value ≡ takes action) }
    ensures size { HasSameSize memory.old.locks memory.new.locks }
{
    match action {
        HostAction::Send { spe, .. } => answer_at(processors, spe, action),
        HostAction::Take { spe } => answer_at(processors, spe, action),
        HostAction::TakeIntr { spe } => answer_at(processors, spe, action),
        HostAction::Store { ea, len, bytes } => {
            let losers = memory.store(ea, &bytes[..len as usize]);
            lose(processors, losers);
            Some(Taken { value: None })
        }
        HostAction::Await { spe } => answer_at(processors, spe, action),
        HostAction::Signal { spe, .. } => answer_at(processors, spe, action),
    }
}

/// Does the next action of the script, or leaves all as it is where there is none or it isn't allowed.
pub(crate) fn act_host(
    processors: &mut [Processor],
    memory: &mut SharedMemory,
    script: &mut Host,
) -> bool
    requires many { length processors.old ≤ 16 }
    requires fit { IsFit (length processors.old) memory.old script.old }
    ensures made { (M : State) → Shows processors.old memory.old script.old M → AreSettled M.spes → MatchBool result (IsSomeAnd (host M) (λ N. Shows processors.new memory.new script.new (closed_in M Step.Host N))) (host M ≡ None) }
    ensures refused { OnFalse result ((processors.new ≡ processors.old) × (memory.new ≡ memory.old) × (script.new ≡ script.old)) }
    ensures size { HasSameSize memory.old.locks memory.new.locks }
    ensures script { script.new.script ≡ script.old.script }
{
    let Some(action) = script.next() else {
        return false;
    };
    let Some(taken) = perform(processors, memory, action) else {
        return false;
    };
    script.advance(taken.value);
    true
}

/// Whether the next action is there and allowed.
pub(crate) fn may_act_host(processors: &[Processor], script: &Host) -> bool
    ensures { (memory : SharedMemory) (M : State) → Shows processors.now memory script.now M → result ≡ is_some (host M) }
{
    let Some(action) = script.next() else {
        return false;
    };
    match action {
        HostAction::Send { spe, .. } => lets_at(processors, spe, action),
        HostAction::Take { spe } => lets_at(processors, spe, action),
        HostAction::TakeIntr { spe } => lets_at(processors, spe, action),
        HostAction::Store { .. } => true,
        HostAction::Await { spe } => lets_at(processors, spe, action),
        HostAction::Signal { spe, .. } => lets_at(processors, spe, action),
    }
}
