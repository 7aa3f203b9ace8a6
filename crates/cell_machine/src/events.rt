//! The events that a step raises at a processor.

ghost use Rattle.std.specs.Prelude.{◌≡◌, ◌&&◌, not, if◌then◌else◌};
ghost use Rattle.cell_machine.specs.Spe.{Spe};
ghost use Rattle.cell_machine.specs.Raised.{is_queue_full, with_raised};
ghost use Rattle.cell_machine.specs.Limits.{IsRegister};
ghost use Rattle.cell_machine.specs.Shows.{load_of, event_of, informed};
ghost use Rattle.cell_machine.specs.OwnEvents.{alone, with_freed, with_stall};

use crate::processor::Processor;

/// The bits of the events (CBEA, "SPU event facility").
const RESERVATION_LOST: u32 = 0x400;

const SIGNAL_1: u32 = 0x200;

const SIGNAL_2: u32 = 0x100;

pub(crate) const OUTBOUND_EMPTY: u32 = 0x80;

pub(crate) const INTERRUPT_EMPTY: u32 = 0x40;

pub(crate) const INBOUND_FILLED: u32 = 0x10;

pub(crate) const QUEUE_FREED: u32 = 0x8;

const LIST_STALLED: u32 = 0x2;

pub(crate) const TAG_STATUS: u32 = 0x1;

/// What of a flow controller its events are about.
#[derive(Clone, Copy)]
pub(crate) struct Load {
    is_full: bool,
    has_stall: bool,
}

fn begins(before: bool, now: bool) -> bool
    ensures { result ≡ (not before && now) }
{
    !before && now
}

pub(crate) fn ceases(before: bool, now: bool) -> bool
    ensures { result ≡ (before && not now) }
{
    before && !now
}

impl Processor {
    ghost use Rattle.cell_machine.specs.Shows.{ShowsSpe};

    /// Raises an event, if it happened.
    pub(crate) fn raise_if(&mut self, happened: bool, event: u32)
        ensures { (P : Spe) → ShowsSpe self.old P → ShowsSpe self.new (with_raised P (if happened then event else 0)) }
    {
        if happened {
            self.events.raise(event);
        }
    }

    /// Whether sixteen commands are outstanding.
    pub(crate) fn is_queue_full(&self) -> bool
        ensures { (P : Spe) → ShowsSpe self.now P → result ≡ is_queue_full (alone P) }
    {
        self.commands.queue.free() == 0
    }

    /// The load of its flow controller.
    pub(crate) fn load(&self) -> Load
        ensures { (P : Spe) → ShowsSpe self.now P → result ≡ load_of P }
    {
        Load {
            is_full: self.is_queue_full(),
            has_stall: self.channels.has_stall(),
        }
    }

    /// Raises that a place of the queue came free, and that a list stalls, where it wasn't so before.
    pub(crate) fn raise_since(&mut self, before: Load)
        ensures { (P Q : Spe) → before ≡ load_of P → ShowsSpe self.old Q → ShowsSpe self.new (with_stall P (with_freed P Q)) }
    {
        let now = self.load();
        self.raise_if(ceases(before.is_full, now.is_full), QUEUE_FREED);
        self.raise_if(begins(before.has_stall, now.has_stall), LIST_STALLED);
    }

    /// Raises that its reservation is lost to a store.
    pub(crate) fn lose(&mut self)
        ensures { (P : Spe) → ShowsSpe self.old P → ShowsSpe self.new (with_raised P 0x400) }
    {
        self.events.raise(RESERVATION_LOST);
    }

    /// Takes a value into signal register 1 or 2, and raises that it is there where the register wasn't ready.
    pub(crate) fn deliver(&mut self, register: u8, value: u32)
        requires { IsRegister register }
        ensures { (P : Spe) → ShowsSpe self.old P → ShowsSpe self.new (informed P register value) }
    {
        let is_first = !self.signals.ready(register);
        self.signals.deliver(register, value);
        self.raise_if(is_first, signal_event(register));
    }
}

/// The event of a signal register.
fn signal_event(register: u8) -> u32
    requires { IsRegister register }
    ensures { result ≡ event_of register }
{
    match register {
        1 => SIGNAL_1,
        _ => SIGNAL_2,
    }
}
