//! The changes that a step makes in other processors.

ghost use Rattle.std.specs.Prelude.{◌≡◌, ◌<◌, ◌≤◌, List, None, length, map, true};
ghost use Rattle.std.specs.List.{enumerate_from};
ghost use Rattle.cell_base.specs.Bits.{has_bit};
ghost use Rattle.cell_machine.specs.Spe.{Spe};
ghost use Rattle.cell_machine.specs.Shows.{AllTwo, ShowsSpe, IsDelivery, informed_by, lost_by};

use crate::processor::Processor;

/// A value on its way to register 1 or 2 of a processor.
#[derive(Clone, Copy)]
pub(crate) struct Delivery {
    pub(crate) spe: u8,
    pub(crate) register: u8,
    pub(crate) value: u32,
}

/// The changes that a step makes in other processors: the value it sends to a signal register, and the processors that lose their
/// reservation, as bits (processor p is bit value 2^p).
#[derive(Clone, Copy)]
pub(crate) struct RemoteChange {
    pub(crate) sent: Option<Delivery>,
    pub(crate) losers: u16,
}

impl RemoteChange {
    /// Whether no other processor changes.
    pub(crate) fn is_none(&self) -> bool
        ensures { result ≡ true → (self.now.sent ≡ None) × (self.now.losers ≡ 0) }
    {
        self.sent.is_none() && self.losers == 0
    }
}

/// Delivers a value, if one was sent. A value for a processor that doesn't exist is dropped.
fn deliver(processors: &mut [Processor], sent: Option<Delivery>)
    requires { IsDelivery sent }
    ensures informed { (spes : List Spe) → AllTwo ShowsSpe processors.old spes → AllTwo ShowsSpe processors.new (informed_by spes sent) }
    ensures none { sent ≡ None → processors.new ≡ processors.old }
{
    let Some(sent) = sent else {
        return;
    };
    if sent.spe as usize >= processors.len() {
        return;
    }
    processors[sent.spe as usize].deliver(sent.register, sent.value);
}

/// Whether this processor is in the set.
fn is_loser(losers: u16, spe: usize) -> bool
    requires { spe < 16 }
    ensures { result ≡ has_bit losers spe }
{
    (losers >> spe) & 1 == 1
}

/// Raises the lost-reservation event at these processors.
pub(crate) fn lose(processors: &mut [Processor], losers: u16)
    requires { length processors.old ≤ 16 }
    ensures lost { (spes : List Spe) → AllTwo ShowsSpe processors.old spes → AllTwo ShowsSpe processors.new (map (lost_by losers) (enumerate_from 0 spes)) }
    ensures none { losers ≡ 0 → processors.new ≡ processors.old }
{
    // nearly no store ends a reservation
    if losers == 0 {
        return;
    }
    for spe in 0..processors.len() {
        if !is_loser(losers, spe) {
            continue;
        }
        processors[spe].lose();
    }
}

/// Makes a step's changes in the other processors.
pub(crate) fn spread(processors: &mut [Processor], change: RemoteChange)
    requires many { length processors.old ≤ 16 }
    requires sent { IsDelivery change.sent }
    ensures spread { (spes : List Spe) → AllTwo ShowsSpe processors.old spes → AllTwo ShowsSpe processors.new (map (lost_by change.losers) (enumerate_from 0 (informed_by spes change.sent))) }
    ensures none { (change.sent ≡ None) × (change.losers ≡ 0) → processors.new ≡ processors.old }
{
    deliver(processors, change.sent);
    lose(processors, change.losers);
}
