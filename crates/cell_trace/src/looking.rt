//! What stands in the machine before a step and after it, of what its line tells.

ghost use Rattle.std.specs.Prelude.{◌≡◌, ◌<◌, ◌+◌, ◌%◌, length, Some};
ghost use Rattle.std.specs.Option.{option_map_or, option_and_then};
ghost use Rattle.cell_machine.specs.State.{State};
ghost use Rattle.cell_machine.specs.Spe.{Spe};
ghost use Rattle.cell_machine.specs.Run.{state_of};
ghost use Rattle.std.specs.Prelude.{slice_get};
ghost use Rattle.cell_trace.specs.Effects.{store_word, word_in, asked_in, slot_in, done_in, oldest, action_value, value_in, size_in, address_in, before_in, register_word, passed, after_of, after_in};

use cell_base::{ChannelOp, Step};
use cell_channels::Channels;
use cell_host::HostAction;
use cell_machine::{Effect, Machine};
use local_store::LocalStore;
use mfc_command::AtomicOp;

/// How many bytes a local store has.
const STORE_BYTES: u32 = 262_144;

/// How many registers a processor has.
const REGISTERS: u8 = 128;

/// The first word of an element has its size in the low 15 bits.
const ELEMENT_SIZES: u32 = 32_768;

/// What stands there before the step.
#[derive(Clone, Copy)]
pub struct Before {
    /// What its instruction asks of a channel.
    pub asked: Option<ChannelOp>,
    /// The atomic command that it does.
    pub atomic: Option<AtomicOp>,
    /// The value that a piece of a signal delivers, or with which the host acts.
    pub value: u32,
    /// The size and the effective address of a list's element that it reads.
    pub size: u32,
    pub ea: u32,
}

/// What stands there after the step, of its processor.
#[derive(Clone, Copy)]
pub struct After {
    /// What passed through the channel.
    pub passed: u32,
    /// The mask of its tag groups.
    pub mask: u32,
    /// The atomic command in its slot.
    pub slot: Option<AtomicOp>,
    /// The unread status of an atomic command.
    pub status: Option<u32>,
}

/// The word at an address of a store, 0 where none begins there.
pub fn store_word(store: &LocalStore, at: u32) -> u32
    ensures { result ≡ store_word store.now at }
{
    if at < STORE_BYTES && at % 4 == 0 {
        store.word(at)
    } else {
        0
    }
}

/// The same of a processor, 0 where it isn't there.
fn word_in(m: &Machine, spe: u8, at: u32) -> u32
    ensures { (M : State) → state_of m.now ≡ Some M → result ≡ word_in M spe at }
{
    if spe < m.setup().spes() {
        store_word(m.local(spe), at)
    } else {
        0
    }
}

/// What the instruction asks of a channel.
fn asked_in(m: &Machine, step: Step) -> Option<ChannelOp>
    ensures { (M : State) → state_of m.now ≡ Some M → result ≡ asked_in M step }
{
    match step {
        Step::Exec { spe } if spe < m.setup().spes() => m.asks(spe),
        _ => None,
    }
}

/// The atomic command that the step does.
fn done_in(m: &Machine, step: Step) -> Option<AtomicOp>
    ensures { (M : State) → state_of m.now ≡ Some M → result ≡ done_in M step }
{
    match step {
        Step::Atomic { spe } if spe < m.setup().spes() => m.channels(spe).slot(),
        _ => None,
    }
}

/// The oldest value of a mailbox, 0 where it has none.
fn oldest(values: &[u32]) -> u32
    ensures { result ≡ oldest values.now }
{
    match values.first() {
        Some(value) => *value,
        None => 0,
    }
}

/// The oldest value of the outbound mailbox.
fn outbound_in(m: &Machine, spe: u8) -> u32
    ensures { (M : State) → state_of m.now ≡ Some M → result ≡ option_map_or (λ (P : Spe). oldest P.outbound) (slice_get M.spes spe) 0 }
{
    if spe < m.setup().spes() {
        oldest(m.outbound(spe).values())
    } else {
        0
    }
}

/// The oldest value of the outbound interrupt mailbox.
fn interrupt_in(m: &Machine, spe: u8) -> u32
    ensures { (M : State) → state_of m.now ≡ Some M → result ≡ option_map_or (λ (P : Spe). oldest P.interrupt) (slice_get M.spes spe) 0 }
{
    if spe < m.setup().spes() {
        oldest(m.interrupt(spe).values())
    } else {
        0
    }
}

/// The value that an action sends, delivers or takes.
fn action_value(m: &Machine, action: HostAction) -> u32
    ensures { (M : State) → state_of m.now ≡ Some M → result ≡ action_value M action }
{
    match action {
        HostAction::Send { value, .. } => value,
        HostAction::Signal { value, .. } => value,
        HostAction::Take { spe } => outbound_in(m, spe),
        HostAction::TakeIntr { spe } => interrupt_in(m, spe),
        HostAction::Store { .. } => 0,
        HostAction::Await { .. } => 0,
    }
}

/// The value of the next action.
fn next_value(m: &Machine) -> u32
    ensures { (M : State) → state_of m.now ≡ Some M → result ≡ option_map_or (action_value M) (slice_get M.host.script M.host.done) 0 }
{
    match m.host().next() {
        Some(action) => action_value(m, action),
        None => 0,
    }
}

/// The value that a piece of a signal delivers, or with which the host acts.
fn value_in(m: &Machine, step: Step, effect: &Effect) -> u32
    ensures { (M : State) → state_of m.now ≡ Some M → result ≡ value_in M step effect.now }
{
    match step {
        Step::Piece { spe, .. } => word_in(m, spe, effect.reads.at),
        Step::Host => next_value(m),
        _ => 0,
    }
}

/// The size of an element of a list.
fn size_in(m: &Machine, step: Step, effect: &Effect) -> u32
    ensures { (M : State) → state_of m.now ≡ Some M → result ≡ size_in M step effect.now }
{
    match step {
        Step::Elem { spe, .. } => word_in(m, spe, effect.reads.at) % ELEMENT_SIZES,
        _ => 0,
    }
}

/// Its effective address.
fn address_in(m: &Machine, step: Step, effect: &Effect) -> u32
    ensures { (M : State) → state_of m.now ≡ Some M → result ≡ address_in M step effect.now }
{
    match step {
        Step::Elem { spe, .. } => match effect.reads.at.checked_add(4) {
            Some(at) => word_in(m, spe, at),
            None => 0,
        },
        _ => 0,
    }
}

/// What stands there before a step of this effect.
pub fn look_before(m: &Machine, step: Step, effect: &Effect) -> Before
    ensures { (M : State) → state_of m.now ≡ Some M → result ≡ before_in M step effect.now }
{
    Before {
        asked: asked_in(m, step),
        atomic: done_in(m, step),
        value: value_in(m, step, effect),
        size: size_in(m, step, effect),
        ea: address_in(m, step, effect),
    }
}

/// Word 0 of a register of a processor that is there, 0 where there is no such register.
fn register_word(m: &Machine, spe: u8, r: u8) -> u32
    requires { spe < length m.now.setup.entries }
    ensures { (M : State) → (P : Spe) → state_of m.now ≡ Some M → slice_get M.spes spe ≡ Some P → result ≡ register_word P r }
{
    if r < REGISTERS {
        m.register(spe, r).word(0)
    } else {
        0
    }
}

/// What an operation of a channel read, counted or wrote.
fn passed(m: &Machine, spe: u8, op: ChannelOp) -> u32
    requires { spe < length m.now.setup.entries }
    ensures { (M : State) → (P : Spe) → state_of m.now ≡ Some M → slice_get M.spes spe ≡ Some P → result ≡ passed P op }
{
    match op {
        ChannelOp::Read { rt, .. } => register_word(m, spe, rt),
        ChannelOp::Count { rt, .. } => register_word(m, spe, rt),
        ChannelOp::Write { value, .. } => value,
    }
}

/// The same, 0 where nothing was asked.
fn passed_of(m: &Machine, spe: u8, asked: Option<ChannelOp>) -> u32
    requires { spe < length m.now.setup.entries }
    ensures { (M : State) → (P : Spe) → state_of m.now ≡ Some M → slice_get M.spes spe ≡ Some P → result ≡ option_map_or (passed P) asked 0 }
{
    match asked {
        Some(op) => passed(m, spe, op),
        None => 0,
    }
}

/// The unread status of an atomic command.
pub fn status_of(channels: &Channels) -> Option<u32>
    ensures { result ≡ channels.now.atomic }
{
    let mut channels = *channels;
    match channels.read_atomic() {
        Ok(status) => Some(status),
        Err(_) => None,
    }
}

/// What stands there after a step, of a processor that is there.
fn after_of(m: &Machine, spe: u8, asked: Option<ChannelOp>) -> After
    requires { spe < length m.now.setup.entries }
    ensures { (M : State) → (P : Spe) → state_of m.now ≡ Some M → slice_get M.spes spe ≡ Some P → result ≡ after_of P asked }
{
    let channels = m.channels(spe);
    After {
        passed: passed_of(m, spe, asked),
        mask: m.tags(spe).mask(),
        slot: channels.slot(),
        status: status_of(channels),
    }
}

/// Where a step has no processor.
const NOTHING: After = After {
    passed: 0,
    mask: 0,
    slot: None,
    status: None,
};

/// What stands there after a step, of which the instruction asked so.
pub fn look_after(m: &Machine, step: Step, asked: Option<ChannelOp>) -> After
    ensures { (M : State) → state_of m.now ≡ Some M → result ≡ after_in M step asked }
{
    match step {
        Step::Exec { spe } if spe < m.setup().spes() => after_of(m, spe, asked),
        Step::Atomic { spe } if spe < m.setup().spes() => after_of(m, spe, asked),
        _ => NOTHING,
    }
}
