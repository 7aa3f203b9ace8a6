//! Local instructions: no other actor can see when one of them is made.

ghost use Rattle.std.specs.Prelude.{◌≡◌, ◌-◌, ◌<◌, Some, None, length, slice_get, IfSome, IsSome, if◌then◌else◌};
ghost use Rattle.cell_base.specs.declared.steps.Step.TheVariants.{Exec};
ghost use Rattle.cell_machine.specs.Spe.{Spe};
ghost use Rattle.cell_machine.specs.Run.{next_of, spe_of};
ghost use Rattle.cell_hunt.specs.Locals.{going_on, has_no_command, is_ended, is_in_registers, is_local, is_local_at, is_local_operation, is_local_read, is_local_write, is_slot_free, may_issue};

use crate::strategy::Strategy;
use cell_base::{ChannelOp, Step};
use cell_machine::{Effect, Machine, Note, Reach};

/// Whether a processor ceases to run.
pub fn is_ended(note: Note) -> bool
    ensures { result ≡ is_ended note }
{
    matches!(note, Note::Ended)
}

/// Whether a processor's atomic slot is free.
fn is_slot_free(machine: &Machine, spe: u8) -> bool
    requires { spe < length machine.now.setup.entries }
    ensures { (P : Spe) → spe_of machine.now spe ≡ Some P → result ≡ is_slot_free P }
{
    machine.channels(spe).slot().is_none()
}

/// Whether a processor may issue a command unseen: the queue keeps a place, and no tag status is asked for.
fn may_issue(machine: &Machine, spe: u8) -> bool
    requires { spe < length machine.now.setup.entries }
    ensures { (P : Spe) → spe_of machine.now spe ≡ Some P → result ≡ may_issue P }
{
    machine.queued(spe) < 15 && !machine.tags(spe).pending()
}

/// Whether a write to a channel is local.
fn is_local_write(machine: &Machine, spe: u8, channel: u8) -> bool
    requires { spe < length machine.now.setup.entries }
    ensures { (P : Spe) → spe_of machine.now spe ≡ Some P → result ≡ is_local_write P channel }
{
    if channel == 21 {
        may_issue(machine, spe)
    } else {
        16 <= channel && channel <= 22
    }
}

/// Whether a read of a channel is local.
fn is_local_read(machine: &Machine, spe: u8, channel: u8) -> bool
    requires { spe < length machine.now.setup.entries }
    ensures { (P : Spe) → spe_of machine.now spe ≡ Some P → result ≡ is_local_read P channel }
{
    if channel == 27 {
        is_slot_free(machine, spe)
    } else if channel == 24 {
        true
    } else {
        channel == 12
    }
}

/// Whether an operation of a channel is local.
fn is_local_operation(machine: &Machine, spe: u8, operation: ChannelOp) -> bool
    requires { spe < length machine.now.setup.entries }
    ensures { (P : Spe) → spe_of machine.now spe ≡ Some P → result ≡ is_local_operation P operation }
{
    match operation {
        ChannelOp::Write { ch, .. } => is_local_write(machine, spe, ch),
        ChannelOp::Read { ch, .. } => is_local_read(machine, spe, ch),
        ChannelOp::Count { .. } => false,
    }
}

/// Whether a processor has no command in its slot or in its queue.
fn has_no_command(machine: &Machine, spe: u8) -> bool
    requires { spe < length machine.now.setup.entries }
    ensures { (P : Spe) → spe_of machine.now spe ≡ Some P → result ≡ has_no_command P }
{
    is_slot_free(machine, spe) && machine.queued(spe) == 0
}

/// Whether an instruction of this effect neither loads nor stores.
fn is_in_registers(effect: &Effect) -> bool
    ensures { result ≡ is_in_registers effect.now }
{
    effect.reads.len == 0 && effect.writes.len == 0
}

/// Whether the next instruction of a processor, which has this effect, is local.
fn is_local(machine: &Machine, spe: u8, effect: &Effect) -> bool
    requires { spe < length machine.now.setup.entries }
    ensures { (P : Spe) → spe_of machine.now spe ≡ Some P → result ≡ is_local P effect.now }
{
    if is_ended(effect.note) {
        return false;
    }
    if let Some(operation) = machine.asks(spe) {
        return is_local_operation(machine, spe, operation);
    }
    if is_in_registers(effect) {
        return true;
    }
    has_no_command(machine, spe)
}

/// Whether the next instruction of a processor is allowed and local, by its effect.
#[inline(never)]
fn is_local_by_effect(machine: &Machine, spe: u8) -> bool
    requires { spe < length machine.now.setup.entries }
    ensures { result ≡ is_local_at machine.now spe }
{
    match machine.effect(Step::Exec { spe }) {
        Some(effect) => is_local(machine, spe, &effect),
        None => false,
    }
}

/// Whether the next instruction of a processor is allowed and local.
fn is_local_at(machine: &Machine, spe: u8) -> bool
    requires { spe < length machine.now.setup.entries }
    ensures { result ≡ is_local_at machine.now spe }
{
    match machine.reach(spe) {
        Reach::Registers => true,
        Reach::Store => has_no_command(machine, spe),
        Reach::Other => is_local_by_effect(machine, spe),
    }
}

/// The next instruction of a processor, if it is allowed and local.
fn local_instruction(machine: &Machine, spe: u8) -> Option<Step>
    ensures step { result ≡ (if is_local_at machine.now spe then Some (Exec spe) else None) }
    ensures allowed { IfSome result (λ s. IsSome (next_of machine.now s)) }
{
    if spe >= machine.setup().spes() {
        return None;
    }
    if is_local_at(machine, spe) {
        Some(Step::Exec { spe })
    } else {
        None
    }
}

/// The last step of a run of so many steps.
fn last_step(machine: &Machine, steps: u32) -> Option<Step>
    requires { length machine.now.steps ≡ steps }
    ensures { result ≡ slice_get machine.now.steps (length machine.now.steps - 1) }
{
    if steps == 0 {
        return None;
    }
    Some(machine.steps()[steps as usize - 1])
}

/// The next instruction of the processor that made the last step, if the strategy lets it go on.
pub fn going_on(machine: &Machine, strategy: Strategy, steps: u32) -> Option<Step>
    requires { length machine.now.steps ≡ steps }
    ensures step { result ≡ going_on machine.now strategy }
    ensures allowed { IfSome result (λ s. IsSome (next_of machine.now s)) }
{
    if !strategy.local {
        return None;
    }
    let Some(Step::Exec { spe }) = last_step(machine, steps) else {
        return None;
    };
    local_instruction(machine, spe)
}
