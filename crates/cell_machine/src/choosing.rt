//! Steps that are chosen, and none is made.

ghost use Rattle.std.specs.Prelude.{◌≡◌, ◌<◌, ◌≤◌, Some, None, true, length, All, is_some, slice_get};
ghost use Rattle.cell_base.specs.declared.steps.Step.{Step};
ghost use Rattle.cell_base.specs.declared.steps.Step.TheVariants.{Exec, Atomic};
ghost use Rattle.cell_machine.specs.State.{State};
ghost use Rattle.cell_machine.specs.Moves.{outstanding};
ghost use Rattle.cell_machine.specs.Kept.{IsKept};
ghost use Rattle.cell_machine.specs.Choices.{all_of_spus, all_of_mfcs, picked_queued};
ghost use Rattle.cell_machine.specs.Next.{next};
ghost use Rattle.cell_host.specs.Script.{Progress};
ghost use Rattle.cell_machine.specs.Run.{first_allowed, picked, allowed, is_quiet};
ghost use Rattle.cell_machine.specs.Shows.{Shows};

use crate::hosts::may_act_host;
use crate::memory::SharedMemory;
use crate::processor::Processor;
use cell_base::{Actor, Step};
use cell_host::Host;

/// The first allowed step of the first actor that has one.
pub(crate) fn first_step(processors: &[Processor], host: &Host) -> Option<Step>
    requires many { length processors.now ≤ 16 }
    requires kept { All (λ c. IsKept c.commands.queue) processors.now }
    ensures { (memory : SharedMemory) (M : State) → Shows processors.now memory host.now M → result ≡ first_allowed M }
{
    let of_spus = first_of_spus(processors);
    if of_spus.is_some() {
        return of_spus;
    }
    first_of_others(processors, host)
}

/// The same where no instruction is allowed.
pub(crate) fn first_of_others(processors: &[Processor], host: &Host) -> Option<Step>
    requires many { length processors.now ≤ 16 }
    requires kept { All (λ c. IsKept c.commands.queue) processors.now }
    ensures { (memory : SharedMemory) (M : State) → Shows processors.now memory host.now M → slice_get (all_of_spus M) 0 ≡ None → result ≡ first_allowed M }
{
    let of_mfcs = first_of_mfcs(processors);
    if of_mfcs.is_some() {
        return of_mfcs;
    }
    first_of_host(processors, host)
}

/// The first allowed instruction.
fn first_of_spus(processors: &[Processor]) -> Option<Step>
    requires { length processors.now ≤ 16 }
    ensures { (memory : SharedMemory) (host : Progress) (M : State) → Shows processors.now memory host M → result ≡ slice_get (all_of_spus M) 0 }
{
    for spe in 0..processors.len() {
        let processor = &processors[spe];
        if processor.may_exec() {
            return Some(Step::Exec { spe: spe as u8 });
        }
    }
    None
}

/// The first allowed step of the first flow controller that has one.
fn first_of_mfcs(processors: &[Processor]) -> Option<Step>
    requires many { length processors.now ≤ 16 }
    requires kept { All (λ c. IsKept c.commands.queue) processors.now }
    ensures { (memory : SharedMemory) (host : Progress) (M : State) → Shows processors.now memory host M → result ≡ slice_get (all_of_mfcs M) 0 }
{
    for spe in 0..processors.len() {
        let processor = &processors[spe];
        let first = processor.first_of_mfc(spe as u8);
        if first.is_some() {
            return first;
        }
    }
    None
}

/// The host's step, if it is allowed.
fn first_of_host(processors: &[Processor], host: &Host) -> Option<Step>
    ensures { (memory : SharedMemory) (M : State) → Shows processors.now memory host.now M → result ≡ slice_get (allowed M Actor.Host) 0 }
{
    if may_act_host(processors, host) {
        Some(Step::Host)
    } else {
        None
    }
}

/// Whether no processor runs, no slot is taken and no command is outstanding.
pub(crate) fn is_quiet(processors: &[Processor]) -> bool
    ensures { (memory : SharedMemory) (host : Progress) (M : State) → Shows processors.now memory host M → result ≡ is_quiet M }
{
    for processor in processors {
        if !processor.is_quiet() {
            return false;
        }
    }
    true
}

/// The allowed step of the actor at the place that is the choice's remainder.
#[inline(always)]
pub(crate) fn nth_step(
    processors: &[Processor],
    host: &Host,
    actor: Actor,
    choice: u64,
) -> Option<Step>
    requires { All (λ c. IsKept c.commands.queue) processors.now }
    ensures { (memory : SharedMemory) (M : State) → Shows processors.now memory host.now M → result ≡ picked M actor choice }
{
    match actor {
        Actor::Spu(spe) => {
            if spe as usize >= processors.len() {
                return None;
            }
            let processor = &processors[spe as usize];
            if processor.may_exec() {
                Some(Step::Exec { spe })
            } else {
                None
            }
        }
        Actor::Mfc(spe) => {
            if spe as usize >= processors.len() {
                return None;
            }
            let processor = &processors[spe as usize];
            processor.pick_of_mfc(spe, choice)
        }
        Actor::Host => first_of_host(processors, host),
    }
}

/// Of the outstanding command at an index of a processor's queue, the allowed step at the place that is the choice's remainder.
pub(crate) fn nth_queued(
    processors: &[Processor],
    spe: u8,
    index: usize,
    choice: u64,
) -> Option<Step>
    requires { All (λ c. IsKept c.commands.queue) processors.now }
    ensures { (memory : SharedMemory) (host : Progress) (M : State) → Shows processors.now memory host M → result ≡ picked_queued M spe index choice }
{
    if spe as usize >= processors.len() {
        return None;
    }
    processors[spe as usize].pick_at(spe, index, choice)
}

/// Whether the atomic command in a processor's slot can be done.
pub(crate) fn has_atomic_step(processors: &[Processor], spe: u8) -> bool
    ensures { (memory : SharedMemory) (host : Progress) (M : State) → Shows processors.now memory host M → result ≡ is_some (next M (Atomic spe)) }
{
    if spe as usize >= processors.len() {
        return false;
    }
    processors[spe as usize].may_atomic()
}
