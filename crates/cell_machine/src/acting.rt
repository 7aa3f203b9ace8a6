//! Steps that are made.

ghost use Rattle.std.specs.Prelude.{◌≡◌, ◌<◌, ◌≤◌, Some, None, true, is_some, length, IsSomeAnd, IfSome, IfNone, MatchBool, slice_get};
ghost use Rattle.std.specs.Bool.{OnFalse};
ghost use Rattle.cell_base.specs.declared.steps.Step.{Step};
ghost use Rattle.cell_base.specs.declared.steps.Step.TheVariants.{Atomic, Exec, Piece};
ghost use Rattle.cell_machine.specs.State.{State};
ghost use Rattle.cell_machine.specs.Next.{act, closed_in, next};
ghost use Rattle.cell_machine.specs.Choices.{all_of_spus};
ghost use Rattle.cell_host.specs.Script.{Progress};
ghost use Rattle.cell_machine.specs.Run.{first_allowed, picked, allowed};
ghost use Rattle.lock_lines.specs.Stands.{HasSameSize};
ghost use Rattle.cell_machine.specs.Shows.{Shows, IsFit, CanGo, AreSettled};
ghost use Rattle.cell_machine.specs.Blocked.{AreBlocked};

use crate::blocked::Blocked;
use crate::choosing::{first_of_others, nth_step};
use crate::hosts::act_host;
use crate::memory::SharedMemory;
use crate::processor::Processor;
use crate::signals::{lose, spread};
use cell_base::{Actor, Step};
use cell_host::Host;

/// Makes the next instruction of a processor, or leaves all as it is where it isn't allowed.
#[inline(always)]
pub(crate) fn act_exec(
    processors: &mut [Processor],
    memory: &SharedMemory,
    blocked: &mut Blocked,
    spe: u8,
) -> bool
    requires many { length processors.old ≤ 16 }
    requires can { CanGo processors.old memory.now }
    requires blocked { AreBlocked blocked.old processors.old }
    ensures made { (host : Progress) (M : State) → Shows processors.old memory.now host M → AreSettled M.spes → MatchBool result (IsSomeAnd (act M (Exec spe)) (λ N. Shows processors.new memory.now host (closed_in M (Exec spe) N))) (act M (Exec spe) ≡ None) }
    ensures refused { OnFalse result (processors.new ≡ processors.old) }
    ensures blocked { AreBlocked blocked.new processors.new }
{
    if spe as usize >= processors.len() {
        return false;
    }
    if blocked.has(spe) {
        return false;
    }
    let made = processors[spe as usize].exec_step(memory.bytes.lines());
    blocked.tell(spe, !made);
    made
}

/// Copies or delivers the piece, or leaves all as it is where it isn't allowed.
fn act_piece(
    processors: &mut [Processor],
    memory: &mut SharedMemory,
    blocked: &mut Blocked,
    spe: u8,
    cmd: u32,
    elem: u16,
    part: u16,
) -> bool
    requires many { length processors.old ≤ 16 }
    requires can { CanGo processors.old memory.old }
    requires small { length memory.old.bytes ≤ 67108864 }
    requires blocked { AreBlocked blocked.old processors.old }
    ensures made { (host : Progress) (M : State) → Shows processors.old memory.old host M → AreSettled M.spes → MatchBool result (IsSomeAnd (act M (Piece spe cmd elem part)) (λ N. Shows processors.new memory.new host (closed_in M (Piece spe cmd elem part) N))) (act M (Piece spe cmd elem part) ≡ None) }
    ensures refused { OnFalse result ((processors.new ≡ processors.old) × (memory.new ≡ memory.old)) }
    ensures size { HasSameSize memory.old.locks memory.new.locks }
    ensures blocked { AreBlocked blocked.new processors.new }
{
    if spe as usize >= processors.len() {
        return false;
    }
    let Some(change) = processors[spe as usize].piece_step(memory, cmd, elem, part) else {
        return false;
    };
    spread(processors, change);
    blocked.wake(spe, change.is_none());
    true
}

/// Does the atomic command of the slot, or leaves all as it is where it isn't allowed.
fn act_atomic(
    processors: &mut [Processor],
    memory: &mut SharedMemory,
    blocked: &mut Blocked,
    spe: u8,
) -> bool
    requires many { length processors.old ≤ 16 }
    requires can { CanGo processors.old memory.old }
    requires small { length memory.old.bytes ≤ 67108864 }
    requires blocked { AreBlocked blocked.old processors.old }
    ensures made { (host : Progress) (M : State) → Shows processors.old memory.old host M → AreSettled M.spes → MatchBool result (IsSomeAnd (act M (Atomic spe)) (λ N. Shows processors.new memory.new host (closed_in M (Atomic spe) N))) (act M (Atomic spe) ≡ None) }
    ensures refused { OnFalse result ((processors.new ≡ processors.old) × (memory.new ≡ memory.old)) }
    ensures size { HasSameSize memory.old.locks memory.new.locks }
    ensures blocked { AreBlocked blocked.new processors.new }
{
    if spe as usize >= processors.len() {
        return false;
    }
    let Some(losers) = processors[spe as usize].atomic_step(memory, spe) else {
        return false;
    };
    lose(processors, losers);
    blocked.wake(spe, losers == 0);
    true
}

/// Does the step, or leaves all as it is where it isn't allowed.
pub(crate) fn act(
    processors: &mut [Processor],
    memory: &mut SharedMemory,
    host: &mut Host,
    blocked: &mut Blocked,
    s: Step,
) -> bool
    requires many { length processors.old ≤ 16 }
    requires fit { IsFit (length processors.old) memory.old host.old }
    requires can { CanGo processors.old memory.old }
    requires blocked { AreBlocked blocked.old processors.old }
    ensures made { (M : State) → Shows processors.old memory.old host.old M → AreSettled M.spes → MatchBool result (IsSomeAnd (act M s) (λ N. Shows processors.new memory.new host.new (closed_in M s N))) (act M s ≡ None) }
    ensures refused { OnFalse result ((processors.new ≡ processors.old) × (memory.new ≡ memory.old) × (host.new ≡ host.old)) }
    ensures size { HasSameSize memory.old.locks memory.new.locks }
    ensures script { host.new.script ≡ host.old.script }
    ensures blocked { AreBlocked blocked.new processors.new }
{
    let lines = memory.bytes.lines();
    match s {
        Step::Exec { spe } => act_exec(processors, memory, blocked, spe),
        Step::Piece {
            spe,
            cmd,
            elem,
            part,
        } => act_piece(processors, memory, blocked, spe, cmd, elem, part),
        Step::Elem { spe, cmd } => {
            if spe as usize >= processors.len() {
                return false;
            }
            let made = processors[spe as usize].elem_step(lines, cmd);
            blocked.wake(spe, true);
            made
        }
        Step::Retire { spe, cmd } => {
            if spe as usize >= processors.len() {
                return false;
            }
            let made = processors[spe as usize].retire_step(cmd);
            blocked.wake(spe, true);
            made
        }
        Step::Atomic { spe } => act_atomic(processors, memory, blocked, spe),
        Step::Host => {
            blocked.forget();
            act_host(processors, memory, host)
        }
    }
}

/// Does a step that is allowed, and answers it.
fn act_allowed(
    processors: &mut [Processor],
    memory: &mut SharedMemory,
    host: &mut Host,
    blocked: &mut Blocked,
    s: Step,
) -> Option<Step>
    requires many { length processors.old ≤ 16 }
    requires fit { IsFit (length processors.old) memory.old host.old }
    requires can { CanGo processors.old memory.old }
    requires blocked { AreBlocked blocked.old processors.old }
    ensures done { (M : State) → Shows processors.old memory.old host.old M → AreSettled M.spes → is_some (next M s) ≡ true → result ≡ Some s }
    ensures made { (M : State) → Shows processors.old memory.old host.old M → AreSettled M.spes → IfSome result (λ t. IsSomeAnd (act M t) (λ N. Shows processors.new memory.new host.new (closed_in M t N))) }
    ensures refused { IfNone result ((processors.new ≡ processors.old) × (memory.new ≡ memory.old) × (host.new ≡ host.old)) }
    ensures size { HasSameSize memory.old.locks memory.new.locks }
    ensures script { host.new.script ≡ host.old.script }
    ensures blocked { AreBlocked blocked.new processors.new }
{
    if act(processors, memory, host, blocked, s) {
        Some(s)
    } else {
        None
    }
}

/// Does the step that the actor has for this choice, and answers it, or leaves all as it is where it has none.
/// An instruction is made at once: where it isn't allowed, nothing has changed.
#[inline(always)]
pub(crate) fn act_picked(
    processors: &mut [Processor],
    memory: &mut SharedMemory,
    host: &mut Host,
    blocked: &mut Blocked,
    actor: Actor,
    choice: u64,
) -> Option<Step>
    requires many { length processors.old ≤ 16 }
    requires fit { IsFit (length processors.old) memory.old host.old }
    requires can { CanGo processors.old memory.old }
    requires blocked { AreBlocked blocked.old processors.old }
    ensures picked { (M : State) → Shows processors.old memory.old host.old M → AreSettled M.spes → result ≡ picked M actor choice }
    ensures made { (M : State) → Shows processors.old memory.old host.old M → AreSettled M.spes → IfSome result (λ s. IsSomeAnd (act M s) (λ N. Shows processors.new memory.new host.new (closed_in M s N))) }
    ensures refused { IfNone result ((processors.new ≡ processors.old) × (memory.new ≡ memory.old) × (host.new ≡ host.old)) }
    ensures size { HasSameSize memory.old.locks memory.new.locks }
    ensures script { host.new.script ≡ host.old.script }
    ensures blocked { AreBlocked blocked.new processors.new }
{
    match actor {
        Actor::Spu(spe) => {
            if act_exec(processors, memory, blocked, spe) {
                Some(Step::Exec { spe })
            } else {
                None
            }
        }
        _ => {
            let step = nth_step(processors, host, actor, choice)?;
            act_allowed(processors, memory, host, blocked, step)
        }
    }
}

/// Makes the first allowed instruction, and answers it, or leaves all as it is where none is allowed.
#[inline(always)]
fn act_first_of_spus(
    processors: &mut [Processor],
    memory: &SharedMemory,
    blocked: &mut Blocked,
) -> Option<Step>
    requires many { length processors.old ≤ 16 }
    requires can { CanGo processors.old memory.now }
    requires blocked { AreBlocked blocked.old processors.old }
    ensures first { (host : Progress) (M : State) → Shows processors.old memory.now host M → AreSettled M.spes → result ≡ slice_get (all_of_spus M) 0 }
    ensures made { (host : Progress) (M : State) → Shows processors.old memory.now host M → AreSettled M.spes → IfSome result (λ s. IsSomeAnd (act M s) (λ N. Shows processors.new memory.now host (closed_in M s N))) }
    ensures refused { IfNone result (processors.new ≡ processors.old) }
    ensures blocked { AreBlocked blocked.new processors.new }
{
    let mut spe = blocked.first_other(0);
    while (spe as usize) < processors.len() {
        if act_exec(processors, memory, blocked, spe) {
            return Some(Step::Exec { spe });
        }
        spe = blocked.first_other(spe + 1);
    }
    None
}

/// Does the first allowed step of the first actor that has one, and answers it, or leaves all as it is where none is allowed.
#[inline(always)]
pub(crate) fn act_first(
    processors: &mut [Processor],
    memory: &mut SharedMemory,
    host: &mut Host,
    blocked: &mut Blocked,
) -> Option<Step>
    requires many { length processors.old ≤ 16 }
    requires fit { IsFit (length processors.old) memory.old host.old }
    requires can { CanGo processors.old memory.old }
    requires blocked { AreBlocked blocked.old processors.old }
    ensures first { (M : State) → Shows processors.old memory.old host.old M → AreSettled M.spes → result ≡ first_allowed M }
    ensures made { (M : State) → Shows processors.old memory.old host.old M → AreSettled M.spes → IfSome result (λ s. IsSomeAnd (act M s) (λ N. Shows processors.new memory.new host.new (closed_in M s N))) }
    ensures refused { IfNone result ((processors.new ≡ processors.old) × (memory.new ≡ memory.old) × (host.new ≡ host.old)) }
    ensures size { HasSameSize memory.old.locks memory.new.locks }
    ensures script { host.new.script ≡ host.old.script }
    ensures blocked { AreBlocked blocked.new processors.new }
{
    match act_first_of_spus(processors, memory, blocked) {
        Some(step) => Some(step),
        None => {
            let step = first_of_others(processors, host)?;
            act_allowed(processors, memory, host, blocked, step)
        }
    }
}
