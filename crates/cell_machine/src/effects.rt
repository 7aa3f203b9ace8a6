//! The effects of the MFC's and the host's steps.

ghost use Rattle.std.specs.Prelude.{◌≡◌, ℕ, ◌+◌, ◌≤◌, ◌<◌, List, Option, Some, IsSome, length, slice_get, if◌then◌else◌};
ghost use Rattle.std.specs.Option.{option_map, option_and_then};
ghost use Rattle.lock_lines.specs.Stands.{line_count};
ghost use Rattle.lock_lines.specs.Versions.{Reserved};
ghost use Rattle.mfc_command.specs.declared.command.Order.TheVariants.{Atomic};
ghost use Rattle.mfc_command.specs.Check.{OrderFits};
ghost use Rattle.cell_machine.specs.declared.effect.Note.TheVariants.{Nothing, Ended, Element as Reading};
ghost use Rattle.cell_machine.specs.Spe.{Spe, is_running};
ghost use Rattle.cell_machine.specs.State.{State};
ghost use Rattle.cell_machine.specs.Memory.{MainMemory};
ghost use Rattle.cell_machine.specs.Kept.{IsKept};
ghost use Rattle.cell_machine.specs.Moves.{parts_in};
ghost use Rattle.cell_machine.specs.Transfers.{piece, elem, retire};
ghost use Rattle.cell_machine.specs.Atomic.{atomic, fate};
ghost use Rattle.cell_machine.specs.Effects.{nowhere, in_memory, in_store, part_reads, part_writes, copy_effect, told_delivery, piece_effect, elem_effect, plain_effect, line_effect, host_writes, host_tells, fixes, of_command, effect_of};
ghost use Rattle.cell_machine.specs.Shows.{Shows, ShowsMemory, CanGo};

use crate::atomics::line_part;
use crate::effect::{Effect, INBOUND, INTERRUPT, Note, OUTBOUND, Place, Span};
use crate::hosts::may_act_host;
use crate::memory::SharedMemory;
use crate::processor::Processor;
use crate::signals::Delivery;
use crate::transfers::{is_put, is_signal, signal};
use cell_base::Step;
use cell_host::{Host, HostAction};
use main_memory::LINE_BYTES;
use mfc_command::{AtomicKind, AtomicOp, Part, part, parts};
use mfc_lists::Element;

/// The bytes of a list element in the local store.
const ELEMENT_BYTES: u32 = 8;

/// The bytes of a signal in the local store.
const SIGNAL_BYTES: u32 = 4;

/// No bytes.
pub(crate) fn nowhere() -> Span
    ensures { result ≡ nowhere }
{
    in_memory(0, 0)
}

fn in_memory(at: u32, len: u32) -> Span
    ensures { result ≡ in_memory at len }
{
    Span {
        place: Place::Memory,
        at,
        len,
    }
}

/// Bytes of the store of processor `spe`.
pub(crate) fn in_store(spe: u8, at: u32, len: u32) -> Span
    ensures { result ≡ in_store spe at len }
{
    Span {
        place: Place::Local(spe),
        at,
        len,
    }
}

/// The source of a part: the local store or main memory.
fn copied_from(spe: u8, put_it: bool, x: Part) -> Span
    ensures { result ≡ part_reads spe put_it x }
{
    if put_it {
        in_store(spe, x.ls, x.len)
    } else {
        in_memory(x.ea, x.len)
    }
}

/// The destination of a part: main memory or the local store.
fn copied_to(spe: u8, put_it: bool, x: Part) -> Span
    ensures { result ≡ part_writes spe put_it x }
{
    if put_it {
        in_memory(x.ea, x.len)
    } else {
        in_store(spe, x.ls, x.len)
    }
}

/// The effect of a copy.
fn copying(spe: u8, put_it: bool, x: Part, fixed: bool) -> Effect
    ensures { (Q : Spe) → fixed ≡ fixes Q → result ≡ copy_effect spe put_it x Q }
{
    Effect {
        fetch: nowhere(),
        reads: copied_from(spe, put_it, x),
        writes: copied_to(spe, put_it, x),
        note: Note::Nothing,
        fixed,
    }
}

/// The note of a delivered value, in a machine with `spes` processors.
fn told_delivery(spes: usize, sent: Delivery) -> Note
    ensures { result ≡ told_delivery spes (Some sent) }
{
    if usize::from(sent.spe) < spes {
        Note::Signal {
            spe: sent.spe,
            register: sent.register,
        }
    } else {
        Note::Nothing
    }
}

/// An effect that writes nothing.
fn looking(reads: Span, note: Note, fixed: bool) -> Effect
    ensures { result ≡ record { fetch = nowhere; reads = reads; writes = nowhere; note = note; fixed = fixed } }
{
    Effect {
        fetch: nowhere(),
        reads,
        writes: nowhere(),
        note,
        fixed,
    }
}

/// The effect of an atomic command. A PUTLLC that stores nothing still reads its line.
fn line_effect(memory: &SharedMemory, spe: u8, a: AtomicOp, fixed: bool) -> Effect
    requires fits { OrderFits (line_count memory.now.locks) (Atomic a) }
    requires spe { spe < memory.now.locks.spes }
    requires small { length memory.now.bytes ≤ 67108864 }
    ensures { (P Q : Spe) (m : MainMemory) (reserved : List (Option Reserved)) → ShowsMemory memory.now m reserved → slice_get reserved spe ≡ Some P.reserved → fixed ≡ fixes Q → result ≡ line_effect spe a Q (fate m P a) }
{
    match a.kind {
        AtomicKind::GetLine => copying(spe, false, line_part(a), fixed),
        AtomicKind::PutLine => copying(spe, true, line_part(a), fixed),
        AtomicKind::PutCond => {
            if memory.locks.held(spe, a.line) {
                copying(spe, true, line_part(a), fixed)
            } else {
                looking(
                    in_memory(LINE_BYTES * a.line, LINE_BYTES),
                    Note::Nothing,
                    fixed,
                )
            }
        }
    }
}

impl Processor {
    ghost use Rattle.cell_machine.specs.Shows.{ShowsSpe, CanStep};

    /// The effect of a piece, in a machine with `spes` processors.
    #[inline(never)]
    fn piece_effect(&self, spes: usize, spe: u8, cmd: u32, elem: u16, k: u16) -> Option<Effect>
        requires { (lines : ℕ) × CanStep lines self.now × (lines ≤ 524288) }
        ensures { (P : Spe) (m : MainMemory) → ShowsSpe self.now P → result ≡ option_and_then (λ x. of_command P cmd (piece_effect spes spe cmd k P x)) (piece m P cmd elem k) }
    {
        if self.is_faulted() {
            return None;
        }
        let Some(x) = self.commands.part_left(cmd, elem, k as u32) else {
            return None;
        };
        let command = self.commands.queue.command(cmd);
        let fixed = self.fixes_by_piece(cmd, k as u32);
        if is_signal(command.kind) {
            let note = told_delivery(spes, signal(&self.store, x));
            return Some(looking(in_store(spe, x.ls, SIGNAL_BYTES), note, fixed));
        }
        let copied = part(x.ls, x.ea, x.size, k as u32);
        Some(copying(spe, is_put(command.kind), copied, fixed))
    }

    /// The effect of reading the next element of a list command.
    #[inline(never)]
    fn elem_effect(&self, lines: u32, spe: u8, cmd: u32) -> Option<Effect>
        requires can { CanStep lines self.now }
        requires lines { lines ≤ 524288 }
        ensures { (P : Spe) → ShowsSpe self.now P → result ≡ option_and_then (λ Q. of_command P cmd (λ d. Some (elem_effect lines spe cmd P Q d))) (elem lines P cmd) }
    {
        if self.is_faulted() {
            return None;
        }
        let Some(mut list) = self.commands.next_list(cmd) else {
            return None;
        };
        let Some(at) = list.next_at() else {
            unreachable!();
        };
        let reads = in_store(spe, at, ELEMENT_BYTES);
        match list.read_element(self.store.word(at), self.store.word(at + 4), lines) {
            Ok(x) => {
                let fixed = self.fixes_by_element(lines, cmd, list, x);
                Some(looking(reads, told_element(x), fixed))
            }
            Err(_) => Some(looking(reads, self.tells_fault(), self.fixes())),
        }
    }

    /// The note of a faulty element.
    fn tells_fault(&self) -> Note
        ensures { result ≡ (if is_running self.now.status then Ended else Nothing) }
    {
        if self.is_running() {
            Note::Ended
        } else {
            Note::Nothing
        }
    }

    /// The effect of retiring a command.
    #[inline(never)]
    fn retire_effect(&self, cmd: u32) -> Option<Effect>
        requires { IsKept self.now.commands.queue }
        ensures { (P : Spe) → ShowsSpe self.now P → result ≡ option_map plain_effect (retire P cmd) }
    {
        if !self.may_retire(cmd) {
            return None;
        }
        let fixed = self.fixes_by_retirement(cmd);
        Some(looking(nowhere(), Note::Nothing, fixed))
    }

    /// The effect of the atomic command in the slot.
    #[inline(never)]
    fn atomic_effect(&self, memory: &SharedMemory, spe: u8) -> Option<Effect>
        requires can { CanStep (line_count memory.now.locks) self.now }
        requires spe { spe < memory.now.locks.spes }
        requires small { length memory.now.bytes ≤ 67108864 }
        ensures { (P : Spe) (m : MainMemory) (reserved : List (Option Reserved)) → ShowsSpe self.now P → ShowsMemory memory.now m reserved → slice_get reserved spe ≡ Some P.reserved → result ≡ option_and_then (λ x. option_map (λ a. line_effect spe a x.spe (fate m P a)) P.channels.slot) (atomic m P) }
    {
        if self.is_faulted() {
            return None;
        }
        let Some(a) = self.channels.slot() else {
            return None;
        };
        Some(line_effect(memory, spe, a, self.fixes()))
    }
}

/// The note of an element that was read.
fn told_element(x: Element) -> Note
    requires size { x.size ≤ 16384 }
    requires fits { x.ea + x.size < 4294967296 }
    ensures { result ≡ Reading x.number (parts_in x) x.flagged }
{
    Note::Element {
        number: x.number,
        parts: parts(x.ea, x.size) as u16,
        flagged: x.flagged,
    }
}

// ---- the host

/// The bytes that a host action stores.
fn host_writes(action: HostAction) -> Span
    ensures { result ≡ host_writes action }
{
    match action {
        HostAction::Store { ea, len, .. } => in_memory(ea, u32::from(len)),
        _ => nowhere(),
    }
}

/// The note of a host action.
fn host_tells(action: HostAction) -> Note
    ensures { result ≡ host_tells action }
{
    match action {
        HostAction::Send { spe, .. } => Note::Put {
            spe,
            mailbox: INBOUND,
        },
        HostAction::Take { spe } => Note::Take {
            spe,
            mailbox: OUTBOUND,
        },
        HostAction::TakeIntr { spe } => Note::Take {
            spe,
            mailbox: INTERRUPT,
        },
        HostAction::Store { .. } => Note::Nothing,
        HostAction::Await { spe } => Note::Awaited { spe },
        HostAction::Signal { spe, register, .. } => Note::Signal { spe, register },
    }
}

/// The effect of the script's next action, `None` if it isn't allowed.
#[inline(never)]
fn host_effect(processors: &[Processor], script: &Host) -> Option<Effect>
    ensures { (memory : SharedMemory) (M : State) → Shows processors.now memory script.now M → result ≡ effect_of M Step.Host }
{
    if !may_act_host(processors, script) {
        return None;
    }
    let Some(action) = script.next() else {
        return None;
    };
    Some(Effect {
        fetch: nowhere(),
        reads: nowhere(),
        writes: host_writes(action),
        note: host_tells(action),
        fixed: false,
    })
}

// ---- all of them

/// The effect of a step, `None` if it isn't allowed.
pub(crate) fn effect_of(
    processors: &[Processor],
    memory: &SharedMemory,
    host: &Host,
    s: Step,
) -> Option<Effect>
    requires { CanGo processors.now memory.now }
    ensures { (M : State) → Shows processors.now memory.now host.now M → result ≡ effect_of M s }
{
    let lines = memory.bytes.lines();
    match s {
        Step::Exec { spe } => {
            if spe as usize >= processors.len() {
                return None;
            }
            processors[spe as usize].exec_effect(lines, spe)
        }
        Step::Piece {
            spe,
            cmd,
            elem,
            part,
        } => {
            if spe as usize >= processors.len() {
                return None;
            }
            processors[spe as usize].piece_effect(processors.len(), spe, cmd, elem, part)
        }
        Step::Elem { spe, cmd } => {
            if spe as usize >= processors.len() {
                return None;
            }
            processors[spe as usize].elem_effect(lines, spe, cmd)
        }
        Step::Retire { spe, cmd } => {
            if spe as usize >= processors.len() {
                return None;
            }
            processors[spe as usize].retire_effect(cmd)
        }
        Step::Atomic { spe } => {
            if spe as usize >= processors.len() {
                return None;
            }
            processors[spe as usize].atomic_effect(memory, spe)
        }
        Step::Host => host_effect(processors, host),
    }
}

/// The effect of a step, which is allowed.
#[inline(always)]
pub(crate) fn allowed_effect(
    processors: &[Processor],
    memory: &SharedMemory,
    host: &Host,
    s: Step,
) -> Effect
    requires can { CanGo processors.now memory.now }
    requires allowed { (M : State) × Shows processors.now memory.now host.now M × IsSome (effect_of M s) }
    ensures { (M : State) → Shows processors.now memory.now host.now M → IsSome (effect_of M s) → Some result ≡ effect_of M s }
{
    if let Step::Exec { spe } = s {
        if (spe as usize) < processors.len() {
            return processors[spe as usize].allowed_effect(memory.bytes.lines(), spe);
        }
    }
    other_effect(processors, memory, host, s)
}

/// The effect of any step, which is allowed.
#[inline(never)]
fn other_effect(processors: &[Processor], memory: &SharedMemory, host: &Host, s: Step) -> Effect
    requires can { CanGo processors.now memory.now }
    requires allowed { (M : State) × Shows processors.now memory.now host.now M × IsSome (effect_of M s) }
    ensures { (M : State) → Shows processors.now memory.now host.now M → Some result ≡ effect_of M s }
{
    let Some(effect) = effect_of(processors, memory, host, s) else {
        unreachable!()
    };
    effect
}
