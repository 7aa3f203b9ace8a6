//! The steps of queued commands: pieces, the reading of list elements, and retirements.

ghost use Rattle.std.specs.Prelude.{◌≡◌, ◌+◌, ◌≤◌, ◌<◌, true, List, Option, length, None, IsSomeAnd, IfSome, IfNone, MatchBool, slice_range, if◌then◌else◌};
ghost use Rattle.std.specs.Bool.{OnFalse, OnTrue};
ghost use Rattle.cell_base.specs.Bytes.{put};
ghost use Rattle.lock_lines.specs.Stands.{line_count, HasSameSize};
ghost use Rattle.lock_lines.specs.Versions.{Reserved};
ghost use Rattle.mfc_queue.specs.Stands.{IsOneOf};
ghost use Rattle.cell_machine.specs.Spe.{Spe, is_faulted};
ghost use Rattle.cell_machine.specs.Memory.{MainMemory, stored};
ghost use Rattle.cell_machine.specs.Moves.{parts_in};
ghost use Rattle.cell_machine.specs.Kept.{IsKept};
ghost use Rattle.cell_machine.specs.Transfers.{may_retire, piece, elem, retire, copied, delivery, moved, is_put, is_signal, part_in, told};
ghost use Rattle.cell_machine.specs.Limits.{IsRegister};
ghost use Rattle.cell_machine.specs.Shows.{ShowsMemory, Loses, IsRemoteChange, IsDelivery, IsSignal, Makes};
ghost use Rattle.cell_machine.specs.OwnEvents.{with_flow, with_fixed};

use crate::events::TAG_STATUS;
use crate::memory::SharedMemory;
use crate::processor::Processor;
use crate::signals::{Delivery, RemoteChange};
use crate::status::Status;
use local_store::LocalStore;
use main_memory::Memory;
use mfc_command::{Kind, Part, part};
use mfc_lists::Element;

/// How many bytes a piece has at most.
const PIECE_BYTES: usize = 128;

/// Whether a command of this kind copies from the store to the memory.
pub(crate) fn is_put(kind: Kind) -> bool
    ensures { result ≡ is_put kind }
{
    match kind {
        Kind::Put => true,
        Kind::Get => false,
        Kind::PutList => true,
        Kind::GetList => false,
        Kind::Barrier => false,
        Kind::PutQueued => true,
        Kind::Signal => false,
    }
}

/// Whether a command of this kind goes to a signal register.
pub(crate) fn is_signal(kind: Kind) -> bool
    ensures { result ≡ is_signal kind }
{
    match kind {
        Kind::Put => false,
        Kind::Get => false,
        Kind::PutList => false,
        Kind::GetList => false,
        Kind::Barrier => false,
        Kind::PutQueued => false,
        Kind::Signal => true,
    }
}

/// Copies a part from the store to the memory, and answers which processors lose their reservation.
pub(crate) fn put_part(store: &LocalStore, memory: &mut SharedMemory, x: Part) -> u16
    requires some { 0 < x.len }
    requires few { x.len ≤ 128 }
    requires store { x.ls + x.len ≤ 262144 }
    requires memory { x.ea + x.len ≤ length memory.old.bytes }
    ensures stores { (m : MainMemory) (reserved : List (Option Reserved)) → ShowsMemory memory.old m reserved → ShowsMemory memory.new (stored m x.ea (slice_range store.now x.ls (x.ls + x.len))) reserved }
    ensures losers { (m : MainMemory) (reserved : List (Option Reserved)) → ShowsMemory memory.old m reserved → Loses result m reserved (stored m x.ea (slice_range store.now x.ls (x.ls + x.len))) }
    ensures size { HasSameSize memory.old.locks memory.new.locks }
{
    let mut bytes = [0; PIECE_BYTES];
    let part = &mut bytes[..x.len as usize];
    store.copy_out(x.ls, part);
    memory.store(x.ea, part)
}

/// Copies a part from the memory to the store.
pub(crate) fn get_part(store: &mut LocalStore, memory: &Memory, x: Part)
    requires few { x.len ≤ 128 }
    requires store { x.ls + x.len ≤ 262144 }
    requires memory { x.ea + x.len ≤ length memory.now }
    ensures { store.new ≡ put store.old x.ls (slice_range memory.now x.ea (x.ea + x.len)) }
{
    let mut bytes = [0; PIECE_BYTES];
    memory.copy_out(x.ea, &mut bytes[..x.len as usize]);
    store.copy_in(x.ls, &bytes[..x.len as usize]);
}

/// Copies part `k` of an element between the store and the memory, and answers which processors lose their reservation.
fn copy(store: &mut LocalStore, memory: &mut SharedMemory, put_it: bool, x: Element, k: u32) -> u16
    requires few { x.size ≤ 16384 }
    requires store { x.ls + x.size ≤ 262144 }
    requires memory { x.ea + x.size ≤ length memory.old.bytes }
    requires small { length memory.old.bytes ≤ 67108864 }
    requires there { k < parts_in x }
    ensures store { (P : Spe) (m : MainMemory) (reserved : List (Option Reserved)) → ShowsMemory memory.old m reserved → P.store ≡ store.old → (copied m P put_it (part_in x k)).spe ≡ record P { store = store.new } }
    ensures memory { (P : Spe) (m : MainMemory) (reserved : List (Option Reserved)) → ShowsMemory memory.old m reserved → P.store ≡ store.old → ShowsMemory memory.new (copied m P put_it (part_in x k)).memory reserved }
    ensures losers { (P : Spe) (m : MainMemory) (reserved : List (Option Reserved)) → ShowsMemory memory.old m reserved → P.store ≡ store.old → Loses result m reserved (copied m P put_it (part_in x k)).memory }
    ensures size { HasSameSize memory.old.locks memory.new.locks }
{
    let y = part(x.ls, x.ea, x.size, k);
    if put_it {
        put_part(store, memory, y)
    } else {
        get_part(store, &memory.bytes, y);
        0
    }
}

/// The signal of an element, whose effective address numbers a register.
pub(crate) fn signal(store: &LocalStore, x: Element) -> Delivery
    requires { IsSignal x }
    ensures sent { (P : Spe) → P.store ≡ store.now → result ≡ delivery P (part_in x 0) }
    ensures register { IsRegister result.register }
{
    Delivery {
        spe: (x.ea / 2) as u8,
        register: (x.ea % 2 + 1) as u8,
        value: store.word(x.ls),
    }
}

/// Moves part `k` of an element of a command of this kind, and answers what that does to other processors.
fn move_part(
    store: &mut LocalStore,
    memory: &mut SharedMemory,
    kind: Kind,
    x: Element,
    k: u32,
) -> RemoteChange
    requires few { x.size ≤ 16384 }
    requires store { x.ls + x.size ≤ 262144 }
    requires memory { x.ea + x.size ≤ length memory.old.bytes }
    requires small { length memory.old.bytes ≤ 67108864 }
    requires there { k < parts_in x }
    requires signal { is_signal kind ≡ true → IsSignal x }
    ensures store { (P : Spe) (m : MainMemory) (reserved : List (Option Reserved)) → ShowsMemory memory.old m reserved → P.store ≡ store.old → (moved m P kind (part_in x k)).spe ≡ record P { store = store.new } }
    ensures memory { (P : Spe) (m : MainMemory) (reserved : List (Option Reserved)) → ShowsMemory memory.old m reserved → P.store ≡ store.old → ShowsMemory memory.new (moved m P kind (part_in x k)).memory reserved }
    ensures change { (P : Spe) (m : MainMemory) (reserved : List (Option Reserved)) → ShowsMemory memory.old m reserved → P.store ≡ store.old → IsRemoteChange result m reserved (moved m P kind (part_in x k)) }
    ensures register { IsDelivery result.sent }
    ensures size { HasSameSize memory.old.locks memory.new.locks }
{
    if is_signal(kind) {
        return RemoteChange {
            sent: Some(signal(store, x)),
            losers: 0,
        };
    }
    RemoteChange {
        sent: None,
        losers: copy(store, memory, is_put(kind), x, k),
    }
}

impl Processor {
    ghost use Rattle.cell_machine.specs.Shows.{ShowsSpe, CanStep};

    /// Whether its flow controller refused a command or an element, and makes no more steps.
    pub(crate) fn is_faulted(&self) -> bool
        ensures { result ≡ is_faulted self.now.status }
    {
        matches!(self.status, Status::DmaFault { .. })
    }

    /// Tells the stall of a list in the stall status, if there is one.
    fn tell(&mut self, stalls: bool, tag: u8)
        requires { tag < 32 }
        ensures { (P : Spe) → ShowsSpe self.old P → ShowsSpe self.new (if stalls then told P tag else P) }
    {
        if stalls {
            self.channels.stall(tag);
        }
    }

    /// Copies a part, if that is allowed.
    fn piece(
        &mut self,
        memory: &mut SharedMemory,
        cmd: u32,
        elem: u16,
        k: u16,
    ) -> Option<RemoteChange>
        requires can { CanStep (line_count memory.old.locks) self.old }
        requires small { length memory.old.bytes ≤ 67108864 }
        ensures made { (P : Spe) (m : MainMemory) (reserved : List (Option Reserved)) → ShowsSpe self.old P → ShowsMemory memory.old m reserved → Makes result (piece m P cmd elem k) (λ r x. ShowsSpe self.new x.spe × ShowsMemory memory.new x.memory reserved × IsRemoteChange r m reserved x) }
        ensures register { IfSome result (λ r. IsDelivery r.sent) }
        ensures refused { IfNone result ((self.new ≡ self.old) × (memory.new ≡ memory.old)) }
        ensures size { HasSameSize memory.old.locks memory.new.locks }
    {
        if self.is_faulted() {
            return None;
        }
        let Some(x) = self.commands.part_left(cmd, elem, k as u32) else {
            return None;
        };
        let command = self.commands.queue.command(cmd);
        let change = move_part(&mut self.store, memory, command.kind, x, k as u32);
        let stalls = self.commands.mark(cmd, k as u32);
        self.tell(stalls, command.tag);
        Some(change)
    }

    /// Reads the next element of a list, if that is allowed. A faulty one takes the place of any status.
    fn elem(&mut self, lines: u32, cmd: u32) -> bool
        requires can { CanStep lines self.old }
        requires lines { lines ≤ 524288 }
        ensures made { (P : Spe) → ShowsSpe self.old P → MatchBool result (IsSomeAnd (elem lines P cmd) (ShowsSpe self.new)) (elem lines P cmd ≡ None) }
        ensures refused { OnFalse result (self.new ≡ self.old) }
    {
        if self.is_faulted() {
            return false;
        }
        let Some(mut list) = self.commands.next_list(cmd) else {
            return false;
        };
        let Some(at) = list.next_at() else {
            unreachable!();
        };
        match list.read_element(self.store.word(at), self.store.word(at + 4), lines) {
            Ok(x) => {
                let tag = self.commands.queue.command(cmd).tag;
                let stalls = self.commands.begin(lines, cmd, list, x);
                self.tell(stalls, tag);
            }
            Err(kind) => self.status = Status::DmaFault { kind },
        }
        true
    }

    /// Whether a command may be retired.
    pub(crate) fn may_retire(&self, cmd: u32) -> bool
        requires { IsKept self.now.commands.queue }
        ensures may { (P : Spe) → ShowsSpe self.now P → result ≡ may_retire P cmd }
        ensures there { OnTrue result (IsOneOf self.now.commands.queue cmd) }
    {
        !self.is_faulted() && self.commands.may_retire(cmd)
    }

    /// Retires a command, if that is allowed.
    fn retire(&mut self, cmd: u32) -> bool
        requires { IsKept self.old.commands.queue }
        ensures made { (P : Spe) → ShowsSpe self.old P → MatchBool result (IsSomeAnd (retire P cmd) (ShowsSpe self.new)) (retire P cmd ≡ None) }
        ensures refused { OnFalse result (self.new ≡ self.old) }
    {
        if !self.may_retire(cmd) {
            return false;
        }
        self.commands.retire(cmd);
        true
    }

    /// Makes a piece and ends the step, or leaves all as it is where the piece isn't allowed.
    pub(crate) fn piece_step(
        &mut self,
        memory: &mut SharedMemory,
        cmd: u32,
        elem: u16,
        k: u16,
    ) -> Option<RemoteChange>
        requires can { CanStep (line_count memory.old.locks) self.old }
        requires small { length memory.old.bytes ≤ 67108864 }
        ensures made { (P : Spe) (m : MainMemory) (reserved : List (Option Reserved)) → ShowsSpe self.old P → ShowsMemory memory.old m reserved → Makes result (piece m P cmd elem k) (λ r x. ShowsSpe self.new (with_flow P x.spe) × ShowsMemory memory.new x.memory reserved × IsRemoteChange r m reserved x) }
        ensures register { IfSome result (λ r. IsDelivery r.sent) }
        ensures refused { IfNone result ((self.new ≡ self.old) × (memory.new ≡ memory.old)) }
        ensures size { HasSameSize memory.old.locks memory.new.locks }
    {
        let before = self.load();
        let Some(change) = self.piece(memory, cmd, elem, k) else {
            return None;
        };
        self.raise_since(before);
        self.settle();
        Some(change)
    }

    /// Reads an element and ends the step, or leaves all as it is where that isn't allowed.
    pub(crate) fn elem_step(&mut self, lines: u32, cmd: u32) -> bool
        requires can { CanStep lines self.old }
        requires lines { lines ≤ 524288 }
        ensures made { (P : Spe) → ShowsSpe self.old P → MatchBool result (IsSomeAnd (elem lines P cmd) (λ Q. ShowsSpe self.new (with_flow P Q))) (elem lines P cmd ≡ None) }
        ensures refused { OnFalse result (self.new ≡ self.old) }
    {
        let before = self.load();
        if !self.elem(lines, cmd) {
            return false;
        }
        self.raise_since(before);
        self.settle();
        true
    }

    /// Retires a command and ends the step, or leaves all as it is where that isn't allowed.
    pub(crate) fn retire_step(&mut self, cmd: u32) -> bool
        requires { IsKept self.old.commands.queue }
        ensures made { (P : Spe) → ShowsSpe self.old P → MatchBool result (IsSomeAnd (retire P cmd) (λ Q. ShowsSpe self.new (with_flow P Q))) (retire P cmd ≡ None) }
        ensures refused { OnFalse result (self.new ≡ self.old) }
    {
        let before = self.load();
        if !self.retire(cmd) {
            return false;
        }
        self.raise_since(before);
        self.settle();
        true
    }

    /// Fixes a tag status where a request's condition holds, which is an event.
    pub(crate) fn settle(&mut self)
        ensures { (P : Spe) → ShowsSpe self.old P → ShowsSpe self.new (with_fixed P) }
    {
        if !self.tags.pending() {
            return;
        }
        let busy = self.commands.queue.busy();
        let fixed = self.tags.would_settle(busy);
        self.tags.settle(busy, self.commands.queue.issued());
        self.raise_if(fixed, TAG_STATUS);
    }
}
