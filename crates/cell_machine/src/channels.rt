//! The channel instructions of a processor.

ghost use Rattle.std.specs.Prelude.{◌≡◌, ◌≢◌, ◌==◌, false, ◌<◌, ◌≤◌, ℕ, List, [], ◌∷◌, length, is_some, true, None, Some, IsSomeAnd, MatchBool, nat_le, ◌&&◌};
ghost use Rattle.std.specs.Bool.{OnFalse, OnTrue};
ghost use Rattle.spu_decode.specs.Spelling.{FieldsFit};
ghost use Rattle.spu_exec.specs.Meaning.{meaning};
ghost use Rattle.spu_exec.specs.Places.{RegisterFits};
ghost use Rattle.cell_machine.specs.Spe.{Spe};
ghost use Rattle.mfc_queue.specs.Calls.{Call, outstanding};
ghost use Rattle.mfc_queue.specs.Stands.{StandsFor};
ghost use Rattle.cell_signals.specs.Registers.{register_of};
ghost use Rattle.cell_signals.specs.Events.{status_of};
ghost use Rattle.cell_machine.specs.Limits.{IsRegister};
ghost use Rattle.cell_machine.specs.OwnEvents.{with_freed};
ghost use Rattle.cell_machine.specs.Channels.{channel, count, is_atomic, may_write, given, went_on, read_signal, read_inbound, read_status, read_atomic, read_stalls, acknowledged, commanded};
ghost use Rattle.cell_channels.specs.Table.{way_of};
ghost use Rattle.cell_machine.specs.Exec.{op_of};

use crate::events::{QUEUE_FREED, ceases};
use crate::processor::Processor;
use crate::status::Status;
use cell_base::{ChannelOp, Quad};
use cell_channels::{
    Counts, MFC_CMD, MFC_LSA, MFC_RD_ATOMIC_STAT, MFC_RD_LIST_STALL_STAT, MFC_RD_TAG_MASK,
    MFC_RD_TAG_STAT, MFC_TAG_ID, MFC_WR_LIST_STALL_ACK, MFC_WR_TAG_MASK, MFC_WR_TAG_UPDATE,
    SPU_RD_EVENT_MASK, SPU_RD_EVENT_STAT, SPU_RD_IN_MBOX, SPU_RD_SIG_NOTIFY_1, SPU_RD_SIG_NOTIFY_2,
    SPU_WR_EVENT_ACK, SPU_WR_EVENT_MASK, SPU_WR_OUT_INTR_MBOX, SPU_WR_OUT_MBOX, way,
};
use mfc_command::{AtomicOp, DmaFault, Order, check, is_atomic};
use spu_decode::{Instr, Row};
use spu_exec::next_pc;
use spu_regs::Regs;

/// How many values each of the two outbound mailboxes takes.
const OUTBOUND_PLACES: u32 = 1;

/// The channel operation that an instruction asks for, if it is a channel instruction.
#[inline(always)]
#[tactic(auto, unfolding(spu_exec::specs::Meaning::meaning))]
pub(crate) fn operation(i: Instr, registers: &Regs) -> Option<ChannelOp>
    requires { FieldsFit i }
    ensures { (pc : ℕ) (store : List ℕ) → result ≡ op_of (meaning i pc registers.now store).flow }
{
    match i.row {
        Row::Rdch => Some(ChannelOp::Read { rt: i.rt, ch: i.ra }),
        Row::Rchcnt => Some(ChannelOp::Count { rt: i.rt, ch: i.ra }),
        Row::Wrch => {
            let value = registers.get(i.rt).word(0);
            Some(ChannelOp::Write { ch: i.ra, value })
        }
        _ => None,
    }
}

/// Whether a channel holds a parameter of the next command.
pub(crate) fn is_param(ch: u8) -> bool
    ensures { result ≡ (nat_le 16 ch && nat_le ch 20) }
{
    ch >= MFC_LSA && ch <= MFC_TAG_ID
}

impl Processor {
    ghost use Rattle.cell_machine.specs.Shows.{ShowsSpe, ShowsChannels, CanIssue};

    /// The count of a channel.
    fn count(&self, ch: u8) -> u32
        ensures { (P : Spe) → ShowsSpe self.now P → is_some (way_of ch) ≡ true → result ≡ count P ch }
    {
        let counts = Counts {
            free: self.commands.queue.free(),
            tags: self.tags.ready(),
            inbound: self.inbound.len(),
            outbound: OUTBOUND_PLACES - self.outbound.len(),
            intr: OUTBOUND_PLACES - self.interrupt.len(),
            sig1: self.signals.ready(1),
            sig2: self.signals.ready(2),
            event: self.events.status() != 0,
        };
        match self.channels.count(ch, counts) {
            Ok(count) => count,
            Err(_) => 0,
        }
    }

    /// Goes on to the next instruction.
    fn go_on(&mut self)
        ensures { (P : Spe) → ShowsSpe self.old P → ShowsSpe self.new (went_on P) }
    {
        self.pc = next_pc(self.pc);
    }

    /// Goes on with a value in word 0 of a register, and zeros after it.
    fn give(&mut self, rt: u8, value: u32)
        requires { rt < 128 }
        ensures { (P : Spe) → ShowsSpe self.old P → ShowsSpe self.new (given P rt value) }
    {
        self.registers.set(rt, Quad::in_first_word(value));
        self.go_on();
    }

    /// Reads a channel, and says whether that was allowed.
    fn read_channel(&mut self, rt: u8, ch: u8) -> bool
        requires { rt < 128 }
        ensures made { (lines : ℕ) (P : Spe) → ShowsSpe self.old P → MatchBool result (IsSomeAnd (channel lines P (ChannelOp.Read rt ch)) (ShowsSpe self.new)) (channel lines P (ChannelOp.Read rt ch) ≡ None) }
        ensures refused { OnFalse result (self.new ≡ self.old) }
    {
        match ch {
            SPU_RD_EVENT_STAT => self.read_events(rt),
            SPU_RD_SIG_NOTIFY_1 => self.read_signal(rt, 1),
            SPU_RD_SIG_NOTIFY_2 => self.read_signal(rt, 2),
            SPU_RD_EVENT_MASK => {
                let mask = self.events.mask();
                self.give(rt, mask);
                true
            }
            MFC_RD_TAG_MASK => {
                let mask = self.tags.mask();
                self.give(rt, mask);
                true
            }
            MFC_RD_TAG_STAT => self.read_status(rt),
            MFC_RD_LIST_STALL_STAT => self.read_stalls(rt),
            MFC_RD_ATOMIC_STAT => self.read_atomic(rt),
            SPU_RD_IN_MBOX => self.read_inbound(rt),
            _ => {
                self.status = Status::BadChannel;
                true
            }
        }
    }

    /// Reads the event status, if it isn't 0. It stays until it is acknowledged.
    fn read_events(&mut self, rt: u8) -> bool
        requires { rt < 128 }
        ensures made { (P : Spe) → ShowsSpe self.old P → MatchBool result (((status_of P.events == 0) ≡ false) × ShowsSpe self.new (given P rt (status_of P.events))) ((status_of P.events == 0) ≡ true) }
        ensures refused { OnFalse result (self.new ≡ self.old) }
    {
        let status = self.events.status();
        if status == 0 {
            return false;
        }
        self.give(rt, status);
        true
    }

    /// Takes the value of a signal register, if it is ready.
    fn read_signal(&mut self, rt: u8, register: u8) -> bool
        requires rt { rt < 128 }
        requires register { IsRegister register }
        ensures made { (P : Spe) → ShowsSpe self.old P → MatchBool result (((register_of P.signals register).ready ≡ true) × ShowsSpe self.new (read_signal P rt register)) ((register_of P.signals register).ready ≡ false) }
        ensures refused { OnFalse result (self.new ≡ self.old) }
    {
        if !self.signals.ready(register) {
            return false;
        }
        match self.signals.read(register) {
            Ok(value) => {
                self.give(rt, value);
                true
            }
            Err(_) => unreachable!(),
        }
    }

    /// Reads the tag status, if one is fixed.
    fn read_status(&mut self, rt: u8) -> bool
        requires { rt < 128 }
        ensures made { (P : Spe) → ShowsSpe self.old P → MatchBool result (IsSomeAnd (read_status P rt P.tags.status) (ShowsSpe self.new)) (read_status P rt P.tags.status ≡ None) }
        ensures refused { OnFalse result (self.new ≡ self.old) }
    {
        if !self.tags.ready() {
            return false;
        }
        match self.tags.read() {
            Ok(status) => {
                self.give(rt, status.groups);
                true
            }
            Err(_) => unreachable!(),
        }
    }

    /// Reads the stall status and clears it, if it has a bit.
    fn read_stalls(&mut self, rt: u8) -> bool
        requires { rt < 128 }
        ensures made { (P : Spe) → ShowsSpe self.old P → MatchBool result (((P.channels.stalls == 0) ≡ false) × ShowsSpe self.new (read_stalls P rt)) ((P.channels.stalls == 0) ≡ true) }
        ensures refused { OnFalse result (self.new ≡ self.old) }
    {
        if !self.channels.has_stall() {
            return false;
        }
        match self.channels.read_stall() {
            Ok(bits) => {
                self.give(rt, bits);
                true
            }
            Err(_) => unreachable!(),
        }
    }

    /// Reads the status of the atomic command that was done last, if it wasn't read.
    fn read_atomic(&mut self, rt: u8) -> bool
        requires { rt < 128 }
        ensures made { (P : Spe) → ShowsSpe self.old P → MatchBool result (IsSomeAnd (read_atomic P rt P.channels.atomic) (ShowsSpe self.new)) (read_atomic P rt P.channels.atomic ≡ None) }
        ensures refused { OnFalse result (self.new ≡ self.old) }
    {
        if !self.channels.has_atomic() {
            return false;
        }
        match self.channels.read_atomic() {
            Ok(status) => {
                self.give(rt, status);
                true
            }
            Err(_) => unreachable!(),
        }
    }

    /// Reads the oldest value of the inbound mailbox, if there is one.
    fn read_inbound(&mut self, rt: u8) -> bool
        requires { rt < 128 }
        ensures made { (P : Spe) → ShowsSpe self.old P → MatchBool result (IsSomeAnd (read_inbound P rt P.inbound) (ShowsSpe self.new)) (read_inbound P rt P.inbound ≡ None) }
        ensures refused { OnFalse result (self.new ≡ self.old) }
    {
        let Some(value) = self.inbound.take() else {
            return false;
        };
        self.give(rt, value);
        true
    }

    /// Reads the count of a channel.
    fn count_channel(&mut self, rt: u8, ch: u8)
        requires { rt < 128 }
        ensures { (lines : ℕ) (P : Spe) → ShowsSpe self.old P → IsSomeAnd (channel lines P (ChannelOp.Count rt ch)) (ShowsSpe self.new) }
    {
        match way(ch) {
            None => self.status = Status::BadChannel,
            Some(_) => {
                let value = self.count(ch);
                self.give(rt, value);
            }
        }
    }

    /// Writes a value to a channel, and says whether that was allowed.
    fn write_channel(&mut self, lines: u32, ch: u8, value: u32) -> bool
        requires number { CanIssue self.old.commands }
        requires lines { lines ≤ 524288 }
        ensures made { (P : Spe) → ShowsSpe self.old P → MatchBool result (IsSomeAnd (channel lines P (ChannelOp.Write ch value)) (λ Q. ShowsSpe self.new (with_freed P Q))) (channel lines P (ChannelOp.Write ch value) ≡ None) }
        ensures refused { OnFalse result (self.new ≡ self.old) }
    {
        match ch {
            SPU_WR_EVENT_MASK => {
                self.events.set_mask(value);
                self.go_on();
                true
            }
            SPU_WR_EVENT_ACK => {
                self.events.acknowledge(value);
                self.go_on();
                true
            }
            MFC_CMD => self.write_command(lines, value),
            MFC_WR_TAG_MASK => {
                self.tags.set_mask(value);
                self.go_on();
                true
            }
            MFC_WR_TAG_UPDATE => {
                self.tags.request(value);
                self.go_on();
                true
            }
            MFC_WR_LIST_STALL_ACK => {
                self.acknowledge(value);
                self.go_on();
                true
            }
            SPU_WR_OUT_MBOX => self.put_outbound(value),
            SPU_WR_OUT_INTR_MBOX => self.put_interrupt(value),
            _ => {
                self.write_param(ch, value);
                true
            }
        }
    }

    /// Lets all lists of a tag that stall go on. The queue may come to have a free place by that, which is an event.
    fn acknowledge(&mut self, tag: u32)
        requires { CanIssue self.old.commands }
        ensures { (P : Spe) → ShowsSpe self.old P → ShowsSpe self.new (with_freed P (acknowledged P tag)) }
    {
        let was_full = self.is_queue_full();
        self.commands.acknowledge(tag);
        let is_full = self.is_queue_full();
        self.raise_if(ceases(was_full, is_full), QUEUE_FREED);
    }

    /// Sets a parameter of the next command, where the channel holds one.
    fn write_param(&mut self, ch: u8, value: u32)
        requires other { (ch ≢ 1) × (ch ≢ 2) × (ch ≢ 21) × (ch ≢ 22) × (ch ≢ 23) × (ch ≢ 26) × (ch ≢ 28) × (ch ≢ 30) }
        ensures { (lines : ℕ) (P : Spe) → ShowsSpe self.old P → IsSomeAnd (channel lines P (ChannelOp.Write ch value)) (ShowsSpe self.new) }
    {
        if !is_param(ch) {
            self.status = Status::BadChannel;
            return;
        }
        self.channels.set_param(ch, value);
        self.go_on();
    }

    /// Whether a command may be asked for: an atomic one where the slot is free, every other where the queue has a free place.
    pub(crate) fn may_command(&self, op: u32) -> bool
        ensures may { (P : Spe) → ShowsChannels self.now P → result ≡ may_write P 21 op }
        ensures free { OnTrue result (is_atomic op ≡ false → (calls : List Call) → StandsFor self.now.commands.queue calls → length (outstanding calls) < 16) }
        ensures slot { OnTrue result (is_atomic op ≡ true → self.now.channels.slot ≡ None) }
    {
        if is_atomic(op) {
            self.channels.slot().is_none()
        } else {
            self.commands.queue.free() > 0
        }
    }

    /// Asks for a command, if that is allowed.
    fn write_command(&mut self, lines: u32, op: u32) -> bool
        requires number { CanIssue self.old.commands }
        requires lines { lines ≤ 524288 }
        ensures made { (P : Spe) → ShowsSpe self.old P → MatchBool result (IsSomeAnd (channel lines P (ChannelOp.Write 21 op)) (ShowsSpe self.new)) (channel lines P (ChannelOp.Write 21 op) ≡ None) }
        ensures refused { OnFalse result (self.new ≡ self.old) }
    {
        if !self.may_command(op) {
            return false;
        }
        self.command(lines, op);
        true
    }

    /// Issues the command that is asked for and goes on, or comes to a fault.
    #[tactic(auto, unfolding(crate::specs::Channels::commanded))]
    fn command(&mut self, lines: u32, op: u32)
        requires number { CanIssue self.old.commands }
        requires lines { lines ≤ 524288 }
        requires free { is_atomic op ≡ false → (calls : List Call) → StandsFor self.old.commands.queue calls → length (outstanding calls) < 16 }
        requires slot { is_atomic op ≡ true → self.old.channels.slot ≡ None }
        ensures { (P : Spe) → ShowsSpe self.old P → ShowsSpe self.new (commanded lines P op) }
    {
        match check(self.channels.params(), op, lines) {
            Ok(Order::Queued(command)) => {
                self.commands.issue(lines, command);
                self.go_on();
            }
            Ok(Order::Atomic(a)) => {
                self.fill_slot(a);
                self.go_on();
            }
            Err(kind) => self.refuse(kind),
        }
    }

    /// Puts an atomic command into the slot, which is free.
    fn fill_slot(&mut self, a: AtomicOp)
        requires { self.old.channels.slot ≡ None }
        ensures { (P : Spe) → ShowsSpe self.old P → ShowsSpe self.new (record P { channels = record P.channels { slot = Some a } }) }
    {
        match self.channels.set_slot(a) {
            Ok(()) => {}
            Err(_) => unreachable!(),
        }
    }

    /// Comes to a fault, with the PC at the instruction.
    fn refuse(&mut self, kind: DmaFault)
        ensures { (P : Spe) → ShowsSpe self.old P → ShowsSpe self.new (record P { status = Status.DmaFault kind }) }
    {
        self.status = Status::DmaFault { kind };
    }

    /// Puts a value into the outbound mailbox and goes on, if it has a free place.
    fn put_outbound(&mut self, value: u32) -> bool
        ensures made { (P : Spe) → ShowsSpe self.old P → MatchBool result ((P.outbound ≡ []) × ShowsSpe self.new (went_on (record P { outbound = value ∷ [] }))) (length P.outbound ≡ 1) }
        ensures refused { OnFalse result (self.new ≡ self.old) }
    {
        if self.outbound.put(value).is_err() {
            return false;
        }
        self.go_on();
        true
    }

    /// Puts a value into the outbound interrupt mailbox and goes on, if it has a free place.
    fn put_interrupt(&mut self, value: u32) -> bool
        ensures made { (P : Spe) → ShowsSpe self.old P → MatchBool result ((P.interrupt ≡ []) × ShowsSpe self.new (went_on (record P { interrupt = value ∷ [] }))) (length P.interrupt ≡ 1) }
        ensures refused { OnFalse result (self.new ≡ self.old) }
    {
        if self.interrupt.put(value).is_err() {
            return false;
        }
        self.go_on();
        true
    }

    /// Does a channel operation, and says whether it was allowed. Where it wasn't, nothing changes.
    #[inline(never)]
    pub(crate) fn channel(&mut self, lines: u32, op: ChannelOp) -> bool
        requires register { RegisterFits op }
        requires number { CanIssue self.old.commands }
        requires lines { lines ≤ 524288 }
        ensures made { (P : Spe) → ShowsSpe self.old P → MatchBool result (IsSomeAnd (channel lines P op) (λ Q. ShowsSpe self.new (with_freed P Q))) (channel lines P op ≡ None) }
        ensures refused { OnFalse result (self.new ≡ self.old) }
    {
        match op {
            ChannelOp::Read { rt, ch } => self.read_channel(rt, ch),
            ChannelOp::Count { rt, ch } => {
                self.count_channel(rt, ch);
                true
            }
            ChannelOp::Write { ch, value } => self.write_channel(lines, ch, value),
        }
    }

    /// Whether a channel operation is allowed.
    #[inline(always)]
    pub(crate) fn is_ready(&self, op: ChannelOp) -> bool
        ensures { (lines : ℕ) (P : Spe) → ShowsChannels self.now P → result ≡ is_some (channel lines P op) }
    {
        match op {
            ChannelOp::Read { ch, .. } => self.may_read(ch),
            ChannelOp::Count { .. } => true,
            ChannelOp::Write { ch, value } => self.may_write(ch, value),
        }
    }

    /// Whether a read of a channel is allowed.
    fn may_read(&self, ch: u8) -> bool
        ensures { (lines : ℕ) (P : Spe) (rt : ℕ) → ShowsChannels self.now P → result ≡ is_some (channel lines P (ChannelOp.Read rt ch)) }
    {
        match ch {
            SPU_RD_EVENT_STAT => self.events.status() != 0,
            SPU_RD_SIG_NOTIFY_1 => self.signals.ready(1),
            SPU_RD_SIG_NOTIFY_2 => self.signals.ready(2),
            MFC_RD_TAG_STAT => self.tags.ready(),
            MFC_RD_LIST_STALL_STAT => self.channels.has_stall(),
            MFC_RD_ATOMIC_STAT => self.channels.has_atomic(),
            SPU_RD_IN_MBOX => self.inbound.len() > 0,
            _ => true,
        }
    }

    /// Whether a write to a channel is allowed.
    fn may_write(&self, ch: u8, value: u32) -> bool
        ensures { (lines : ℕ) (P : Spe) → ShowsChannels self.now P → result ≡ is_some (channel lines P (ChannelOp.Write ch value)) }
    {
        match ch {
            MFC_CMD => self.may_command(value),
            SPU_WR_OUT_MBOX => self.outbound.len() < OUTBOUND_PLACES,
            SPU_WR_OUT_INTR_MBOX => self.interrupt.len() < OUTBOUND_PLACES,
            _ => true,
        }
    }
}
