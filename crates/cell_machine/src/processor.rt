//! One processor.

ghost use Rattle.std.specs.Prelude.{◌≡◌, ℕ, ◌+◌, ◌<◌, ◌≤◌, List, length, is_some, None, Some, true, false, IfOk, IsSome, IsSomeAnd, MatchBool, All, slice_get};
ghost use Rattle.spu_decode.specs.declared.Instr.{Instr};
ghost use Rattle.spu_decode.specs.Spelling.{FieldsFit, instr_of};
ghost use Rattle.local_store.specs.Store.{word_at};
ghost use Rattle.spu_exec.specs.Meaning.{meaning};
ghost use Rattle.std.specs.Bool.{OnFalse};
ghost use Rattle.spu_exec.specs.Places.{IsPlace, LeadsToPlace, RegisterFits};
ghost use Rattle.cell_base.specs.declared.steps.ChannelOp.{ChannelOp};
ghost use Rattle.cell_machine.specs.Spe.{Spe, is_running};
ghost use Rattle.cell_machine.specs.Moves.{outstanding};
ghost use Rattle.cell_machine.specs.Exec.{exec, followed, op_of, asks};
ghost use Rattle.cell_machine.specs.Kept.{IsKept};
ghost use Rattle.cell_machine.specs.Shown.{shown_from};
ghost use Rattle.cell_machine.specs.Opening.{placed_in};
ghost use Rattle.cell_machine.specs.Limits.{shown};
ghost use Rattle.cell_machine.specs.OwnEvents.{with_freed, with_fixed};

use crate::channels::operation;
use crate::commands::Commands;
use crate::error::MachineError;
use crate::outstanding::Outstanding;
use crate::setup::{PlacedBytes, is_or};
use crate::status::Status;
use cell_base::ChannelOp;
use cell_channels::Channels;
use cell_signals::{Events, Signals};
use local_store::LocalStore;
use mailboxes::Mailbox;
use spu_decode::{Instr, Row, decode, row_spelled};
use spu_exec::{Flow, exec};
use spu_regs::Regs;
use std::alloc::Global;
use tag_groups::Tags;

/// How many places the queue of commands has.
const QUEUE_PLACES: u32 = 16;

/// A processor as it stands.
#[derive(Drop)]
pub(crate) struct Processor {
    pub(crate) status: Status,
    pub(crate) pc: u32,
    pub(crate) registers: Regs,
    pub(crate) store: LocalStore,
    pub(crate) inbound: Mailbox<4>,
    pub(crate) outbound: Mailbox<1>,
    pub(crate) interrupt: Mailbox<1>,
    pub(crate) channels: Channels,
    pub(crate) tags: Tags,
    pub(crate) signals: Signals,
    pub(crate) events: Events,
    pub(crate) commands: Commands,
    ghost here: { IsPlace pc },
}

/// Copies in what is placed in the store of processor `spe`.
fn place_bytes(store: &mut LocalStore, spe: u8, placed: &[PlacedBytes])
    requires { All (λ x. x.at + length x.bytes.items ≤ 262144) placed.now }
    ensures { store.new ≡ placed_in store.old spe (shown placed.now) }
{
    for piece in placed {
        if piece.spe != spe {
            continue;
        }
        store.copy_in(piece.at, &piece.bytes);
    }
}

/// Whether an instruction of this row may be a channel instruction.
#[inline(always)]
#[tactic(auto, unfolding(spu_exec::specs::Meaning::meaning))]
fn may_operate(row: Option<Row>) -> bool
    ensures { (i : Instr) (pc : ℕ) (registers : List (List ℕ)) (store : List ℕ) → row ≡ Some i.row → result ≡ false → op_of (meaning i pc registers store).flow ≡ None }
{
    matches!(row, Some(Row::Rdch | Row::Rchcnt | Row::Wrch))
}

impl Processor {
    ghost use Rattle.cell_machine.specs.Opening.{Opening, opening_spe};
    ghost use Rattle.cell_machine.specs.Shows.{ShowsSpe, CanIssue};
    ghost use Rattle.cell_machine.specs.Blocked.{IsBlocked};
    ghost use Rattle.cell_machine.specs.Run.{is_quiet_spe};

    /// A processor at its start.
    pub(crate) fn new(
        alloc: Global,
        spe: u8,
        entry: u32,
        or_modes: u32,
        placed: &[PlacedBytes],
    ) -> Result<Processor, MachineError>
        requires small { spe < 16 }
        requires here { IsPlace entry }
        requires fits { All (λ x. x.at + length x.bytes.items ≤ 262144) placed.now }
        ensures { IfOk result (λ c. (S : Opening) → S.or_modes ≡ or_modes → S.placed ≡ shown placed.now → ShowsSpe c (opening_spe S (spe, entry))) }
    {
        let registers = Regs::new(alloc)?;
        let mut store = LocalStore::new(alloc)?;
        place_bytes(&mut store, spe, placed);
        Ok(Processor {
            status: Status::Running,
            pc: entry,
            registers,
            store,
            inbound: Mailbox::new(),
            outbound: Mailbox::new(),
            interrupt: Mailbox::new(),
            channels: Channels::new(),
            tags: Tags::new(),
            signals: Signals::new(is_or(or_modes, spe, 1), is_or(or_modes, spe, 2)),
            events: Events::new(),
            commands: Commands::new(),
        })
    }

    pub(crate) fn is_running(&self) -> bool
        ensures { result ≡ is_running self.now.status }
    {
        matches!(self.status, Status::Running)
    }

    /// Goes where an instruction leads, and returns whether that was allowed.
    fn follow(&mut self, lines: u32, flow: Flow) -> bool
        requires leads { LeadsToPlace flow }
        requires number { CanIssue self.old.commands }
        requires lines { lines ≤ 524288 }
        requires channel { (op : ChannelOp) → flow ≡ Flow.Channel op → RegisterFits op }
        ensures made { (P : Spe) → ShowsSpe self.old P → MatchBool result (IsSomeAnd (followed lines P flow) (λ Q. ShowsSpe self.new (with_freed P Q))) (followed lines P flow ≡ None) }
        ensures refused { OnFalse result (self.new ≡ self.old) }
        ensures only { OnFalse result (IsSome (op_of flow)) }
    {
        match flow {
            Flow::Next(pc) => {
                self.pc = pc;
                true
            }
            Flow::Stop { code, next } => {
                self.status = Status::Stopped { code };
                self.pc = next;
                true
            }
            Flow::Halt { next } => {
                self.status = Status::Halted;
                self.pc = next;
                true
            }
            Flow::Channel(op) => self.channel(lines, op),
        }
    }

    /// Whether the instruction at the PC is allowed, where it runs: a channel that it asks for is ready.
    #[inline(always)]
    pub(crate) fn may_make(&self, instruction: Instr) -> bool
        requires { FieldsFit instruction }
        ensures { (lines : ℕ) (P : Spe) → ShowsSpe self.now P → is_running self.now.status ≡ true → instr_of (word_at self.now.store self.now.pc) ≡ Some instruction → result ≡ is_some (exec lines P) }
    {
        if !may_operate(Some(instruction.row)) {
            return true;
        }
        match operation(instruction, &self.registers) {
            Some(op) => self.is_ready(op),
            None => true,
        }
    }

    /// Makes the next instruction, and says whether it was allowed. Where it wasn't, nothing changes.
    fn exec(&mut self, lines: u32) -> bool
        requires number { CanIssue self.old.commands }
        requires lines { lines ≤ 524288 }
        ensures made { (P : Spe) → ShowsSpe self.old P → MatchBool result (IsSomeAnd (exec lines P) (λ Q. ShowsSpe self.new (with_freed P Q))) (exec lines P ≡ None) }
        ensures refused { OnFalse result (self.new ≡ self.old) }
        ensures blocked { OnFalse result (IsBlocked self.new) }
    {
        if !self.is_running() {
            return false;
        }
        let Some(instruction) = decode(self.store.word(self.pc)) else {
            self.status = Status::BadWord;
            return true;
        };
        if !self.may_make(instruction) {
            return false;
        }
        let flow = exec(instruction, self.pc, &mut self.registers, &mut self.store);
        self.follow(lines, flow)
    }

    /// Makes the next instruction and ends the step, or leaves all as it is where the instruction isn't allowed.
    pub(crate) fn exec_step(&mut self, lines: u32) -> bool
        requires number { CanIssue self.old.commands }
        requires lines { lines ≤ 524288 }
        ensures made { (P : Spe) → ShowsSpe self.old P → MatchBool result (IsSomeAnd (exec lines P) (λ Q. ShowsSpe self.new (with_fixed (with_freed P Q)))) (exec lines P ≡ None) }
        ensures refused { OnFalse result (self.new ≡ self.old) }
        ensures blocked { OnFalse result (IsBlocked self.new) }
    {
        if !self.exec(lines) {
            return false;
        }
        self.settle();
        true
    }

    /// Whether its next instruction is allowed.
    #[inline(always)]
    pub(crate) fn may_exec(&self) -> bool
        ensures { (lines : ℕ) (P : Spe) → ShowsSpe self.now P → result ≡ is_some (exec lines P) }
    {
        if !self.is_running() {
            return false;
        }
        let word = self.store.word(self.pc);
        if !may_operate(row_spelled(word)) {
            return true;
        }
        let Some(instruction) = decode(word) else {
            return true;
        };
        self.may_make(instruction)
    }

    /// Whether it doesn't run, its atomic slot is free and it has nothing outstanding.
    pub(crate) fn is_quiet(&self) -> bool
        ensures { (P : Spe) → ShowsSpe self.now P → result ≡ is_quiet_spe P }
    {
        if self.is_running() {
            return false;
        }
        if self.channels.slot().is_some() {
            return false;
        }
        self.queued() == 0
    }

    /// How many queued commands are outstanding.
    pub(crate) fn queued(&self) -> u32
        ensures { (P : Spe) → ShowsSpe self.now P → result ≡ length (outstanding P) }
    {
        QUEUE_PLACES.saturating_sub(self.commands.queue.free())
    }

    /// The number of the outstanding command at an index of the queue.
    pub(crate) fn queued_number(&self, index: usize) -> Option<u32>
        ensures { (P : Spe) → ShowsSpe self.now P → result ≡ slice_get (outstanding P) index }
    {
        let (cmd, _) = self.commands.queue.outstanding_at(index)?;
        Some(cmd)
    }

    /// What the next instruction asks of a channel.
    pub(crate) fn asks(&self) -> Option<ChannelOp>
        ensures { (P : Spe) → ShowsSpe self.now P → result ≡ asks P }
    {
        match decode(self.store.word(self.pc)) {
            Some(instruction) => operation(instruction, &self.registers),
            None => None,
        }
    }

    /// The first outstanding command of at least this number, and how far it has come.
    pub(crate) fn outstanding_from(&self, number: u32) -> Option<Outstanding>
        requires { IsKept self.now.commands.queue }
        ensures { (P : Spe) → ShowsSpe self.now P → result ≡ shown_from P number }
    {
        match self.commands.queue.outstanding_from(number) {
            Some(cmd) => Some(self.commands.shown(cmd)),
            None => None,
        }
    }
}
