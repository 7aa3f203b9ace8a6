//! The effect of a processor's next instruction.

ghost use Rattle.std.specs.Prelude.{◌≡◌, ◌≢◌, ℕ, ◌≤◌, List, Option, Some, IsSome, true, false};
ghost use Rattle.std.specs.Option.{option_map, option_map_or};
ghost use Rattle.cell_base.specs.declared.steps.ChannelOp.{ChannelOp};
ghost use Rattle.cell_machine.specs.Spe.{Spe, is_running};
ghost use Rattle.cell_machine.specs.Exec.{exec, followed, op_of};
ghost use Rattle.cell_machine.specs.Channels.{channel};
ghost use Rattle.cell_machine.specs.declared.effect.Note.TheVariants.{Nothing, TagRead};
ghost use Rattle.cell_machine.specs.Effects.{quad_in, told, exec_effect, instr};
ghost use Rattle.spu_decode.specs.declared.Instr.{Instr as AnInstr};
ghost use Rattle.cell_machine.specs.Reaches.{reach, reach_of, reach_of_row};
ghost use Rattle.cell_machine.specs.ReachLaws.{goes_on, uses_no_bytes, FitsReach};
ghost use Rattle.spu_exec.specs.Meaning.{flow_of};
ghost use Rattle.spu_decode.specs.Spelling.{instr_of};
ghost use Rattle.local_store.specs.Store.{word_at};

use crate::channels::is_param;
use crate::effect::{Effect, INBOUND, INTERRUPT, Note, OUTBOUND, Reach, Span};
use crate::effects::{in_store, nowhere};
use crate::processor::Processor;
use cell_base::ChannelOp;
use cell_channels::{
    MFC_CMD, MFC_RD_ATOMIC_STAT, MFC_RD_LIST_STALL_STAT, MFC_RD_TAG_MASK, MFC_RD_TAG_STAT,
    MFC_WR_LIST_STALL_ACK, MFC_WR_TAG_MASK, MFC_WR_TAG_UPDATE, SPU_RD_EVENT_MASK,
    SPU_RD_EVENT_STAT, SPU_RD_IN_MBOX, SPU_RD_SIG_NOTIFY_1, SPU_RD_SIG_NOTIFY_2, SPU_WR_EVENT_ACK,
    SPU_WR_EVENT_MASK, SPU_WR_OUT_INTR_MBOX, SPU_WR_OUT_MBOX, way,
};
use local_store::line_of;
use mfc_command::{Order, check};
use spu_decode::{Row, decode, row_spelled};
use spu_exec::{Flow, leads_to, loads_at, stores_at};

/// The bytes of an instruction in the local store, and of a quadword.
const WORD_BYTES: u32 = 4;

const QUAD_BYTES: u32 = 16;

/// The reach of an instruction of this row.
#[inline(always)]
#[tactic(auto, unfolding(spu_decode::specs::Table::entry_of))]
fn reach_of_row(row: Row) -> Reach
    ensures reach { result ≡ reach_of_row row }
    ensures goes { (i : AnInstr) (pc : ℕ) (a b t : List ℕ) → result ≢ Reach.Other → goes_on (flow_of i row pc a b t) ≡ true }
    ensures registers { (imm pc : ℕ) (a b : List ℕ) → result ≡ Reach.Registers → uses_no_bytes row imm pc a b ≡ true }
    ensures store { (imm pc : ℕ) (a b : List ℕ) → result ≡ Reach.Store → uses_no_bytes row imm pc a b ≡ false }
{
    match row {
        Row::Lqd | Row::Lqx | Row::Lqa | Row::Lqr => Reach::Store,
        Row::Stqd | Row::Stqx | Row::Stqa | Row::Stqr => Reach::Store,
        Row::Heq | Row::Heqi | Row::Hgt | Row::Hgti | Row::Hlgt | Row::Hlgti => Reach::Other,
        Row::Stop | Row::Rdch | Row::Rchcnt | Row::Wrch => Reach::Other,
        _ => Reach::Registers,
    }
}

/// The reach of the instruction that a word spells, `Other` if it spells none.
#[inline(always)]
fn reach_of_word(word: u32) -> Reach
    ensures reach { result ≡ reach_of (instr_of word) }
    ensures fits { (i : AnInstr) → instr_of word ≡ Some i → FitsReach result i.row }
{
    match row_spelled(word) {
        Some(row) => reach_of_row(row),
        None => Reach::Other,
    }
}

/// The quadword of the local store that holds an address, if there is one.
fn quad_in(spe: u8, at: Option<u32>) -> Span
    ensures { result ≡ quad_in spe at }
{
    match at {
        Some(at) => in_store(spe, line_of(at), QUAD_BYTES),
        None => nowhere(),
    }
}

impl Processor {
    ghost use Rattle.cell_machine.specs.Shows.{ShowsSpe, CanIssue};

    /// The effect of the next instruction, `None` if it isn't allowed.
    #[inline(never)]
    pub(crate) fn exec_effect(&self, lines: u32, spe: u8) -> Option<Effect>
        requires number { CanIssue self.now.commands }
        requires lines { lines ≤ 524288 }
        ensures { (P : Spe) → ShowsSpe self.now P → result ≡ option_map (exec_effect spe P) (exec lines P) }
    {
        if !self.may_exec() {
            return None;
        }
        Some(self.allowed_effect(lines, spe))
    }

    /// The effect of the next instruction, which is allowed.
    #[inline(always)]
    pub(crate) fn allowed_effect(&self, lines: u32, spe: u8) -> Effect
        requires number { CanIssue self.now.commands }
        requires lines { lines ≤ 524288 }
        ensures { (P : Spe) → ShowsSpe self.now P → IsSome (exec lines P) → Some result ≡ option_map (exec_effect spe P) (exec lines P) }
    {
        // each effect is built in its own function: inlined here, it would be copied field by field
        let word = self.store.word(self.pc);
        let reach = reach_of_word(word);
        if let Reach::Registers = reach {
            return self.effect_on_registers(spe, word);
        }
        if let Reach::Store = reach {
            return self.effect_on_store(spe, word);
        }
        self.effect_beyond(lines, spe, word)
    }

    /// The effect of an instruction that uses registers alone, the word of which is at the PC.
    #[inline(never)]
    fn effect_on_registers(&self, spe: u8, word: u32) -> Effect
        requires word { word ≡ word_at self.now.store self.now.pc }
        requires reach { reach_of (instr_of word) ≡ Reach.Registers }
        requires fits { (i : AnInstr) → instr_of word ≡ Some i → FitsReach Reach.Registers i.row }
        ensures { (lines : ℕ) (P : Spe) → ShowsSpe self.now P → IsSome (exec lines P) → Some result ≡ option_map (exec_effect spe P) (exec lines P) }
    {
        Effect {
            fetch: in_store(spe, self.pc, WORD_BYTES),
            reads: nowhere(),
            writes: nowhere(),
            note: Note::Nothing,
            fixed: self.fixes(),
        }
    }

    /// The effect of a load or a store, the word of which is at the PC.
    #[inline(never)]
    fn effect_on_store(&self, spe: u8, word: u32) -> Effect
        requires word { word ≡ word_at self.now.store self.now.pc }
        requires reach { reach_of (instr_of word) ≡ Reach.Store }
        requires fits { (i : AnInstr) → instr_of word ≡ Some i → FitsReach Reach.Store i.row }
        ensures { (lines : ℕ) (P : Spe) → ShowsSpe self.now P → IsSome (exec lines P) → Some result ≡ option_map (exec_effect spe P) (exec lines P) }
    {
        let Some(instruction) = decode(word) else {
            unreachable!()
        };
        Effect {
            fetch: in_store(spe, self.pc, WORD_BYTES),
            reads: quad_in(spe, loads_at(instruction, self.pc, &self.registers)),
            writes: quad_in(spe, stores_at(instruction, self.pc, &self.registers)),
            note: Note::Nothing,
            fixed: self.fixes(),
        }
    }

    /// The effect of any instruction, which is allowed and the word of which is at the PC.
    #[inline(never)]
    fn effect_beyond(&self, lines: u32, spe: u8, word: u32) -> Effect
        requires number { CanIssue self.now.commands }
        requires lines { lines ≤ 524288 }
        requires word { word ≡ word_at self.now.store self.now.pc }
        ensures { (P : Spe) → ShowsSpe self.now P → IsSome (exec lines P) → Some result ≡ option_map (exec_effect spe P) (exec lines P) }
    {
        let Some(instruction) = decode(word) else {
            return self.bad_word_effect(spe);
        };
        let flow = leads_to(instruction, self.pc, &self.registers);
        Effect {
            fetch: in_store(spe, self.pc, WORD_BYTES),
            reads: quad_in(spe, loads_at(instruction, self.pc, &self.registers)),
            writes: quad_in(spe, stores_at(instruction, self.pc, &self.registers)),
            note: self.tells(lines, spe, flow),
            fixed: self.fixes_by(lines, flow),
        }
    }

    /// The effect of the word at the PC, which spells no instruction.
    fn bad_word_effect(&self, spe: u8) -> Effect
        ensures { (lines : ℕ) (P : Spe) → ShowsSpe self.now P → IsSome (exec lines P) → instr P ≡ None → Some result ≡ option_map (exec_effect spe P) (exec lines P) }
    {
        Effect {
            fetch: in_store(spe, self.pc, WORD_BYTES),
            reads: nowhere(),
            writes: nowhere(),
            note: Note::Ended,
            fixed: self.fixes(),
        }
    }

    /// The reach of the next instruction, `Other` if the processor doesn't run.
    pub(crate) fn reach(&self) -> Reach
        ensures reach { (P : Spe) → ShowsSpe self.now P → result ≡ reach P }
        ensures row { (P : Spe) (i : AnInstr) → ShowsSpe self.now P → instr P ≡ Some i → FitsReach result i.row }
    {
        if !self.is_running() {
            return Reach::Other;
        }
        reach_of_word(self.store.word(self.pc))
    }

    /// The note of an allowed instruction with this flow.
    fn tells(&self, lines: u32, spe: u8, flow: Flow) -> Note
        requires { lines ≤ 524288 }
        ensures { (P Q : Spe) (registers : List (List ℕ)) (store : List ℕ) → ShowsSpe self.now P → is_running P.status ≡ true → followed lines (record P { registers = registers; store = store }) flow ≡ Some Q → result ≡ told spe P Q (op_of flow) }
    {
        match flow {
            Flow::Next(_) => Note::Nothing,
            Flow::Stop { .. } => Note::Ended,
            Flow::Halt { .. } => Note::Ended,
            Flow::Channel(op) => self.operation_tells(lines, spe, op),
        }
    }

    /// The note of an allowed channel operation.
    fn operation_tells(&self, lines: u32, spe: u8, op: ChannelOp) -> Note
        requires { lines ≤ 524288 }
        ensures { (P Q : Spe) (registers : List (List ℕ)) (store : List ℕ) → ShowsSpe self.now P → is_running P.status ≡ true → channel lines (record P { registers = registers; store = store }) op ≡ Some Q → result ≡ told spe P Q (Some op) }
    {
        match op {
            ChannelOp::Read { ch, .. } => self.read_tells(spe, ch),
            ChannelOp::Count { ch, .. } => count_tells(ch),
            ChannelOp::Write { ch, value } => self.write_tells(lines, spe, ch, value),
        }
    }

    /// The note of an allowed read of a channel.
    fn read_tells(&self, spe: u8, ch: u8) -> Note
        ensures { (lines : ℕ) (P Q : Spe) (registers : List (List ℕ)) (store : List ℕ) (rt : ℕ) → ShowsSpe self.now P → is_running P.status ≡ true → channel lines (record P { registers = registers; store = store }) (ChannelOp.Read rt ch) ≡ Some Q → result ≡ told spe P Q (Some (ChannelOp.Read rt ch)) }
    {
        match ch {
            SPU_RD_EVENT_STAT => Note::Nothing,
            SPU_RD_SIG_NOTIFY_1 => Note::Signal { spe, register: 1 },
            SPU_RD_SIG_NOTIFY_2 => Note::Signal { spe, register: 2 },
            SPU_RD_EVENT_MASK => Note::Nothing,
            MFC_RD_TAG_MASK => Note::Nothing,
            MFC_RD_TAG_STAT => self.status_told(),
            MFC_RD_LIST_STALL_STAT => Note::StallRead {
                groups: self.channels.stalls(),
            },
            MFC_RD_ATOMIC_STAT => Note::AtomicRead,
            SPU_RD_IN_MBOX => Note::Take {
                spe,
                mailbox: INBOUND,
            },
            _ => Note::Ended,
        }
    }

    /// The note of a read of the tag status.
    fn status_told(&self) -> Note
        ensures { result ≡ option_map_or (λ t. TagRead t.groups t.issued) self.now.tags.status Nothing }
    {
        let mut tags = self.tags;
        match tags.read() {
            Ok(status) => Note::TagRead {
                groups: status.groups,
                issued: status.issued,
            },
            Err(_) => Note::Nothing,
        }
    }

    /// The note of an allowed write to a channel.
    fn write_tells(&self, lines: u32, spe: u8, ch: u8, value: u32) -> Note
        requires { lines ≤ 524288 }
        ensures { (P Q : Spe) (registers : List (List ℕ)) (store : List ℕ) → ShowsSpe self.now P → is_running P.status ≡ true → channel lines (record P { registers = registers; store = store }) (ChannelOp.Write ch value) ≡ Some Q → result ≡ told spe P Q (Some (ChannelOp.Write ch value)) }
    {
        match ch {
            SPU_WR_EVENT_MASK => Note::Nothing,
            SPU_WR_EVENT_ACK => Note::Nothing,
            MFC_CMD => self.command_tells(lines, value),
            MFC_WR_TAG_MASK => Note::Nothing,
            MFC_WR_TAG_UPDATE => Note::Nothing,
            MFC_WR_LIST_STALL_ACK => Note::Ack { tag: value },
            SPU_WR_OUT_MBOX => Note::Put {
                spe,
                mailbox: OUTBOUND,
            },
            SPU_WR_OUT_INTR_MBOX => Note::Put {
                spe,
                mailbox: INTERRUPT,
            },
            _ => param_tells(ch),
        }
    }

    /// The note of an allowed write to MFC_Cmd.
    fn command_tells(&self, lines: u32, op: u32) -> Note
        requires { lines ≤ 524288 }
        ensures { (spe : ℕ) (P Q : Spe) (registers : List (List ℕ)) (store : List ℕ) → ShowsSpe self.now P → is_running P.status ≡ true → channel lines (record P { registers = registers; store = store }) (ChannelOp.Write 21 op) ≡ Some Q → result ≡ told spe P Q (Some (ChannelOp.Write 21 op)) }
    {
        match check(self.channels.params(), op, lines) {
            Ok(Order::Queued(command)) => Note::Issue {
                cmd: self.commands.queue.issued(),
                command,
            },
            Ok(Order::Atomic(_)) => Note::AtomicIssue,
            Err(_) => Note::Ended,
        }
    }
}

/// The note of a read of a channel's count: `Ended` if there is no such channel.
fn count_tells(ch: u8) -> Note
    ensures { (lines spe : ℕ) (P Q : Spe) (registers : List (List ℕ)) (store : List ℕ) (rt : ℕ) → is_running P.status ≡ true → channel lines (record P { registers = registers; store = store }) (ChannelOp.Count rt ch) ≡ Some Q → result ≡ told spe P Q (Some (ChannelOp.Count rt ch)) }
{
    match way(ch) {
        Some(_) => Note::Nothing,
        None => Note::Ended,
    }
}

/// The note of a write to any other channel: `Ended` if the channel holds no parameter.
fn param_tells(ch: u8) -> Note
    requires { (ch ≢ 1) × (ch ≢ 2) × (ch ≢ 21) × (ch ≢ 22) × (ch ≢ 23) × (ch ≢ 26) × (ch ≢ 28) × (ch ≢ 30) }
    ensures { (lines spe value : ℕ) (P Q : Spe) (registers : List (List ℕ)) (store : List ℕ) → is_running P.status ≡ true → channel lines (record P { registers = registers; store = store }) (ChannelOp.Write ch value) ≡ Some Q → result ≡ told spe P Q (Some (ChannelOp.Write ch value)) }
{
    if is_param(ch) {
        Note::Nothing
    } else {
        Note::Ended
    }
}
