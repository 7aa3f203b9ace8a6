//! Whether a tag status is fixed at the end of a step, asked before the step is made.
//!
//! Only where a request is pending is it asked what the step leaves outstanding. A step of a queued command ends that one or none; what is
//! issued or acknowledged is so of a copy.

ghost use Rattle.std.specs.Prelude.{◌≡◌, ℕ, ◌≤◌, ◌<◌, List, Some, true, false, length, slice_get};
ghost use Rattle.cell_base.specs.declared.steps.ChannelOp.{ChannelOp};
ghost use Rattle.mfc_command.specs.declared.command.Command.{Command};
ghost use Rattle.mfc_command.specs.declared.command.Order.TheVariants.{Queued};
ghost use Rattle.mfc_command.specs.Check.{OrderFits};
ghost use Rattle.mfc_lists.specs.declared.Element.{Element};
ghost use Rattle.mfc_lists.specs.Elements.{ElementFits};
ghost use Rattle.mfc_lists.specs.Readings.{StandsFor as StandsForReading, with_element};
ghost use Rattle.mfc_queue.specs.Calls.{Call, outstanding};
ghost use Rattle.mfc_queue.specs.Stands.{StandsFor, IsOneOf};
ghost use Rattle.tag_groups.specs.Settle.{requested};
ghost use Rattle.cell_machine.specs.Spe.{Spe, Moves};
ghost use Rattle.cell_machine.specs.Moves.{is_moved, read_of, stalls_of_tag};
ghost use Rattle.cell_machine.specs.MovesShown.{reading};
ghost use Rattle.cell_machine.specs.Channels.{channel, with_issued, with_resumed};
ghost use Rattle.cell_machine.specs.Exec.{followed};
ghost use Rattle.cell_machine.specs.Transfers.{has_part, has_element, with_done, with_read, with_retired};
ghost use Rattle.cell_machine.specs.Effects.{is_fixed, fixes};

use crate::commands::Commands;
use crate::processor::Processor;
use cell_base::ChannelOp;
use cell_channels::{MFC_CMD, MFC_WR_LIST_STALL_ACK, MFC_WR_TAG_UPDATE};
use mfc_command::{Command, Order, check};
use mfc_lists::{Element, ListState};
use spu_exec::Flow;

impl Processor {
    ghost use Rattle.cell_machine.specs.Shows.{ShowsSpe, ShowsCommands, CanIssue, CanMark, HasRead};

    /// Whether a status is fixed where the commands come to be these.
    fn fixes_with(&self, commands: &Commands) -> bool
        ensures { (m : Moves) → ShowsCommands commands.now m → result ≡ is_fixed self.now.tags m }
    {
        self.tags.would_settle(commands.queue.busy())
    }

    // ---- by what is done to the commands

    /// Whether it is by a step that changes no command and asks for no status.
    pub(crate) fn fixes(&self) -> bool
        ensures { (P : Spe) → ShowsSpe self.now P → result ≡ fixes P }
    {
        self.fixes_with(&self.commands)
    }

    /// Whether it is by part `k` of a command.
    pub(crate) fn fixes_by_piece(&self, cmd: u32, k: u32) -> bool
        requires { CanMark self.now.commands cmd k }
        ensures { (m : Moves) (d : Command) (e : ℕ) → ShowsCommands self.now.commands m → slice_get m.issued cmd ≡ Some d → has_part m cmd e k d ≡ true → result ≡ is_fixed self.now.tags (with_done m cmd e k) }
    {
        if !self.tags.pending() {
            return false;
        }
        let ends = self.commands.ends_by_part(cmd, k);
        self.tags.would_settle(self.commands.busy_if(cmd, ends))
    }

    /// Whether it is by the reading of an element, into this state of its list.
    pub(crate) fn fixes_by_element(&self, lines: u32, cmd: u32, list: ListState, x: Element) -> bool
        requires read { HasRead self.now.commands cmd list x }
        requires fits { ElementFits lines x }
        requires lines { lines ≤ 524288 }
        ensures { (m : Moves) (d : Command) → ShowsCommands self.now.commands m → slice_get m.issued cmd ≡ Some d → has_element m cmd d ≡ true → x.number ≡ length (read_of m.read cmd) → StandsForReading list (with_element (reading m cmd d) x) → result ≡ is_fixed self.now.tags (with_read m cmd x) }
    {
        if !self.tags.pending() {
            return false;
        }
        let ends = self.commands.ends_by_element(lines, cmd, list, x);
        self.tags.would_settle(self.commands.busy_if(cmd, ends))
    }

    /// Whether it is by the retirement of a command.
    pub(crate) fn fixes_by_retirement(&self, cmd: u32) -> bool
        requires { IsOneOf self.now.commands.queue cmd }
        ensures { (m : Moves) (d : Command) → ShowsCommands self.now.commands m → slice_get m.issued cmd ≡ Some d → is_moved d ≡ false → result ≡ is_fixed self.now.tags (with_retired m cmd) }
    {
        if !self.tags.pending() {
            return false;
        }
        self.tags
            .would_settle(self.commands.queue.busy_without(cmd))
    }

    /// Whether it is by the issue of a command, for which there is room.
    pub(crate) fn fixes_by_issue(&self, lines: u32, command: Command) -> bool
        requires number { CanIssue self.now.commands }
        requires lines { lines ≤ 524288 }
        requires fits { OrderFits lines (Queued command) }
        requires free { (calls : List Call) → StandsFor self.now.commands.queue calls → length (outstanding calls) < 16 }
        ensures { (m : Moves) → ShowsCommands self.now.commands m → result ≡ is_fixed self.now.tags (with_issued m command) }
    {
        if !self.tags.pending() {
            return false;
        }
        let mut after = self.commands.copy();
        after.issue(lines, command);
        self.fixes_with(&after)
    }

    /// Whether it is by the acknowledgement of a tag.
    pub(crate) fn fixes_by_acknowledgement(&self, tag: u32) -> bool
        requires { CanIssue self.now.commands }
        ensures { (m : Moves) → ShowsCommands self.now.commands m → result ≡ is_fixed self.now.tags (with_resumed m (stalls_of_tag m tag)) }
    {
        if !self.tags.pending() {
            return false;
        }
        let mut after = self.commands.copy();
        after.acknowledge(tag);
        self.fixes_with(&after)
    }

    /// Whether it is by a request for a status.
    pub(crate) fn fixes_by_request(&self, how: u32) -> bool
        ensures { (P : Spe) → ShowsSpe self.now P → result ≡ is_fixed (requested P.tags how) P.moves }
    {
        let mut tags = self.tags;
        tags.request(how);
        tags.would_settle(self.commands.queue.busy())
    }

    // ---- by an instruction that is allowed

    /// Whether it is by an instruction that leads there.
    pub(crate) fn fixes_by(&self, lines: u32, flow: Flow) -> bool
        requires number { CanIssue self.now.commands }
        requires lines { lines ≤ 524288 }
        ensures { (P Q : Spe) (registers : List (List ℕ)) (store : List ℕ) → ShowsSpe self.now P → followed lines (record P { registers = registers; store = store }) flow ≡ Some Q → result ≡ fixes Q }
    {
        match flow {
            Flow::Channel(op) => self.fixes_by_operation(lines, op),
            _ => self.fixes(),
        }
    }

    /// Whether it is by a channel operation.
    fn fixes_by_operation(&self, lines: u32, op: ChannelOp) -> bool
        requires number { CanIssue self.now.commands }
        requires lines { lines ≤ 524288 }
        ensures { (P Q : Spe) (registers : List (List ℕ)) (store : List ℕ) → ShowsSpe self.now P → channel lines (record P { registers = registers; store = store }) op ≡ Some Q → result ≡ fixes Q }
    {
        match op {
            ChannelOp::Write { ch, value } => self.fixes_by_write(lines, ch, value),
            _ => self.fixes(),
        }
    }

    /// Whether it is by a write to a channel.
    fn fixes_by_write(&self, lines: u32, ch: u8, value: u32) -> bool
        requires number { CanIssue self.now.commands }
        requires lines { lines ≤ 524288 }
        ensures { (P Q : Spe) (registers : List (List ℕ)) (store : List ℕ) → ShowsSpe self.now P → channel lines (record P { registers = registers; store = store }) (ChannelOp.Write ch value) ≡ Some Q → result ≡ fixes Q }
    {
        match ch {
            MFC_CMD => self.fixes_by_command(lines, value),
            MFC_WR_TAG_UPDATE => self.fixes_by_request(value),
            MFC_WR_LIST_STALL_ACK => self.fixes_by_acknowledgement(value),
            _ => self.fixes(),
        }
    }

    /// Whether it is by a write to MFC_Cmd; where that isn't allowed the answer says nothing.
    fn fixes_by_command(&self, lines: u32, op: u32) -> bool
        requires number { CanIssue self.now.commands }
        requires lines { lines ≤ 524288 }
        ensures { (P Q : Spe) (registers : List (List ℕ)) (store : List ℕ) → ShowsSpe self.now P → channel lines (record P { registers = registers; store = store }) (ChannelOp.Write 21 op) ≡ Some Q → result ≡ fixes Q }
    {
        if !self.may_command(op) {
            return false;
        }
        match check(self.channels.params(), op, lines) {
            Ok(Order::Queued(command)) => self.fixes_by_issue(lines, command),
            Ok(Order::Atomic(_)) => self.fixes(),
            Err(_) => self.fixes(),
        }
    }
}
