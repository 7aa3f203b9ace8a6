//! What is kept of one processor of a run, to see whether the run is settled.

ghost use Rattle.std.specs.Prelude.{◌≡◌, ℕ, ◌+◌, ◌<◌, ◌^◌, ◌↔◌, ◌==◌, ◌||◌, ◌&&◌, Some, None, OnOk, IfOk, IsTrue, true, false, not, length, slice_get, []};
ghost use Rattle.cell_base.specs.declared.steps.Step.TheVariants.{Exec};
ghost use Rattle.cell_machine.specs.Run.{Ran, IsRun};
ghost use Rattle.race_order.specs.Trace.{IsStep};
ghost use Rattle.race_order.specs.Told.{trace_in};
ghost use Rattle.run_permute.specs.declared.kept.Kept.{Kept as AKept};
ghost use Rattle.run_permute.specs.SettledLists.{AreChanged, Each, IsIn};
ghost use Rattle.run_permute.specs.Online.{IsSettledAt};
ghost use Rattle.run_permute.specs.Walks.{Here, IsAt, IsMade};
ghost use Rattle.run_permute.specs.Watches.{IsSwept, IsTaken, AreSwept, AreLeft, Watches, is_looked_at, stalled_from, tag_of, may_operate, may_tell, marked, is_atomic_issue, IsAdded, IsTransferOf};

use crate::kept::{Kept, is_list, is_signal};
use crate::made::Made;
use crate::operation::{may_ask, reads, writes};
use cell_base::{ChannelOp, Step};
use cell_channels::{
    MFC_RD_ATOMIC_STAT, MFC_RD_LIST_STALL_STAT, MFC_RD_TAG_STAT, MFC_WR_LIST_STALL_ACK,
    MFC_WR_TAG_UPDATE,
};
use cell_machine::Note;
use mfc_command::Command;
use run_walk::Walk;
use std::alloc::{AllocError, Global};

/// How many commands may not be closed where another one is queued.
const FEW: usize = 15;

#[derive(Drop)]
pub struct Watch {
    // a tag status was requested, and isn't read
    requested: bool,
    // an atomic command was issued, and its status isn't read
    atomic: bool,
    // the stall status was read, and isn't acknowledged; the tag is then that of the list that was stalled
    stalled: bool,
    tag: u8,
    // the commands that aren't closed, or weren't when that was last looked at
    kept: Vec<Kept>,
}

/// The tag of the list that is the only one of the commands and is stalled.
fn stalled_tag(kept: &[Kept]) -> Option<u8>
    ensures { result ≡ stalled_from None kept.now }
{
    let mut tag = None;
    for command in kept {
        if command.is_list() {
            if tag.is_some() || !command.progress.stalled {
                return None;
            }
            tag = Some(command.progress.command.tag);
        }
    }
    tag
}

/// Takes the steps out of each command that are ordered before the last step of the walk.
fn sweep_all(kept: &mut [Kept], walk: &Walk)
    ghost here: { Here }
    requires at { IsAt walk.now here.run (here.place + 1) }
    requires below { Each (λ (k : AKept). (i : ℕ) → IsIn i k.steps.items → i < here.place) kept.old }
    ensures { AreChanged (IsSwept here.run here.place) (length kept.old) kept.old kept.new }
{
    for i in 0..kept.len() {
        kept[i].sweep(walk);
    }
}

/// Takes the step at a place into each command.
fn take_all(
    kept: &mut [Kept],
    spe: u8,
    place: u32,
    step: Step,
    note: Note,
) -> Result<(), AllocError>
    requires { Each (λ (k : AKept). k.progress.read + 1 < 2 ^ 32) kept.old }
    ensures { OnOk result (AreChanged (IsTaken spe place step note) (length kept.old) kept.old kept.new) }
{
    for i in 0..kept.len() {
        kept[i].take(spe, place, step, note)?;
    }
    Ok(())
}

/// The tag that is acknowledged.
fn tag_of(operation: Option<ChannelOp>) -> Option<u32>
    ensures { result ≡ tag_of operation }
{
    match operation {
        Some(ChannelOp::Write { ch, value }) => {
            if ch == MFC_WR_LIST_STALL_ACK {
                Some(value)
            } else {
                None
            }
        }
        Some(ChannelOp::Read { .. }) => None,
        Some(ChannelOp::Count { .. }) => None,
        None => None,
    }
}

/// Whether the commands that aren't closed bear on such a step.
fn is_looked_at(operation: Option<ChannelOp>, note: Note) -> bool
    ensures { result ≡ is_looked_at operation note }
{
    match note {
        Note::Issue { .. } => true,
        _ => reads(MFC_RD_LIST_STALL_STAT, operation),
    }
}

impl Watch {
    pub fn new(alloc: Global) -> Watch
        ensures { (result.requested ≡ false) × (result.atomic ≡ false) × (result.stalled ≡ false) × (result.kept.items ≡ []) }
    {
        Watch {
            requested: false,
            atomic: false,
            stalled: false,
            tag: 0,
            kept: Vec::new(alloc),
        }
    }

    /// Drops the commands that are closed before the last step of the walk.
    fn sweep(&mut self, walk: &Walk)
        ghost here: { Here }
        requires at { IsAt walk.now here.run (here.place + 1) }
        requires below { Each (λ (k : AKept). (i : ℕ) → IsIn i k.steps.items → i < here.place) self.old.kept.items }
        ensures swept { AreSwept here.run here.place self.old.kept.items self.new.kept.items }
        ensures rest { self.new ≡ record self.old { kept = self.new.kept } }
    {
        sweep_all(self.kept.as_mut_slice(), walk);
        self.kept.retain(|command| !command.is_closed());
    }

    /// Drops the commands that are closed before the last step of the walk, which asks for and tells this, where that bears on it.
    fn look(&mut self, walk: &Walk, operation: Option<ChannelOp>, note: Note)
        ghost here: { Here }
        requires at { IsAt walk.now here.run (here.place + 1) }
        requires below { Each (λ (k : AKept). (i : ℕ) → IsIn i k.steps.items → i < here.place) self.old.kept.items }
        ensures watches { (p : ℕ) → IsStep (trace_in here.run) here.place (Exec p) → Watches here.run p here.place (here.place + 1) self.old → Watches here.run p here.place (here.place + 1) self.new }
        ensures left { (p : ℕ) → IsStep (trace_in here.run) here.place (Exec p) → Watches here.run p here.place (here.place + 1) self.old → is_looked_at operation note ≡ true → AreLeft here.run p here.place self.new.kept.items }
    {
        if is_looked_at(operation, note) {
            self.sweep(walk);
        }
    }

    /// Whether a settled run may have the operation; the commands are those that aren't closed.
    fn may_operate(&self, operation: Option<ChannelOp>) -> bool
        ensures { result ≡ may_operate self.now operation }
    {
        if reads(MFC_RD_LIST_STALL_STAT, operation) {
            return !self.stalled && stalled_tag(self.kept.as_slice()).is_some();
        }
        match tag_of(operation) {
            Some(tag) => self.stalled && u32::from(self.tag) == tag,
            None => may_ask(operation),
        }
    }

    /// Whether it may have an instruction that tells this.
    fn may_tell(&self, note: Note) -> bool
        ensures { result ≡ may_tell self.now note }
    {
        match note {
            Note::Issue { command, .. } => {
                if is_signal(command.kind) {
                    return false;
                }
                if self.requested || self.stalled && is_list(command.kind) {
                    return false;
                }
                self.kept.len() <= FEW
            }
            Note::AtomicIssue => !self.atomic,
            _ => true,
        }
    }

    /// Marks what an instruction that asks for and tells this leaves unread and unacknowledged.
    fn mark(&mut self, operation: Option<ChannelOp>, note: Note)
        ensures { self.new ≡ marked self.old operation note }
    {
        if reads(MFC_RD_LIST_STALL_STAT, operation) {
            if let Some(tag) = stalled_tag(self.kept.as_slice()) {
                self.tag = tag;
            }
        }
        self.requested = writes(MFC_WR_TAG_UPDATE, operation)
            || (self.requested && !reads(MFC_RD_TAG_STAT, operation));
        self.stalled = reads(MFC_RD_LIST_STALL_STAT, operation)
            || (self.stalled && !writes(MFC_WR_LIST_STALL_ACK, operation));
        self.atomic = is_atomic_issue(note)
            || (self.atomic && !reads(MFC_RD_ATOMIC_STAT, operation));
    }

    /// Adds the command that is queued.
    fn add(&mut self, alloc: Global, note: Note) -> Result<(), AllocError>
        ensures kept { OnOk result (IsAdded note self.old.kept.items self.new.kept.items) }
        ensures rest { self.new ≡ record self.old { kept = self.new.kept } }
    {
        if let Note::Issue { cmd, command } = note {
            self.kept.push(Kept::new(alloc, cmd, command))?;
        }
        Ok(())
    }

    /// Takes an instruction of the processor, the last step of the walk, and answers whether a settled run may have it there. Where it may
    /// not, the watch is of no use any more.
    pub fn execute(
        &mut self,
        alloc: Global,
        walk: &Walk,
        spe: u8,
        place: u32,
        made: &Made,
    ) -> Result<bool, AllocError>
        ghost m: { Ran }
        requires at { IsAt walk.now m (place + 1) }
        requires step { slice_get m.steps place ≡ Some (Exec spe) }
        requires made { IsMade m place (Exec spe) made.now }
        requires settled { (k : ℕ) → k < place → IsSettledAt m spe k }
        requires watches { Watches m spe place place self.old }
        ensures settled { IfOk result (λ settled. IsTrue settled ↔ IsSettledAt m spe place) }
        ensures watches { IfOk result (λ settled. IsTrue settled → Watches m spe (place + 1) (place + 1) self.new) }
    {
        let (operation, note) = (made.operation, made.effect.note);
        self.look(walk, operation, note);
        if !self.may_operate(operation) {
            return Ok(false);
        }
        if !self.may_tell(note) {
            return Ok(false);
        }
        self.mark(operation, note);
        let step = Step::Exec { spe };
        take_all(self.kept.as_mut_slice(), spe, place, step, note)?;
        self.add(alloc, note)?;
        Ok(true)
    }

    /// Takes a step of one of the processor's commands.
    pub fn transfer(
        &mut self,
        spe: u8,
        place: u32,
        step: Step,
        made: &Made,
    ) -> Result<(), AllocError>
        ghost m: { Ran }
        requires run { IsRun m.setup m.steps }
        requires step { slice_get m.steps place ≡ Some step }
        requires own { IsTransferOf spe step }
        requires made { IsMade m place step made.now }
        requires watches { Watches m spe place place self.old }
        ensures { OnOk result (Watches m spe (place + 1) (place + 1) self.new) }
    {
        take_all(self.kept.as_mut_slice(), spe, place, step, made.effect.note)
    }
}

fn is_atomic_issue(note: Note) -> bool
    ensures { result ≡ is_atomic_issue note }
{
    match note {
        Note::AtomicIssue => true,
        _ => false,
    }
}
