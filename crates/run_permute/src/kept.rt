//! A queued command, with those of its steps that aren't known to be ordered before an instruction of its processor.

ghost use Rattle.std.specs.Prelude.{◌≡◌, ℕ, ◌+◌, ◌-◌, ◌<◌, ◌≤◌, ◌^◌, ◌==◌, [], OnOk, false, length, slice_index};
ghost use Rattle.cell_machine.specs.Transfers.{is_signal};
ghost use Rattle.mfc_command.specs.Order.{is_list};
ghost use Rattle.reorder_laws.specs.OrderedLaws.{IsOrdered};
ghost use Rattle.race_order.specs.Status.{after_ack, begun, stepped};
ghost use Rattle.race_order.specs.Trace.{is_of};
ghost use Rattle.race_order.specs.declared.progress.Progress.{Progress as Come};
ghost use Rattle.run_permute.specs.SettledLists.{IsIn};
ghost use Rattle.run_permute.specs.Walks.{Here, IsAt};
ghost use Rattle.run_permute.specs.Watches.{IsSwept, IsTaken, is_closed, is_listed};

use crate::before::is_before;
use cell_base::Step;
use cell_machine::Note;
use mfc_command::{Command, Kind};
use race_order::{Progress, begin, step_on};
use run_walk::Walk;
use std::alloc::{AllocError, Global};

#[derive(Drop)]
pub struct Kept {
    pub cmd: u32,
    pub progress: Progress,
    pub steps: Vec<u32>,
}

/// How many of the steps are left, when from the end those go out that are ordered before the last step of the walk.
fn unknown(steps: &[u32], walk: &Walk) -> usize
    ghost here: { Here }
    requires at { IsAt walk.now here.run (here.place + 1) }
    requires below { (i : ℕ) → IsIn i steps.now → i < here.place }
    ensures few { result ≤ length steps.now }
    ensures known { (k : ℕ) → result ≤ k → k < length steps.now → IsOrdered here.run (slice_index steps.now k) here.place }
    ensures stop { 0 < result → IsOrdered here.run (slice_index steps.now (result - 1)) here.place → ⊥ }
{
    let mut left = steps.len();
    while 0 < left {
        if !is_before(walk, steps[left - 1]) {
            return left;
        }
        left -= 1;
    }
    0
}

/// Whether the step is one of the command `cmd` of `spe`.
fn is_of(spe: u8, cmd: u32, step: Step) -> bool
    ensures { result ≡ is_of spe cmd step }
{
    match step {
        Step::Piece { spe: q, cmd: d, .. } => q == spe && d == cmd,
        Step::Elem { spe: q, cmd: d } => q == spe && d == cmd,
        Step::Retire { spe: q, cmd: d } => q == spe && d == cmd,
        Step::Exec { .. } => false,
        Step::Atomic { .. } => false,
        Step::Host => false,
    }
}

/// Whether an instruction that tells this may let a list go on.
fn acknowledges(note: Note) -> bool
    ensures { result ≡ false → (s : Come) → after_ack s note ≡ s }
{
    match note {
        Note::Ack { .. } => true,
        _ => false,
    }
}

/// Whether a step that tells this may bear on the command `cmd` of `spe`: most bear on no other than their own.
fn bears_on(spe: u8, cmd: u32, step: Step, note: Note) -> bool
    ensures own { result ≡ false → is_of spe cmd step ≡ false }
    ensures still { result ≡ false → (s : Come) → stepped spe cmd s step note ≡ s }
{
    match step {
        Step::Exec { .. } => acknowledges(note),
        Step::Piece { spe: q, cmd: d, .. } => q == spe && d == cmd,
        Step::Elem { spe: q, cmd: d } => q == spe && d == cmd,
        Step::Retire { spe: q, cmd: d } => q == spe && d == cmd,
        Step::Atomic { .. } => false,
        Step::Host => false,
    }
}

pub fn is_list(kind: Kind) -> bool
    ensures { result ≡ is_list kind }
{
    match kind {
        Kind::PutList => true,
        Kind::GetList => true,
        Kind::Put => false,
        Kind::Get => false,
        Kind::Barrier => false,
        Kind::PutQueued => false,
        Kind::Signal => false,
    }
}

pub fn is_signal(kind: Kind) -> bool
    ensures { result ≡ is_signal kind }
{
    match kind {
        Kind::Signal => true,
        Kind::Put => false,
        Kind::Get => false,
        Kind::PutList => false,
        Kind::GetList => false,
        Kind::Barrier => false,
        Kind::PutQueued => false,
    }
}

impl Kept {
    /// A command that was just issued.
    pub fn new(alloc: Global, cmd: u32, command: Command) -> Kept
        ensures cmd { result.cmd ≡ cmd }
        ensures progress { result.progress ≡ begun command }
        ensures steps { result.steps.items ≡ [] }
    {
        Kept {
            cmd,
            progress: begin(command),
            steps: Vec::new(alloc),
        }
    }

    /// Takes the step at a place.
    pub fn take(&mut self, spe: u8, place: u32, step: Step, note: Note) -> Result<(), AllocError>
        requires { self.old.progress.read + 1 < 2 ^ 32 }
        ensures { OnOk result (IsTaken spe place step note self.old self.new) }
    {
        if !bears_on(spe, self.cmd, step, note) {
            return Ok(());
        }
        if !self.progress.done {
            self.progress = step_on(spe, self.cmd, self.progress, step, note);
        }
        if is_of(spe, self.cmd, step) {
            self.steps.push(place)?;
        }
        Ok(())
    }

    /// Takes steps out that are ordered before the last step of the walk.
    pub fn sweep(&mut self, walk: &Walk)
        ghost here: { Here }
        requires at { IsAt walk.now here.run (here.place + 1) }
        requires below { (i : ℕ) → IsIn i self.old.steps.items → i < here.place }
        ensures { IsSwept here.run here.place self.old self.new }
    {
        let left = unknown(self.steps.as_slice(), walk);
        self.steps.truncate(left);
    }

    /// Whether it is complete, and no step is left.
    pub fn is_closed(&self) -> bool
        ensures { result ≡ is_closed self.now }
    {
        self.progress.done && self.steps.is_empty()
    }

    pub fn is_list(&self) -> bool
        ensures { result ≡ is_listed self.now }
    {
        is_list(self.progress.command.kind)
    }
}
