//! The outstanding commands.

ghost use Rattle.std.specs.Prelude.{Some, ◌≡◌, ℕ, ◌+◌, ◌*◌, ◌<◌, ◌≤◌, ◌^◌, ◌||◌, ◌&&◌, IfOk, OnOk, length, [], false};
ghost use Rattle.std.specs.List.{list_any};
ghost use Rattle.order_sets.specs.declared.facts.At.{At as AnAt};
ghost use Rattle.order_sets.specs.Facts.{covers};
ghost use Rattle.race_order.specs.Trace.{is_of};
ghost use Rattle.race_order.specs.Status.{is_by, elements_done};
ghost use Rattle.race_order.specs.declared.lives.Live.{Live as ALive};
ghost use Rattle.race_order.specs.declared.roles.QueueRole.{QueueRole as ARole};
ghost use Rattle.race_order.specs.declared.roles.QueueRole.TheVariants.{Waits};
ghost use Rattle.race_order.specs.Bringing.{has_brought, IsOfChains};
ghost use Rattle.race_order.specs.Lines.{is_queued_line};
ghost use Rattle.race_order.specs.Ordering.{spe_in};
ghost use Rattle.race_order.specs.Lives.{acked_by, acks, reads_of, delivers, goes_in, moves_own_line, moves_line_by, is_only_piece, is_only_step, near, is_target, is_touched, moved, own_has, HaveRoom, AreWithin, AreOutstanding, touch_brings, lives_of};
ghost use Rattle.race_order.specs.Tables.{same_role, sets_have, AreOf, FitsChains};

use crate::brought::Brought;
use crate::error::OrderError;
use crate::progress::{Progress, done_elements, has_one_piece, step_on};
use crate::roles::QueueRole;
use crate::sets::Sets;
use cell_base::Step;
use cell_machine::Note;
use mfc_command::Kind;
use order_sets::Fact;
use std::alloc::Global;

/// An outstanding command.
#[derive(Clone, Copy)]
pub(crate) struct Live {
    pub(crate) spe: u8,
    pub(crate) cmd: u32,
    pub(crate) progress: Progress,
}

/// A list for each of so many processors.
pub(crate) fn no_lives(alloc: Global, spes: u8) -> Result<Vec<Vec<Live>>, OrderError>
    ensures long { IfOk result (λ lists. length lists.items ≡ spes) }
    ensures none { IfOk result (λ lists. (p : ℕ) → lives_of lists.items p ≡ []) }
{
    let mut lists = Vec::new(alloc);
    for _ in 0..spes {
        lists.push(Vec::new(alloc))?;
    }
    Ok(lists)
}

/// What a step touches.
#[derive(Clone, Copy)]
pub(crate) enum Target {
    /// the command of which it is a step
    Command { spe: u8, cmd: u32 },
    /// the stalled lists of a tag, which it resumes
    Lists { spe: u8, tag: u32 },
    Nothing,
}

/// Whether it is the command of this number. These differ more often than the processors.
fn is_command(live: &Live, spe: u8, cmd: u32) -> bool
    ensures { result ≡ is_by live.now.spe live.now.cmd spe cmd }
{
    cmd == live.cmd && spe == live.spe
}

fn acked(progress: &Progress, note: &Note) -> bool
    ensures { result ≡ acked_by progress.now note.now }
{
    match *note {
        Note::Ack { tag } => progress.stalled && tag == u32::from(progress.command.tag),
        _ => false,
    }
}

fn resumes(live: &Live, step: &Step, note: &Note) -> bool
    ensures { result ≡ acks live.now.spe live.now.progress step.now note.now }
{
    match *step {
        Step::Exec { spe } => spe == live.spe && acked(&live.progress, note),
        _ => false,
    }
}

fn steps(live: &Live, step: &Step) -> bool
    ensures { result ≡ is_of live.now.spe live.now.cmd step.now }
{
    match *step {
        Step::Piece { spe, cmd, .. } => spe == live.spe && cmd == live.cmd,
        Step::Elem { spe, cmd } => spe == live.spe && cmd == live.cmd,
        Step::Retire { spe, cmd } => spe == live.spe && cmd == live.cmd,
        _ => false,
    }
}

fn reads(live: &Live, step: &Step) -> bool
    ensures { result ≡ reads_of live.now.spe live.now.cmd step.now }
{
    match *step {
        Step::Elem { spe, cmd } => spe == live.spe && cmd == live.cmd,
        _ => false,
    }
}

/// What the step touches: it is a step of a command, or resumes some.
pub(crate) fn target_of(step: Step, note: Note) -> Target
    ensures { (l : ALive) → is_target result l ≡ is_touched l step note }
{
    match step {
        Step::Exec { spe } => match note {
            Note::Ack { tag } => Target::Lists { spe, tag },
            _ => Target::Nothing,
        },
        Step::Piece { spe, cmd, .. } => Target::Command { spe, cmd },
        Step::Elem { spe, cmd } => Target::Command { spe, cmd },
        Step::Retire { spe, cmd } => Target::Command { spe, cmd },
        Step::Atomic { .. } => Target::Nothing,
        Step::Host => Target::Nothing,
    }
}

/// Whether the command is what is touched.
pub(crate) fn touches(live: &Live, target: Target) -> bool
    ensures { result ≡ is_target target live.now }
{
    match target {
        Target::Command { spe, cmd } => is_command(live, spe, cmd),
        Target::Lists { spe, tag } => {
            spe == live.spe
                && (live.progress.stalled && tag == u32::from(live.progress.command.tag))
        }
        Target::Nothing => false,
    }
}

/// Whether some command may be what is touched.
pub(crate) fn may_touch(target: Target) -> bool
    ensures { result ≡ false → (l : ALive) → is_target target l ≡ false }
{
    match target {
        Target::Command { .. } => true,
        Target::Lists { .. } => true,
        Target::Nothing => false,
    }
}

fn is_queued_line(kind: Kind) -> bool
    ensures { result ≡ is_queued_line kind }
{
    match kind {
        Kind::PutQueued => true,
        Kind::Put => false,
        Kind::Get => false,
        Kind::PutList => false,
        Kind::GetList => false,
        Kind::Barrier => false,
        Kind::Signal => false,
    }
}

/// Whether it is the command of this number, and a PUTQLLUC.
fn is_line_of(live: &Live, spe: u8, cmd: u32) -> bool
    ensures { result ≡ (is_by live.now.spe live.now.cmd spe cmd && is_queued_line live.now.progress.command.kind) }
{
    is_command(live, spe, cmd) && is_queued_line(live.progress.command.kind)
}

fn moves_own_line(live: &Live, step: &Step) -> bool
    ensures { result ≡ moves_own_line live.now step.now }
{
    match *step {
        Step::Piece { spe, cmd, .. } => is_line_of(live, spe, cmd),
        _ => false,
    }
}

fn delivers(live: &Live, step: &Step, note: &Note) -> bool
    ensures { result ≡ delivers live.now.spe live.now.cmd step.now note.now }
{
    match note {
        Note::Signal { .. } => steps(live, step),
        _ => false,
    }
}

/// Whether one of the commands is that of this number, and a PUTQLLUC.
fn has_line(lives: &[Live], spe: u8, cmd: u32) -> bool
    ensures { result ≡ list_any (λ l. is_by l.spe l.cmd spe cmd && is_queued_line l.progress.command.kind) lives.now }
{
    lives.iter().any(|l| is_line_of(l, spe, cmd))
}

/// Whether the step moves a line whole, where these are the outstanding commands of each processor.
pub(crate) fn moves_line(lives: &Vec<Vec<Live>>, step: Step) -> bool
    requires { (p : ℕ) → spe_in step ≡ Some p → p < length lives.now.items }
    ensures { result ≡ moves_line_by (near lives.now.items (spe_in step)) step }
{
    match step {
        Step::Atomic { .. } => true,
        Step::Piece { spe, cmd, .. } => has_line(lives[usize::from(spe)].as_slice(), spe, cmd),
        _ => false,
    }
}

/// Whether the piece is of the command, and its only one.
fn is_only_piece(live: &Live, spe: u8, cmd: u32) -> bool
    ensures { result ≡ is_only_piece spe cmd live.now }
{
    is_command(live, spe, cmd) && has_one_piece(live.progress.command)
}

/// Whether it is the only piece of one of the commands.
fn has_only_piece(lives: &[Live], spe: u8, cmd: u32) -> bool
    ensures { result ≡ list_any (is_only_piece spe cmd) lives.now }
{
    lives.iter().any(|l| is_only_piece(l, spe, cmd))
}

/// Whether the step is the only one of its command, where these are the outstanding commands of each processor.
pub(crate) fn is_only_step(lives: &Vec<Vec<Live>>, step: Step) -> bool
    requires { (p : ℕ) → spe_in step ≡ Some p → p < length lives.now.items }
    ensures { result ≡ is_only_step (near lives.now.items (spe_in step)) step }
{
    match step {
        Step::Piece { spe, cmd, .. } => {
            has_only_piece(lives[usize::from(spe)].as_slice(), spe, cmd)
        }
        _ => false,
    }
}

fn goes_into(live: &Live, step: &Step, note: &Note) -> bool
    ensures { result ≡ goes_in live.now step.now note.now }
{
    reads(live, step)
        || (resumes(live, step, note) || (moves_own_line(live, step) || delivers(live, step, note)))
}

/// The command after the step.
pub(crate) fn after_step(live: &Live, step: Step, note: Note) -> Live
    requires { live.now.progress.read + 1 < 2 ^ 32 }
    ensures { result ≡ moved live.now step note }
{
    Live {
        spe: live.spe,
        cmd: live.cmd,
        progress: step_on(live.spe, live.cmd, live.progress, step, note),
    }
}

/// What is done of the command: all of it where it is complete, else its first elements.
fn own_fact(spes: u8, live: &Live) -> Fact
    requires room { elements_done live.now.progress < 2 ^ 16 }
    requires spe { live.now.spe < spes }
    requires spes { spes ≤ 16 }
    ensures has { (at : AnAt) → covers result at ≡ own_has spes live.now at }
    ensures fits { (chains : ℕ) → FitsChains chains result }
{
    let chain = 2 * spes + live.spe;
    let cmd = live.cmd;
    if live.progress.done {
        Fact::Whole { chain, cmd }
    } else {
        let below = done_elements(&live.progress) as u16;
        Fact::Elements { chain, cmd, below }
    }
}

/// Adds what is done of the touched command to its set, and what the step brings, where that goes in itself. This is how the command is after the step.
pub(crate) fn enter(
    sets: &mut Sets,
    live: &Live,
    next: &Live,
    brought: &Brought,
) -> Result<(), OrderError>
    requires next { next.now ≡ moved live.now brought.now.step brought.now.effect.now.note }
    requires room { live.now.progress.read + 1 < 2 ^ 16 }
    requires live { live.now.progress.done ≡ false }
    requires spe { live.now.spe < brought.now.spes }
    requires brought { IsOfChains brought.now }
    requires sets { AreOf (3 * brought.now.spes + 1) sets.old }
    ensures has { OnOk result ((r : ARole) (at : AnAt) → sets_have sets.new r at ≡ (sets_have sets.old r at || (same_role (Waits live.now.spe live.now.cmd) r && ((goes_in live.now brought.now.step brought.now.effect.now.note && has_brought brought.now at) || own_has brought.now.spes next.now at)))) }
    ensures chains { OnOk result (AreOf (3 * brought.now.spes + 1) sets.new) }
{
    let role = QueueRole::Waits {
        spe: live.spe,
        cmd: live.cmd,
    };
    let own = own_fact(brought.spes, next);
    if goes_into(live, &brought.step, &brought.effect.note) {
        sets.bring(role, brought, Some(own))?;
        Ok(())
    } else {
        sets.add(role, own)?;
        Ok(())
    }
}

/// The same, where the step touches the command.
fn touch(sets: &mut Sets, live: &Live, target: Target, brought: &Brought) -> Result<(), OrderError>
    requires target { (l : ALive) → is_target target l ≡ is_touched l brought.now.step brought.now.effect.now.note }
    requires room { live.now.progress.read + 1 < 2 ^ 16 }
    requires live { live.now.progress.done ≡ false }
    requires spe { live.now.spe < brought.now.spes }
    requires brought { IsOfChains brought.now }
    requires sets { AreOf (3 * brought.now.spes + 1) sets.old }
    ensures has { OnOk result ((r : ARole) (at : AnAt) → sets_have sets.new r at ≡ (sets_have sets.old r at || touch_brings brought.now.spes brought.now.step brought.now.effect.now.note (has_brought brought.now) r at live.now)) }
    ensures chains { OnOk result (AreOf (3 * brought.now.spes + 1) sets.new) }
{
    if !touches(live, target) {
        return Ok(());
    }
    let next = after_step(live, brought.step, brought.effect.note);
    enter(sets, live, &next, brought)?;
    Ok(())
}

/// The same for all commands.
pub(crate) fn touch_all(
    sets: &mut Sets,
    lives: &[Live],
    brought: &Brought,
) -> Result<(), OrderError>
    requires room { HaveRoom lives.now }
    requires live { AreOutstanding lives.now }
    requires spe { AreWithin brought.now.spes lives.now }
    requires brought { IsOfChains brought.now }
    requires sets { AreOf (3 * brought.now.spes + 1) sets.old }
    ensures has { OnOk result ((r : ARole) (at : AnAt) → sets_have sets.new r at ≡ (sets_have sets.old r at || list_any (touch_brings brought.now.spes brought.now.step brought.now.effect.now.note (has_brought brought.now) r at) lives.now)) }
    ensures chains { OnOk result (AreOf (3 * brought.now.spes + 1) sets.new) }
{
    let target = target_of(brought.step, brought.effect.note);
    if !may_touch(target) {
        return Ok(());
    }
    for live in lives {
        touch(sets, live, target, brought)?;
    }
    Ok(())
}
