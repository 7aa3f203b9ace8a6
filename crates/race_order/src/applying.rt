//! All that a step does to the sets and to the outstanding commands.

ghost use Rattle.std.specs.Prelude.{Some, ◌≡◌, ◌≢◌, ℕ, ◌+◌, ◌*◌, ◌<◌, [], IfOk, OnOk, length, filter, not, false};
ghost use Rattle.std.specs.List.{list_any};
ghost use Rattle.order_sets.specs.declared.facts.At.{At};
ghost use Rattle.race_order.specs.declared.roles.QueueRole.{QueueRole as ARole};
ghost use Rattle.race_order.specs.Counted.{Fits};
ghost use Rattle.race_order.specs.Lives.{HaveRoom, AreWithin, AreOutstanding, is_touched, lives_of, near};
ghost use Rattle.race_order.specs.Ordering.{issued_in, issue_list, spe_in};
ghost use Rattle.race_order.specs.Passes.{AreMoved, is_over};
ghost use Rattle.race_order.specs.Bringing.{has_brought, IsOfChains, entered, nexts, AreStepped, AreKept};
ghost use Rattle.race_order.specs.Sole.{ArePutOn, IsSole};
ghost use Rattle.race_order.specs.Standing.{with_issued};
ghost use Rattle.race_order.specs.Tables.{sets_have, AreOf};

use crate::boxes::Boxes;
use crate::brought::Brought;
use crate::entering::enter_all;
use crate::error::OrderError;
use crate::going::{go_on_all, pass_stall};
use crate::lists::{find_issue, spe_of};
use crate::lives::{Live, after_step, enter, target_of, touch_all};
use crate::passes::{pass_done, pass_fixed, pass_issued};
use crate::progress::begin;
use crate::sets::Sets;
use crate::touched::only_touched;
use cell_base::Step;
use cell_machine::Note;
use order_sets::Known;

/// What goes before a command goes into its set, where the step issues one.
fn pass_issue(sets: &mut Sets, spare: &mut Known, step: Step, note: Note) -> Result<(), OrderError>
    requires { AreOf (spare.old.chains) sets.old }
    ensures has { OnOk result (AreMoved (λ g. list_any g (issue_list (issued_in step note))) (sets_have sets.old) (sets_have sets.new)) }
    ensures chains { OnOk result (AreOf (spare.old.chains) sets.new) }
    ensures spare { spare.new.chains ≡ spare.old.chains }
{
    match find_issue(step, note) {
        Some(issued) => pass_issued(sets, spare, &issued),
        None => Ok(()),
    }
}

/// Puts the commands forward that the step touches, and answers whether one is complete then. One command is put forward by itself: then its next
/// state is made once.
fn put_on(
    sets: &mut Sets,
    spare: &mut Known,
    lives: &mut [Live],
    brought: &Brought,
) -> Result<bool, OrderError>
    requires room { HaveRoom lives.old }
    requires live { AreOutstanding lives.old }
    requires within { AreWithin brought.now.spes lives.old }
    requires brought { IsOfChains brought.now }
    requires sets { AreOf (3 * brought.now.spes + 1) sets.old }
    requires spare { spare.old.chains ≡ 3 * brought.now.spes + 1 }
    ensures put { OnOk result (ArePutOn brought.now.spes brought.now.step brought.now.effect.now.note (has_brought brought.now) lives.old (sets_have sets.old) (sets_have sets.new)) }
    ensures next { OnOk result (lives.new ≡ nexts brought.now.step brought.now.effect.now lives.old) }
    ensures done { IfOk result (λ done. done ≡ list_any (λ l. l.progress.done) lives.new) }
    ensures chains { OnOk result (AreOf (spare.old.chains) sets.new) }
    ensures spare { spare.new.chains ≡ spare.old.chains }
{
    let (step, note) = (brought.step, brought.effect.note);
    let Some(i) = only_touched(lives, target_of(step, note)) else {
        touch_all(sets, lives, brought)?;
        pass_issue(sets, spare, step, note)?;
        return go_on_all(sets, spare, lives, brought);
    };
    let live = lives[i];
    let next = after_step(&live, step, note);
    enter(sets, &live, &next, brought)?;
    pass_issue(sets, spare, step, note)?;
    pass_stall(sets, spare, &live, &next)?;
    lives[i] = next;
    Ok(next.progress.done)
}

/// The step and its moves, one after the other. The commands are then as after it, also complete ones; answers whether there is one of these.
fn apply(
    sets: &mut Sets,
    spare: &mut Known,
    lives: &mut [Live],
    boxes: &Boxes,
    brought: &Brought,
) -> Result<bool, OrderError>
    requires fits { Fits boxes.now brought.now.effect.now.note }
    requires room { HaveRoom lives.old }
    requires live { AreOutstanding lives.old }
    requires within { AreWithin brought.now.spes lives.old }
    requires brought { IsOfChains brought.now }
    requires sets { AreOf (3 * brought.now.spes + 1) sets.old }
    requires spare { spare.old.chains ≡ 3 * brought.now.spes + 1 }
    ensures stepped { OnOk result (AreStepped brought.now.spes brought.now.step brought.now.effect.now (has_brought brought.now) lives.old (entered boxes.now brought.now) (sets_have sets.old) (sets_have sets.new)) }
    ensures next { OnOk result (lives.new ≡ nexts brought.now.step brought.now.effect.now lives.old) }
    ensures done { IfOk result (λ done. done ≡ list_any (λ l. l.progress.done) lives.new) }
    ensures chains { OnOk result (AreOf (3 * brought.now.spes + 1) sets.new) }
    ensures spare { spare.new.chains ≡ spare.old.chains }
{
    enter_all(sets, boxes, brought)?;
    let done = put_on(sets, spare, lives, brought)?;
    pass_done(sets, spare, lives, done)?;
    pass_fixed(sets, spare, brought.step, brought.effect.fixed)?;
    Ok(done)
}

/// Drops the commands that are complete, of which there is one or none, and the sets that their steps waited for.
fn drop_done(sets: &mut Sets, lives: &mut Vec<Live>, done: bool)
    requires { done ≡ list_any (λ l. l.progress.done) lives.old.items }
    ensures has { (r : ARole) (at : At) → is_over lives.old.items r ≡ false → sets_have sets.new r at ≡ sets_have sets.old r at }
    ensures chains { (chains : ℕ) → AreOf chains sets.old → AreOf chains sets.new }
    ensures lives { lives.new.items ≡ filter (λ l. not l.progress.done) lives.old.items }
{
    if done {
        sets.drop_over(lives);
        lives.retain(|l| !l.progress.done);
    }
}

/// Adds the command that the step issues.
fn add_issued(lives: &mut Vec<Live>, step: Step, note: Note) -> Result<(), OrderError>
    ensures { OnOk result (lives.new.items ≡ with_issued (issued_in step note) lives.old.items) }
{
    if let Some(i) = find_issue(step, note) {
        lives.push(Live {
            spe: i.spe,
            cmd: i.cmd,
            progress: begin(i.command),
        })?;
    }
    Ok(())
}

/// Takes a step of a processor into the sets, and puts its outstanding commands forward.
fn take_own(
    sets: &mut Sets,
    spare: &mut Known,
    lives: &mut Vec<Live>,
    boxes: &Boxes,
    brought: &Brought,
) -> Result<(), OrderError>
    requires fits { Fits boxes.now brought.now.effect.now.note }
    requires room { HaveRoom lives.old.items }
    requires live { AreOutstanding lives.old.items }
    requires within { AreWithin brought.now.spes lives.old.items }
    requires brought { IsOfChains brought.now }
    requires sets { AreOf (3 * brought.now.spes + 1) sets.old }
    requires spare { spare.old.chains ≡ 3 * brought.now.spes + 1 }
    ensures stepped { OnOk result (AreKept brought.now.spes brought.now.step brought.now.effect.now (has_brought brought.now) lives.old.items (entered boxes.now brought.now) (sets_have sets.old) (sets_have sets.new)) }
    ensures lives { OnOk result (lives.new.items ≡ with_issued (issued_in brought.now.step brought.now.effect.now.note) (filter (λ l. not l.progress.done) (nexts brought.now.step brought.now.effect.now lives.old.items))) }
    ensures chains { OnOk result (AreOf (3 * brought.now.spes + 1) sets.new) }
    ensures spare { spare.new.chains ≡ spare.old.chains }
{
    let done = apply(sets, spare, lives.as_mut_slice(), boxes, brought)?;
    drop_done(sets, lives, done);
    add_issued(lives, brought.step, brought.effect.note)?;
    Ok(())
}

/// Takes a step of the host into the sets.
fn take_host(
    sets: &mut Sets,
    spare: &mut Known,
    boxes: &Boxes,
    brought: &Brought,
) -> Result<(), OrderError>
    requires fits { Fits boxes.now brought.now.effect.now.note }
    requires brought { IsOfChains brought.now }
    requires sets { AreOf (3 * brought.now.spes + 1) sets.old }
    requires spare { spare.old.chains ≡ 3 * brought.now.spes + 1 }
    ensures stepped { OnOk result (AreKept brought.now.spes brought.now.step brought.now.effect.now (has_brought brought.now) [] (entered boxes.now brought.now) (sets_have sets.old) (sets_have sets.new)) }
    ensures chains { OnOk result (AreOf (3 * brought.now.spes + 1) sets.new) }
    ensures spare { spare.new.chains ≡ spare.old.chains }
{
    apply(sets, spare, &mut [], boxes, brought)?;
    Ok(())
}

/// Takes the step into the sets, and puts the outstanding commands of its processor forward.
pub(crate) fn take_in(
    sets: &mut Sets,
    spare: &mut Known,
    lives: &mut Vec<Vec<Live>>,
    boxes: &Boxes,
    brought: &Brought,
) -> Result<(), OrderError>
    requires fits { Fits boxes.now brought.now.effect.now.note }
    requires spe { (p : ℕ) → spe_in brought.now.step ≡ Some p → p < length lives.old.items }
    requires room { HaveRoom (near lives.old.items (spe_in brought.now.step)) }
    requires live { AreOutstanding (near lives.old.items (spe_in brought.now.step)) }
    requires within { AreWithin brought.now.spes (near lives.old.items (spe_in brought.now.step)) }
    requires brought { IsOfChains brought.now }
    requires sets { AreOf (3 * brought.now.spes + 1) sets.old }
    requires spare { spare.old.chains ≡ 3 * brought.now.spes + 1 }
    ensures stepped { OnOk result (AreKept brought.now.spes brought.now.step brought.now.effect.now (has_brought brought.now) (near lives.old.items (spe_in brought.now.step)) (entered boxes.now brought.now) (sets_have sets.old) (sets_have sets.new)) }
    ensures own { OnOk result ((p : ℕ) → spe_in brought.now.step ≡ Some p → lives_of lives.new.items p ≡ with_issued (issued_in brought.now.step brought.now.effect.now.note) (filter (λ l. not l.progress.done) (nexts brought.now.step brought.now.effect.now (lives_of lives.old.items p)))) }
    ensures others { OnOk result ((p : ℕ) → spe_in brought.now.step ≢ Some p → lives_of lives.new.items p ≡ lives_of lives.old.items p) }
    ensures long { OnOk result (length lives.new.items ≡ length lives.old.items) }
    ensures chains { OnOk result (AreOf (3 * brought.now.spes + 1) sets.new) }
    ensures spare { spare.new.chains ≡ spare.old.chains }
{
    match spe_of(brought.step) {
        Some(spe) => {
            take_own(sets, spare, &mut lives[usize::from(spe)], boxes, brought)?;
            Ok(())
        }
        None => {
            take_host(sets, spare, boxes, brought)?;
            Ok(())
        }
    }
}
