//! How the outstanding commands go on by a step.

ghost use Rattle.std.specs.Prelude.{◌≡◌, ◌+◌, ◌<◌, ◌^◌, ◌&&◌, IfOk, OnOk, map, not, false};
ghost use Rattle.std.specs.List.{list_any};
ghost use Rattle.race_order.specs.declared.lives.Live.{Live as ALive};
ghost use Rattle.race_order.specs.Lives.{is_target, is_touched, moved, HaveRoom, AreOutstanding};
ghost use Rattle.race_order.specs.Passes.{AreMoved, into_stalled, stall_any};
ghost use Rattle.race_order.specs.Tables.{sets_have, AreOf};

use crate::brought::Brought;
use crate::error::OrderError;
use crate::lives::{Live, Target, after_step, may_touch, target_of, touches};
use crate::moves::{Move, make};
use crate::roles::QueueRole;
use crate::sets::Sets;
use order_sets::Known;

/// The list's set goes into that of its tag, where the list is stalled by the step.
pub(crate) fn pass_stall(
    sets: &mut Sets,
    spare: &mut Known,
    live: &Live,
    next: &Live,
) -> Result<(), OrderError>
    requires { AreOf (spare.old.chains) sets.old }
    ensures has { OnOk result (AreMoved (λ g. (not live.now.progress.stalled && next.now.progress.stalled) && g (into_stalled live.now)) (sets_have sets.old) (sets_have sets.new)) }
    ensures chains { OnOk result (AreOf (spare.old.chains) sets.new) }
    ensures spare { spare.new.chains ≡ spare.old.chains }
{
    if live.progress.stalled || !next.progress.stalled {
        return Ok(());
    }
    let m = Move {
        from: QueueRole::Waits {
            spe: live.spe,
            cmd: live.cmd,
        },
        to: QueueRole::Stalled {
            spe: live.spe,
            tag: live.progress.command.tag,
        },
    };
    make(sets, spare, m)?;
    Ok(())
}

/// Puts the command forward, and answers whether it is complete then.
fn go_on(
    sets: &mut Sets,
    spare: &mut Known,
    live: &mut Live,
    target: Target,
    brought: &Brought,
) -> Result<bool, OrderError>
    requires target { (l : ALive) → is_target target l ≡ is_touched l brought.now.step brought.now.effect.now.note }
    requires room { live.old.progress.read + 1 < 2 ^ 16 }
    requires live { live.old.progress.done ≡ false }
    requires sets { AreOf (spare.old.chains) sets.old }
    ensures next { OnOk result (live.new ≡ moved live.old brought.now.step brought.now.effect.now.note) }
    ensures has { OnOk result (AreMoved (λ g. stall_any g brought.now.step brought.now.effect.now.note live.old) (sets_have sets.old) (sets_have sets.new)) }
    ensures chains { OnOk result (AreOf (spare.old.chains) sets.new) }
    ensures spare { spare.new.chains ≡ spare.old.chains }
    ensures done { IfOk result (λ done. done ≡ live.new.progress.done) }
{
    if !touches(live, target) {
        return Ok(false);
    }
    let next = after_step(live, brought.step, brought.effect.note);
    pass_stall(sets, spare, live, &next)?;
    *live = next;
    Ok(next.progress.done)
}

/// Puts all commands forward, and answers whether one is complete then.
pub(crate) fn go_on_all(
    sets: &mut Sets,
    spare: &mut Known,
    lives: &mut [Live],
    brought: &Brought,
) -> Result<bool, OrderError>
    requires room { HaveRoom lives.old }
    requires live { AreOutstanding lives.old }
    requires sets { AreOf (spare.old.chains) sets.old }
    ensures next { OnOk result (lives.new ≡ map (λ l. moved l brought.now.step brought.now.effect.now.note) lives.old) }
    ensures has { OnOk result (AreMoved (λ g. list_any (stall_any g brought.now.step brought.now.effect.now.note) lives.old) (sets_have sets.old) (sets_have sets.new)) }
    ensures chains { OnOk result (AreOf (spare.old.chains) sets.new) }
    ensures spare { spare.new.chains ≡ spare.old.chains }
    ensures done { IfOk result (λ done. done ≡ list_any (λ l. l.progress.done) lives.new) }
{
    let target = target_of(brought.step, brought.effect.note);
    if !may_touch(target) {
        return Ok(false);
    }
    let mut done = false;
    for i in 0..lives.len() {
        done |= go_on(sets, spare, &mut lives[i], target, brought)?;
    }
    Ok(done)
}
