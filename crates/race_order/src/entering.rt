//! The sets that a step goes into.

ghost use Rattle.std.specs.Prelude.{◌≡◌, ◌+◌, ◌*◌, ◌||◌, ◌&&◌, map, OnOk};
ghost use Rattle.order_sets.specs.declared.facts.At.{At};
ghost use Rattle.race_order.specs.Stamps.{event_of};
ghost use Rattle.race_order.specs.Counted.{Fits};
ghost use Rattle.race_order.specs.Roles.{line_roles};
ghost use Rattle.race_order.specs.Listed.{listed, write_roles_by};
ghost use Rattle.race_order.specs.declared.roles.QueueRole.{QueueRole as ARole};
ghost use Rattle.race_order.specs.declared.roles.QueueRole.TheVariants.{Base};
ghost use Rattle.race_order.specs.Ordering.{issued_in, self_roles};
ghost use Rattle.race_order.specs.Bringing.{has_brought, IsOfChains, entered};
ghost use Rattle.race_order.specs.Tables.{is_among, sets_have, AreOf};

use crate::boxes::Boxes;
use crate::brought::Brought;
use crate::error::OrderError;
use crate::lists::find_issue;
use crate::looks::{lines, note_write, step_write};
use crate::roles::{QueueRole, Role};
use crate::sets::Sets;

/// Adds what the step brings to the set of a plain role, if there is one.
fn enter_some(sets: &mut Sets, role: Option<Role>, brought: &Brought) -> Result<(), OrderError>
    requires brought { IsOfChains brought.now }
    requires sets { AreOf (3 * brought.now.spes + 1) sets.old }
    ensures has { OnOk result ((r : ARole) (at : At) → sets_have sets.new r at ≡ (sets_have sets.old r at || (is_among r (map Base (listed role)) && has_brought brought.now at))) }
    ensures chains { OnOk result (AreOf (3 * brought.now.spes + 1) sets.new) }
{
    if let Some(role) = role {
        sets.bring(QueueRole::Base { role }, brought, None)?;
    }
    Ok(())
}

fn enter_lines(sets: &mut Sets, brought: &Brought) -> Result<(), OrderError>
    requires brought { IsOfChains brought.now }
    requires sets { AreOf (3 * brought.now.spes + 1) sets.old }
    ensures has { OnOk result ((r : ARole) (at : At) → sets_have sets.new r at ≡ (sets_have sets.old r at || (is_among r (map Base (line_roles brought.now.whole brought.now.effect.now)) && has_brought brought.now at))) }
    ensures chains { OnOk result (AreOf (3 * brought.now.spes + 1) sets.new) }
{
    let (first, second) = lines(brought.whole, brought.effect);
    enter_some(sets, first, brought)?;
    enter_some(sets, second, brought)?;
    Ok(())
}

/// Adds what the step brings to the plain sets that it goes into.
fn enter_plain(sets: &mut Sets, boxes: &Boxes, brought: &Brought) -> Result<(), OrderError>
    requires fits { Fits boxes.now brought.now.effect.now.note }
    requires brought { IsOfChains brought.now }
    requires sets { AreOf (3 * brought.now.spes + 1) sets.old }
    ensures has { OnOk result ((r : ARole) (at : At) → sets_have sets.new r at ≡ (sets_have sets.old r at || (is_among r (map Base (write_roles_by boxes.now.puts.items boxes.now.takes.items brought.now.whole (event_of brought.now.step brought.now.effect.now))) && has_brought brought.now at))) }
    ensures chains { OnOk result (AreOf (3 * brought.now.spes + 1) sets.new) }
{
    enter_some(sets, step_write(brought.step), brought)?;
    enter_some(
        sets,
        note_write(boxes, brought.step, brought.effect.note),
        brought,
    )?;
    enter_lines(sets, brought)?;
    Ok(())
}

/// Adds it to the set of a command that the step issues.
fn enter_issued(sets: &mut Sets, brought: &Brought) -> Result<(), OrderError>
    requires brought { IsOfChains brought.now }
    requires sets { AreOf (3 * brought.now.spes + 1) sets.old }
    ensures has { OnOk result ((r : ARole) (at : At) → sets_have sets.new r at ≡ (sets_have sets.old r at || (is_among r (self_roles (issued_in brought.now.step brought.now.effect.now.note)) && has_brought brought.now at))) }
    ensures chains { OnOk result (AreOf (3 * brought.now.spes + 1) sets.new) }
{
    if let Some(i) = find_issue(brought.step, brought.effect.note) {
        sets.bring(
            QueueRole::Waits {
                spe: i.spe,
                cmd: i.cmd,
            },
            brought,
            None,
        )?;
    }
    Ok(())
}

/// Adds what the step brings to all sets that it goes into itself.
pub(crate) fn enter_all(sets: &mut Sets, boxes: &Boxes, brought: &Brought) -> Result<(), OrderError>
    requires fits { Fits boxes.now brought.now.effect.now.note }
    requires brought { IsOfChains brought.now }
    requires sets { AreOf (3 * brought.now.spes + 1) sets.old }
    ensures has { OnOk result ((r : ARole) (at : At) → sets_have sets.new r at ≡ (sets_have sets.old r at || (is_among r (entered boxes.now brought.now) && has_brought brought.now at))) }
    ensures chains { OnOk result (AreOf (3 * brought.now.spes + 1) sets.new) }
{
    enter_plain(sets, boxes, brought)?;
    enter_issued(sets, brought)?;
    Ok(())
}
