//! What is known before a step.

ghost use Rattle.std.specs.Prelude.{◌≡◌, ◌<◌, ◌||◌, ◌&&◌, map, OnOk};
ghost use Rattle.std.specs.List.{list_any};
ghost use Rattle.order_sets.specs.declared.facts.At.{At};
ghost use Rattle.order_sets.specs.Stands.{has_at};
ghost use Rattle.race_order.specs.Stamps.{event_of};
ghost use Rattle.race_order.specs.Counted.{Fits};
ghost use Rattle.race_order.specs.Roles.{line_roles};
ghost use Rattle.race_order.specs.Listed.{listed, read_roles_by};
ghost use Rattle.race_order.specs.declared.roles.QueueRole.TheVariants.{Base, Fixed, Stalled};
ghost use Rattle.race_order.specs.Ordering.{has_bit, tags_in, own_waits, seen_in};
ghost use Rattle.race_order.specs.Bringing.{looked};
ghost use Rattle.race_order.specs.Tables.{sets_have, AreOf};

use crate::boxes::Boxes;
use crate::error::OrderError;
use crate::looks::{lines, note_read, step_read};
use crate::roles::{QueueRole, Role};
use crate::sets::Sets;
use cell_base::Step;
use cell_machine::{Effect, Note};
use order_sets::Known;

/// Adds what the set of a plain role has, if there is one.
fn gather_some(sets: &Sets, role: Option<Role>, known: &mut Known) -> Result<(), OrderError>
    requires { AreOf (known.old.chains) sets.now }
    ensures has { OnOk result ((at : At) → has_at known.new at ≡ (has_at known.old at || list_any (λ r. sets_have sets.now (Base r) at) (listed role))) }
    ensures chains { known.new.chains ≡ known.old.chains }
{
    if let Some(role) = role {
        sets.gather(QueueRole::Base { role }, known)?;
    }
    Ok(())
}

fn gather_lines(
    sets: &Sets,
    whole: bool,
    effect: &Effect,
    known: &mut Known,
) -> Result<(), OrderError>
    requires { AreOf (known.old.chains) sets.now }
    ensures has { OnOk result ((at : At) → has_at known.new at ≡ (has_at known.old at || list_any (λ r. sets_have sets.now (Base r) at) (line_roles whole effect.now))) }
    ensures chains { known.new.chains ≡ known.old.chains }
{
    let (first, second) = lines(whole, effect);
    gather_some(sets, first, known)?;
    gather_some(sets, second, known)?;
    Ok(())
}

/// Adds what the plain sets have that the step looks at.
fn gather_plain(
    sets: &Sets,
    boxes: &Boxes,
    whole: bool,
    step: Step,
    effect: &Effect,
    known: &mut Known,
) -> Result<(), OrderError>
    requires fits { Fits boxes.now effect.now.note }
    requires sets { AreOf (known.old.chains) sets.now }
    ensures has { OnOk result ((at : At) → has_at known.new at ≡ (has_at known.old at || list_any (λ r. sets_have sets.now (Base r) at) (read_roles_by boxes.now.puts.items boxes.now.takes.items whole (event_of step effect.now)))) }
    ensures chains { known.new.chains ≡ known.old.chains }
{
    gather_some(sets, step_read(step), known)?;
    gather_some(sets, note_read(boxes, step, effect.note), known)?;
    gather_lines(sets, whole, effect, known)?;
    Ok(())
}

/// Adds what the set of the step's own command has.
fn gather_own(sets: &Sets, step: Step, known: &mut Known) -> Result<(), OrderError>
    requires { AreOf (known.old.chains) sets.now }
    ensures has { OnOk result ((at : At) → has_at known.new at ≡ (has_at known.old at || list_any (λ r. sets_have sets.now r at) (own_waits step))) }
    ensures chains { known.new.chains ≡ known.old.chains }
{
    match step {
        Step::Piece { spe, cmd, .. } => sets.gather(QueueRole::Waits { spe, cmd }, known),
        Step::Elem { spe, cmd } => sets.gather(QueueRole::Waits { spe, cmd }, known),
        Step::Retire { spe, cmd } => sets.gather(QueueRole::Waits { spe, cmd }, known),
        _ => Ok(()),
    }
}

fn bit(groups: u32, tag: u8) -> bool
    requires { tag < 32 }
    ensures { result ≡ has_bit groups tag }
{
    (groups >> tag) & 1 == 1
}

/// Adds what the set of a status has, where the tag's bit is set.
fn gather_bit(
    sets: &Sets,
    groups: u32,
    tag: u8,
    role: QueueRole,
    known: &mut Known,
) -> Result<(), OrderError>
    requires tag { tag < 32 }
    requires sets { AreOf (known.old.chains) sets.now }
    ensures has { OnOk result ((at : At) → has_at known.new at ≡ (has_at known.old at || (has_bit groups tag && sets_have sets.now role at))) }
    ensures chains { known.new.chains ≡ known.old.chains }
{
    if bit(groups, tag) {
        sets.gather(role, known)?;
    }
    Ok(())
}

/// Adds what the groups' commands had done when a status was fixed.
fn gather_fixed(sets: &Sets, spe: u8, groups: u32, known: &mut Known) -> Result<(), OrderError>
    requires { AreOf (known.old.chains) sets.now }
    ensures has { OnOk result ((at : At) → has_at known.new at ≡ (has_at known.old at || list_any (λ r. sets_have sets.now r at) (map (Fixed spe) (tags_in groups)))) }
    ensures chains { known.new.chains ≡ known.old.chains }
{
    for tag in 0..32u8 {
        gather_bit(sets, groups, tag, QueueRole::Fixed { spe, tag }, known)?;
    }
    Ok(())
}

/// Adds the elements behind which the groups' lists have stalled.
fn gather_stalled(sets: &Sets, spe: u8, groups: u32, known: &mut Known) -> Result<(), OrderError>
    requires { AreOf (known.old.chains) sets.now }
    ensures has { OnOk result ((at : At) → has_at known.new at ≡ (has_at known.old at || list_any (λ r. sets_have sets.now r at) (map (Stalled spe) (tags_in groups)))) }
    ensures chains { known.new.chains ≡ known.old.chains }
{
    for tag in 0..32u8 {
        gather_bit(sets, groups, tag, QueueRole::Stalled { spe, tag }, known)?;
    }
    Ok(())
}

/// Adds what the status shows that the step reads.
fn gather_seen(sets: &Sets, step: Step, note: Note, known: &mut Known) -> Result<(), OrderError>
    requires { AreOf (known.old.chains) sets.now }
    ensures has { OnOk result ((at : At) → has_at known.new at ≡ (has_at known.old at || list_any (λ r. sets_have sets.now r at) (seen_in step note))) }
    ensures chains { known.new.chains ≡ known.old.chains }
{
    match step {
        Step::Exec { spe } => match note {
            Note::TagRead { groups, .. } => gather_fixed(sets, spe, groups, known),
            Note::StallRead { groups } => gather_stalled(sets, spe, groups, known),
            _ => Ok(()),
        },
        _ => Ok(()),
    }
}

/// Makes the set what is known before the step, which moves a line whole or not.
pub(crate) fn fill(
    known: &mut Known,
    sets: &Sets,
    boxes: &Boxes,
    whole: bool,
    step: Step,
    effect: &Effect,
) -> Result<(), OrderError>
    requires fits { Fits boxes.now effect.now.note }
    requires sets { AreOf (known.old.chains) sets.now }
    ensures has { OnOk result ((at : At) → has_at known.new at ≡ list_any (λ r. sets_have sets.now r at) (looked boxes.now whole step effect.now)) }
    ensures chains { known.new.chains ≡ known.old.chains }
{
    known.clear();
    gather_plain(sets, boxes, whole, step, effect, known)?;
    gather_own(sets, step, known)?;
    gather_seen(sets, step, effect.note, known)?;
    Ok(())
}
