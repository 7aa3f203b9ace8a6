//! Which sets go into which others at a step.

ghost use Rattle.std.specs.Prelude.{Some, ◌≡◌, ◌||◌, ◌&&◌, map, OnOk};
ghost use Rattle.std.specs.List.{list_any};
ghost use Rattle.order_sets.specs.declared.facts.At.{At};
ghost use Rattle.order_sets.specs.Stands.{has_at};
ghost use Rattle.mfc_command.specs.Order.{is_barred, is_barrier};
ghost use Rattle.race_order.specs.declared.roles.QueueRole.{QueueRole as ARole};
ghost use Rattle.race_order.specs.declared.roles.QueueRole.TheVariants.{Waits, Complete};
ghost use Rattle.race_order.specs.Ordering.{issue_list, below, fix_move, fix_list, spe_in};
ghost use Rattle.race_order.specs.Passes.{is_marked, when, classes_of, from_class, is_ahead, done_any, AreMoved};
ghost use Rattle.race_order.specs.Tables.{same_role, sets_have, AreOf};

use crate::error::OrderError;
use crate::lists::{Issued, spe_of};
use crate::lives::Live;
use crate::moves::{Move, make};
use crate::roles::{Class, QueueRole};
use crate::sets::Sets;
use cell_base::Step;
use mfc_command::{Command, Kind, Mark, precedes};
use order_sets::Known;

fn marked(mark: Mark) -> bool
    ensures { result ≡ is_marked mark }
{
    match mark {
        Mark::Plain => false,
        Mark::Fenced => true,
        Mark::Barred => true,
    }
}

fn barred(mark: Mark) -> bool
    ensures { result ≡ is_barred mark }
{
    match mark {
        Mark::Plain => false,
        Mark::Fenced => false,
        Mark::Barred => true,
    }
}

fn barrier(kind: Kind) -> bool
    ensures { result ≡ is_barrier kind }
{
    match kind {
        Kind::Put => false,
        Kind::Get => false,
        Kind::PutList => false,
        Kind::GetList => false,
        Kind::Barrier => true,
        Kind::PutQueued => false,
        Kind::Signal => false,
    }
}

fn ahead(c: &Live, d: &Live) -> bool
    ensures { result ≡ is_ahead c.now d.now }
{
    c.spe == d.spe && (c.cmd < d.cmd && precedes(&c.progress.command, &d.progress.command))
}

/// Makes the move from a class, where it is one of those that go before the command.
fn pass_when(
    sets: &mut Sets,
    spare: &mut Known,
    holds: bool,
    issued: &Issued,
    class: Class,
) -> Result<(), OrderError>
    requires { AreOf (spare.old.chains) sets.old }
    ensures has { OnOk result (AreMoved (λ g. list_any g (map (from_class issued.now.spe issued.now.cmd) (when holds class))) (sets_have sets.old) (sets_have sets.new)) }
    ensures chains { OnOk result (AreOf (spare.old.chains) sets.new) }
    ensures spare { spare.new.chains ≡ spare.old.chains }
{
    if !holds {
        return Ok(());
    }
    let m = Move {
        from: QueueRole::Complete {
            spe: issued.spe,
            class,
        },
        to: QueueRole::Waits {
            spe: issued.spe,
            cmd: issued.cmd,
        },
    };
    make(sets, spare, m)?;
    Ok(())
}

/// Where a command is issued: what goes before it goes into its set.
pub(crate) fn pass_issued(
    sets: &mut Sets,
    spare: &mut Known,
    issued: &Issued,
) -> Result<(), OrderError>
    requires { AreOf (spare.old.chains) sets.old }
    ensures has { OnOk result (AreMoved (λ g. list_any g (issue_list (Some issued.now))) (sets_have sets.old) (sets_have sets.new)) }
    ensures chains { OnOk result (AreOf (spare.old.chains) sets.new) }
    ensures spare { spare.new.chains ≡ spare.old.chains }
{
    let command = issued.command;
    let tag = command.tag;
    pass_when(sets, spare, barrier(command.kind), issued, Class::All)?;
    pass_when(
        sets,
        spare,
        marked(command.mark),
        issued,
        Class::Tag { tag },
    )?;
    pass_when(sets, spare, true, issued, Class::BarredTag { tag })?;
    pass_when(sets, spare, true, issued, Class::Barriers)?;
    Ok(())
}

/// Adds the known steps to the set of the class, where the command is in it.
fn put_when(
    sets: &mut Sets,
    holds: bool,
    spe: u8,
    class: Class,
    known: &Known,
) -> Result<(), OrderError>
    requires { AreOf (known.now.chains) sets.old }
    ensures has { OnOk result ((r : ARole) (at : At) → sets_have sets.new r at ≡ (sets_have sets.old r at || list_any (λ x. same_role (Complete spe x) r && has_at known.now at) (when holds class))) }
    ensures chains { OnOk result (AreOf (known.now.chains) sets.new) }
{
    if holds {
        sets.put(QueueRole::Complete { spe, class }, known)?;
    }
    Ok(())
}

/// Adds the known steps to the sets of the command's classes.
fn put_classes(sets: &mut Sets, spe: u8, command: &Command, known: &Known) -> Result<(), OrderError>
    requires { AreOf (known.now.chains) sets.old }
    ensures has { OnOk result ((r : ARole) (at : At) → sets_have sets.new r at ≡ (sets_have sets.old r at || list_any (λ x. same_role (Complete spe x) r && has_at known.now at) (classes_of command.now))) }
    ensures chains { OnOk result (AreOf (known.now.chains) sets.new) }
{
    let tag = command.tag;
    put_when(sets, true, spe, Class::All, known)?;
    put_when(sets, true, spe, Class::Tag { tag }, known)?;
    put_when(
        sets,
        barred(command.mark),
        spe,
        Class::BarredTag { tag },
        known,
    )?;
    put_when(sets, barrier(command.kind), spe, Class::Barriers, known)?;
    Ok(())
}

/// Adds the known steps to the set of a command that waits for the first one.
fn put_ahead(sets: &mut Sets, c: &Live, d: &Live, known: &Known) -> Result<(), OrderError>
    requires { AreOf (known.now.chains) sets.old }
    ensures has { OnOk result ((r : ARole) (at : At) → sets_have sets.new r at ≡ (sets_have sets.old r at || (is_ahead c.now d.now && (same_role (Waits d.now.spe d.now.cmd) r && has_at known.now at)))) }
    ensures chains { OnOk result (AreOf (known.now.chains) sets.new) }
{
    if !ahead(c, d) {
        return Ok(());
    }
    sets.put(
        QueueRole::Waits {
            spe: d.spe,
            cmd: d.cmd,
        },
        known,
    )?;
    Ok(())
}

fn put_waits(sets: &mut Sets, c: &Live, next: &[Live], known: &Known) -> Result<(), OrderError>
    requires { AreOf (known.now.chains) sets.old }
    ensures has { OnOk result ((r : ARole) (at : At) → sets_have sets.new r at ≡ (sets_have sets.old r at || list_any (λ d. is_ahead c.now d && (same_role (Waits d.spe d.cmd) r && has_at known.now at)) next.now)) }
    ensures chains { OnOk result (AreOf (known.now.chains) sets.new) }
{
    for d in next {
        put_ahead(sets, c, d, known)?;
    }
    Ok(())
}

/// Where the command is complete now: its set goes into those of its classes and of the commands that wait for it.
fn pass_complete(
    sets: &mut Sets,
    spare: &mut Known,
    c: &Live,
    next: &[Live],
) -> Result<(), OrderError>
    requires { AreOf (spare.old.chains) sets.old }
    ensures has { OnOk result (AreMoved (λ g. done_any g next.now c.now) (sets_have sets.old) (sets_have sets.new)) }
    ensures chains { OnOk result (AreOf (spare.old.chains) sets.new) }
    ensures spare { spare.new.chains ≡ spare.old.chains }
{
    if !c.progress.done {
        return Ok(());
    }
    spare.clear();
    sets.gather(
        QueueRole::Waits {
            spe: c.spe,
            cmd: c.cmd,
        },
        spare,
    )?;
    put_classes(sets, c.spe, &c.progress.command, spare)?;
    put_waits(sets, c, next, spare)?;
    Ok(())
}

/// The same for all commands.
fn pass_each(sets: &mut Sets, spare: &mut Known, next: &[Live]) -> Result<(), OrderError>
    requires { AreOf (spare.old.chains) sets.old }
    ensures has { OnOk result (AreMoved (λ g. list_any (done_any g next.now) next.now) (sets_have sets.old) (sets_have sets.new)) }
    ensures chains { OnOk result (AreOf (spare.old.chains) sets.new) }
    ensures spare { spare.new.chains ≡ spare.old.chains }
{
    for c in next {
        pass_complete(sets, spare, c, next)?;
    }
    Ok(())
}

/// The same, where one is complete or none.
pub(crate) fn pass_done(
    sets: &mut Sets,
    spare: &mut Known,
    next: &[Live],
    done: bool,
) -> Result<(), OrderError>
    requires done { done ≡ list_any (λ l. l.progress.done) next.now }
    requires sets { AreOf (spare.old.chains) sets.old }
    ensures has { OnOk result (AreMoved (λ g. list_any (done_any g next.now) next.now) (sets_have sets.old) (sets_have sets.new)) }
    ensures chains { OnOk result (AreOf (spare.old.chains) sets.new) }
    ensures spare { spare.new.chains ≡ spare.old.chains }
{
    if !done {
        return Ok(());
    }
    pass_each(sets, spare, next)?;
    Ok(())
}

/// Where a status of the processor is fixed: what is complete of the tag goes into its set.
fn pass_tag(sets: &mut Sets, spare: &mut Known, spe: u8, tag: u8) -> Result<(), OrderError>
    requires { AreOf (spare.old.chains) sets.old }
    ensures has { OnOk result (AreMoved (λ g. g (fix_move spe tag)) (sets_have sets.old) (sets_have sets.new)) }
    ensures chains { OnOk result (AreOf (spare.old.chains) sets.new) }
    ensures spare { spare.new.chains ≡ spare.old.chains }
{
    let m = Move {
        from: QueueRole::Complete {
            spe,
            class: Class::Tag { tag },
        },
        to: QueueRole::Fixed { spe, tag },
    };
    make(sets, spare, m)?;
    Ok(())
}

fn pass_tags(sets: &mut Sets, spare: &mut Known, spe: u8) -> Result<(), OrderError>
    requires { AreOf (spare.old.chains) sets.old }
    ensures has { OnOk result (AreMoved (λ g. list_any g (map (fix_move spe) (below 32))) (sets_have sets.old) (sets_have sets.new)) }
    ensures chains { OnOk result (AreOf (spare.old.chains) sets.new) }
    ensures spare { spare.new.chains ≡ spare.old.chains }
{
    for tag in 0..32u8 {
        pass_tag(sets, spare, spe, tag)?;
    }
    Ok(())
}

/// Where the step fixes a status, the same for all tags.
pub(crate) fn pass_fixed(
    sets: &mut Sets,
    spare: &mut Known,
    step: Step,
    fixed: bool,
) -> Result<(), OrderError>
    requires { AreOf (spare.old.chains) sets.old }
    ensures has { OnOk result (AreMoved (λ g. list_any g (fix_list fixed (spe_in step))) (sets_have sets.old) (sets_have sets.new)) }
    ensures chains { OnOk result (AreOf (spare.old.chains) sets.new) }
    ensures spare { spare.new.chains ≡ spare.old.chains }
{
    if !fixed {
        return Ok(());
    }
    match spe_of(step) {
        Some(spe) => pass_tags(sets, spare, spe),
        None => Ok(()),
    }
}
