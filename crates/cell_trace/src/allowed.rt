//! What may come next at the end of a run: the instruction at the PC of each processor, and each step that is allowed.

ghost use Rattle.std.specs.Prelude.{◌≡◌, ◌<◌, ◌≤◌, ◌++◌, map, length, Some, OnOk, IsSomeAnd, slice_get};
ghost use Rattle.std.specs.List.{flat_map, range_with_len};
ghost use Rattle.cell_base.specs.declared.steps.Actor.TheVariants.{Spu, Mfc};
ghost use Rattle.cell_machine.specs.State.{State};
ghost use Rattle.cell_machine.specs.Spe.{Spe};
ghost use Rattle.cell_machine.specs.Run.{picked_of, state_of};
ghost use Rattle.cell_trace.specs.Allowed.{allowed_of, at_line, at_lines, may_line, next_steps};

use crate::fields::put_numbers;
use crate::looking::store_word;
use cell_base::{Actor, Step};
use cell_machine::Machine;
use cell_report::put_step;
use std::alloc::AllocError;

/// Writes the line of a processor: its number, and the instruction word at its PC.
fn put_at(out: &mut Vec<u8>, m: &Machine, spe: u8) -> Result<(), AllocError>
    requires { spe < length m.now.setup.entries }
    ensures { OnOk result ((M : State) → (P : Spe) → state_of m.now ≡ Some M → slice_get M.spes spe ≡ Some P → out.new.items ≡ out.old.items ++ at_line spe P) }
{
    let word = store_word(m.local(spe), m.pc(spe));
    out.extend_from_slice(b"at")?;
    put_numbers(out, &[u32::from(spe), word])?;
    out.extend_from_slice(b"\n")
}

/// Writes the lines of all processors.
fn put_ats(out: &mut Vec<u8>, m: &Machine) -> Result<(), AllocError>
    ensures { OnOk result ((M : State) → state_of m.now ≡ Some M → out.new.items ≡ out.old.items ++ at_lines 0 M.spes) }
{
    for spe in 0..m.setup().spes() {
        put_at(out, m, spe)?;
    }
    Ok(())
}

/// Writes the line of a step.
fn put_may(out: &mut Vec<u8>, step: Step) -> Result<(), AllocError>
    ensures { OnOk result (out.new.items ≡ out.old.items ++ may_line step) }
{
    out.extend_from_slice(b"may ")?;
    put_step(out, step)
}

/// The allowed step of an actor at a place after the first; None after the last one, where choices begin again with the first.
fn step_at(m: &Machine, actor: Actor, place: u64, first: Step) -> Option<Step>
    requires later { 0 < place }
    requires first { Some first ≡ picked_of m.now actor 0 }
    ensures { (M : State) → state_of m.now ≡ Some M → place ≤ length (next_steps M m.now.setup.budget actor) → result ≡ slice_get (next_steps M m.now.setup.budget actor) place }
{
    let step = m.pick(actor, place)?;
    if step == first { None } else { Some(step) }
}

/// Writes the lines of the allowed steps of an actor.
fn put_steps(out: &mut Vec<u8>, m: &Machine, actor: Actor) -> Result<(), AllocError>
    ensures { OnOk result (IsSomeAnd (state_of m.now) (λ M. out.new.items ≡ out.old.items ++ flat_map may_line (next_steps M m.now.setup.budget actor))) }
{
    let Some(first) = m.pick(actor, 0) else {
        return Ok(());
    };
    put_may(out, first)?;
    for place in 1..u64::MAX {
        let Some(step) = step_at(m, actor, place, first) else {
            return Ok(());
        };
        put_may(out, step)?;
    }
    // No memory holds so many lines.
    Err(AllocError)
}

/// Writes the lines of the allowed instructions.
fn put_spus(out: &mut Vec<u8>, m: &Machine) -> Result<(), AllocError>
    ensures { OnOk result ((M : State) → state_of m.now ≡ Some M → out.new.items ≡ out.old.items ++ flat_map may_line (flat_map (next_steps M m.now.setup.budget) (map Spu (range_with_len 0 (length M.spes))))) }
{
    for spe in 0..m.setup().spes() {
        put_steps(out, m, Actor::Spu(spe))?;
    }
    Ok(())
}

/// Writes the lines of the allowed steps of the MFCs.
fn put_mfcs(out: &mut Vec<u8>, m: &Machine) -> Result<(), AllocError>
    ensures { OnOk result ((M : State) → state_of m.now ≡ Some M → out.new.items ≡ out.old.items ++ flat_map may_line (flat_map (next_steps M m.now.setup.budget) (map Mfc (range_with_len 0 (length M.spes))))) }
{
    for spe in 0..m.setup().spes() {
        put_steps(out, m, Actor::Mfc(spe))?;
    }
    Ok(())
}

/// Writes what may come next at the end of a machine's run: a line `at SPE WORD` for each processor, with the instruction word at its PC, and then a line
/// `may STEP` for each allowed step, with its line in a record. The steps are in the order of their actors (the processors, their MFCs, the host), and those
/// of one actor in the order of the choices that `pick` takes. Once the budget is spent, no step is allowed. The only error is out of memory.
pub fn put_allowed(out: &mut Vec<u8>, m: &Machine) -> Result<(), AllocError>
    ensures { OnOk result (IsSomeAnd (state_of m.now) (λ M. out.new.items ≡ out.old.items ++ allowed_of M m.now.setup.budget)) }
{
    put_ats(out, m)?;
    put_spus(out, m)?;
    put_mfcs(out, m)?;
    put_steps(out, m, Actor::Host)
}
