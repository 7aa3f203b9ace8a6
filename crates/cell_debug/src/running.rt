//! A script that is run on a machine.

ghost use Rattle.std.specs.Prelude.{◌≡◌, ◌≤◌, ◌++◌, ℕ, length, IfOk, OnErr, OnOk};
ghost use Rattle.cell_machine.specs.State.{State};
ghost use Rattle.cell_machine.specs.Run.{IsEnd};
ghost use Rattle.state_lines.specs.Ends.{end_of};
ghost use Rattle.cell_debug.specs.Debug.{after, after_all, printed, said, IsOnTheWay};
ghost use Rattle.cell_debug.specs.Fits.{IsThere, FitsSetup};

use crate::error::DebugError;
use crate::line::Line;
use crate::printing::{put_end_of, put_register_of, put_words};
use crate::script::Script;
use crate::turns::{make_turns, make_turns_until};
use cell_machine::Machine;
use state_lines::{put_show, put_spe};
use std::alloc::Global;

/// Writes what a line prints.
fn print(alloc: Global, out: &mut Vec<u8>, m: &Machine, line: Line) -> Result<(), DebugError>
    requires { IsThere m.now.setup line }
    ensures { OnOk result (out.new.items ≡ out.old.items ++ said m.now line) }
{
    match line {
        Line::Step { .. } => {}
        Line::Until { .. } => {}
        Line::Register { spe, r } => put_register_of(out, m, spe, r)?,
        Line::Show { show } => put_show(out, m, show)?,
        Line::Words { spe, at, count } => put_words(alloc, out, m.local(spe), at, count)?,
        Line::Spe { spe } => put_spe(out, m, spe)?,
        Line::End => put_end_of(out, m)?,
    }
    Ok(())
}

/// Makes the turns that a line asks for.
fn take_turns(m: &mut Machine, line: Line)
    requires { IsThere m.old.setup line }
    ensures { m.new ≡ after m.old line }
{
    match line {
        Line::Step {
            actor,
            choice,
            turns,
        } => make_turns(m, actor, choice, turns),
        Line::Until { spe, at, turns } => make_turns_until(m, spe, at, turns),
        _ => {}
    }
}

/// Runs a script on a machine that has what the script names, as one with the processors and memory lines of the script's setup has.
/// The answer is what its lines print, each of the run that the lines before it have made; the machine then stands for the run after
/// all of them, and after an `Err` for one on the way there.
pub fn run_script(alloc: Global, m: &mut Machine, script: &Script) -> Result<Vec<u8>, DebugError>
    requires { FitsSetup m.old.setup script.now }
    ensures prints { IfOk result (λ text. text.items ≡ printed m.old script.now) }
    ensures after { OnOk result (m.new ≡ after_all m.old script.now) }
    ensures on_the_way { OnErr result (IsOnTheWay m.old m.new script.now) }

    // The end word that a line `end` prints is that of the state.
    ensures end_word { (M : State) (budget : ℕ) → length M.steps ≤ budget → IsEnd M budget (end_of M budget) }
{
    let mut out = Vec::new(alloc);
    for line in script.lines() {
        print(alloc, &mut out, m, *line)?;
        take_turns(m, *line);
    }
    Ok(out)
}
