//! What is told of runs: records, states, what steps do, and what flow controllers hold.

ghost use Rattle.std.specs.Prelude.{◌≡◌, ◌≤◌, take, length, IfErr, IfOk, OnOk};
ghost use Rattle.cell_commands.specs.Checks.{TellsEnd};
ghost use Rattle.cell_commands.specs.Runs.{PrintsSteps};
ghost use Rattle.trace_commands.specs.Choices.{start, with_choice, with_choices};
ghost use Rattle.trace_commands.specs.Told.{Adds, AddsChosen, Came, Goes, IsShort, TellsRecord, TellsStanding, Told, ToldBehind};

use crate::before::{before_text, each_text};
use crate::choosing::chosen;
use crate::fault::Fault;
use crate::following::{make_all, not_allowed};
use crate::words::Ask;
use cell_base::Step;
use cell_machine::Machine;
use cell_report::{record_text, states_text};
use cell_trace::{put_allowed, put_effects, put_flows, put_log};
use std::alloc::{AllocError, Global};

/// Writes the states of a machine.
fn put_states(alloc: Global, out: &mut Vec<u8>, machine: &Machine) -> Result<(), AllocError>
    ensures { OnOk result (Adds (TellsEnd machine.now) out.old.items out.new.items) }
{
    match states_text(alloc, machine) {
        Ok(states) => out.extend_from_slice(states.as_slice()),
        Err(_) => Err(AllocError),
    }
}

/// The record of a machine's run.
pub fn run_record(alloc: Global, machine: &Machine) -> Result<Vec<u8>, AllocError>
    ensures { IfOk result (λ text. TellsRecord machine.now text.items) }
{
    match record_text(alloc, machine.steps()) {
        Ok(text) => Ok(text),
        Err(_) => Err(AllocError),
    }
}

/// The record of a machine's run, and then its states, as `cell run` prints them.
pub fn run_text(alloc: Global, machine: &Machine) -> Result<Vec<u8>, AllocError>
    ensures { IfOk result (λ text. PrintsSteps machine.now text.items) }
{
    let Ok(mut out) = record_text(alloc, machine.steps()) else {
        return Err(AllocError);
    };
    let Ok(states) = states_text(alloc, machine) else {
        return Err(AllocError);
    };
    out.extend_from_slice(states.as_slice())?;
    Ok(out)
}

/// Makes steps from a machine's start, and tells what each does.
fn effects_text(alloc: Global, machine: &mut Machine, steps: &[Step]) -> Result<Vec<u8>, Fault>
    requires { machine.old ≡ start machine.old.setup }
    ensures { Told machine.old.setup steps.now Ask.Effects result }
{
    let mut out = Vec::new(alloc);
    let Ok(refused) = put_effects(&mut out, machine, steps) else {
        return Err(Fault::Memory);
    };
    if refused.is_some() {
        return Err(not_allowed(machine));
    }
    Ok(out)
}

/// Makes steps from a machine's start. Returns the lines of the steps, each with the changes that the step made.
fn log_text(alloc: Global, machine: &mut Machine, steps: &[Step]) -> Result<Vec<u8>, Fault>
    requires { machine.old ≡ start machine.old.setup }
    ensures { Told machine.old.setup steps.now Ask.Log result }
{
    let mut out = Vec::new(alloc);
    let Ok(refused) = put_log(alloc, &mut out, machine, steps) else {
        return Err(Fault::Memory);
    };
    if refused.is_some() {
        return Err(not_allowed(machine));
    }
    Ok(out)
}

/// Makes steps from a machine's start, and tells the states behind them.
fn states_behind(alloc: Global, machine: &mut Machine, steps: &[Step]) -> Result<Vec<u8>, Fault>
    requires { machine.old ≡ start machine.old.setup }
    ensures { Told machine.old.setup steps.now Ask.States result }
{
    make_all(machine, steps)?;
    match states_text(alloc, machine) {
        Ok(text) => Ok(text),
        Err(_) => Err(Fault::Memory),
    }
}

/// Writes the states of a machine, and what its flow controllers hold.
fn put_standing(alloc: Global, out: &mut Vec<u8>, machine: &Machine) -> Result<(), AllocError>
    ensures { OnOk result (Adds (TellsStanding machine.now) out.old.items out.new.items) }
{
    put_states(alloc, out, machine)?;
    put_flows(out, machine)
}

/// Makes steps from a machine's start, and tells the states and the flow controllers behind them.
fn flows_text(alloc: Global, machine: &mut Machine, steps: &[Step]) -> Result<Vec<u8>, Fault>
    requires { machine.old ≡ start machine.old.setup }
    ensures { ToldBehind TellsStanding machine.old.setup steps.now result }
{
    make_all(machine, steps)?;
    let mut out = Vec::new(alloc);
    put_standing(alloc, &mut out, machine)?;
    Ok(out)
}

/// The first so many steps, if there are so many.
pub fn first_steps(steps: &[Step], count: u64) -> Result<&[Step], Fault>
    ensures first { IfOk result (λ first. (first.now ≡ take count steps.now) × (count ≤ length steps.now)) }
    ensures short { IfErr result (IsShort steps.now count) }
{
    if count > steps.len() as u64 {
        Err(Fault::TooShort { steps: count })
    } else {
        Ok(&steps[..count as usize])
    }
}

/// The first so many steps are made from a machine's start, and the states and the flow controllers behind them are told.
fn flows_at(
    alloc: Global,
    machine: &mut Machine,
    steps: &[Step],
    count: u32,
) -> Result<Vec<u8>, Fault>
    requires { machine.old ≡ start machine.old.setup }
    ensures { Told machine.old.setup steps.now (Ask.Flows count) result }
{
    match first_steps(steps, u64::from(count)) {
        Ok(first) => flows_text(alloc, machine, first),
        Err(fault) => Err(fault),
    }
}

/// The steps up to a place are made from a machine's start, and the places that are ordered before that one are told.
fn before_at(
    alloc: Global,
    machine: &mut Machine,
    steps: &[Step],
    place: u32,
) -> Result<Vec<u8>, Fault>
    requires { machine.old ≡ start machine.old.setup }
    ensures { Told machine.old.setup steps.now (Ask.Before place) result }
{
    match first_steps(steps, u64::from(place) + 1) {
        Ok(first) => before_text(alloc, machine, first),
        Err(fault) => Err(fault),
    }
}

/// Makes steps from a machine's start, and tells what is asked of their run.
pub fn tell(
    alloc: Global,
    machine: &mut Machine,
    steps: &[Step],
    ask: Ask,
) -> Result<Vec<u8>, Fault>
    requires { machine.old ≡ start machine.old.setup }
    ensures { Told machine.old.setup steps.now ask result }
{
    match ask {
        Ask::Effects => effects_text(alloc, machine, steps),
        Ask::Log => log_text(alloc, machine, steps),
        Ask::States => states_behind(alloc, machine, steps),
        Ask::BeforeEach => each_text(alloc, machine, steps),
        Ask::Flows { steps: count } => flows_at(alloc, machine, steps, count),
        Ask::Before { place } => before_at(alloc, machine, steps, place),
    }
}

/// Makes the step that the number chooses, where one is allowed, and writes what it does.
fn put_choice(out: &mut Vec<u8>, machine: &mut Machine, number: u64) -> Result<(), AllocError>
    ensures lines { OnOk result (AddsChosen machine.old machine.new out.old.items out.new.items) }
    ensures chosen { OnOk result (machine.new ≡ with_choice machine.old number) }
{
    let Some(step) = chosen(machine, number) else {
        return Ok(());
    };
    match put_effects(out, machine, &[step]) {
        Ok(_) => Ok(()),
        Err(error) => Err(error),
    }
}

/// Makes the steps that the numbers choose, where one is allowed, and writes what each does.
fn put_chosen(out: &mut Vec<u8>, machine: &mut Machine, numbers: &[u64]) -> Result<(), AllocError>
    ensures lines { OnOk result (AddsChosen machine.old machine.new out.old.items out.new.items) }
    ensures chosen { OnOk result (machine.new ≡ with_choices machine.old numbers.now) }
{
    for number in numbers {
        put_choice(out, machine, *number)?;
    }
    Ok(())
}

/// Makes the steps that the numbers choose. Returns the lines of these steps, the states and the contents of the MFCs after them, and what may come next.
fn going_text(alloc: Global, machine: &mut Machine, numbers: &[u64]) -> Result<Vec<u8>, AllocError>
    ensures { IfOk result (λ text. Goes numbers.now machine.old text.items) }
{
    let mut out = Vec::new(alloc);
    put_chosen(&mut out, machine, numbers)?;
    put_standing(alloc, &mut out, machine)?;
    put_allowed(&mut out, machine)?;
    Ok(out)
}

/// Makes steps from a machine's start, and then those that the numbers choose, and tells of these.
fn going_behind(
    alloc: Global,
    machine: &mut Machine,
    steps: &[Step],
    numbers: &[u64],
) -> Result<Vec<u8>, Fault>
    requires { machine.old ≡ start machine.old.setup }
    ensures { ToldBehind (Goes numbers.now) machine.old.setup steps.now result }
{
    make_all(machine, steps)?;
    match going_text(alloc, machine, numbers) {
        Ok(text) => Ok(text),
        Err(_) => Err(Fault::Memory),
    }
}

/// Makes the first so many steps from a machine's start, and then those that the numbers choose, and tells of these.
pub fn go_on(
    alloc: Global,
    machine: &mut Machine,
    steps: &[Step],
    count: u32,
    numbers: &[u64],
) -> Result<Vec<u8>, Fault>
    requires { machine.old ≡ start machine.old.setup }
    ensures { Came (Goes numbers.now) machine.old.setup steps.now count result }
{
    match first_steps(steps, u64::from(count)) {
        Ok(first) => going_behind(alloc, machine, first, numbers),
        Err(fault) => Err(fault),
    }
}
