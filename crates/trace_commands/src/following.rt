//! A run and the order of its steps, taken step by step.

ghost use Rattle.std.specs.Prelude.{◌≡◌, ◌+◌, ◌<◌, ◌++◌, ◌-◌, ◌↔◌, IsTrue, length, IfErr, IfOk, OnOk};
ghost use Rattle.cell_machine.specs.Run.{IsRun, Ran};
ghost use Rattle.race_order.specs.OrderedRuns.{OnTrace, StandsForRun};
ghost use Rattle.race_order.specs.Rules.{Rule, Ordered};
ghost use Rattle.cell_trace.specs.Effects.{grown};
ghost use Rattle.trace_commands.specs.declared.fault.Fault.TheVariants.{Input};
ghost use Rattle.cell_commands.specs.declared.fault.Fault.TheVariants.{NotARun};
ghost use Rattle.trace_commands.specs.Told.{RefusesNext, RefusesRest};

use crate::fault::Fault;
use cell_base::Step;
use cell_commands::Fault as InputFault;
use cell_machine::{Effect, Machine};
use cell_trace::follow;
use race_order::Orderer;

/// What is said of a step that isn't allowed behind those that a machine has made.
pub fn not_allowed(machine: &Machine) -> Fault
    ensures told { result ≡ Input (NotARun (length machine.now.steps)) }
    ensures run { IsRun machine.now.setup machine.now.steps }
{
    Fault::Input(InputFault::NotARun {
        at: machine.steps().len() as u32,
    })
}

/// Makes steps. Behind a refusal the machine has made those before the first that isn't allowed.
pub fn make_all(machine: &mut Machine, steps: &[Step]) -> Result<(), Fault>
    ensures made { OnOk result (machine.new ≡ record machine.old { steps = machine.old.steps ++ steps.now }) }
    ensures refused { IfErr result (RefusesRest machine.old steps.now) }
{
    if follow(machine, steps).is_some() {
        return Err(not_allowed(machine));
    }
    Ok(())
}

/// Makes a step, takes it into the order, and answers its effect. Behind a refusal the orderer is only dropped.
pub fn take(orderer: &mut Orderer, machine: &mut Machine, step: Step) -> Result<Effect, Fault>
    ghost m: { Ran }
    requires same { m ≡ machine.old }
    requires stands { StandsForRun orderer.old m }
    ensures stands { IfOk result (λ _. StandsForRun orderer.new machine.new) }
    ensures made { OnOk result (machine.new ≡ grown machine.old step) }
    ensures refused { IfErr result (RefusesNext machine.old step) }
{
    let Some(effect) = machine.effect(step) else {
        return Err(not_allowed(machine));
    };
    if orderer.advance(step, effect).is_err() {
        return Err(Fault::Memory);
    }
    if machine.step(step).is_err() {
        return Err(not_allowed(machine));
    }
    Ok(effect)
}

/// Whether step `i` is ordered before the last one; false where it isn't an earlier one.
pub fn is_before(orderer: &Orderer, machine: &Machine, i: u32) -> bool
    ghost m: { Ran }
    requires same { m ≡ machine.now }
    requires stands { StandsForRun orderer.now m }
    ensures earlier { IsTrue result → i + 1 < length m.steps }
    ensures ordered { i + 1 < length m.steps → OnTrace m (λ trace. IsTrue result ↔ Ordered Rule trace i (length m.steps - 1)) }
{
    i as usize + 1 < machine.steps().len() && orderer.before(i)
}

/// Makes steps, and takes them into the order.
pub fn take_all(orderer: &mut Orderer, machine: &mut Machine, steps: &[Step]) -> Result<(), Fault>
    ghost m: { Ran }
    requires same { m ≡ machine.old }
    requires stands { StandsForRun orderer.old m }
    ensures stands { IfOk result (λ _. StandsForRun orderer.new machine.new) }
    ensures made { OnOk result (machine.new ≡ record machine.old { steps = machine.old.steps ++ steps.now }) }
    ensures refused { IfErr result (RefusesRest machine.old steps.now) }
{
    for step in steps {
        take(orderer, machine, *step)?;
    }
    Ok(())
}
