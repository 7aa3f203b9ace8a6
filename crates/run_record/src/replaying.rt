//! Replaying steps on a machine.

ghost use Rattle.std.specs.Prelude.{◌≡◌, ◌<◌, ◌++◌, ℕ, Ok, Err, length, take, IfOk, IfErr, IsErrOf};
ghost use Rattle.cell_machine.specs.Run.{IsRun};
ghost use Rattle.run_record.specs.Replayed.{IsRefusedAt, ReplaysOrMemory};
ghost use Rattle.run_record.specs.declared.error.ReplayError.TheVariants.{NotARun};

use crate::error::{RefusedStep, ReplayError};
use cell_base::Step;
use cell_machine::{Machine, Setup};
use std::alloc::Global;

/// Makes these steps after those that the machine has made. Refuses at the first one that isn't allowed, or that is one more than the
/// budget, and returns its place among all steps, counted from 0: the steps before it stay made.
pub fn make_steps(machine: &mut Machine, steps: &[Step]) -> Result<(), RefusedStep>
    // The machine stands for all steps.
    ensures replayed { IfOk result (λ _. machine.new ≡ record machine.old { steps = machine.old.steps ++ steps.now }) }
    // Each run is replayed.
    ensures run { IsRun machine.old.setup (machine.old.steps ++ steps.now) → result ≡ Ok tt }
    // The place is that of the first refused step.
    ensures not_a_run { IfErr result (λ refused. IsRefusedAt machine.old.setup (machine.old.steps ++ steps.now) refused.at) }
    // Each first refused step is returned.
    ensures refused { (at : ℕ) → IsRefusedAt machine.old.setup (machine.old.steps ++ steps.now) at → result ≡ Err (record { at = at }) }
    // The machine stands for the steps before that one.
    ensures kept { IfErr result (λ refused. machine.new ≡ record machine.old { steps = take refused.at (machine.old.steps ++ steps.now) }) }
{
    let _run = machine.steps(); // which are a run, as its contract says
    for step in steps {
        let at = machine.steps().len() as u32;
        let refused = machine.step(*step).is_err();
        if refused {
            return Err(RefusedStep { at });
        }
    }
    Ok(())
}

/// The machine that these steps of this setup, which has a processor, lead to. `NotARun` at the first step that isn't allowed, or
/// that is one more than the budget, counted from 0. `Memory` comes before any step.
pub fn replay(alloc: Global, setup: Setup, steps: &[Step]) -> Result<Machine, ReplayError>
    requires { 0 < length setup.entries }
    // Only a run is replayed, and the machine stands for it.
    ensures replayed { IfOk result (λ m. IsRun setup steps.now × (m ≡ record { setup = setup; steps = steps.now })) }
    // Each run is replayed.
    ensures run { IsRun setup steps.now → ReplaysOrMemory result (Ok (record { setup = setup; steps = steps.now })) }
    // The place is that of the first refused step.
    ensures not_a_run { (at : ℕ) → IsErrOf result (NotARun at) → IsRefusedAt setup steps.now at }
    // Each first refused step is told.
    ensures refused { (at : ℕ) → IsRefusedAt setup steps.now at → ReplaysOrMemory result (Err (NotARun at)) }
{
    let mut machine = Machine::new(alloc, setup)?;
    match make_steps(&mut machine, steps) {
        Ok(()) => {
            let _run = machine.steps(); // which are a run, as its contract says
            Ok(machine)
        }
        Err(RefusedStep { at }) => Err(ReplayError::NotARun { at }),
    }
}
