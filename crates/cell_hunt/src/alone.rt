//! Runs by the choices of a seed that are made without a search for races.

ghost use Rattle.std.specs.Prelude.{◌≡◌, ◌<◌, [], length, IfOk};
ghost use Rattle.cell_machine.specs.Run.{Ran};
ghost use Rattle.cell_hunt.specs.Ends.{IsOver};
ghost use Rattle.cell_hunt.specs.Goings.{Goes};
ghost use Rattle.cell_hunt.specs.Runs.{IsRunOfSeed};

use crate::chooser::Chooser;
use crate::error::HuntError;
use cell_machine::{Machine, Setup};
use std::alloc::Global;

/// Makes the steps that are chosen, until the run is over.
fn make_steps(machine: &mut Machine, chooser: &mut Chooser)
    requires begun { machine.old.steps ≡ [] }
    ensures goes { Goes chooser.old machine.old machine.new }
    ensures over { IsOver machine.new }
{
    for place in 0..machine.setup().budget() {
        let Some(step) = chooser.next(machine, place) else {
            return;
        };
        let Ok(_) = machine.step(step) else {
            unreachable!()
        };
    }
}

/// The machine that has made run `run` of a seed, to its end or to the end of its budget: the run of `run_of_seed`, not searched for races.
/// Out of memory is the only refusal.
pub fn machine_of_seed(
    alloc: Global,
    setup: &Setup,
    seed: u64,
    run: u32,
) -> Result<Machine, HuntError>
    requires { 0 < length setup.now.entries }
    ensures run { IfOk result (IsRunOfSeed setup.now seed run) }
    ensures over { IfOk result IsOver }
    ensures only { IfOk result (λ m. (n : Ran) → IsRunOfSeed setup.now seed run n → n ≡ m) }
{
    let Ok(copy) = setup.copy(alloc) else {
        return Err(HuntError::Memory);
    };
    let Ok(mut machine) = Machine::new(alloc, copy) else {
        return Err(HuntError::Memory);
    };
    let mut chooser = Chooser::new(seed, run);
    make_steps(&mut machine, &mut chooser);
    Ok(machine)
}
