//! The run of the reordering of a number.

ghost use Rattle.std.specs.Prelude.{◌≡◌, ℕ, ◌<◌, IfOk, length};
ghost use Rattle.cell_machine.specs.Run.{IsRun};
ghost use Rattle.race_check.specs.Races.{IsVerdict};
ghost use Rattle.race_check.specs.Reorderings.{at_places};
ghost use Rattle.race_check.specs.declared.check.Verdict.TheVariants.{Accepted};
ghost use Rattle.reorder_laws.specs.Settled.{IsSettled};
ghost use Rattle.run_permute.specs.SettledLists.{IsIn};
ghost use Rattle.run_permute.specs.Gathered.{Gathers};
ghost use Rattle.run_permute.specs.Nth.{EndsAlike, IsReordered};

use crate::choosing::order_of_number;
use crate::needs::Needs;
use cell_base::Step;
use cell_machine::{Machine, Setup};
use std::alloc::{AllocError, Global};

/// Makes the steps at the places of the order, which are a run from the setup.
fn make(alloc: Global, setup: &Setup, steps: &[Step], order: &[u32]) -> Result<Machine, AllocError>
    requires some { 0 < length setup.now.entries }
    requires inside { (i : ℕ) → IsIn i order.now → i < length steps.now }
    requires run { IsRun setup.now (at_places steps.now order.now) }
    ensures { IfOk result (λ x. x ≡ record { setup = setup.now; steps = at_places steps.now order.now }) }
{
    let Ok(copy) = setup.copy(alloc) else {
        return Err(AllocError);
    };
    let Ok(mut machine) = Machine::new(alloc, copy) else {
        return Err(AllocError);
    };
    for place in order {
        let Ok(_) = machine.step(steps[*place as usize]) else {
            unreachable!()
        };
    }
    Ok(machine)
}

/// The machine whose run has the steps of this one in the order of the number, from the same setup, where it is known what each of them
/// needs. There is one reordering of each number; that of 0 is the order of the run itself.
///
/// The steps are a run again where the run is settled and has no race, and every register, store and byte of memory is then what it was.
/// Want of memory is the only refusal.
pub fn permute_by_needs(
    alloc: Global,
    m: &Machine,
    needs: &Needs,
    number: u32,
) -> Result<Machine, AllocError>
    requires needs { Gathers m.now needs.now }
    requires accepted { IsVerdict m.now Accepted }
    requires settled { IsSettled m.now }
    ensures reordered { IfOk result (IsReordered m.now number) }
    ensures ends { IfOk result (EndsAlike m.now) }
{
    let setup = m.setup();
    let steps = m.steps();
    let order = order_of_number(alloc, m, &needs.needs, number)?;
    let permuted = make(alloc, setup, steps, &order)?;
    Ok(permuted)
}
