//! The two calls.

ghost use Rattle.std.specs.Prelude.{◌↔◌, IfOk, IsTrue};
ghost use Rattle.race_check.specs.Races.{IsVerdict};
ghost use Rattle.race_check.specs.declared.check.Verdict.TheVariants.{Accepted};
ghost use Rattle.reorder_laws.specs.Settled.{IsSettled};
ghost use Rattle.run_permute.specs.Nth.{EndsAlike, IsReordered};

use crate::check;
use crate::error::PermuteError;
use crate::gathering::needs_of;
use crate::permuting::permute_by_needs;
use cell_machine::Machine;
use std::alloc::Global;

/// Whether the run of the machine is settled.
///
/// The run is made again on a machine of its own. Out of memory is the only refusal.
pub fn is_settled(alloc: Global, m: &Machine) -> Result<bool, PermuteError>
    ensures { IfOk result (λ settled. IsTrue settled ↔ IsSettled m.now) }
{
    let settled = check::is_settled(alloc, m)?;
    Ok(settled)
}

/// The machine whose run has the steps of this one in the order of the number, from the same setup. There is one reordering of each
/// number; that of 0 is the order of the run itself.
///
/// The steps are a run again if the run is settled and has no race, and every register, store and byte of memory is then what it was.
/// Out of memory is the only refusal.
pub fn permute(alloc: Global, m: &Machine, n: u32) -> Result<Machine, PermuteError>
    requires accepted { IsVerdict m.now Accepted }
    requires settled { IsSettled m.now }
    ensures reordered { IfOk result (IsReordered m.now n) }
    ensures ends { IfOk result (EndsAlike m.now) }
{
    let needs = needs_of(alloc, m)?;
    let permuted = permute_by_needs(alloc, m, &needs, n)?;
    Ok(permuted)
}
