//! The text of what a run left.

ghost use Rattle.std.specs.Prelude.{◌≡◌, Some, IfOk};
ghost use Rattle.cell_machine.specs.State.{State};
ghost use Rattle.cell_machine.specs.Run.{state_of};
ghost use Rattle.cell_report.specs.States.{result_of};

use crate::error::TextError;
use crate::host::put_all_took;
use crate::shows::put_shows;
use cell_machine::Machine;
use std::alloc::Global;

/// What a run left as text: the values that the host took, and the ranges that the setup shows, as the states have them.
pub fn result_text(alloc: Global, m: &Machine) -> Result<Vec<u8>, TextError>
    ensures { IfOk result (λ text. (M : State) → state_of m.now ≡ Some M → text.items ≡ result_of M m.now.setup.shows) }
{
    let mut out = Vec::new(alloc);
    put_all_took(&mut out, m.host().took())?;
    put_shows(&mut out, m)?;
    Ok(out)
}
