//! Whether a run is settled, when it is made again.

ghost use Rattle.std.specs.Prelude.{◌≡◌, ◌↔◌, [], IfOk, OnOk, IsTrue};
ghost use Rattle.reorder_laws.specs.Settled.{IsSettled};
ghost use Rattle.run_walk.specs.Walks.{Stands, walked};
ghost use Rattle.run_permute.specs.Settlings.{Follows};

use crate::made::Made;
use crate::settling::Settling;
use cell_machine::Machine;
use run_walk::Walk;
use std::alloc::{AllocError, Global};

/// Makes the machine's run again, until it isn't settled.
fn follow_again(m: &Machine, walk: &mut Walk, settling: &mut Settling) -> Result<(), AllocError>
    requires begun { walked walk.old ≡ record m.now { steps = [] } }
    requires stands { Stands walk.old }
    requires follows { Follows (walked walk.old) settling.old }
    ensures { OnOk result (Follows m.now settling.new) }
{
    for step in m.steps() {
        let place = walk.machine().steps().len() as u32;
        let Some(effect) = walk.machine().effect(*step) else {
            unreachable!()
        };
        let made = Made::of(walk.machine(), *step, effect);
        walk.advance(*step, &effect)?;
        settling.follow(walk, place, *step, &made)?;
        if !settling.is_settled_so_far() {
            return Ok(());
        }
    }
    Ok(())
}

/// Whether the run of the machine is settled.
///
/// The run is made again on a machine of its own. Want of memory is the only refusal.
pub fn is_settled(alloc: Global, m: &Machine) -> Result<bool, AllocError>
    ensures { IfOk result (λ settled. IsTrue settled ↔ IsSettled m.now) }
{
    let setup = m.setup();
    let mut walk = Walk::new(alloc, setup)?;
    let mut settling = Settling::new(alloc, setup.spes())?;
    follow_again(m, &mut walk, &mut settling)?;
    Ok(settling.is_settled(m))
}
