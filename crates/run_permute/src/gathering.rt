//! Gathering what each step of a run needs, when the run is made again.

ghost use Rattle.std.specs.Prelude.{◌≡◌, [], IfOk, OnOk};
ghost use Rattle.run_walk.specs.Walks.{Stands, walked};
ghost use Rattle.run_permute.specs.Gathered.{Gathers};

use crate::needs::Needs;
use cell_machine::Machine;
use run_walk::Walk;
use std::alloc::{AllocError, Global};

/// Makes the machine's run again.
fn gather(m: &Machine, walk: &mut Walk, needs: &mut Needs) -> Result<(), AllocError>
    requires begun { walked walk.old ≡ record m.now { steps = [] } }
    requires stands { Stands walk.old }
    requires gathers { Gathers (walked walk.old) needs.old }
    ensures { OnOk result (Gathers m.now needs.new) }
{
    for step in m.steps() {
        let place = walk.machine().steps().len() as u32;
        let Some(effect) = walk.machine().effect(*step) else {
            unreachable!()
        };
        walk.advance(*step, &effect)?;
        needs.follow(walk, place, *step)?;
    }
    Ok(())
}

/// What each step of the machine's run needs. The run is made again on a machine of its own.
pub fn needs_of(alloc: Global, m: &Machine) -> Result<Needs, AllocError>
    ensures { IfOk result (Gathers m.now) }
{
    let setup = m.setup();
    let mut walk = Walk::new(alloc, setup)?;
    let mut needs = Needs::new(alloc, setup.spes(), m.steps().len())?;
    gather(m, &mut walk, &mut needs)?;
    Ok(needs)
}
