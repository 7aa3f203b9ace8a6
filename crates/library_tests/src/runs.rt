// Replaying steps, asking whether a run is settled, and making its steps in another order.
ghost use Rattle.std.specs.Prelude.{◌<◌, length, IfOk};

use crate::{EXEC, holds};
use cell_base::Step;
use cell_machine::Setup;
use race_check::{Verdict, check_races};
use run_permute::{is_settled, permute};
use run_record::{ReplayError, replay};
use std::alloc::Global;
use std::test::Fail;

/// `il $3,5` and `stop 0`.
const SHORT: [u8; 8] = [0x40, 0x80, 0x02, 0x83, 0x00, 0x00, 0x00, 0x00];

/// Two processors that stop after two steps each.
fn two(alloc: Global) -> Result<Setup, Fail>
    ensures { IfOk result (λ s. 0 < length s.entries) }
{
    let mut setup = Setup::new(alloc, 1, 9)?;
    setup.add_spe()?;
    setup.add_spe()?;
    setup.place(0, 0, &SHORT)?;
    setup.place(1, 0, &SHORT)?;
    Ok(setup)
}

/// The step of an instruction of processor 1.
const OTHER: Step = Step::Exec { spe: 1 };

// The first two steps are a run, and the script of the host has no action for the third.
#[test]
fn a_replay_names_the_first_refused_step(rt: HostRuntime) -> Result<(), Fail> {
    let alloc = rt.alloc();
    let machine = replay(alloc, two(alloc)?, &[EXEC, OTHER])?;
    holds(&rt, machine.steps() == [EXEC, OTHER].as_slice());
    let refused = replay(alloc, two(alloc)?, &[EXEC, OTHER, Step::Host, EXEC]);
    holds(&rt, matches!(refused, Err(ReplayError::NotARun { at: 2 })));
    Ok(())
}

// No step of one processor is ordered before one of the other, so the number 1 takes the later of two free steps and the earlier one in turn.
#[test]
fn a_settled_run_is_made_in_another_order(rt: HostRuntime) -> Result<(), Fail> {
    let alloc = rt.alloc();
    let steps = [EXEC, EXEC, OTHER, OTHER];
    let machine = replay(alloc, two(alloc)?, &steps)?;
    let Verdict::Accepted = check_races(alloc, &machine)? else {
        panic!(rt; "two processors that share nothing race")
    };
    if !is_settled(alloc, &machine)? {
        panic!(rt; "a run with no flow controller isn't settled")
    }
    let again = permute(alloc, &machine, 1)?;
    let wanted = [OTHER, EXEC, OTHER, EXEC];
    holds(&rt, again.steps() == wanted.as_slice());
    Ok(())
}
