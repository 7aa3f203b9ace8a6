// One machine and two passes, in one thread.
ghost use Rattle.std.specs.Prelude.{◌≡◌, [], IfOk};

use crate::{EXEC, PROGRAM, holds};
use cell_base::Actor;
use cell_machine::{End, Machine, Setup};
use cell_turn::{Shared, Tried, Turned};
use std::alloc::Global;
use std::test::Fail;

/// One processor that stops after three steps.
fn machine(alloc: Global) -> Result<Machine, Fail>
    ensures { IfOk result (λ m. m.steps ≡ []) }
{
    let mut setup = Setup::new(alloc, 1, 9)?;
    setup.add_spe()?;
    setup.place(0, 0, &PROGRAM)?;
    Ok(Machine::new(alloc, setup)?)
}

#[test]
fn two_passes_take_turns(rt: HostRuntime) -> Result<(), Fail> {
    let alloc = rt.alloc();
    let Ok((shared, mut first)) = Shared::start(alloc, machine(alloc)?, 2) else {
        panic!(rt; "there was memory for a machine, and none for its table")
    };
    let mut second = shared.split(&mut first);
    let tried = shared.try_step(&mut first, Actor::Spu(0), 0);
    holds(&rt, matches!(tried, Tried::Made { at: 0, step: EXEC }));
    let tried = shared.try_step(&mut second, Actor::Host, 5);
    holds(&rt, matches!(tried, Tried::Made { at: 1, step: EXEC }));
    let turned = shared.step_as(&rt, &mut first, Actor::Spu(0), 7);
    holds(&rt, matches!(turned, Turned::Made { at: 2, step: EXEC }));
    let turned = shared.step_as(&rt, &mut second, Actor::Spu(0), 0);
    holds(
        &rt,
        matches!(
            turned,
            Turned::Over {
                end: End::AllStopped
            }
        ),
    );
    holds(&rt, first.made() == 2 && second.made() == 1);
    shared.join(&mut first, second);
    holds(
        &rt,
        first.made() == 3 && first.front() == 3 && first.tokens() == 2,
    );
    let machine = shared.close(first);
    holds(&rt, machine.steps().len() == 3);
    Ok(())
}
