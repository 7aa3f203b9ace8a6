// A whole run, in which the workers meet; and two threads that try for turns without a rest.
ghost use Rattle.std.specs.Prelude.{◌≡◌, ◌<◌, [], length, IfOk};
ghost use Rattle.cell_turn.specs.Known.{Belongs};
ghost use Rattle.cell_turn.specs.Told.{Stays};

use crate::{EXEC, PROGRAM, holds};
use cell_base::Actor;
use cell_machine::{End, Machine, Setup};
use cell_turn::{Pass, Shared, Tried};
use spe_workers::{Gate, run_machine};
use std::alloc::Global;
use std::process::Abort;
use std::sync::{Barrier, Wait};
use std::test::Fail;
use std::thread::{Threads, join_mut};

/// A gate at which each worker waits, before its first turn, until all are there.
#[derive(Drop)]
struct Meet<'a, R: Wait> {
    rt: &'a R,
    barrier: Barrier,
}

impl<'a, R: Wait> Gate for Meet<'a, R> {
    fn pass(&self, _worker: u32, turn: u32) {
        if turn == 0 {
            self.barrier.wait(self.rt);
        }
    }
}

/// One processor with this program.
fn setup(alloc: Global, program: &[u8]) -> Result<Setup, Fail>
    ensures { IfOk result (λ s. 0 < length s.entries) }
{
    let mut setup = Setup::new(alloc, 1, 1000)?;
    setup.add_spe()?;
    setup.place(0, 0, program)?;
    Ok(setup)
}

// It ends only where the three workers run beside each other.
#[test]
fn all_workers_meet(rt: HostRuntime) -> Result<(), Fail> {
    let alloc = rt.alloc();
    let gate = Meet {
        rt: &rt,
        barrier: Barrier::new(3),
    };
    let machine = Machine::new(alloc, setup(alloc, &PROGRAM)?)?;
    let (machine, end) = run_machine(&rt, alloc, machine, &gate)?;
    holds(&rt, end == End::AllStopped);
    holds(&rt, machine.steps() == [EXEC; 3].as_slice());
    Ok(())
}

/// `il $3,50`, `ai $3,$3,-1`, `brnz $3,.-4` and `stop 0`, which are 102 steps.
const COUNTDOWN: [u8; 16] = [
    0x40, 0x80, 0x19, 0x03, 0x1c, 0xff, 0xc1, 0x83, 0x21, 0x7f, 0xff, 0x83, 0x00, 0x00, 0x00, 0x00,
];

/// Tries for turns until the run has an end. Each busy turn that it finds has to be held, and not one that it knew to be over.
fn try_turns<R: Wait + Abort>(rt: &R, shared: &Shared, pass: &mut Pass, actor: Actor)
    requires { Belongs pass.old shared.now }
    ensures { Stays pass.old pass.new }
{
    for _ in rt.forever() {
        let front = u64::from(pass.front());
        match shared.try_step(pass, actor, 0) {
            Tried::Made { .. } => {}
            Tried::Busy { turn } => holds(rt, turn % 2 == 1 && turn > 2 * front),
            Tried::Over { .. } => return,
        }
    }
    unreachable!()
}

/// Lets two passes try for turns, each in a thread of its own.
fn try_both<R: Threads + Wait + Abort + Sync>(
    rt: &R,
    shared: &Shared,
    first: &mut Pass,
    second: &mut Pass,
)
    requires first { Belongs first.old shared.now }
    requires second { Belongs second.old shared.now }
    ensures first { Stays first.old first.new }
    ensures second { Stays second.old second.new }
{
    join_mut(
        rt,
        &mut || try_turns(rt, shared, first, Actor::Spu(0)),
        &mut || try_turns(rt, shared, second, Actor::Spu(1)),
    );
}

/// Two processors that count down.
fn countdowns(alloc: Global) -> Result<Machine, Fail>
    ensures { IfOk result (λ m. m.steps ≡ []) }
{
    let mut setup = setup(alloc, &COUNTDOWN)?;
    setup.add_spe()?;
    setup.place(1, 0, &COUNTDOWN)?;
    Ok(Machine::new(alloc, setup)?)
}

#[test]
fn threads_that_never_rest_make_all_steps(rt: HostRuntime) -> Result<(), Fail> {
    let alloc = rt.alloc();
    let Ok((shared, mut first)) = Shared::start(alloc, countdowns(alloc)?, 2) else {
        return Err(Fail::new("no memory for the table"));
    };
    let mut second = shared.split(&mut first);
    try_both(&rt, &shared, &mut first, &mut second);
    shared.join(&mut first, second);
    holds(&rt, first.made() == 204);
    holds(&rt, shared.close(first).steps().len() == 204);
    Ok(())
}
