//! A run of a whole machine by workers.
ghost use Rattle.std.specs.Prelude.{◌≡◌, ◌+◌, ◌*◌, ◌<◌, [], All, IfOk, Some, slice_get, vec_len};
ghost use Rattle.cell_machine.specs.Run.{EndsAs, HasEnd};
ghost use Rattle.cell_turn.specs.Choice.{ran};
ghost use Rattle.cell_turn.specs.Known.{Belongs};
ghost use Rattle.spe_workers.specs.Worked.{IsNew, IsDone};
ghost use Rattle.spe_workers.specs.Seated.{AreSeated, actors_of};

use crate::gate::Gate;
use crate::worker::{Worker, run_workers};
use cell_base::Actor;
use cell_machine::{End, Machine};
use cell_turn::{Pass, Shared};
use std::alloc::{AllocError, Global};
use std::sync::Wait;
use std::thread::Threads;

/// The actor with this number: the processors, then their flow controllers, then the host.
#[tactic(auto, using(crate::proofs::Seating::spu_at, crate::proofs::Seating::mfc_at, crate::proofs::Seating::host_at))]
fn actor_of(spes: u8, number: u32) -> Actor
    requires { number < 2 * spes + 1 }
    ensures { slice_get (actors_of spes) number ≡ Some result }
{
    let spes = u32::from(spes);
    if number < spes {
        Actor::Spu(number as u8)
    } else if number < 2 * spes {
        Actor::Mfc((number - spes) as u8)
    } else {
        Actor::Host
    }
}

/// A worker for each actor of a machine with so many processors, in order. Each has one token: `first` has as many as there are actors.
pub(crate) fn seat_all(
    alloc: Global,
    shared: &Shared,
    mut first: Pass,
    spes: u8,
) -> Result<Vec<Worker>, AllocError>
    requires own { Belongs first shared.now }
    requires tokens { first.tokens ≡ 2 * spes + 1 }
    ensures count { IfOk result (λ v. vec_len v ≡ 2 * spes + 1) }
    ensures seated { IfOk result (λ v. AreSeated spes v.items) }
    ensures own { IfOk result (λ v. All (λ w. IsNew w.pass shared.now) v.items) }
{
    let last = 2 * u32::from(spes);
    let mut workers = Vec::with_capacity(alloc, last as usize + 1)?;
    for number in 0..last {
        workers.push_reserved(Worker {
            number,
            actor: actor_of(spes, number),
            pass: shared.split(&mut first),
        });
    }
    workers.push_reserved(Worker {
        number: last,
        actor: actor_of(spes, last),
        pass: first,
    });
    Ok(workers)
}

/// One pass of all workers' passes.
pub(crate) fn join_all(shared: &Shared, mut workers: Vec<Worker>) -> Pass
    requires some { 0 < vec_len workers }
    requires done { All (λ w. IsDone w.pass shared.now) workers.items }
    ensures own { Belongs result shared.now }
    ensures tokens { result.tokens ≡ vec_len workers }
    ensures end { HasEnd (ran result.setup result.seen) }
{
    let Some(Worker { pass: mut all, .. }) = workers.pop() else {
        unreachable!()
    };
    while let Some(worker) = workers.pop() {
        let Worker { pass, .. } = worker;
        shared.join(&mut all, pass);
    }
    all
}

/// Runs a machine that made no step yet to its end on threads: with a worker for each processor, one for each flow controller and one for the host, numbered in this order.
/// Answers the machine, whose record is of all that they did, and how the run ended.
pub fn run_machine<R: Threads + Wait + Sync, G: Gate + Sync>(
    rt: &R,
    alloc: Global,
    machine: Machine,
    gate: &G,
) -> Result<(Machine, End), AllocError>
    requires { machine.steps ≡ [] }
    ensures setup { IfOk result (λ r. r.0.setup ≡ machine.setup) }
    ensures end { IfOk result (λ r. EndsAs r.0 (Some r.1)) }
{
    let spes = machine.setup().spes();
    let Ok((shared, first)) = Shared::start(alloc, machine, 2 * u32::from(spes) + 1) else {
        return Err(AllocError);
    };
    let mut workers = seat_all(alloc, &shared, first, spes)?;
    run_workers(rt, &shared, &mut workers, gate);
    let all = join_all(&shared, workers);
    let machine = shared.close(all);
    let _run = machine.steps();
    let Some(end) = machine.end() else {
        unreachable!()
    };
    Ok((machine, end))
}
