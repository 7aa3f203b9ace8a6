//! The turns of one worker, and of several on threads.
ghost use Rattle.std.specs.Prelude.{ℕ, ◌<◌, All, length, slice_index_or};
ghost use Rattle.cell_turn.specs.Known.{Belongs};
ghost use Rattle.spe_workers.specs.Works.{Works};

use crate::gate::Gate;
use cell_base::Actor;
use cell_turn::{Pass, Shared, Turned};
use std::sync::Wait;
use std::thread;
use std::thread::Threads;

/// What a worker's choice grows by from one turn to the next.
const STRIDE: u64 = 7919;

/// One who takes turns as an actor.
#[derive(Drop)]
pub struct Worker {
    pub number: u32,
    pub actor: Actor,
    pub pass: Pass,
}

/// Takes turns until the run has an end.
fn work<R: Wait, G: Gate>(rt: &R, shared: &Shared, worker: &mut Worker, gate: &G)
    requires { Belongs worker.old.pass shared.now }
    ensures { Works worker.old worker.new }
{
    let mut turn: u32 = 0;
    for _ in rt.forever() {
        gate.pass(worker.number, turn);
        let choice = STRIDE * u64::from(turn) + u64::from(worker.number);
        match shared.step_as(rt, &mut worker.pass, worker.actor, choice) {
            Turned::Made { .. } => {}
            Turned::Over { .. } => return,
        }
        turn += 1;
    }
    unreachable!()
}

/// Lets each worker take turns until the run has an end, each in a thread of its own where one can be made, and else one after the other.
pub fn run_workers<R: Threads + Wait + Sync, G: Gate + Sync>(
    rt: &R,
    shared: &Shared,
    workers: &mut [Worker],
    gate: &G,
)
    requires { All (λ w. Belongs w.pass shared.now) workers.old }
    ensures { (i : ℕ) (d : Worker) → i < length workers.old → Works (slice_index_or workers.old i d) (slice_index_or workers.new i d) }
{
    let threads = workers.len().max(1);
    thread::for_each_mut(
        rt,
        workers,
        threads,
        &|_, worker| { work(rt, shared, worker, gate) },
    );
}
