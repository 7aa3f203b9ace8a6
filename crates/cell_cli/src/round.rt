//! A gate by which turns go round among the workers of a run, in an order by chance.
//!
//! With nothing to hold it up, a worker that has the turn makes hundreds of steps while the others rest, and the first is through before
//! the second starts: a run then hardly ever comes in another order. Here a baton goes round. Who has it takes a burst of turns and hands it
//! to a worker by chance; the others sleep, each on a word of its own. Nobody waits for longer than a moment, or four before its first turn,
//! so that a baton that was handed to a worker whose run is over holds nobody up.

use spe_workers::Gate;
use std::array;
use std::random::RandomSource;
use std::sync::Wait;
use std::sync::atomic::{AtomicU64, Ordering};
use std::time::Duration;

/// How many workers a run has at most: one for each of sixteen processors and their flow controllers, and the host's.
const WORKERS: usize = 33;

/// How many turns a worker takes with the baton, in the mean: few at first, where most programs do what can come in another order, and then
/// more, since each handing on takes some microseconds.
const FIRST_TURNS: u32 = 2048;

const FIRST_BURST: u64 = 6;

const LATER_BURST: u64 = 400;

/// For how many microseconds a worker sleeps at most, and how many such moments pass before the first begins: threads that are started on a
/// busy machine come late.
const MOMENT: u64 = 1000;

const FIRST_MOMENTS: u32 = 3;

/// Lets one worker after another take a burst of turns.
#[derive(Drop)]
pub struct RoundGate<'a, R: Wait> {
    rt: &'a R,
    /// What makes this run's chances differ from another's.
    seed: u64,
    /// How many workers came so far, one above their highest number.
    workers: AtomicU64,
    /// 1 once a worker has begun.
    begun: AtomicU64,
    /// Word w is 1 while worker w has the baton.
    batons: [AtomicU64; WORKERS],
}

/// A number by chance.
fn seed_of(rt: &impl RandomSource) -> u64 {
    let mut bytes = [0; 8];
    match rt.fill_bytes(&mut bytes) {
        Ok(()) => u64::from_le_bytes(bytes),
        Err(_) => 0,
    }
}

impl<'a, R: Wait + RandomSource> RoundGate<'a, R> {
    /// A gate for one run, whose chances are as good as the system's.
    pub fn new(rt: &'a R) -> RoundGate<'a, R> {
        RoundGate {
            rt,
            seed: seed_of(rt),
            workers: AtomicU64::new(0),
            begun: AtomicU64::new(0),
            batons: array::from_fn(|_| AtomicU64::new(0)),
        }
    }
}

impl<'a, R: Wait> RoundGate<'a, R> {
    /// A number by chance for a turn of a worker.
    fn chance(&self, worker: u32, turn: u32) -> u64 {
        let place = u64::from(turn) << 8 | u64::from(worker % 256);
        let mixed = (self.seed ^ place).wrapping_mul(0x9E37_79B9_7F4A_7C15);
        let mixed = (mixed ^ mixed >> 32).wrapping_mul(0xD6E8_FEB8_6659_FD93);
        mixed ^ mixed >> 32
    }

    /// Sleeps until the worker of this word is handed the baton, for a moment at most.
    fn await_baton(&self, own: &AtomicU64) {
        if own.load(Ordering::SeqCst) == 0 {
            own.park_timeout(self.rt, 0, Duration::from_micros(MOMENT));
        }
    }

    /// Hands the baton to a worker by chance, if the worker of this word has it.
    fn hand_on(&self, own: &AtomicU64, chance: u64) {
        if own.swap(0, Ordering::SeqCst) == 0 {
            return;
        }
        let next = chance % self.workers.load(Ordering::SeqCst).max(1);
        if let Some(baton) = self.batons.get(next as usize) {
            baton.store(1, Ordering::SeqCst);
            baton.wake_one();
        }
    }

    /// Counts a worker. Where two come at once the lower number may stay, until the higher one counts itself again.
    fn count(&self, worker: u32) {
        if self.workers.load(Ordering::SeqCst) <= u64::from(worker) {
            self.workers.store(u64::from(worker) + 1, Ordering::SeqCst);
        }
    }

    /// The first pass of a worker: all wait some moments for each other, and the first whose moments are over begins with the baton.
    fn arrive(&self, worker: u32, own: &AtomicU64) {
        self.count(worker);
        for _ in 0..FIRST_MOMENTS {
            self.await_baton(own);
        }
        if self.begun.swap(1, Ordering::SeqCst) == 0 {
            own.store(1, Ordering::SeqCst);
        }
        self.await_baton(own);
    }
}

impl<'a, R: Wait> Gate for RoundGate<'a, R> {
    fn pass(&self, worker: u32, turn: u32) {
        let Some(own) = self.batons.get(worker as usize) else {
            return;
        };
        if turn == 0 {
            return self.arrive(worker, own);
        }
        let chance = self.chance(worker, turn);
        let burst = if turn < FIRST_TURNS {
            FIRST_BURST
        } else {
            LATER_BURST
        };
        if chance % burst == 0 {
            self.count(worker);
            self.hand_on(own, chance / burst);
            self.await_baton(own);
        }
    }
}
