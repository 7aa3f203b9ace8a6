//! What standard error shows of a hunt if it is a terminal, and what ends a hunt early.

use hunt_command::Progress;
use hunt_tally::Hunted;
use std::fs;
use std::io::IsTerminal;
use std::time::Instant;

/// How long the threads are busy at most before the next look, and how long a line stays at least, in milliseconds. At a look all threads
/// end, and one joins their results.
const BUSY: u128 = 2000;

const STANDS: u128 = 100;

/// How many runs a thread makes in the mean before the first look: one of each way of a hunt, which tells how long the others take.
const FIRST_SHARE: u32 = 4;

/// How many runs a thread makes in the mean at most before the next look, and how many times as many as before the last one.
const MOST_SHARE: u32 = 65_536;

const MOST_TIMES: u128 = 64;

/// Shows how far a hunt is, finds out how many runs fit between two looks, and ends the hunt once a file exists or its time is up.
#[derive(Drop)]
pub struct Look<'a> {
    rt: &'a HostRuntime,
    is_terminal: bool,
    /// The file that ends the hunt, its time in seconds, whether one of them has ended it, and how many runs were made of how many.
    until: Option<&'a str>,
    time: Option<u32>,
    is_stopped: bool,
    made: u32,
    runs: u32,
    /// When the hunt began, and since when the line stands.
    began: Option<Instant>,
    stands: Option<Instant>,
    /// How many runs each thread makes in the mean, and since when.
    share: u32,
    busy: Option<Instant>,
}

/// How many milliseconds have passed since then; 0 where that can't be told.
fn since(rt: &HostRuntime, then: Option<Instant>) -> u128 {
    match then {
        Some(then) => match then.elapsed(rt) {
            Ok(passed) => passed.as_millis(),
            Err(_) => 0,
        },
        None => 0,
    }
}

/// How many runs a thread makes next in the mean to be busy for so many milliseconds, if its last ones took so many.
fn next_share(share: u32, took: u128, busy: u128) -> u32 {
    let share = u128::from(share);
    let fitting = share * busy.min(BUSY) / took.max(1);
    let next = fitting.min(share * MOST_TIMES).max(1);
    u32::try_from(next).unwrap_or(MOST_SHARE).min(MOST_SHARE)
}

impl<'a> Look<'a> {
    /// Before the first run.
    pub fn new(rt: &'a HostRuntime, until: Option<&'a str>, time: Option<u32>) -> Look<'a> {
        let now = Instant::now(rt).ok();
        Look {
            rt,
            is_terminal: rt.stderr().is_terminal(),
            until,
            time,
            is_stopped: false,
            made: 0,
            runs: 0,
            began: now,
            stands: now,
            share: FIRST_SHARE,
            busy: None,
        }
    }

    /// How many milliseconds of the hunt's time are left.
    fn left(&self) -> u128 {
        match self.time {
            Some(time) => (1000 * u128::from(time)).saturating_sub(since(self.rt, self.began)),
            None => u128::MAX,
        }
    }

    /// Says that the hunt ended early, if it did.
    pub fn tell_end(&self) {
        let rt = self.rt;
        if !self.is_stopped {
            return;
        }
        if self.left() > 0 {
            let _ = eprintln!(rt;
                "hunt: ended early: {} of {} runs were made",
                self.made, self.runs
            );
        } else {
            let _ = eprintln!(rt;
                "hunt: the time is up: --runs {} instead of --time makes the same runs",
                self.made
            );
        }
    }

    /// Writes the line over the last one.
    fn write(&self, hunted: &Hunted, runs: u32) {
        let rt = self.rt;
        let passed = since(rt, self.began).max(1);
        let a_second = u128::from(hunted.runs()) * 1000 / passed;
        let flaws = hunted.flaws();
        let _ = eprint!(rt;
            "\rrun {} of {runs}, {a_second} a second: {} with a race, {} stuck, {} livelocked, {} over budget, {} with a fault, {} halted, {} missing a line\x1b[K",
            hunted.runs(),
            flaws.race.runs,
            flaws.stuck.runs,
            flaws.livelock.runs,
            flaws.budget.runs,
            flaws.fault.runs,
            flaws.halt.runs,
            flaws.missed.runs
        );
    }
}

impl<'a> Progress for Look<'a> {
    ghost stopped = { λ s. s.is_stopped };

    /// By what the last ones took.
    fn share(&mut self) -> u32 {
        if self.busy.is_some() {
            self.share = next_share(self.share, since(self.rt, self.busy), self.left());
        }
        self.busy = Instant::now(self.rt).ok();
        self.share
    }

    /// Not once the file exists or the time is up.
    fn goes_on(&mut self) -> bool {
        if self.left() == 0 {
            self.is_stopped = true;
        }
        if let Some(name) = self.until {
            let is_there = fs::exists(self.rt, name).unwrap_or(false);
            self.is_stopped = self.is_stopped || is_there;
        }
        !self.is_stopped
    }

    fn show(&mut self, hunted: &Hunted, runs: u32) {
        self.made = hunted.runs();
        self.runs = runs;
        if self.is_terminal && since(self.rt, self.stands) >= STANDS {
            self.write(hunted, runs);
            self.stands = Instant::now(self.rt).ok();
        }
    }

    /// Wipes the line.
    fn end(&mut self) {
        if self.is_terminal {
            let rt = self.rt;
            let _ = eprint!(rt; "\r\x1b[K");
        }
    }
}
