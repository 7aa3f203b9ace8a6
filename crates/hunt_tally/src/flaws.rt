//! What goes wrong in runs.

ghost use Rattle.std.specs.Prelude.{◌≡◌, ℕ, ◌+◌, ◌^◌, ◌<◌, not, ◌||◌, []};
ghost use Rattle.hunt_tally.specs.Counting.{noted, with_count};
ghost use Rattle.hunt_tally.specs.Bounds.{AreWithin};
ghost use Rattle.hunt_tally.specs.Reports.{has_flaw, flaws_of};

use crate::count::Count;

/// What went wrong in a run.
#[derive(Clone, Copy)]
pub struct Flaws {
    /// It has a race that wasn't passed.
    pub race: bool,
    /// It is stuck.
    pub stuck: bool,
    /// It spent its budget, and its last steps changed nothing that others see.
    pub livelock: bool,
    /// It spent its budget, and was still progressing.
    pub budget: bool,
    /// A processor has a fault.
    pub fault: bool,
    /// A processor halted.
    pub halt: bool,
    /// An expected line isn't there.
    pub missed: bool,
}

impl Flaws {
    /// Whether all processors stopped.
    pub fn all_stopped(&self) -> bool
        ensures { result ≡ not (self.now.stuck || self.now.livelock || self.now.budget) }
    {
        !self.stuck && !self.livelock && !self.budget
    }
}

/// How many runs have each flaw, and the first of them.
#[derive(Clone, Copy)]
pub struct FlawCounts {
    pub race: Count,
    pub stuck: Count,
    pub livelock: Count,
    pub budget: Count,
    pub fault: Count,
    pub halt: Count,
    pub missed: Count,
}

impl FlawCounts {
    /// Before the first run.
    pub fn new() -> FlawCounts
        ensures counts { result ≡ flaws_of [] }
        ensures within { AreWithin 0 result }
    {
        FlawCounts {
            race: Count::new(),
            stuck: Count::new(),
            livelock: Count::new(),
            budget: Count::new(),
            fault: Count::new(),
            halt: Count::new(),
            missed: Count::new(),
        }
    }

    /// Takes in what went wrong in the next run.
    pub fn note(&mut self, run: u32, flaws: Flaws)
        requires room { run + 1 < 2 ^ 32 }
        requires within { AreWithin run self.old }
        ensures race { self.new.race ≡ noted run flaws.race self.old.race }
        ensures stuck { self.new.stuck ≡ noted run flaws.stuck self.old.stuck }
        ensures livelock { self.new.livelock ≡ noted run flaws.livelock self.old.livelock }
        ensures budget { self.new.budget ≡ noted run flaws.budget self.old.budget }
        ensures fault { self.new.fault ≡ noted run flaws.fault self.old.fault }
        ensures halt { self.new.halt ≡ noted run flaws.halt self.old.halt }
        ensures missed { self.new.missed ≡ noted run flaws.missed self.old.missed }
        ensures within { AreWithin (run + 1) self.new }
    {
        self.race.note(run, flaws.race);
        self.stuck.note(run, flaws.stuck);
        self.livelock.note(run, flaws.livelock);
        self.budget.note(run, flaws.budget);
        self.fault.note(run, flaws.fault);
        self.halt.note(run, flaws.halt);
        self.missed.note(run, flaws.missed);
    }

    /// Takes in what went wrong in the runs behind these, of which there are so many.
    pub fn join(&mut self, runs: u32, other: FlawCounts)
        requires within { AreWithin runs self.old }
        requires room { (behind : ℕ) × (runs + behind < 2 ^ 32) × AreWithin behind other }
        ensures race { self.new.race ≡ with_count runs self.old.race other.race }
        ensures stuck { self.new.stuck ≡ with_count runs self.old.stuck other.stuck }
        ensures livelock { self.new.livelock ≡ with_count runs self.old.livelock other.livelock }
        ensures budget { self.new.budget ≡ with_count runs self.old.budget other.budget }
        ensures fault { self.new.fault ≡ with_count runs self.old.fault other.fault }
        ensures halt { self.new.halt ≡ with_count runs self.old.halt other.halt }
        ensures missed { self.new.missed ≡ with_count runs self.old.missed other.missed }
        ensures within { (behind : ℕ) → AreWithin behind other → AreWithin (runs + behind) self.new }
    {
        self.race.join(runs, other.race);
        self.stuck.join(runs, other.stuck);
        self.livelock.join(runs, other.livelock);
        self.budget.join(runs, other.budget);
        self.fault.join(runs, other.fault);
        self.halt.join(runs, other.halt);
        self.missed.join(runs, other.missed);
    }

    /// Whether a run has one.
    pub fn is_some(&self) -> bool
        ensures { result ≡ has_flaw self.now }
    {
        self.race.runs > 0
            || self.stuck.runs > 0
            || self.livelock.runs > 0
            || self.budget.runs > 0
            || self.fault.runs > 0
            || self.halt.runs > 0
            || self.missed.runs > 0
    }
}
