//! Counts of runs.

ghost use Rattle.std.specs.Prelude.{◌≡◌, ◌+◌, ◌^◌, ◌<◌};
ghost use Rattle.hunt_tally.specs.Counting.{noted, with_count};

/// How many runs there are of a kind, and the first of them, counted from 0; 0 where there is none.
#[derive(Clone, Copy)]
pub struct Count {
    pub runs: u32,
    pub first: u32,
}

impl Count {
    /// Before the first run.
    pub fn new() -> Count
        ensures { result ≡ record { runs = 0; first = 0 } }
    {
        Count { runs: 0, first: 0 }
    }

    /// Comes to the next run, which is of the kind or isn't.
    pub fn note(&mut self, run: u32, is_so: bool)
        requires { self.old.runs + 1 < 2 ^ 32 }
        ensures { self.new ≡ noted run is_so self.old }
    {
        if is_so {
            if self.runs == 0 {
                self.first = run;
            }
            self.runs += 1;
        }
    }

    /// Takes in the count of the runs behind these, of which there are so many.
    pub fn join(&mut self, runs: u32, other: Count)
        requires runs { self.old.runs + other.runs < 2 ^ 32 }
        requires first { runs + other.first < 2 ^ 32 }
        ensures { self.new ≡ with_count runs self.old other }
    {
        if self.runs == 0 && other.runs > 0 {
            self.first = runs + other.first;
        }
        self.runs += other.runs;
    }
}
