//! What is kept of a telling.

ghost use Rattle.std.specs.Prelude.{◌≡◌, ◌+◌, ◌^◌, ◌<◌, ◌==◌, if◌then◌else◌};

/// What is printed of a key, how many runs tell it, and the first and the last of these.
#[derive(Drop)]
pub struct Counted {
    pub shown: Vec<u8>,
    pub runs: u32,
    pub first: u32,
    pub last: u32,
}

impl Counted {
    /// One run tells it.
    pub fn new(shown: Vec<u8>, run: u32) -> Counted
        ensures { result ≡ record { shown = shown; runs = 1; first = run; last = run } }
    {
        Counted {
            shown,
            runs: 1,
            first: run,
            last: run,
        }
    }

    /// This run tells it, too.
    pub fn count(&mut self, run: u32)
        requires { self.old.runs + 1 < 2 ^ 32 }
        ensures { self.new ≡ (if self.old.last == run then self.old else record self.old { runs = self.old.runs + 1; last = run }) }
    {
        if self.last != run {
            self.runs += 1;
            self.last = run;
        }
    }

    /// Runs behind the first ones, so many, tell it, too.
    pub fn join(&mut self, before: u32, other: &Counted)
        requires runs { self.old.runs + other.now.runs < 2 ^ 32 }
        requires last { before + other.now.last < 2 ^ 32 }
        ensures { self.new ≡ record self.old { runs = self.old.runs + other.now.runs; last = before + other.now.last } }
    {
        self.runs += other.runs;
        self.last = before + other.last;
    }

    /// The same of runs before which so many others were made.
    pub fn behind(self, before: u32) -> Counted
        requires first { before + self.first < 2 ^ 32 }
        requires last { before + self.last < 2 ^ 32 }
        ensures { result ≡ record self { first = before + self.first; last = before + self.last } }
    {
        Counted {
            shown: self.shown,
            runs: self.runs,
            first: before + self.first,
            last: before + self.last,
        }
    }
}
