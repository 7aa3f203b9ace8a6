//! Who looks on while a hunt goes on, and may end it.

ghost use Rattle.std.specs.Prelude.{◌≡◌, Bool, IsTrue, not};

use hunt_tally::Hunted;

/// Somebody who looks on, and may end the hunt between two batches.
pub trait Progress {
    /// Whether it has said that the hunt is to end.
    ghost stopped: { Self → Bool };

    /// How many runs each thread makes next, in the mean, before this is asked again.
    fn share(&mut self) -> u32
        ensures { stopped self.new ≡ stopped self.old };

    /// Whether more runs are to be made. It is asked between two batches, and where it says no the hunt ends with the runs that were made.
    fn goes_on(&mut self) -> bool
        ensures says { result ≡ not (stopped self.new) }
        ensures stays { IsTrue (stopped self.old) → IsTrue (stopped self.new) };

    /// So many of all runs were made, and this was found in them.
    fn show(&mut self, hunted: &Hunted, runs: u32)
        ensures { stopped self.new ≡ stopped self.old };

    /// No more runs are made.
    fn end(&mut self)
        ensures { stopped self.new ≡ stopped self.old };
}
