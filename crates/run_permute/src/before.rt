//! The order of a run's steps, where a walk over the run has come to a place.

ghost use Rattle.std.specs.Prelude.{◌+◌, ◌<◌, ◌↔◌, IsTrue};
ghost use Rattle.run_walk.specs.Ordered.{IsOrdered};
ghost use Rattle.run_permute.specs.Walks.{Here, IsAt};

use run_walk::Walk;

/// Whether step `i` is ordered before the last step of the walk.
pub fn is_before(walk: &Walk, i: u32) -> bool
    ghost here: { Here }
    requires at { IsAt walk.now here.run (here.place + 1) }
    requires below { i < here.place }
    ensures { IsTrue result ↔ IsOrdered here.run i here.place }
{
    walk.before(i)
}
