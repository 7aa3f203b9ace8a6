//! Laws of the reorderings of numbers.

ghost use Rattle.run_permute.specs.Laws.{NumbersNameOne, NumbersNameReorderings, ZeroNamesTheRun};

/// A number names no more than one order of a run's steps. That order has each step once and keeps the ordered pairs; that of 0 is
/// the order of the run.
pub fn numbers_name_reorderings()
    ensures one { NumbersNameOne }
    ensures reorders { NumbersNameReorderings }
    ensures zero { ZeroNamesTheRun }
{}
