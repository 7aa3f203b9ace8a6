//! What is told of a run that is over.

ghost use Rattle.cell_hunt.specs.Outcomes.{IsOutcome};

use crate::running::SeedRun;
use crate::site::Sites;
use cell_machine::End;

/// How a run has ended, and where the two steps of its least race come from, if it has one.
#[derive(Clone, Copy)]
pub struct Outcome {
    pub end: End,
    pub race: Option<Sites>,
}

/// How a run has ended, and its race.
pub fn outcome_of(run: &SeedRun) -> Outcome
    ensures { IsOutcome run.now result }
{
    Outcome {
        end: run.end(),
        race: run.race(),
    }
}
