//! Every reordering of a settled run without a race is again a run, with the same end; and the laws of steps and of recorded runs from which
//! this follows.
#![tactic(auto)]

ghost use Rattle.reorder_laws.specs.Theorem.{SettledRunsReorder};

mod run_frames;
mod step_frames;

pub use run_frames::runs_have_frames;
pub use step_frames::{controllers_step, instructions_are_deeds, states_step};

/// Each order of the steps of a settled run without a race that keeps the ordered pairs is a run from the same setup, and its last
/// state is that of the recorded order in every part but the order of the record and of some lists, and the pending events. It allows
/// the same steps.
pub fn reorderings_are_runs()
    ensures { SettledRunsReorder }
{}
