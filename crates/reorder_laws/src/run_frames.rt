//! What the steps of a recorded run leave as it was, and how they are ordered, as contracts.
ghost use Rattle.reorder_laws.specs.FrameLaws.{RunsHaveFrames};
ghost use Rattle.reorder_laws.specs.OrderedLaws.{RunsChainAtomics, RunsFit, RunsOrder, StalledMore, StalledOne};

/// What the steps of a recorded run leave as it was, and what they add.
pub fn runs_have_frames()
    ensures frames { RunsHaveFrames }
    ensures orders { RunsOrder }
    ensures fit { RunsFit }
    ensures atomics { RunsChainAtomics }
    ensures more { StalledMore }
    ensures one { StalledOne }
{}
