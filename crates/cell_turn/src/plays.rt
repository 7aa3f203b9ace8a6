//! What each step on the turn word tells. These types are for the proofs alone.
ghost use Rattle.cell_turn.specs.Turn.{asked, published, released, settled, kept_view, new_view, both_views, spent_view};

use crate::view::View;
use atomic_table::{Join, Play, Split};
use cell_machine::Machine;

/// A try for the turn.
pub(crate) struct Ask;

impl Play<Machine, View> for Ask {
    ghost then = { asked };
}

/// The end of a turn with a step.
pub(crate) struct Publish;

impl Play<Machine, View> for Publish {
    ghost then = { published };
}

/// The end of a turn without one.
pub(crate) struct Release;

impl Play<Machine, View> for Release {
    ghost then = { released };
}

/// The load after a join, which settles what was seen.
pub(crate) struct Settle;

impl Play<Machine, View> for Settle {
    ghost then = { settled };
}

/// A pass gives a token to a new one.
pub(crate) struct Cut;

impl Split<View> for Cut {
    ghost left = { kept_view };

    ghost right = { new_view };
}

/// A pass takes in another.
pub(crate) struct Glue;

impl Join<View> for Glue {
    ghost both = { both_views };

    ghost spent = { spent_view };
}
