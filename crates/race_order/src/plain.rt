//! Instructions that look at nothing but the instructions before them.

ghost use Rattle.std.specs.Prelude.{IfSome};
ghost use Rattle.race_order.specs.Bringing.{IsPlain};

use cell_base::Step;
use cell_machine::{Effect, Note};

/// The processor whose instruction the step is, if it tells nothing.
pub(crate) fn plain_of(step: &Step, effect: &Effect) -> Option<u8>
    ensures { IfSome result (IsPlain step.now effect.now) }
{
    if effect.fixed {
        return None;
    }
    match (*step, effect.note) {
        (Step::Exec { spe }, Note::Nothing) => Some(spe),
        _ => None,
    }
}
