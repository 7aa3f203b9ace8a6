//! Sets that go into other sets.

ghost use Rattle.std.specs.Prelude.{◌≡◌, ◌||◌, OnOk};
ghost use Rattle.order_sets.specs.declared.facts.At.{At};
ghost use Rattle.race_order.specs.declared.roles.QueueRole.{QueueRole as ARole};
ghost use Rattle.race_order.specs.Tables.{sets_have, AreOf, moves_to};

use crate::error::OrderError;
use crate::roles::QueueRole;
use crate::sets::Sets;
use order_sets::Known;

/// The set of one role goes into that of another.
#[derive(Clone, Copy, Drop)]
pub(crate) struct Move {
    pub(crate) from: QueueRole,
    pub(crate) to: QueueRole,
}

/// Makes the move, by way of a set to spare.
pub(crate) fn make(sets: &mut Sets, spare: &mut Known, m: Move) -> Result<(), OrderError>
    requires { AreOf (spare.old.chains) sets.old }
    ensures has { OnOk result ((r : ARole) (at : At) → sets_have sets.new r at ≡ (sets_have sets.old r at || moves_to sets.old r at m)) }
    ensures chains { OnOk result (AreOf (spare.old.chains) sets.new) }
    ensures spare { spare.new.chains ≡ spare.old.chains }
{
    if !sets.holds(m.from) {
        return Ok(());
    }
    spare.clear();
    sets.gather(m.from, spare)?;
    sets.put(m.to, spare)?;
    Ok(())
}
