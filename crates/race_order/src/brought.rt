//! What a step brings into the sets.

ghost use Rattle.std.specs.Prelude.{◌≡◌, ◌+◌, ◌*◌, ◌||◌, OnOk};
ghost use Rattle.order_sets.specs.declared.facts.At.{At};
ghost use Rattle.order_sets.specs.Stands.{has_at};
ghost use Rattle.race_order.specs.Bringing.{IsOfChains};
ghost use Rattle.race_order.specs.Gains.{SomeFits, has_gain, some_covers};

use crate::error::OrderError;
use cell_base::Step;
use cell_machine::Effect;
use order_sets::{Fact, Known};

/// A step of a machine of `spes` processors, with whether it moves a line whole, what is known before it, and what names it in a set.
#[derive(Clone, Copy)]
pub(crate) struct Brought<'a> {
    pub(crate) spes: u8,
    pub(crate) step: Step,
    pub(crate) effect: &'a Effect,
    pub(crate) whole: bool,
    pub(crate) known: &'a Known,
    pub(crate) fact: Fact,
}

/// Adds what the fact covers, if there is one.
fn add_some(known: &mut Known, fact: Option<Fact>) -> Result<(), OrderError>
    requires { SomeFits (known.old.chains) fact }
    ensures has { OnOk result ((at : At) → has_at known.new at ≡ (has_at known.old at || some_covers fact at)) }
    ensures chains { known.new.chains ≡ known.old.chains }
{
    if let Some(fact) = fact {
        known.add(fact)?;
    }
    Ok(())
}

/// Adds to the known steps what the step brings, and what one more fact covers, if there is one.
pub(crate) fn add_all(
    known: &mut Known,
    brought: &Brought,
    more: Option<Fact>,
) -> Result<(), OrderError>
    requires brought { IsOfChains brought.now }
    requires more { SomeFits (3 * brought.now.spes + 1) more }
    requires chains { known.old.chains ≡ 3 * brought.now.spes + 1 }
    ensures has { OnOk result ((at : At) → has_at known.new at ≡ (has_at known.old at || has_gain brought.now more at)) }
    ensures chains { known.new.chains ≡ known.old.chains }
{
    known.join(brought.known)?;
    known.add(brought.fact)?;
    add_some(known, more)?;
    Ok(())
}
