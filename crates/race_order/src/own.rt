//! The set of a processor's instructions.

ghost use Rattle.std.specs.Prelude.{◌≡◌, ℕ, ◌+◌, ◌*◌, ◌<◌, ◌≤◌, ◌||◌, OnOk, IfOk, Some, false};
ghost use Rattle.order_sets.specs.declared.facts.At.{At as AnAt};
ghost use Rattle.order_sets.specs.declared.facts.Fact.TheVariants.{Upto};
ghost use Rattle.order_sets.specs.Facts.{covers};
ghost use Rattle.order_sets.specs.Stands.{has_at};
ghost use Rattle.race_order.specs.Tables.{own_has, upto_last, IsOwnOf, FitsChains};
ghost use Rattle.race_order.specs.Bringing.{IsOfChains};
ghost use Rattle.race_order.specs.Gains.{SomeFits, has_gain, some_covers};

use crate::brought::Brought;
use crate::error::OrderError;
use order_sets::{At, Fact, Known};
use std::alloc::Global;

/// What happens before a processor's next instruction. Of the instructions of the processor itself only the last one is kept, since the others happen before
/// it: a plain instruction moves that, and touches nothing else.
#[derive(Drop)]
pub(crate) struct Own {
    pub(crate) spe: u8,
    // the place of the last instruction
    pub(crate) last: Option<u32>,
    // all other steps
    pub(crate) known: Known,
}

/// The later of two places, of which the first may be missing.
fn later(last: Option<u32>, place: u32) -> u32
    ensures { (p : ℕ) (at : AnAt) → upto_last p (Some result) at ≡ (upto_last p last at || covers (Upto p place) at) }
{
    match last {
        Some(last) => last.max(place),
        None => place,
    }
}

impl Own {
    /// The empty set of one of `spes` processors.
    pub(crate) fn new(alloc: Global, spes: u8, spe: u8) -> Result<Own, OrderError>
        requires spes { (1 ≤ spes) × (spes ≤ 16) }
        requires spe { spe < spes }
        ensures empty { IfOk result (λ own. (at : AnAt) → own_has own at ≡ false) }
        ensures own { IfOk result (IsOwnOf (3 * spes + 1)) }
    {
        let known = Known::new(alloc, spes)?;
        Ok(Own {
            spe,
            last: None,
            known,
        })
    }

    /// Whether the step is one of the instructions.
    #[inline(always)]
    fn is_instruction(&self, at: &At) -> bool
        ensures { result ≡ upto_last self.now.spe self.now.last at.now }
    {
        match self.last {
            Some(last) => at.chain == self.spe && at.place <= last,
            None => false,
        }
    }

    /// Whether the step is in the set.
    #[inline(always)]
    pub(crate) fn has(&self, at: &At) -> bool
        requires { at.now.chain < self.now.known.chains }
        ensures { result ≡ own_has self.now at.now }
    {
        self.is_instruction(at) || self.known.has(*at)
    }

    /// Adds the instructions up to a place.
    #[inline(always)]
    fn raise(&mut self, place: u32)
        ensures has { (at : AnAt) → own_has self.new at ≡ (own_has self.old at || covers (Upto self.old.spe place) at) }
        ensures spe { self.new.spe ≡ self.old.spe }
        ensures known { self.new.known ≡ self.old.known }
    {
        self.last = Some(later(self.last, place));
    }

    /// Adds what another fact covers.
    #[inline(never)]
    fn add_other(&mut self, fact: Fact) -> Result<(), OrderError>
        requires { FitsChains (self.old.known.chains) fact }
        ensures has { OnOk result ((at : AnAt) → own_has self.new at ≡ (own_has self.old at || covers fact at)) }
        ensures chains { self.new.known.chains ≡ self.old.known.chains }
        ensures spe { self.new.spe ≡ self.old.spe }
    {
        self.known.add(fact)?;
        Ok(())
    }

    /// Adds an instruction at a place, which is the last one then.
    #[inline(always)]
    pub(crate) fn extend(&mut self, spe: u8, place: u32) -> Result<(), OrderError>
        requires { spe < self.old.known.chains }
        ensures has { OnOk result ((at : AnAt) → own_has self.new at ≡ (own_has self.old at || covers (Upto spe place) at)) }
        ensures chains { self.new.known.chains ≡ self.old.known.chains }
        ensures spe { self.new.spe ≡ self.old.spe }
    {
        if spe == self.spe {
            self.raise(place);
            return Ok(());
        }
        self.add_other(Fact::Upto { chain: spe, place })
    }

    /// Adds what the fact covers.
    pub(crate) fn add(&mut self, fact: Fact) -> Result<(), OrderError>
        requires { FitsChains (self.old.known.chains) fact }
        ensures has { OnOk result ((at : AnAt) → own_has self.new at ≡ (own_has self.old at || covers fact at)) }
        ensures chains { self.new.known.chains ≡ self.old.known.chains }
        ensures spe { self.new.spe ≡ self.old.spe }
    {
        match fact {
            Fact::Upto { chain, place } => self.extend(chain, place),
            _ => self.add_other(fact),
        }
    }

    /// Adds what the fact covers, if there is one.
    fn add_some(&mut self, fact: Option<Fact>) -> Result<(), OrderError>
        requires { SomeFits (self.old.known.chains) fact }
        ensures has { OnOk result ((at : AnAt) → own_has self.new at ≡ (own_has self.old at || some_covers fact at)) }
        ensures chains { self.new.known.chains ≡ self.old.known.chains }
        ensures spe { self.new.spe ≡ self.old.spe }
    {
        match fact {
            Some(fact) => self.add(fact),
            None => Ok(()),
        }
    }

    /// Adds the known steps.
    pub(crate) fn put(&mut self, known: &Known) -> Result<(), OrderError>
        requires { self.old.known.chains ≡ known.now.chains }
        ensures has { OnOk result ((at : AnAt) → own_has self.new at ≡ (own_has self.old at || has_at known.now at)) }
        ensures chains { self.new.known.chains ≡ self.old.known.chains }
        ensures spe { self.new.spe ≡ self.old.spe }
    {
        self.known.join(known)?;
        Ok(())
    }

    /// Adds what the step brings, and what one more fact covers, if there is one.
    pub(crate) fn bring(&mut self, brought: &Brought, more: Option<Fact>) -> Result<(), OrderError>
        requires brought { IsOfChains brought.now }
        requires more { SomeFits (3 * brought.now.spes + 1) more }
        requires chains { self.old.known.chains ≡ 3 * brought.now.spes + 1 }
        ensures has { OnOk result ((at : AnAt) → own_has self.new at ≡ (own_has self.old at || has_gain brought.now more at)) }
        ensures chains { self.new.known.chains ≡ self.old.known.chains }
        ensures spe { self.new.spe ≡ self.old.spe }
    {
        self.put(brought.known)?;
        self.add(brought.fact)?;
        self.add_some(more)?;
        Ok(())
    }

    /// Adds the set to the known steps.
    pub(crate) fn gather(&self, known: &mut Known) -> Result<(), OrderError>
        requires { IsOwnOf (known.old.chains) self.now }
        ensures has { OnOk result ((at : AnAt) → has_at known.new at ≡ (has_at known.old at || own_has self.now at)) }
        ensures chains { known.new.chains ≡ known.old.chains }
    {
        known.join(&self.known)?;
        if let Some(place) = self.last {
            known.add(Fact::Upto {
                chain: self.spe,
                place,
            })?;
        }
        Ok(())
    }
}
