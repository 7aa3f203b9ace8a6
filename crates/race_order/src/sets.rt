//! A set of known steps for each role.

ghost use Rattle.std.specs.Prelude.{◌≡◌, ◌+◌, ◌*◌, ◌<◌, ◌≤◌, ◌||◌, ◌&&◌, ℕ, OnOk, IfOk, IfSome, IfNone, length, false, None, All as Each};
ghost use Rattle.order_sets.specs.declared.facts.At.{At as AnAt};
ghost use Rattle.race_order.specs.declared.own.Own.{Own as AnOwn};
ghost use Rattle.order_sets.specs.declared.facts.Fact.TheVariants.{Upto};
ghost use Rattle.order_sets.specs.Facts.{covers};
ghost use Rattle.order_sets.specs.Stands.{has_at};
ghost use Rattle.race_order.specs.declared.roles.QueueRole.{QueueRole as ARole};
ghost use Rattle.race_order.specs.declared.roles.QueueRole.TheVariants.{Base};
ghost use Rattle.race_order.specs.declared.roles.Role.TheVariants.{OfExec};
ghost use Rattle.race_order.specs.Tables.{same_role, own_has, own_of, sets_have, AreOf, FitsChains, IsOwnOf};
ghost use Rattle.race_order.specs.Bringing.{IsOfChains};
ghost use Rattle.race_order.specs.Gains.{SomeFits, has_gain};
ghost use Rattle.race_order.specs.Passes.{is_over};

use crate::brought::Brought;
use crate::error::OrderError;
use crate::lives::Live;
use crate::own::Own;
use crate::roles::{QueueRole, Role};
use crate::table::Table;
use order_sets::{At, Fact, Known};
use std::alloc::Global;

/// The set of each role. Most steps go into the set of a processor's instructions and are looked up in it, so these stand apart.
#[derive(Drop)]
pub(crate) struct Sets {
    // of each processor the set of its instructions
    pub(crate) own: Vec<Own>,
    // those of the other roles
    pub(crate) table: Table,
}

/// For each of `spes` processors an empty set.
fn empty_sets(alloc: Global, spes: u8) -> Result<Vec<Own>, OrderError>
    requires { (1 ≤ spes) × (spes ≤ 16) }
    ensures long { IfOk result (λ sets. length sets.items ≡ spes) }
    ensures chains { IfOk result (λ sets. Each (IsOwnOf (3 * spes + 1)) sets.items) }
    ensures empty { IfOk result (λ sets. Each (λ (own : AnOwn). (at : AnAt) → own_has own at ≡ false) sets.items) }
{
    let mut sets = Vec::new(alloc);
    for spe in 0..spes {
        let own = Own::new(alloc, spes, spe)?;
        sets.push(own)?;
    }
    Ok(sets)
}

impl Sets {
    /// The empty sets of `spes` processors.
    pub(crate) fn new(alloc: Global, spes: u8) -> Result<Sets, OrderError>
        requires { (1 ≤ spes) × (spes ≤ 16) }
        ensures empty { IfOk result (λ sets. (r : ARole) (at : AnAt) → sets_have sets r at ≡ false) }
        ensures chains { IfOk result (AreOf (3 * spes + 1)) }
    {
        Ok(Sets {
            own: empty_sets(alloc, spes)?,
            table: Table::new(alloc, spes),
        })
    }

    /// The processor whose instructions the role's set is of, where it stands apart.
    fn own_at(&self, role: QueueRole) -> Option<u8>
        ensures here { IfSome result (λ spe. (role ≡ Base (OfExec spe)) × (spe < length self.now.own.items)) }
        ensures none { IfNone result (own_of self.now.own.items role ≡ None) }
    {
        match role {
            QueueRole::Base {
                role: Role::OfExec { spe },
            } if usize::from(spe) < self.own.len() => Some(spe),
            _ => None,
        }
    }

    /// Whether the role has a set; else its set is empty.
    pub(crate) fn holds(&self, role: QueueRole) -> bool
        ensures { result ≡ false → (at : AnAt) → sets_have self.now role at ≡ false }
    {
        match self.own_at(role) {
            Some(_) => true,
            None => self.table.holds(role),
        }
    }

    /// Whether the step is in the set of the processor's instructions.
    pub(crate) fn has_own(&self, spe: u8, at: &At) -> bool
        requires inside { spe < length self.now.own.items }
        requires sets { AreOf (3 * self.now.table.spes + 1) self.now }
        requires chain { at.now.chain < 3 * self.now.table.spes + 1 }
        ensures { result ≡ sets_have self.now (Base (OfExec spe)) at.now }
    {
        self.own[usize::from(spe)].has(at)
    }

    /// Adds to the known steps the set of the processor's instructions.
    fn gather_own(&self, spe: u8, known: &mut Known) -> Result<(), OrderError>
        requires inside { spe < length self.now.own.items }
        requires sets { AreOf (known.old.chains) self.now }
        ensures has { OnOk result ((at : AnAt) → has_at known.new at ≡ (has_at known.old at || sets_have self.now (Base (OfExec spe)) at)) }
        ensures chains { known.new.chains ≡ known.old.chains }
    {
        self.own[usize::from(spe)].gather(known)?;
        Ok(())
    }

    /// Adds to the known steps what the role's set has.
    pub(crate) fn gather(&self, role: QueueRole, known: &mut Known) -> Result<(), OrderError>
        requires { AreOf (known.old.chains) self.now }
        ensures has { OnOk result ((at : AnAt) → has_at known.new at ≡ (has_at known.old at || sets_have self.now role at)) }
        ensures chains { known.new.chains ≡ known.old.chains }
    {
        match self.own_at(role) {
            Some(spe) => self.gather_own(spe, known),
            None => self.table.gather(role, known),
        }
    }

    /// Adds the known steps to the set of the processor's instructions.
    fn put_own(&mut self, spe: u8, known: &Known) -> Result<(), OrderError>
        requires inside { spe < length self.old.own.items }
        requires sets { AreOf (known.now.chains) self.old }
        ensures has { OnOk result ((r : ARole) (at : AnAt) → sets_have self.new r at ≡ (sets_have self.old r at || (same_role (Base (OfExec spe)) r && has_at known.now at))) }
        ensures chains { OnOk result (AreOf (known.now.chains) self.new) }
    {
        self.own[usize::from(spe)].put(known)?;
        Ok(())
    }

    /// Adds the known steps to the role's set.
    pub(crate) fn put(&mut self, role: QueueRole, known: &Known) -> Result<(), OrderError>
        requires { AreOf (known.now.chains) self.old }
        ensures has { OnOk result ((r : ARole) (at : AnAt) → sets_have self.new r at ≡ (sets_have self.old r at || (same_role role r && has_at known.now at))) }
        ensures chains { OnOk result (AreOf (known.now.chains) self.new) }
    {
        match self.own_at(role) {
            Some(spe) => self.put_own(spe, known),
            None => self.table.put(role, known),
        }
    }

    /// Adds an instruction of the processor at a place to their set.
    pub(crate) fn extend_own(&mut self, spe: u8, place: u32) -> Result<(), OrderError>
        requires inside { spe < length self.old.own.items }
        requires sets { AreOf (3 * self.old.table.spes + 1) self.old }
        requires chain { spe < 3 * self.old.table.spes + 1 }
        ensures has { OnOk result ((r : ARole) (at : AnAt) → sets_have self.new r at ≡ (sets_have self.old r at || (same_role (Base (OfExec spe)) r && covers (Upto spe place) at))) }
        ensures chains { OnOk result (AreOf (3 * self.old.table.spes + 1) self.new) }
    {
        self.own[usize::from(spe)].extend(spe, place)?;
        Ok(())
    }

    /// Adds what the fact covers to the set of the processor's instructions.
    fn add_own(&mut self, spe: u8, fact: Fact) -> Result<(), OrderError>
        requires inside { spe < length self.old.own.items }
        requires sets { AreOf (3 * self.old.table.spes + 1) self.old }
        requires fact { FitsChains (3 * self.old.table.spes + 1) fact }
        ensures has { OnOk result ((r : ARole) (at : AnAt) → sets_have self.new r at ≡ (sets_have self.old r at || (same_role (Base (OfExec spe)) r && covers fact at))) }
        ensures chains { OnOk result (AreOf (3 * self.old.table.spes + 1) self.new) }
    {
        self.own[usize::from(spe)].add(fact)?;
        Ok(())
    }

    /// Adds what the fact covers to the role's set.
    pub(crate) fn add(&mut self, role: QueueRole, fact: Fact) -> Result<(), OrderError>
        requires sets { AreOf (3 * self.old.table.spes + 1) self.old }
        requires fact { FitsChains (3 * self.old.table.spes + 1) fact }
        ensures has { OnOk result ((r : ARole) (at : AnAt) → sets_have self.new r at ≡ (sets_have self.old r at || (same_role role r && covers fact at))) }
        ensures chains { OnOk result (AreOf (3 * self.old.table.spes + 1) self.new) }
    {
        match self.own_at(role) {
            Some(spe) => self.add_own(spe, fact),
            None => self.table.add(role, fact),
        }
    }

    /// Adds to the set of the processor's instructions what the step brings, and what one more fact covers, if there is one.
    fn bring_own(
        &mut self,
        spe: u8,
        brought: &Brought,
        more: Option<Fact>,
    ) -> Result<(), OrderError>
        requires inside { spe < length self.old.own.items }
        requires brought { IsOfChains brought.now }
        requires more { SomeFits (3 * brought.now.spes + 1) more }
        requires sets { AreOf (3 * brought.now.spes + 1) self.old }
        ensures has { OnOk result ((r : ARole) (at : AnAt) → sets_have self.new r at ≡ (sets_have self.old r at || (same_role (Base (OfExec spe)) r && has_gain brought.now more at))) }
        ensures chains { OnOk result (AreOf (3 * brought.now.spes + 1) self.new) }
    {
        self.own[usize::from(spe)].bring(brought, more)?;
        Ok(())
    }

    /// Adds to the role's set what the step brings, and what one more fact covers, if there is one.
    pub(crate) fn bring(
        &mut self,
        role: QueueRole,
        brought: &Brought,
        more: Option<Fact>,
    ) -> Result<(), OrderError>
        requires brought { IsOfChains brought.now }
        requires more { SomeFits (3 * brought.now.spes + 1) more }
        requires sets { AreOf (3 * brought.now.spes + 1) self.old }
        ensures has { OnOk result ((r : ARole) (at : AnAt) → sets_have self.new r at ≡ (sets_have self.old r at || (same_role role r && has_gain brought.now more at))) }
        ensures chains { OnOk result (AreOf (3 * brought.now.spes + 1) self.new) }
    {
        match self.own_at(role) {
            Some(spe) => self.bring_own(spe, brought, more),
            None => self.table.bring(role, brought, more),
        }
    }

    /// Drops the sets that the steps of complete commands waited for.
    pub(crate) fn drop_over(&mut self, next: &[Live])
        ensures has { (r : ARole) (at : AnAt) → is_over next.now r ≡ false → sets_have self.new r at ≡ sets_have self.old r at }
        ensures chains { (chains : ℕ) → AreOf chains self.old → AreOf chains self.new }
    {
        self.table.drop_over(next);
    }
}
