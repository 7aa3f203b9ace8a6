//! The sets of known steps that are found by the numbers of their roles.

ghost use Rattle.std.specs.Prelude.{◌≡◌, ℕ, ◌+◌, ◌*◌, ◌^◌, ◌<◌, ◌||◌, ◌&&◌, OnOk, IfOk, IfSome, None, length, slice_index, [], false};
ghost use Rattle.order_sets.specs.declared.facts.At.{At};
ghost use Rattle.order_sets.specs.Facts.{covers};
ghost use Rattle.order_sets.specs.Stands.{has_at};
ghost use Rattle.race_order.specs.declared.roles.QueueRole.{QueueRole as ARole};
ghost use Rattle.race_order.specs.Tables.{same_role, place_of, table_has, IsTableOf, IsUnplaced, FitsChains};
ghost use Rattle.race_order.specs.Passes.{is_over};
ghost use Rattle.race_order.specs.Bringing.{IsOfChains};
ghost use Rattle.race_order.specs.Gains.{SomeFits, has_gain};

use crate::brought::Brought;
use crate::buckets::Bucket;
use crate::error::OrderError;
use crate::lives::Live;
use crate::numbers::number;
use crate::roles::QueueRole;
use order_sets::{Fact, Known};
use std::alloc::Global;

/// How many numbers get room for their buckets' places at once: those of a processor.
const NUMBERS: usize = 256;

/// The sets of `spes` processors, each in the bucket of its role's number. A bucket is made when a set first goes into it. A role without one has the empty set.
#[derive(Drop)]
pub(crate) struct Table {
    pub(crate) alloc: Global,
    pub(crate) spes: u8,
    pub(crate) buckets: Vec<Bucket>,
    // one more than the place of each number's bucket, or 0; numbers that are past the end have none
    pub(crate) places: Vec<u32>,
}

/// Gives the number, and those before it, room for the place of a bucket.
fn lengthen(places: &mut Vec<u32>, number: usize) -> Result<(), OrderError>
    requires { number < 2 ^ 41 }
    ensures same { OnOk result ((k : ℕ) → slice_index places.new.items k ≡ slice_index places.old.items k) }
    ensures long { OnOk result (number < length places.new.items) }
{
    if places.len() <= number {
        places.resize((number / NUMBERS + 1) * NUMBERS, 0)?;
    }
    Ok(())
}

impl Table {
    /// The empty sets of `spes` processors.
    pub(crate) fn new(alloc: Global, spes: u8) -> Table
        ensures empty { (r : ARole) (at : At) → table_has result r at ≡ false }
        ensures buckets { result.buckets.items ≡ [] }
        ensures spes { result.spes ≡ spes }
    {
        Table {
            alloc,
            spes,
            buckets: Vec::new(alloc),
            places: Vec::new(alloc),
        }
    }

    /// The place of the role's bucket, if there is one.
    fn find(&self, role: QueueRole) -> Option<usize>
        ensures inside { IfSome result (λ k. k < length self.now.buckets.items) }
        ensures place { IfSome result (λ k. place_of self.now.places.items role ≡ k + 1) }
        ensures none { result ≡ None → IsUnplaced self.now role }
    {
        let number = number(role) as usize;
        if self.places.len() <= number {
            return None;
        }
        let place = self.places[number] as usize;
        if place == 0 {
            return None;
        }
        if self.buckets.len() < place {
            return None;
        }
        Some(place - 1)
    }

    /// Makes the bucket of a role that has none, and answers its place.
    #[inline(never)]
    fn make(&mut self, role: QueueRole) -> Result<usize, OrderError>
        requires { IsUnplaced self.old role }
        ensures has { OnOk result ((r : ARole) (at : At) → table_has self.new r at ≡ table_has self.old r at) }
        ensures chains { OnOk result ((chains : ℕ) → IsTableOf chains self.old → IsTableOf chains self.new) }
        ensures place { IfOk result (λ k. place_of self.new.places.items role ≡ k + 1) }
        ensures inside { IfOk result (λ k. k < length self.new.buckets.items) }
    {
        let number = number(role) as usize;
        let k = self.buckets.len();
        if u32::MAX as usize <= k {
            return Err(OrderError::Memory);
        }
        lengthen(&mut self.places, number)?;
        self.buckets.push(Bucket::new(self.alloc))?;
        self.places[number] = (k + 1) as u32;
        Ok(k)
    }

    /// Whether the role has a set; else its set is empty.
    pub(crate) fn holds(&self, role: QueueRole) -> bool
        ensures { result ≡ false → (at : At) → table_has self.now role at ≡ false }
    {
        match self.find(role) {
            Some(k) => self.buckets[k].holds(role),
            None => false,
        }
    }

    /// Adds to the known steps what the role's set has.
    pub(crate) fn gather(&self, role: QueueRole, known: &mut Known) -> Result<(), OrderError>
        requires { IsTableOf (known.old.chains) self.now }
        ensures has { OnOk result ((at : At) → has_at known.new at ≡ (has_at known.old at || table_has self.now role at)) }
        ensures chains { known.new.chains ≡ known.old.chains }
    {
        if let Some(k) = self.find(role) {
            self.buckets[k].gather(role, known)?;
        }
        Ok(())
    }

    /// The place of the role's bucket, which is there then.
    fn bucket(&mut self, role: QueueRole) -> Result<usize, OrderError>
        ensures has { OnOk result ((r : ARole) (at : At) → table_has self.new r at ≡ table_has self.old r at) }
        ensures chains { OnOk result ((chains : ℕ) → IsTableOf chains self.old → IsTableOf chains self.new) }
        ensures place { IfOk result (λ k. place_of self.new.places.items role ≡ k + 1) }
        ensures inside { IfOk result (λ k. k < length self.new.buckets.items) }
    {
        match self.find(role) {
            Some(k) => Ok(k),
            None => self.make(role),
        }
    }

    /// Adds the known steps to the role's set.
    pub(crate) fn put(&mut self, role: QueueRole, known: &Known) -> Result<(), OrderError>
        requires { IsTableOf (known.now.chains) self.old }
        ensures has { OnOk result ((r : ARole) (at : At) → table_has self.new r at ≡ (table_has self.old r at || (same_role role r && has_at known.now at))) }
        ensures chains { OnOk result (IsTableOf (known.now.chains) self.new) }
    {
        let k = self.bucket(role)?;
        let (alloc, spes) = (self.alloc, self.spes);
        self.buckets[k].put(alloc, spes, role, known)?;
        Ok(())
    }

    /// Adds what the fact covers to the role's set.
    pub(crate) fn add(&mut self, role: QueueRole, fact: Fact) -> Result<(), OrderError>
        requires sets { IsTableOf (3 * self.old.spes + 1) self.old }
        requires fact { FitsChains (3 * self.old.spes + 1) fact }
        ensures has { OnOk result ((r : ARole) (at : At) → table_has self.new r at ≡ (table_has self.old r at || (same_role role r && covers fact at))) }
        ensures chains { OnOk result (IsTableOf (3 * self.old.spes + 1) self.new) }
    {
        let k = self.bucket(role)?;
        let (alloc, spes) = (self.alloc, self.spes);
        self.buckets[k].add(alloc, spes, role, fact)?;
        Ok(())
    }

    /// Adds to the role's set what the step brings, and what one more fact covers, if there is one.
    pub(crate) fn bring(
        &mut self,
        role: QueueRole,
        brought: &Brought,
        more: Option<Fact>,
    ) -> Result<(), OrderError>
        requires brought { IsOfChains brought.now }
        requires more { SomeFits (3 * brought.now.spes + 1) more }
        requires sets { IsTableOf (3 * brought.now.spes + 1) self.old }
        ensures has { OnOk result ((r : ARole) (at : At) → table_has self.new r at ≡ (table_has self.old r at || (same_role role r && has_gain brought.now more at))) }
        ensures chains { OnOk result (IsTableOf (3 * brought.now.spes + 1) self.new) }
    {
        let k = self.bucket(role)?;
        let alloc = self.alloc;
        self.buckets[k].bring(alloc, role, brought, more)?;
        Ok(())
    }

    /// Drops the sets that the steps of complete commands waited for.
    pub(crate) fn drop_over(&mut self, next: &[Live])
        ensures has { (r : ARole) (at : At) → is_over next.now r ≡ false → table_has self.new r at ≡ table_has self.old r at }
        ensures chains { (chains : ℕ) → IsTableOf chains self.old → IsTableOf chains self.new }
    {
        for live in next {
            if live.progress.done {
                self.drop_from(live, next);
            }
        }
    }

    /// Drops them from the bucket of one such command.
    fn drop_from(&mut self, live: &Live, next: &[Live])
        ensures has { (r : ARole) (at : At) → is_over next.now r ≡ false → table_has self.new r at ≡ table_has self.old r at }
        ensures chains { (chains : ℕ) → IsTableOf chains self.old → IsTableOf chains self.new }
    {
        let waits = QueueRole::Waits {
            spe: live.spe,
            cmd: live.cmd,
        };
        if let Some(k) = self.find(waits) {
            self.buckets[k].drop_over(next);
        }
    }
}
