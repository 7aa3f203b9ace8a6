//! Sets of known steps that are searched one after the other.

ghost use Rattle.std.specs.Prelude.{◌≡◌, ℕ, ◌+◌, ◌*◌, ◌<◌, ◌≤◌, ◌||◌, ◌&&◌, IfOk, OnOk, length, slice_index_or, [], true, false};
ghost use Rattle.std.specs.List.{list_any};
ghost use Rattle.order_sets.specs.declared.facts.At.{At};
ghost use Rattle.order_sets.specs.Facts.{covers};
ghost use Rattle.order_sets.specs.Stands.{has_at, Fits};
ghost use Rattle.race_order.specs.declared.roles.QueueRole.{QueueRole as ARole};
ghost use Rattle.race_order.specs.Tables.{same_role, row_has, bucket_has, AreRowsOf, FitsChains};
ghost use Rattle.race_order.specs.Passes.{is_over_as, is_over};
ghost use Rattle.race_order.specs.Bringing.{IsOfChains};
ghost use Rattle.race_order.specs.Gains.{SomeFits, has_gain};

use crate::brought::{Brought, add_all};
use crate::error::OrderError;
use crate::lives::Live;
use crate::roles::{QueueRole, is_role};
use order_sets::{Fact, Known};
use std::alloc::Global;

/// The set that is kept for a role.
#[derive(Drop)]
pub(crate) struct Row {
    pub(crate) role: QueueRole,
    pub(crate) known: Known,
}

/// The sets of a few roles.
#[derive(Drop)]
pub(crate) struct Bucket {
    pub(crate) rows: Vec<Row>,
}

/// Whether the role is of a command that is complete now.
fn is_over_as(role: QueueRole, live: &Live) -> bool
    ensures { result ≡ is_over_as role live.now }
{
    match role {
        QueueRole::Waits { spe, cmd } => live.progress.done && live.spe == spe && live.cmd == cmd,
        _ => false,
    }
}

fn is_over(role: QueueRole, next: &[Live]) -> bool
    ensures { result ≡ is_over next.now role }
{
    next.iter().any(|live| is_over_as(role, live))
}

/// Adds to the known steps what the row has, where it is the role's.
fn gather_row(row: &Row, role: QueueRole, known: &mut Known) -> Result<(), OrderError>
    requires { row.now.known.chains ≡ known.old.chains }
    ensures has { OnOk result ((at : At) → has_at known.new at ≡ (has_at known.old at || row_has role at row.now)) }
    ensures chains { known.new.chains ≡ known.old.chains }
{
    if is_role(&row.role, &role) {
        known.join(&row.known)?;
    }
    Ok(())
}

/// Adds what the fact covers to the row, which is the role's.
fn add_row(row: &mut Row, role: QueueRole, fact: Fact) -> Result<(), OrderError>
    requires role { same_role row.old.role role ≡ true }
    requires fits { Fits row.old.known fact }
    ensures has { OnOk result ((r : ARole) (at : At) → row_has r at row.new ≡ (row_has r at row.old || (same_role role r && covers fact at))) }
    ensures chains { row.new.known.chains ≡ row.old.known.chains }
{
    row.known.add(fact)?;
    Ok(())
}

/// Adds the known steps to the row, which is the role's.
fn put_row(row: &mut Row, role: QueueRole, known: &Known) -> Result<(), OrderError>
    requires role { same_role row.old.role role ≡ true }
    requires chains { row.old.known.chains ≡ known.now.chains }
    ensures has { OnOk result ((r : ARole) (at : At) → row_has r at row.new ≡ (row_has r at row.old || (same_role role r && has_at known.now at))) }
    ensures chains { row.new.known.chains ≡ row.old.known.chains }
{
    row.known.join(known)?;
    Ok(())
}

/// Adds to the row, which is the role's, what the step brings, and what one more fact covers, if there is one.
fn bring_row(
    row: &mut Row,
    role: QueueRole,
    brought: &Brought,
    more: Option<Fact>,
) -> Result<(), OrderError>
    requires role { same_role row.old.role role ≡ true }
    requires brought { IsOfChains brought.now }
    requires more { SomeFits (3 * brought.now.spes + 1) more }
    requires chains { row.old.known.chains ≡ 3 * brought.now.spes + 1 }
    ensures has { OnOk result ((r : ARole) (at : At) → row_has r at row.new ≡ (row_has r at row.old || (same_role role r && has_gain brought.now more at))) }
    ensures chains { row.new.known.chains ≡ row.old.known.chains }
{
    add_all(&mut row.known, brought, more)?;
    Ok(())
}

impl Bucket {
    pub(crate) fn new(alloc: Global) -> Bucket
        ensures { result.rows.items ≡ [] }
    {
        Bucket {
            rows: Vec::new(alloc),
        }
    }

    /// Whether the role has a set; else its set is empty.
    pub(crate) fn holds(&self, role: QueueRole) -> bool
        ensures { result ≡ list_any (λ row. same_role row.role role) self.now.rows.items }
    {
        self.rows.iter().any(|row| is_role(&row.role, &role))
    }

    /// Adds to the known steps what the role's set has.
    pub(crate) fn gather(&self, role: QueueRole, known: &mut Known) -> Result<(), OrderError>
        requires { AreRowsOf (known.old.chains) self.now.rows.items }
        ensures has { OnOk result ((at : At) → has_at known.new at ≡ (has_at known.old at || bucket_has role at self.now)) }
        ensures chains { known.new.chains ≡ known.old.chains }
    {
        for row in &self.rows {
            gather_row(row, role, known)?;
        }
        Ok(())
    }

    /// The place of the role's set, which is made where there is none.
    fn place(&mut self, alloc: Global, spes: u8, role: QueueRole) -> Result<usize, OrderError>
        requires some { 1 ≤ spes }
        requires spes { spes ≤ 16 }
        requires rows { AreRowsOf (3 * spes + 1) self.old.rows.items }
        ensures has { OnOk result ((r : ARole) (at : At) → bucket_has r at self.new ≡ bucket_has r at self.old) }
        ensures rows { OnOk result (AreRowsOf (3 * spes + 1) self.new.rows.items) }
        ensures inside { IfOk result (λ i. i < length self.new.rows.items) }
        ensures role { IfOk result (λ i. (d : Row) → same_role (slice_index_or self.new.rows.items i d).role role ≡ true) }
    {
        for i in 0..self.rows.len() {
            if is_role(&self.rows[i].role, &role) {
                return Ok(i);
            }
        }
        let known = Known::new(alloc, spes)?;
        self.rows.push(Row { role, known })?;
        Ok(self.rows.len() - 1)
    }

    /// Adds the known steps to the role's set.
    pub(crate) fn put(
        &mut self,
        alloc: Global,
        spes: u8,
        role: QueueRole,
        known: &Known,
    ) -> Result<(), OrderError>
        requires some { 1 ≤ spes }
        requires spes { spes ≤ 16 }
        requires known { known.now.chains ≡ 3 * spes + 1 }
        requires rows { AreRowsOf (3 * spes + 1) self.old.rows.items }
        ensures has { OnOk result ((r : ARole) (at : At) → bucket_has r at self.new ≡ (bucket_has r at self.old || (same_role role r && has_at known.now at))) }
        ensures rows { OnOk result (AreRowsOf (3 * spes + 1) self.new.rows.items) }
    {
        let i = self.place(alloc, spes, role)?;
        put_row(&mut self.rows[i], role, known)?;
        Ok(())
    }

    /// Adds what the fact covers to the role's set.
    pub(crate) fn add(
        &mut self,
        alloc: Global,
        spes: u8,
        role: QueueRole,
        fact: Fact,
    ) -> Result<(), OrderError>
        requires some { 1 ≤ spes }
        requires spes { spes ≤ 16 }
        requires fact { FitsChains (3 * spes + 1) fact }
        requires rows { AreRowsOf (3 * spes + 1) self.old.rows.items }
        ensures has { OnOk result ((r : ARole) (at : At) → bucket_has r at self.new ≡ (bucket_has r at self.old || (same_role role r && covers fact at))) }
        ensures rows { OnOk result (AreRowsOf (3 * spes + 1) self.new.rows.items) }
    {
        let i = self.place(alloc, spes, role)?;
        add_row(&mut self.rows[i], role, fact)?;
        Ok(())
    }

    /// Adds to the role's set what the step brings, and what one more fact covers, if there is one.
    pub(crate) fn bring(
        &mut self,
        alloc: Global,
        role: QueueRole,
        brought: &Brought,
        more: Option<Fact>,
    ) -> Result<(), OrderError>
        requires brought { IsOfChains brought.now }
        requires more { SomeFits (3 * brought.now.spes + 1) more }
        requires rows { AreRowsOf (3 * brought.now.spes + 1) self.old.rows.items }
        ensures has { OnOk result ((r : ARole) (at : At) → bucket_has r at self.new ≡ (bucket_has r at self.old || (same_role role r && has_gain brought.now more at))) }
        ensures rows { OnOk result (AreRowsOf (3 * brought.now.spes + 1) self.new.rows.items) }
    {
        let i = self.place(alloc, brought.spes, role)?;
        bring_row(&mut self.rows[i], role, brought, more)?;
        Ok(())
    }

    /// Drops the sets that the steps of complete commands waited for.
    pub(crate) fn drop_over(&mut self, next: &[Live])
        ensures has { (r : ARole) (at : At) → is_over next.now r ≡ false → bucket_has r at self.new ≡ bucket_has r at self.old }
        ensures chains { (chains : ℕ) → AreRowsOf chains self.old.rows.items → AreRowsOf chains self.new.rows.items }
    {
        self.rows.retain(|row| !is_over(row.role, next));
    }
}
