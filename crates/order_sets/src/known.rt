//! The set of known steps.

ghost use Rattle.std.specs.Prelude.{◌≡◌, ℕ, [], ◌∷◌, ◌++◌, ◌<◌, ◌≤◌, ◌*◌, ◌+◌, ◌||◌, List, length, vec_len, vec_capacity, OnOk, OnErr, IfOk, IsOk, IsTrue, max, nat_lt, slice_index, ◌≢◌};
ghost use Rattle.std.specs.List.{list_any};
ghost use Rattle.order_sets.specs.declared.facts.At.{At};
ghost use Rattle.order_sets.specs.declared.facts.Fact.{Fact};
ghost use Rattle.order_sets.specs.Facts.{covers};
ghost use Rattle.order_sets.specs.Holds.{in_run, in_part, is_needed};
ghost use Rattle.order_sets.specs.Stands.{has_at, StandsFor, Fits, AreAlike};

use crate::facts::{At, Fact};
use crate::parts::{self, Part};
use crate::run::Run;
use crate::{rest, runs};
use std::alloc::{AllocError, AllocFailed, Global};
use std::marker::Model;
use thiserror::Error;

/// A call found no memory.
#[derive(Clone, Copy, Debug, PartialEq, Eq, Error)]
pub enum KnownError {
    #[error("out of memory")]
    Memory,
}

impl From<AllocError> for KnownError {
    fn from(_: AllocError) -> KnownError {
        KnownError::Memory
    }
}

impl<T: Drop> From<AllocFailed<T>> for KnownError {
    fn from(_: AllocFailed<T>) -> KnownError {
        KnownError::Memory
    }
}

/// A set of steps of some chains. To a contract it is the number of these chains and a list of facts: it has the steps that one of
/// them covers.
#[derive(Drop)]
pub struct Known {
    // of each chain one more than the last place that is known, or 0, but for a place behind which no end can stand
    ends: Vec<u32>,
    runs: Vec<Run>,
    parts: Vec<Part>,
    rest: Vec<Fact>,
}

impl Model for Known {
    ghost use Rattle.order_sets.specs.Steps.{Steps};

    ghost Value = { Steps };

    ghost use Rattle.order_sets.specs.Seen.{steps_of};

    ghost view = { steps_of };
}

/// Whether the step stands below its chain's end.
fn is_below(ends: &[u32], at: At) -> bool
    requires { at.chain < length ends.now }
    ensures { result ≡ nat_lt at.place (slice_index ends.now at.chain) }
{
    at.place < ends[usize::from(at.chain)]
}

/// Raises each end to that of the other set.
fn raise_all(ends: &mut [u32], other: &[u32])
    requires { length ends.old ≡ length other.now }
    ensures { (k : ℕ) → slice_index ends.new k ≡ max (slice_index ends.old k) (slice_index other.now k) }
{
    for i in 0..other.len() {
        ends[i] = ends[i].max(other[i]);
    }
}

/// Raises the end of the chain to this one.
fn raise(ends: &mut [u32], chain: u8, end: u32)
    requires { chain < length ends.old }
    ensures here { slice_index ends.new chain ≡ max (slice_index ends.old chain) end }
    ensures others { (k : ℕ) → k ≢ chain → slice_index ends.new k ≡ slice_index ends.old k }
{
    let old = &mut ends[usize::from(chain)];
    *old = (*old).max(end);
}

/// Puts each end back to 0.
fn lower_all(ends: &mut [u32])
    ensures zero { (k : ℕ) → slice_index ends.new k ≡ 0 }
    ensures long { length ends.new ≡ length ends.old }
{
    for i in 0..ends.len() {
        ends[i] = 0;
    }
}

/// Adds each of the other runs, and answers whether one was new. Where there is room for them, none is missing.
fn add_runs(runs: &mut Vec<Run>, other: &[Run]) -> Result<bool, AllocError>
    ensures ok { OnOk result ((at : At) → list_any (in_run at) runs.new.items ≡ (list_any (in_run at) runs.old.items || list_any (in_run at) other.now)) }
    ensures room { vec_len runs.old + length other.now ≤ vec_capacity runs.old → IsOk result }
{
    // Sets that were joined before mostly have the same runs at the same places.
    let mut grows = false;
    for (i, r) in other.iter().enumerate() {
        grows |= runs::add_near(runs, i, *r)?;
    }
    Ok(grows)
}

/// Adds the other runs, as a copy where there are none, and answers whether one was new. Where there is room for them, none is missing.
fn join_runs(runs: &mut Vec<Run>, other: &[Run]) -> Result<bool, AllocError>
    ensures ok { OnOk result ((at : At) → list_any (in_run at) runs.new.items ≡ (list_any (in_run at) runs.old.items || list_any (in_run at) other.now)) }
    ensures room { vec_len runs.old + length other.now ≤ vec_capacity runs.old → IsOk result }
{
    if other.is_empty() {
        return Ok(false);
    }
    if runs.is_empty() {
        runs.extend_from_slice(other)?;
        return Ok(true);
    }
    add_runs(runs, other)
}

/// Adds each of the other elements, and answers whether one was new. Where there is room for them, none is missing.
fn add_parts(parts: &mut Vec<Part>, other: &[Part]) -> Result<bool, AllocError>
    ensures ok { OnOk result ((at : At) → list_any (in_part at) parts.new.items ≡ (list_any (in_part at) parts.old.items || list_any (in_part at) other.now)) }
    ensures room { vec_len parts.old + length other.now ≤ vec_capacity parts.old → IsOk result }
{
    // Sets that were joined before mostly have the same parts at the same places.
    let mut grows = false;
    for (i, p) in other.iter().enumerate() {
        grows |= parts::add_near(parts, i, *p)?;
    }
    Ok(grows)
}

/// Adds the other elements, as a copy where there are none, and answers whether one was new. Where there is room for them, none is missing.
fn join_parts(parts: &mut Vec<Part>, other: &[Part]) -> Result<bool, AllocError>
    ensures ok { OnOk result ((at : At) → list_any (in_part at) parts.new.items ≡ (list_any (in_part at) parts.old.items || list_any (in_part at) other.now)) }
    ensures room { vec_len parts.old + length other.now ≤ vec_capacity parts.old → IsOk result }
{
    if other.is_empty() {
        return Ok(false);
    }
    if parts.is_empty() {
        parts.extend_from_slice(other)?;
        return Ok(true);
    }
    add_parts(parts, other)
}

/// Adds each of the other facts, and answers whether one was new. Where there is room for them, none is missing.
fn add_rest(rest: &mut Vec<Fact>, other: &[Fact]) -> Result<bool, AllocError>
    ensures ok { OnOk result ((at : At) → list_any (λ f. covers f at) rest.new.items ≡ (list_any (λ f. covers f at) rest.old.items || list_any (λ f. covers f at) other.now)) }
    ensures room { vec_len rest.old + length other.now ≤ vec_capacity rest.old → IsOk result }
{
    let mut grows = false;
    for f in other {
        grows |= rest::add(rest, *f)?;
    }
    Ok(grows)
}

/// Adds the other facts, as a copy where there are none, and answers whether one was new. Where there is room for them, none is missing.
fn join_rest(rest: &mut Vec<Fact>, other: &[Fact]) -> Result<bool, AllocError>
    ensures ok { OnOk result ((at : At) → list_any (λ f. covers f at) rest.new.items ≡ (list_any (λ f. covers f at) rest.old.items || list_any (λ f. covers f at) other.now)) }
    ensures room { vec_len rest.old + length other.now ≤ vec_capacity rest.old → IsOk result }
{
    if other.is_empty() {
        return Ok(false);
    }
    if rest.is_empty() {
        rest.extend_from_slice(other)?;
        return Ok(true);
    }
    add_rest(rest, other)
}

/// Drops the parts whose commands one run has whole.
fn drop_parts(parts: &mut Vec<Part>, runs: &[Run])
    ensures { (at : At) → (list_any (in_run at) runs.now || list_any (in_part at) parts.new.items) ≡ (list_any (in_run at) runs.now || list_any (in_part at) parts.old.items) }
{
    if parts.is_empty() {
        return;
    }
    parts.retain(|p| !runs::covers(runs, &p.run));
}

/// Whether a run or a part has the step.
fn is_covered(one: At, runs: &[Run], parts: &[Part]) -> bool
    ensures { result ≡ (list_any (in_run one) runs.now || list_any (in_part one) parts.now) }
{
    runs::has(runs, one) || parts::has(parts, one)
}

/// Whether the fact is more than a step that a run or a part has.
fn is_needed(f: &Fact, runs: &[Run], parts: &[Part]) -> bool
    ensures { result ≡ is_needed runs.now parts.now f.now }
{
    match *f {
        Fact::One { at } => !is_covered(at, runs, parts),
        _ => true,
    }
}

/// Drops the steps of commands that a run has whole, and of elements that a part has.
fn drop_ones(rest: &mut Vec<Fact>, runs: &[Run], parts: &[Part])
    ensures { (at : At) → ((list_any (in_run at) runs.now || list_any (in_part at) parts.now) || list_any (λ f. covers f at) rest.new.items) ≡ ((list_any (in_run at) runs.now || list_any (in_part at) parts.now) || list_any (λ f. covers f at) rest.old.items) }
{
    if rest.is_empty() {
        return;
    }
    rest.retain(|f| is_needed(f, runs, parts));
}

/// Whether there is none of these.
fn are_none(runs: &Vec<Run>, parts: &Vec<Part>, rest: &Vec<Fact>) -> bool
    ensures runs { IsTrue result → runs.now.items ≡ [] }
    ensures parts { IsTrue result → parts.now.items ≡ [] }
    ensures rest { IsTrue result → rest.now.items ≡ [] }
{
    runs.is_empty() && parts.is_empty() && rest.is_empty()
}

impl Known {
    /// The empty set, for the chains of `spes` processors, 1 to 16.
    pub fn new(alloc: Global, spes: u8) -> Result<Known, KnownError>
        requires { (1 ≤ spes) × (spes ≤ 16) }
        ensures empty { IfOk result (λ known. StandsFor known []) }
        ensures chains { IfOk result (λ known. known.chains ≡ 3 * spes + 1) }
    {
        let ends = vec![in alloc; 0u32; 3 * usize::from(spes) + 1]?;
        Ok(Known {
            ends,
            runs: Vec::new(alloc),
            parts: Vec::new(alloc),
            rest: Vec::new(alloc),
        })
    }

    /// Takes all steps out.
    pub fn clear(&mut self)
        ensures empty { StandsFor self.new [] }
        ensures chains { self.new.chains ≡ self.old.chains }
    {
        lower_all(self.ends.as_mut_slice());
        self.runs.clear();
        self.parts.clear();
        self.rest.clear();
    }

    /// Whether the step, which is of a chain that the set has, is in the set: exactly where a fact for which it stands covers it.
    pub fn has(&self, at: At) -> bool
        requires { at.chain < self.now.chains }
        ensures has { result ≡ has_at self.now at }
        ensures covered { (facts : List Fact) → StandsFor self.now facts → result ≡ list_any (λ f. covers f at) facts }
    {
        is_below(self.ends.as_slice(), at)
            || is_covered(at, &self.runs, &self.parts)
            || rest::has(self.rest.as_slice(), at)
    }

    /// Adds a fact, whose chain the set has. Where there is no memory, the set stays as it is.
    pub fn add(&mut self, f: Fact) -> Result<(), KnownError>
        requires { Fits self.old f }
        ensures stands { (facts : List Fact) → StandsFor self.old facts → OnOk result (StandsFor self.new (facts ++ f ∷ [])) }
        ensures ok { OnOk result ((at : At) → has_at self.new at ≡ (has_at self.old at || covers f at)) }
        ensures chains { self.new.chains ≡ self.old.chains }
        ensures err { OnErr result (self.new ≡ self.old) }
    {
        if self.put(f)? {
            self.drop_covered();
        }
        Ok(())
    }

    /// Puts in what a fact covers, and answers whether that may cover other facts. Where there is no memory, the set stays as it is.
    fn put(&mut self, f: Fact) -> Result<bool, AllocError>
        requires { Fits self.old f }
        ensures ok { OnOk result ((at : At) → has_at self.new at ≡ (has_at self.old at || covers f at)) }
        ensures chains { self.new.chains ≡ self.old.chains }
        ensures err { OnErr result (self.new ≡ self.old) }
    {
        let grows = match f {
            Fact::Upto { chain, place } => {
                match place.checked_add(1) {
                    Some(end) => raise(self.ends.as_mut_slice(), chain, end),
                    None => {
                        rest::add(&mut self.rest, f)?;
                    }
                }
                false
            }
            Fact::Whole { chain, cmd } => runs::add(&mut self.runs, runs::single(chain, cmd))?,
            Fact::Elements { chain, cmd, below } => {
                parts::add(&mut self.parts, parts::single(chain, cmd, below))?
            }
            Fact::One { .. } => {
                rest::add(&mut self.rest, f)?;
                false
            }
        };
        Ok(grows)
    }

    /// Adds what the other set has, which was made for the same number of processors. Where there is no memory, the set stays as it is.
    pub fn join(&mut self, other: &Known) -> Result<(), KnownError>
        requires { AreAlike self.old other.now }
        ensures stands { (facts more : List Fact) → StandsFor self.old facts → StandsFor other.now more → OnOk result (StandsFor self.new (facts ++ more)) }
        ensures ok { OnOk result ((at : At) → has_at self.new at ≡ (has_at self.old at || has_at other.now at)) }
        ensures chains { self.new.chains ≡ self.old.chains }
        ensures err { OnErr result (self.new ≡ self.old) }
    {
        if self.unite(other)? {
            self.drop_covered();
        }
        Ok(())
    }

    /// Puts in all that the other set has, and answers whether some of that and what was there may cover one another. Where there is no
    /// memory, the set stays as it is.
    fn unite(&mut self, other: &Known) -> Result<bool, AllocError>
        requires { AreAlike self.old other.now }
        ensures ok { OnOk result ((at : At) → has_at self.new at ≡ (has_at self.old at || has_at other.now at)) }
        ensures chains { self.new.chains ≡ self.old.chains }
        ensures err { OnErr result (self.new ≡ self.old) }
    {
        if are_none(&other.runs, &other.parts, &other.rest) {
            raise_all(self.ends.as_mut_slice(), other.ends.as_slice());
            return Ok(false);
        }
        let had_none = are_none(&self.runs, &self.parts, &self.rest);
        self.runs.reserve(other.runs.len())?;
        self.parts.reserve(other.parts.len())?;
        self.rest.reserve(other.rest.len())?;
        // There is room now, so none of these fails after another has changed the set.
        let more_runs = join_runs(&mut self.runs, &other.runs)?;
        let more_parts = join_parts(&mut self.parts, &other.parts)?;
        let more_rest = join_rest(&mut self.rest, &other.rest)?;
        raise_all(self.ends.as_mut_slice(), other.ends.as_slice());
        Ok(!had_none && (more_runs || more_parts || more_rest))
    }

    /// Drops parts of commands and single steps that the set has anyway.
    fn drop_covered(&mut self)
        ensures same { (at : At) → has_at self.new at ≡ has_at self.old at }
        ensures chains { self.new.chains ≡ self.old.chains }
    {
        drop_parts(&mut self.parts, &self.runs);
        drop_ones(&mut self.rest, &self.runs, &self.parts);
    }
}
