//! The steps of an actor that aren't on its chain, in strands.

ghost use Rattle.std.specs.Prelude.{◌≡◌, ℕ, ◌+◌, ◌⊎◌, ◌↔◌, [], IfOk, IsTrue, None, length, slice_index};
ghost use Rattle.reorder_laws.specs.OrderedLaws.{IsOrdered};
ghost use Rattle.run_permute.specs.SettledLists.{IsIn};
ghost use Rattle.run_permute.specs.Walks.{Here, IsAt};
ghost use Rattle.run_permute.specs.Tracks.{AreCovered, IsBeside, IsChain, IsClosed, IsEnd, IsFound, IsLonger, IsOpen, places};

use crate::before::is_before;
use crate::chain::gather_chain;
use run_walk::Walk;
use std::alloc::{AllocError, Global};

/// Steps that aren't on their actor's chain, each ordered before the next: the steps of the chain below `from` are ordered before them,
/// and they are ordered before the one at `until`, where one is known.
#[derive(Drop)]
pub struct Strand {
    first: u32,
    rest: Vec<u32>,
    from: u32,
    until: Option<u32>,
}

/// Whether a step of this `from` and this `until` may be ordered before a step that has so many of the chain before it, and not before
/// one of these.
pub fn is_beside(from: u32, until: Option<u32>, end: usize) -> bool
    ensures { IsTrue result ↔ IsBeside from until end }
{
    if from as usize > end {
        return false;
    }
    match until {
        Some(until) => until as usize >= end,
        None => true,
    }
}

impl Strand {
    /// A step of which no later one of the chain is known.
    pub fn new(alloc: Global, place: u32, from: u32) -> Strand
        ensures first { result.first ≡ place }
        ensures rest { result.rest.items ≡ [] }
        ensures from { result.from ≡ from }
        ensures until { result.until ≡ None }
    {
        Strand {
            first: place,
            rest: Vec::new(alloc),
            from,
            until: None,
        }
    }

    /// No step of the chain is known before its steps but for those below this one.
    pub fn from(&self) -> u32
        ensures { result ≡ self.now.from }
    {
        self.from
    }

    /// The step of the chain that its steps are ordered before, where one is known.
    pub fn until(&self) -> Option<u32>
        ensures { result ≡ self.now.until }
    {
        self.until
    }

    /// The last of its steps.
    fn last(&self) -> u32
        ensures { result ≡ slice_index (places self.now) (length self.now.rest.items) }
    {
        let count = self.rest.len();
        if count == 0 {
            return self.first;
        }
        self.rest[count - 1]
    }

    /// Adds the last of its steps that is ordered before the last step of the walk, if one is, and answers whether all are.
    fn gather_last(&self, walk: &Walk, needs: &mut Vec<u32>) -> Result<bool, AllocError>
        ghost here: { Here }
        requires at { IsAt walk.now here.run (here.place + 1) }
        requires chain { IsChain here.run here.place (places self.now) }
        ensures kept { IfOk result (λ _. (k : ℕ) → IsIn k needs.old.items → IsIn k needs.new.items) }
        ensures sound { IfOk result (λ _. (k : ℕ) → IsIn k needs.new.items → IsIn k needs.old.items ⊎ IsOrdered here.run k here.place) }
        ensures covered { IfOk result (λ _. AreCovered here.run here.place needs.new.items (places self.now)) }
    {
        if !is_before(walk, self.first) {
            return Ok(false);
        }
        let all = self.rest.len();
        let end = gather_chain(&self.rest, walk, all, needs)?;
        if end == 0 {
            needs.push(self.first)?;
        }
        Ok(end == all)
    }

    /// Adds the last of its steps that is ordered before the last step of the walk, where none of the chain's steps below the end is behind it.
    /// Answers whether all of its steps are found to be so.
    pub fn gather(&self, walk: &Walk, end: usize, needs: &mut Vec<u32>) -> Result<bool, AllocError>
        ghost here: { Here }
        requires at { IsAt walk.now here.run (here.place + 1) }
        requires chain { IsChain here.run here.place (places self.now) }
        ensures kept { IfOk result (λ _. (k : ℕ) → IsIn k needs.old.items → IsIn k needs.new.items) }
        ensures sound { IfOk result (λ _. (k : ℕ) → IsIn k needs.new.items → IsIn k needs.old.items ⊎ IsOrdered here.run k here.place) }
        ensures found { IfOk result (λ _. IsFound here.run here.place end needs.new.items self.now) }
    {
        if !is_beside(self.from, self.until, end) {
            return Ok(false);
        }
        self.gather_last(walk, needs)
    }

    /// Whether the last step of the walk comes behind its last step.
    fn is_behind(&self, walk: &Walk) -> bool
        ghost here: { Here }
        requires at { IsAt walk.now here.run (here.place + 1) }
        requires chain { IsChain here.run here.place (places self.now) }
        ensures { IsTrue result → IsEnd here.run here.place (places self.now) (length (places self.now)) }
    {
        is_before(walk, self.last())
    }

    /// Whether the last step of the walk may be added: no later step of the chain is known.
    pub fn may_extend(&self, walk: &Walk) -> bool
        ghost here: { Here }
        requires at { IsAt walk.now here.run (here.place + 1) }
        requires chain { IsChain here.run here.place (places self.now) }
        ensures { IsTrue result → IsOpen here.run here.place self.now }
    {
        self.until.is_none() && self.is_behind(walk)
    }

    /// Adds the last step of the walk.
    pub fn extend(&mut self, place: u32) -> Result<(), AllocError>
        ghost here: { Here }
        requires place { place ≡ here.place }
        requires may { IsOpen here.run here.place self.old }
        ensures { IfOk result (λ _. IsLonger here.run here.place self.old self.new) }
    {
        self.rest.push(place)?;
        Ok(())
    }

    /// Keeps the index to which the last step of the walk comes on the chain, where it is the first that comes behind its steps.
    pub fn close(&mut self, walk: &Walk, index: u32)
        ghost here: { Here }
        requires at { IsAt walk.now here.run (here.place + 1) }
        requires chain { IsChain here.run here.place (places self.old) }
        ensures { IsClosed here.run here.place index self.old self.new }
    {
        if self.until.is_none() && self.is_behind(walk) {
            self.until = Some(index);
        }
    }
}
