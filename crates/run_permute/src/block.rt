//! Strands in blocks.

ghost use Rattle.std.specs.Prelude.{◌≡◌, ℕ, ◌+◌, ◌⊎◌, ◌++◌, ◌∷◌, [], IfOk, IsTrue, length};
ghost use Rattle.reorder_laws.specs.OrderedLaws.{IsOrdered};
ghost use Rattle.run_permute.specs.SettledLists.{IsIn, Each, AreChanged};
ghost use Rattle.run_permute.specs.Walks.{Here, IsAt};
ghost use Rattle.run_permute.specs.Lists.{HasAt, IsOneChanged};
ghost use Rattle.run_permute.specs.Tracks.{AreChains, IsBlockClosed, IsBlockFound, IsBlockLonger, IsBounded, IsChain, IsClosed, IsFound, IsLonger, IsNotAbove, IsOpen, IsOpenAt, places};

use crate::strand::{Strand, is_beside};
use run_walk::Walk;
use std::alloc::{AllocError, Global};

/// How many strands a block takes. A step looks at the bounds of the blocks that aren't past, and at all strands of few of them.
const ROOM: usize = 16;

/// Some strands. No `from` is below `low`; where there is a `high`, each has an `until`, and none is above it.
#[derive(Drop)]
pub struct Block {
    low: u32,
    high: Option<u32>,
    strands: Vec<Strand>,
}

/// Adds of each of the strands the last step that is ordered before the last one, but for those before one of the chain's steps below the
/// end. Answers the last strand of which all steps are found to be so.
fn gather_strands(
    strands: &[Strand],
    walk: &Walk,
    end: usize,
    needs: &mut Vec<u32>,
) -> Result<Option<usize>, AllocError>
    ghost here: { Here }
    requires at { IsAt walk.now here.run (here.place + 1) }
    requires chains { Each (λ s. IsChain here.run here.place (places s)) strands.now }
    ensures kept { IfOk result (λ _. (k : ℕ) → IsIn k needs.old.items → IsIn k needs.new.items) }
    ensures sound { IfOk result (λ _. (k : ℕ) → IsIn k needs.new.items → IsIn k needs.old.items ⊎ IsOrdered here.run k here.place) }
    ensures found { IfOk result (λ _. Each (IsFound here.run here.place end needs.new.items) strands.now) }
{
    let mut whole = None;
    for k in 0..strands.len() {
        if strands[k].gather(walk, end, needs)? {
            whole = Some(k);
        }
    }
    Ok(whole)
}

/// Adds the last step of the walk to the strand at the index.
fn extend_at(strands: &mut [Strand], index: usize, place: u32) -> Result<(), AllocError>
    ghost here: { Here }
    requires place { place ≡ here.place }
    requires may { HasAt (IsOpen here.run here.place) strands.old index }
    ensures long { length strands.new ≡ length strands.old }
    ensures longer { IfOk result (λ _. IsOneChanged (IsLonger here.run here.place) strands.old strands.new) }
{
    strands[index].extend(place)?;
    Ok(())
}

/// Closes all of the strands that can be.
fn close_all(strands: &mut [Strand], walk: &Walk, index: u32)
    ghost here: { Here }
    requires at { IsAt walk.now here.run (here.place + 1) }
    requires chains { Each (λ s. IsChain here.run here.place (places s)) strands.old }
    ensures { AreChanged (IsClosed here.run here.place index) (length strands.old) strands.old strands.new }
{
    for k in 0..strands.len() {
        strands[k].close(walk, index);
    }
}

/// The highest `until` of the strands, where each has one.
fn high_of(strands: &[Strand]) -> Option<u32>
    ensures { Each (λ s. IsNotAbove result s.until) strands.now }
{
    let mut high = 0;
    for strand in strands {
        let Some(until) = strand.until() else {
            return None;
        };
        high = until.max(high);
    }
    Some(high)
}

impl Block {
    /// The block of a strand.
    pub fn of(alloc: Global, strand: Strand) -> Result<Block, AllocError>
        ensures strands { IfOk result (λ block. block.strands.items ≡ strand ∷ []) }
        ensures bounded { IfOk result IsBounded }
    {
        let low = strand.from();
        let mut strands = Vec::with_capacity(alloc, ROOM)?;
        strands.push(strand)?;
        Ok(Block {
            low,
            high: None,
            strands,
        })
    }

    /// What no `from` is below.
    pub fn low(&self) -> u32
        ensures { result ≡ self.now.low }
    {
        self.low
    }

    /// What no `until` is above, where each strand has one.
    pub fn high(&self) -> Option<u32>
        ensures { result ≡ self.now.high }
    {
        self.high
    }

    /// Whether it takes no more strands.
    pub fn is_full(&self) -> bool {
        self.strands.len() >= ROOM
    }

    /// Adds a strand.
    pub fn push(&mut self, strand: Strand) -> Result<(), AllocError>
        ensures strands { IfOk result (λ _. self.new.strands.items ≡ self.old.strands.items ++ strand ∷ []) }
        ensures bounded { IfOk result (λ _. IsBounded self.old → IsBounded self.new) }
    {
        self.low = self.low.min(strand.from());
        self.high = None;
        self.strands.push(strand)?;
        Ok(())
    }

    /// Adds of each strand the last step that is ordered before the last one, but for those before one of the chain's steps below the end.
    /// Answers the last strand of which all steps are found to be so.
    pub fn gather(
        &self,
        walk: &Walk,
        end: usize,
        needs: &mut Vec<u32>,
    ) -> Result<Option<usize>, AllocError>
        ghost here: { Here }
        requires at { IsAt walk.now here.run (here.place + 1) }
        requires chains { AreChains here.run here.place self.now }
        requires bounded { IsBounded self.now }
        ensures kept { IfOk result (λ _. (k : ℕ) → IsIn k needs.old.items → IsIn k needs.new.items) }
        ensures sound { IfOk result (λ _. (k : ℕ) → IsIn k needs.new.items → IsIn k needs.old.items ⊎ IsOrdered here.run k here.place) }
        ensures found { IfOk result (λ _. IsBlockFound here.run here.place end needs.new.items self.now) }
    {
        if !is_beside(self.low, self.high, end) {
            return Ok(None);
        }
        gather_strands(&self.strands, walk, end, needs)
    }

    /// Whether there is a strand at the index to which the last step of the walk may be added.
    pub fn may_extend(&self, index: usize, walk: &Walk) -> bool
        ghost here: { Here }
        requires at { IsAt walk.now here.run (here.place + 1) }
        requires chains { AreChains here.run here.place self.now }
        ensures { IsTrue result → IsOpenAt here.run here.place index self.now }
    {
        index < self.strands.len() && self.strands[index].may_extend(walk)
    }

    /// Adds the last step of the walk to the strand at the index.
    pub fn extend(&mut self, index: usize, place: u32) -> Result<(), AllocError>
        ghost here: { Here }
        requires place { place ≡ here.place }
        requires may { IsOpenAt here.run here.place index self.old }
        ensures { IfOk result (λ _. IsBlockLonger here.run here.place self.old self.new) }
    {
        extend_at(self.strands.as_mut_slice(), index, place)
    }

    /// Closes the strands that can be, of which there are none where there is a `high`.
    pub fn close(&mut self, walk: &Walk, index: u32)
        ghost here: { Here }
        requires at { IsAt walk.now here.run (here.place + 1) }
        requires chains { AreChains here.run here.place self.old }
        requires bounded { IsBounded self.old }
        ensures { IsBlockClosed here.run here.place index self.old self.new }
    {
        if self.high.is_none() {
            close_all(self.strands.as_mut_slice(), walk, index);
            self.high = high_of(&self.strands);
        }
    }
}
