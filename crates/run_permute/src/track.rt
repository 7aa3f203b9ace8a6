//! The steps of an actor so far, and which of them are ordered before the last step of the walk.

ghost use Rattle.std.specs.Prelude.{◌≡◌, ℕ, ◌+◌, ◌<◌, ◌≤◌, ◌⊎◌, IfOk, IsTrue, length};
ghost use Rattle.reorder_laws.specs.OrderedLaws.{IsOrdered};
ghost use Rattle.run_permute.specs.SettledLists.{IsIn, Each, AreChanged};
ghost use Rattle.run_permute.specs.Walks.{Here, IsAt};
ghost use Rattle.run_permute.specs.Lists.{HasAt, IsOneChanged};
ghost use Rattle.run_permute.specs.Tracks.{AreChains, CoversTrack, IsBlockClosed, IsBlockFound, IsBlockLonger, IsBounded, IsEnd, IsOn, IsOpenAt, IsPut, IsTrack};

use crate::block::Block;
use crate::chain::gather_chain;
use crate::past::Past;
use crate::strand::Strand;
use run_walk::Walk;
use std::alloc::{AllocError, Global};

/// The steps of an actor so far: a chain, each ordered before the next, and the others in strands, which stand in blocks, of which the
/// first are past.
#[derive(Drop)]
pub struct Track {
    chain: Vec<u32>,
    blocks: Vec<Block>,
    past: Past,
}

/// Where a strand stands: the numbers of its block, and of the strand in that.
#[derive(Clone, Copy)]
pub struct At {
    block: usize,
    strand: usize,
}

/// What was found on a track: how many of its chain are ordered before a step, and a strand of which all are. The strand only says where to
/// look first.
#[derive(Clone, Copy)]
pub struct Spot {
    pub end: usize,
    at: Option<At>,
}

impl Spot {
    /// Where nothing was found.
    pub fn none() -> Spot {
        Spot { end: 0, at: None }
    }
}

/// Adds of each strand of the blocks the last step that is ordered before the last one, but for those before one of the chain's steps below
/// the end. Answers the last strand of which all steps are found to be so; the first block has this number.
fn gather_blocks(
    blocks: &[Block],
    walk: &Walk,
    end: usize,
    first: usize,
    needs: &mut Vec<u32>,
) -> Result<Option<At>, AllocError>
    ghost here: { Here }
    requires at { IsAt walk.now here.run (here.place + 1) }
    requires chains { Each (AreChains here.run here.place) blocks.now }
    requires bounded { Each IsBounded blocks.now }
    ensures kept { IfOk result (λ _. (k : ℕ) → IsIn k needs.old.items → IsIn k needs.new.items) }
    ensures sound { IfOk result (λ _. (k : ℕ) → IsIn k needs.new.items → IsIn k needs.old.items ⊎ IsOrdered here.run k here.place) }
    ensures found { IfOk result (λ _. Each (IsBlockFound here.run here.place end needs.new.items) blocks.now) }
{
    let mut at = None;
    for k in 0..blocks.len() {
        if let Some(strand) = blocks[k].gather(walk, end, needs)? {
            let block = first.saturating_add(k);
            at = Some(At { block, strand });
        }
    }
    Ok(at)
}

/// Closes all of the strands that can be, of which there are none in the first blocks that are past.
fn close_blocks(blocks: &mut [Block], walk: &Walk, index: u32, past: usize)
    ghost here: { Here }
    requires at { IsAt walk.now here.run (here.place + 1) }
    requires chains { Each (AreChains here.run here.place) blocks.old }
    requires bounded { Each IsBounded blocks.old }
    requires past { past ≤ length blocks.old }
    ensures { AreChanged (IsBlockClosed here.run here.place index) (length blocks.old) blocks.old blocks.new }
{
    for k in past..blocks.len() {
        blocks[k].close(walk, index);
    }
}

/// Whether there is a block, and the last one has room.
fn has_room(blocks: &[Block]) -> bool
    ensures { IsTrue result → 0 < length blocks.now }
{
    match blocks.last() {
        Some(block) => !block.is_full(),
        None => false,
    }
}

/// Adds a strand to the last block.
fn put_last(blocks: &mut [Block], strand: Strand) -> Result<(), AllocError>
    requires { 0 < length blocks.old }
    ensures long { length blocks.new ≡ length blocks.old }
    ensures put { IfOk result (λ _. IsPut strand blocks.old blocks.new) }
{
    let last = blocks.len() - 1;
    blocks[last].push(strand)?;
    Ok(())
}

/// Adds a strand to the last block, or to a new one where that has no room.
fn put_strand(alloc: Global, blocks: &mut Vec<Block>, strand: Strand) -> Result<(), AllocError>
    ensures { IfOk result (λ _. IsPut strand blocks.old.items blocks.new.items) }
{
    if has_room(blocks) {
        put_last(blocks.as_mut_slice(), strand)?;
        return Ok(());
    }
    let block = Block::of(alloc, strand)?;
    blocks.push(block)?;
    Ok(())
}

/// Whether a strand stands there to which the last step of the walk may be added.
fn may_extend(blocks: &[Block], at: At, walk: &Walk) -> bool
    ghost here: { Here }
    requires at { IsAt walk.now here.run (here.place + 1) }
    requires chains { Each (AreChains here.run here.place) blocks.now }
    ensures { IsTrue result → HasAt (IsOpenAt here.run here.place at.strand) blocks.now at.block }
{
    at.block < blocks.len() && blocks[at.block].may_extend(at.strand, walk)
}

/// Adds the last step of the walk to the strand that stands there.
fn extend_at(blocks: &mut [Block], at: At, place: u32) -> Result<(), AllocError>
    ghost here: { Here }
    requires place { place ≡ here.place }
    requires may { HasAt (IsOpenAt here.run here.place at.strand) blocks.old at.block }
    ensures long { length blocks.new ≡ length blocks.old }
    ensures longer { IfOk result (λ _. IsOneChanged (IsBlockLonger here.run here.place) blocks.old blocks.new) }
{
    blocks[at.block].extend(at.strand, place)?;
    Ok(())
}

impl Track {
    /// The track of an actor that has made no step.
    pub fn new(alloc: Global) -> Track
        ensures { (h : Here) → IsTrack h.run h.place result }
    {
        Track {
            chain: Vec::new(alloc),
            blocks: Vec::new(alloc),
            past: Past::none(),
        }
    }

    /// Adds steps that are ordered before the last step and cover each of the track that is. How many of the chain are so is looked for at the
    /// hint first.
    pub fn gather(&self, walk: &Walk, hint: usize, needs: &mut Vec<u32>) -> Result<Spot, AllocError>
        ghost here: { Here }
        requires at { IsAt walk.now here.run (here.place + 1) }
        requires track { IsTrack here.run here.place self.now }
        ensures kept { IfOk result (λ _. (k : ℕ) → IsIn k needs.old.items → IsIn k needs.new.items) }
        ensures sound { IfOk result (λ _. (k : ℕ) → IsIn k needs.new.items → IsIn k needs.old.items ⊎ IsOrdered here.run k here.place) }
        ensures covers { IfOk result (λ _. CoversTrack here.run here.place self.now needs.new.items) }
        ensures end { IfOk result (λ spot. IsEnd here.run here.place self.now.chain.items spot.end) }
    {
        let end = gather_chain(&self.chain, walk, hint, needs)?;
        let passed = self.past.passed(end);
        let at = gather_blocks(&self.blocks[passed..], walk, end, passed, needs)?;
        Ok(Spot { end, at })
    }

    /// Adds the last step to the chain, all of which is ordered before it.
    fn link(&mut self, walk: &Walk, place: u32) -> Result<(), AllocError>
        ghost here: { Here }
        requires at { IsAt walk.now here.run (here.place + 1) }
        requires place { place ≡ here.place }
        requires track { IsTrack here.run here.place self.old }
        requires end { IsEnd here.run here.place self.old.chain.items (length self.old.chain.items) }
        ensures track { IfOk result (λ _. IsTrack here.run (here.place + 1) self.new) }
        ensures kept { IfOk result (λ _. (i : ℕ) → IsOn self.old i → IsOn self.new i) }
        ensures added { IfOk result (λ _. IsOn self.new place) }
    {
        let index = self.chain.len() as u32;
        close_blocks(self.blocks.as_mut_slice(), walk, index, self.past.blocks);
        self.past = self.past.advanced(&self.blocks);
        self.chain.push(place)?;
        Ok(())
    }

    /// Adds the last step to a strand, that which stands there or a new one, where so many of the chain are ordered before it.
    fn loosen(
        &mut self,
        alloc: Global,
        walk: &Walk,
        place: u32,
        end: usize,
        at: Option<At>,
    ) -> Result<(), AllocError>
        ghost here: { Here }
        requires at { IsAt walk.now here.run (here.place + 1) }
        requires place { place ≡ here.place }
        requires track { IsTrack here.run here.place self.old }
        requires end { IsEnd here.run here.place self.old.chain.items end }
        ensures track { IfOk result (λ _. IsTrack here.run (here.place + 1) self.new) }
        ensures kept { IfOk result (λ _. (i : ℕ) → IsOn self.old i → IsOn self.new i) }
        ensures added { IfOk result (λ _. IsOn self.new place) }
    {
        if let Some(at) = at {
            if may_extend(&self.blocks, at, walk) {
                extend_at(self.blocks.as_mut_slice(), at, place)?;
                return Ok(());
            }
        }
        let strand = Strand::new(alloc, place, end as u32);
        put_strand(alloc, &mut self.blocks, strand)?;
        Ok(())
    }

    /// Adds the last step, for which this was found on the track: to the chain, where it `links` and all of the chain is ordered before it, else
    /// to a strand.
    pub fn add(
        &mut self,
        alloc: Global,
        walk: &Walk,
        place: u32,
        links: bool,
        spot: Spot,
    ) -> Result<(), AllocError>
        ghost here: { Here }
        requires at { IsAt walk.now here.run (here.place + 1) }
        requires place { place ≡ here.place }
        requires track { IsTrack here.run here.place self.old }
        requires end { IsEnd here.run here.place self.old.chain.items spot.end }
        ensures track { IfOk result (λ _. IsTrack here.run (here.place + 1) self.new) }
        ensures kept { IfOk result (λ _. (i : ℕ) → IsOn self.old i → IsOn self.new i) }
        ensures added { IfOk result (λ _. IsOn self.new place) }
    {
        if links && spot.end == self.chain.len() {
            return self.link(walk, place);
        }
        self.loosen(alloc, walk, place, spot.end, spot.at)
    }
}
