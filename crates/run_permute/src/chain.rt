//! Steps of which each is ordered before the next, and how many of them are ordered before the last step of the walk.

ghost use Rattle.std.specs.Prelude.{ℕ, ◌+◌, ◌-◌, ◌<◌, ◌≤◌, ◌⊎◌, ◌↔◌, IfOk, IsTrue, length, slice_index};
ghost use Rattle.reorder_laws.specs.OrderedLaws.{IsOrdered};
ghost use Rattle.run_permute.specs.SettledLists.{IsIn};
ghost use Rattle.run_permute.specs.Walks.{Here, IsAt};
ghost use Rattle.run_permute.specs.Tracks.{IsChain, IsEnd};

use crate::before::is_before;
use run_walk::Walk;
use std::alloc::AllocError;

/// Whether there is a step at the index, and it is ordered before the last step.
fn is_known(chain: &[u32], walk: &Walk, index: usize) -> bool
    ghost here: { Here }
    requires at { IsAt walk.now here.run (here.place + 1) }
    requires chain { IsChain here.run here.place chain.now }
    ensures { IsTrue result ↔ ((index < length chain.now) × IsOrdered here.run (slice_index chain.now index) here.place) }
{
    index < chain.len() && is_before(walk, chain[index])
}

/// Whether the step before the index, if there is one, is ordered before the last step.
fn is_below(chain: &[u32], walk: &Walk, index: usize) -> bool
    ghost here: { Here }
    requires at { IsAt walk.now here.run (here.place + 1) }
    requires chain { IsChain here.run here.place chain.now }
    requires within { index ≤ length chain.now }
    ensures { IsTrue result → 0 < index → IsOrdered here.run (slice_index chain.now (index - 1)) here.place }
{
    if index == 0 {
        return true;
    }
    is_before(walk, chain[index - 1])
}

/// How many of the steps of a chain are ordered before the last step, where it is no fewer and no more than these: found by halves.
fn search_end(chain: &[u32], walk: &Walk, fewest: usize, most: usize) -> usize
    ghost here: { Here }
    requires at { IsAt walk.now here.run (here.place + 1) }
    requires chain { IsChain here.run here.place chain.now }
    requires meet { fewest ≤ most }
    requires within { most ≤ length chain.now }
    requires fewest { 0 < fewest → IsOrdered here.run (slice_index chain.now (fewest - 1)) here.place }
    requires most { most < length chain.now → IsOrdered here.run (slice_index chain.now most) here.place → ⊥ }
    ensures { IsEnd here.run here.place chain.now result }
{
    let mut low = fewest;
    let mut high = most;
    while low < high {
        let middle = low + (high - low) / 2;
        if is_before(walk, chain[middle]) {
            low = middle + 1;
        } else {
            high = middle;
        }
    }
    low
}

/// Whether the hint says that none of the steps of a chain is ordered before the last step, and none is.
fn is_apart(chain: &[u32], walk: &Walk, hint: usize) -> bool
    ghost here: { Here }
    requires at { IsAt walk.now here.run (here.place + 1) }
    requires chain { IsChain here.run here.place chain.now }
    ensures { IsTrue result → IsEnd here.run here.place chain.now 0 }
{
    if hint > 0 {
        return false;
    }
    if is_known(chain, walk, 0) {
        return false;
    }
    true
}

/// How many of the steps of a chain are ordered before the last step. Mostly they are as many as the hint says, or all.
fn end_of(chain: &[u32], walk: &Walk, hint: usize) -> usize
    ghost here: { Here }
    requires at { IsAt walk.now here.run (here.place + 1) }
    requires chain { IsChain here.run here.place chain.now }
    ensures { IsEnd here.run here.place chain.now result }
{
    let near = hint.min(chain.len());
    if is_known(chain, walk, near) {
        if is_below(chain, walk, chain.len()) {
            return search_end(chain, walk, chain.len(), chain.len());
        }
        return search_end(chain, walk, near + 1, chain.len());
    }
    if is_below(chain, walk, near) {
        return search_end(chain, walk, near, near);
    }
    search_end(chain, walk, 0, near)
}

/// Adds the last step of a chain that is ordered before the last step of the walk, and answers how many are.
pub fn gather_chain(
    chain: &[u32],
    walk: &Walk,
    hint: usize,
    needs: &mut Vec<u32>,
) -> Result<usize, AllocError>
    ghost here: { Here }
    requires at { IsAt walk.now here.run (here.place + 1) }
    requires chain { IsChain here.run here.place chain.now }
    ensures kept { IfOk result (λ _. (k : ℕ) → IsIn k needs.old.items → IsIn k needs.new.items) }
    ensures sound { IfOk result (λ _. (k : ℕ) → IsIn k needs.new.items → IsIn k needs.old.items ⊎ IsOrdered here.run k here.place) }
    ensures end { IfOk result (IsEnd here.run here.place chain.now) }
    ensures last { IfOk result (λ end. 0 < end → IsIn (slice_index chain.now (end - 1)) needs.new.items) }
{
    if is_apart(chain, walk, hint) {
        return Ok(0);
    }
    let end = end_of(chain, walk, hint);
    if end > 0 {
        needs.push(chain[end - 1])?;
    }
    Ok(end)
}
