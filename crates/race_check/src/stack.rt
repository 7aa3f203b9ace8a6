//! Steps in ascending order.

ghost use Rattle.std.specs.Prelude.{◌≡◌, ℕ, ◌-◌, ◌≤◌, ◌<◌, ◌↔◌, length, slice_index, IfSome, IsTrue};
ghost use Rattle.std.specs.List.Sorted.{IsNonDecreasing};
ghost use Rattle.run_walk.specs.Ordered.{IsOrdered};
ghost use Rattle.run_walk.specs.Walks.{IsLast, walked};
ghost use Rattle.race_check.specs.Safe.{IsSafe, IsUnsafe, IsThinned};

use crate::error::RaceError;
use run_walk::Walk;
use std::alloc::Global;

/// Whether the step is the last one that was made, or happens before it.
pub fn is_safe(step: u32, last: u32, walk: &Walk) -> bool
    requires { IsLast walk.now last }
    ensures safe { IsTrue result → IsSafe (IsOrdered (walked walk.now)) step last }
    ensures only { step ≤ last → IsSafe (IsOrdered (walked walk.now)) step last → IsTrue result }
{
    step == last || step < last && walk.before(step)
}

/// The end of the steps up to the latest one that is not safe: all steps from there on are.
fn unsafe_end(steps: &[u32], last: u32, walk: &Walk) -> usize
    requires { IsLast walk.now last }
    ensures inside { result ≤ length steps.now }
    ensures safe { (k : ℕ) → result ≤ k → k < length steps.now → IsSafe (IsOrdered (walked walk.now)) (slice_index steps.now k) last }
    ensures is_unsafe { 0 < result → IsUnsafe (IsOrdered (walked walk.now)) (slice_index steps.now (result - 1)) last }
{
    let mut end = steps.len();
    while 0 < end {
        if !is_safe(steps[end - 1], last, walk) {
            return end;
        }
        end -= 1;
    }
    0
}

/// The place of a safe step, if it is found at one of two looks: at the earliest step, and at one more, whose place changes from step to step. So a
/// look costs the same in a long list, and the safe steps stay few beside the others.
fn some_safe(steps: &[u32], last: u32, walk: &Walk) -> Option<usize>
    requires { IsLast walk.now last }
    ensures inside { IfSome result (λ k. k < length steps.now) }
    ensures safe { IfSome result (λ k. IsSafe (IsOrdered (walked walk.now)) (slice_index steps.now k) last) }
{
    if steps.is_empty() {
        return None;
    }
    if is_safe(steps[0], last, walk) {
        return Some(0);
    }
    let other = last as usize % steps.len();
    if is_safe(steps[other], last, walk) {
        Some(other)
    } else {
        None
    }
}

fn is_up_to(step: u32, other: u32) -> bool
    ensures { IsTrue result ↔ (step ≤ other) }
{
    step <= other
}

/// Where a step goes among ascending ones: mostly at the end.
fn place_of(steps: &[u32], step: u32) -> usize
    ensures inside { result ≤ length steps.now }
    ensures before { IsNonDecreasing steps.now → (k : ℕ) → k < result → slice_index steps.now k ≤ step }
    ensures after { IsNonDecreasing steps.now → (k : ℕ) → result ≤ k → k < length steps.now → step ≤ slice_index steps.now k }
{
    let mut end = steps.len();
    while 0 < end {
        if is_up_to(steps[end - 1], step) {
            return end;
        }
        end -= 1;
    }
    0
}

/// Drops the steps from the end on that are safe.
fn drop_end(steps: &mut Vec<u32>, last: u32, walk: &Walk)
    requires { IsLast walk.now last }
    ensures thinned { IsThinned (IsOrdered (walked walk.now)) last steps.old.items steps.new.items }
    ensures ascending { IsNonDecreasing steps.old.items → IsNonDecreasing steps.new.items }
{
    let end = unsafe_end(steps.as_slice(), last, walk);
    steps.truncate(end);
}

/// Drops a safe step, if one is found.
fn drop_one(steps: &mut Vec<u32>, last: u32, walk: &Walk)
    requires { IsLast walk.now last }
    ensures thinned { IsThinned (IsOrdered (walked walk.now)) last steps.old.items steps.new.items }
    ensures ascending { IsNonDecreasing steps.old.items → IsNonDecreasing steps.new.items }
{
    if let Some(k) = some_safe(steps.as_slice(), last, walk) {
        steps.remove(k);
    }
}

/// Steps, the earliest first.
#[derive(Drop)]
pub struct Stack {
    pub list: Vec<u32>,
    ghost ascending: { IsNonDecreasing list.items },
}

impl Stack {
    ghost use Rattle.std.specs.Prelude.{◌⊎◌, [], Contains, IfOk, OnOk};
    ghost use Rattle.race_check.specs.Safe.{StepsTell};

    /// No steps.
    pub fn new(alloc: Global) -> Stack
        ensures { result.list.items ≡ [] }
    {
        Stack {
            list: Vec::new(alloc),
        }
    }

    /// The same steps once more.
    pub fn copy(&self, alloc: Global) -> Result<Stack, RaceError>
        ensures { IfOk result (λ copy. copy.list.items ≡ self.now.list.items) }
    {
        let list = self.list.as_slice().to_vec(alloc)?;
        Ok(Stack { list })
    }

    /// Whether the step is later than none of them.
    fn are_from(&self, step: u32) -> bool {
        match self.list.as_slice() {
            [first, ..] => step <= *first,
            [] => true,
        }
    }

    /// Whether none of them is later than the step, or than one of the others: then these go to their end.
    pub fn are_up_to(&self, step: u32, others: &Stack) -> bool {
        match self.list.as_slice() {
            [.., end] => *end <= step && others.are_from(*end),
            [] => true,
        }
    }

    /// The latest of them that is neither the last step that was made nor happens before it. The search begins at the end and stops at the
    /// first such step, so a race that repeats costs one look.
    pub fn latest_unsafe(&self, last: u32, walk: &Walk) -> Option<u32>
        requires { IsLast walk.now last }
        ensures { StepsTell (IsOrdered (walked walk.now)) last (Contains self.now.list.items) result }
    {
        let end = unsafe_end(self.list.as_slice(), last, walk);
        if 0 < end {
            Some(self.list[end - 1])
        } else {
            None
        }
    }

    /// Drops those from the end on that happen before the last step that was made, and one more if one is found.
    pub fn drop_safe(&mut self, last: u32, walk: &Walk)
        requires { IsLast walk.now last }
        ensures { IsThinned (IsOrdered (walked walk.now)) last self.old.list.items self.new.list.items }
    {
        drop_end(&mut self.list, last, walk);
        drop_one(&mut self.list, last, walk);
    }

    /// Adds a step.
    pub fn add(&mut self, step: u32) -> Result<(), RaceError>
        ensures { OnOk result ((s : ℕ) → Contains self.new.list.items s ↔ (Contains self.old.list.items s ⊎ (s ≡ step))) }
    {
        let at = place_of(self.list.as_slice(), step);
        self.list.insert(at, step)?;
        Ok(())
    }

    /// Adds steps.
    pub fn add_all(&mut self, others: &[u32]) -> Result<(), RaceError>
        ensures { OnOk result ((s : ℕ) → Contains self.new.list.items s ↔ (Contains self.old.list.items s ⊎ Contains others.now s)) }
    {
        for k in 0..others.len() {
            self.add(others[k])?;
        }
        Ok(())
    }
}
