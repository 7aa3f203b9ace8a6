//! An order of steps as it is built.

ghost use Rattle.std.specs.Prelude.{◌≡◌, ℕ, ◌<◌, ◌≤◌, ◌⊎◌, ◌↔◌, [], IfOk, MatchOption, length};
ghost use Rattle.run_permute.specs.SettledLists.{IsIn};
ghost use Rattle.run_permute.specs.Lists.{IsRising, steps_in};
ghost use Rattle.run_permute.specs.Choices.{IsTaken, IsSound, IsSeen, IsStage, IsOneMore, AreInside};

use crate::few::Few;
use crate::waiting::{add_waiter, no_waiters, take_waiters};
use std::alloc::{AllocError, Global};

/// The steps that were taken, in their order; of each step whether it is one of them, and which wait for it; and the free steps, by
/// their places. A step that isn't free waits for one that it needs, so that not all who need a step are looked at when it is taken.
#[derive(Drop)]
pub struct Order {
    steps: Vec<u32>,
    taken: Vec<bool>,
    waiting: Vec<Few>,
    free: Vec<u32>,
}

/// The last of the steps that isn't taken, if there is one.
fn last_left(steps: &[u32], taken: &[bool]) -> Option<u32>
    requires { (i : ℕ) → IsIn i steps.now → i < length taken.now }
    ensures { MatchOption result ((i : ℕ) → IsIn i steps.now → IsTaken taken.now i) (λ i. IsIn i steps.now × (IsTaken taken.now i → ⊥)) }
{
    let mut left = steps.len();
    while left > 0 {
        left -= 1;
        let step = steps[left];
        if !taken[step as usize] {
            return Some(step);
        }
    }
    None
}

/// One of the needs that isn't taken, if there is one.
fn need_left(needs: &Few, taken: &[bool]) -> Option<u32>
    requires { (i : ℕ) → IsIn i (steps_in needs.now) → i < length taken.now }
    ensures { MatchOption result ((i : ℕ) → IsIn i (steps_in needs.now) → IsTaken taken.now i) (λ i. IsIn i (steps_in needs.now) × (IsTaken taken.now i → ⊥)) }
{
    if let Some(need) = last_left(needs.rest(), taken) {
        return Some(need);
    }
    let Some(need) = needs.first() else {
        return None;
    };
    if taken[need as usize] {
        return None;
    }
    Some(need)
}

/// Puts a place among those that rise.
fn put(places: &mut Vec<u32>, place: u32) -> Result<(), AllocError>
    requires { IsRising places.old.items }
    ensures rising { IfOk result (λ _. IsRising places.new.items) }
    ensures put { IfOk result (λ _. (k : ℕ) → IsIn k places.new.items ↔ (IsIn k places.old.items ⊎ (k ≡ place))) }
{
    match places.binary_search(&place) {
        Ok(_) => Ok(()),
        Err(at) => {
            places.insert(at, place)?;
            Ok(())
        }
    }
}

impl Order {
    /// Puts the step among the free ones where it is ready, and else with those that wait for a step that it needs.
    fn look_at(&mut self, needs: &[Few], step: u32) -> Result<(), AllocError>
        requires inside { AreInside needs.now }
        requires within { step < length needs.now }
        requires sound { IsSound needs.now self.old }
        ensures steps { self.new.steps ≡ self.old.steps }
        ensures sound { IfOk result (λ _. IsSound needs.now self.new) }
        ensures seen { IfOk result (λ _. (k : ℕ) → IsSeen needs.now self.old k ⊎ (k ≡ step) → IsSeen needs.now self.new k) }
    {
        if self.taken[step as usize] {
            return Ok(());
        }
        match need_left(&needs[step as usize], &self.taken) {
            Some(need) => {
                add_waiter(self.waiting.as_mut_slice(), need, step)?;
                Ok(())
            }
            None => {
                put(&mut self.free, step)?;
                Ok(())
            }
        }
    }

    /// Does so with each of the steps.
    fn look_at_all(&mut self, needs: &[Few], steps: &[u32]) -> Result<(), AllocError>
        requires inside { AreInside needs.now }
        requires within { (k : ℕ) → IsIn k steps.now → k < length needs.now }
        requires sound { IsSound needs.now self.old }
        ensures steps { self.new.steps ≡ self.old.steps }
        ensures sound { IfOk result (λ _. IsSound needs.now self.new) }
        ensures seen { IfOk result (λ _. (k : ℕ) → IsSeen needs.now self.old k ⊎ IsIn k steps.now → IsSeen needs.now self.new k) }
    {
        for step in steps {
            self.look_at(needs, *step)?;
        }
        Ok(())
    }

    /// Does so with each of those in the list.
    fn look_at_few(&mut self, needs: &[Few], few: &Few) -> Result<(), AllocError>
        requires inside { AreInside needs.now }
        requires within { (k : ℕ) → IsIn k (steps_in few.now) → k < length needs.now }
        requires sound { IsSound needs.now self.old }
        ensures steps { self.new.steps ≡ self.old.steps }
        ensures sound { IfOk result (λ _. IsSound needs.now self.new) }
        ensures seen { IfOk result (λ _. (k : ℕ) → IsSeen needs.now self.old k ⊎ IsIn k (steps_in few.now) → IsSeen needs.now self.new k) }
    {
        if let Some(step) = few.first() {
            self.look_at(needs, step)?;
        }
        self.look_at_all(needs, few.rest())?;
        Ok(())
    }

    /// Before any step is taken.
    pub fn new(alloc: Global, needs: &[Few]) -> Result<Order, AllocError>
        requires inside { AreInside needs.now }
        requires few { length needs.now ≤ 1000000 }
        ensures none { IfOk result (λ order. order.steps.items ≡ []) }
        ensures stage { IfOk result (IsStage needs.now) }
    {
        let mut order = Order {
            steps: Vec::with_capacity(alloc, needs.len())?,
            taken: vec![in alloc; false; needs.len()]?,
            waiting: no_waiters(alloc, needs.len())?,
            free: Vec::new(alloc),
        };
        for step in 0..needs.len() {
            order.look_at(needs, step as u32)?;
        }
        Ok(order)
    }

    /// How many are free.
    pub fn count(&self) -> usize
        ensures { result ≡ length self.now.free.items }
    {
        self.free.len()
    }

    /// Takes the free step at the position.
    pub fn take(&mut self, alloc: Global, needs: &[Few], at: usize) -> Result<(), AllocError>
        requires stage { IsStage needs.now self.old }
        requires inside { AreInside needs.now }
        requires within { at < length self.old.free.items }
        ensures stage { IfOk result (λ _. IsStage needs.now self.new) }
        ensures taken { IfOk result (λ _. IsOneMore self.old.free.items at self.old.steps.items self.new.steps.items) }
    {
        let step = self.free.remove(at);
        self.taken[step as usize] = true;
        self.steps.push(step)?;
        let waiters = take_waiters(alloc, self.waiting.as_mut_slice(), step);
        self.look_at_few(needs, &waiters)?;
        Ok(())
    }

    /// The steps in their order.
    pub fn into_steps(self) -> Vec<u32>
        ensures { result ≡ self.steps }
    {
        self.steps
    }
}
