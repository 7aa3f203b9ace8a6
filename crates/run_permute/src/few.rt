//! Short lists of steps.

ghost use Rattle.std.specs.Prelude.{◌≡◌, ℕ, ◌⊎◌, ◌↔◌, [], IfOk};
ghost use Rattle.run_permute.specs.SettledLists.{IsIn};
ghost use Rattle.run_permute.specs.Lists.{steps_in};

use std::alloc::{AllocError, Global};

/// Some steps. The first takes no memory beside the list itself: mostly there is no other.
#[derive(Drop)]
pub struct Few {
    first: Option<u32>,
    rest: Vec<u32>,
}

impl Few {
    /// No step.
    pub fn none(alloc: Global) -> Few
        ensures { steps_in result ≡ [] }
    {
        Few {
            first: None,
            rest: Vec::new(alloc),
        }
    }

    /// The steps of a slice.
    pub fn of(alloc: Global, steps: &[u32]) -> Result<Few, AllocError>
        ensures { IfOk result (λ few. steps_in few ≡ steps.now) }
    {
        let Some((first, others)) = steps.split_first() else {
            return Ok(Few::none(alloc));
        };
        let mut rest = Vec::with_capacity(alloc, others.len())?;
        rest.extend_from_slice(others)?;
        Ok(Few {
            first: Some(*first),
            rest,
        })
    }

    /// The first step, where it has a place of its own.
    pub fn first(&self) -> Option<u32>
        ensures { result ≡ self.now.first }
    {
        self.first
    }

    /// The steps behind that.
    pub fn rest(&self) -> &[u32]
        ensures { result.now ≡ self.now.rest.items }
    {
        &self.rest
    }

    /// Adds a step.
    pub fn push(&mut self, step: u32) -> Result<(), AllocError>
        ensures { IfOk result (λ _. (k : ℕ) → IsIn k (steps_in self.new) ↔ (IsIn k (steps_in self.old) ⊎ (k ≡ step))) }
    {
        match self.first {
            None => {
                self.first = Some(step);
                Ok(())
            }
            Some(_) => {
                self.rest.push(step)?;
                Ok(())
            }
        }
    }
}
