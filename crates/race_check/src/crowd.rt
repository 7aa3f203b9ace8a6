//! The steps that touched the same bytes.

ghost use Rattle.std.specs.Prelude.{◌≡◌, ℕ, ◌↔◌, ◌⊎◌, [], OnOk, Contains};
ghost use Rattle.run_walk.specs.Ordered.{IsOrdered};
ghost use Rattle.run_walk.specs.Walks.{IsLast, walked};
ghost use Rattle.race_check.specs.Entries.{HasSameBytes};
ghost use Rattle.race_check.specs.Crowds.{HasStep, IsTaken, StepsTell};

use crate::entry::Entry;
use crate::error::RaceError;
use crate::later::later;
use crate::stack::{Stack, is_safe};
use run_walk::Walk;
use std::alloc::Global;

/// An entry, and the other steps that touched the same bytes.
#[derive(Drop)]
pub struct Crowd {
    pub entry: Entry,
    pub others: Stack,
}

/// The step, if it is neither the last one that was made nor happens before it.
fn if_unsafe(step: u32, last: u32, walk: &Walk) -> Option<u32>
    requires { IsLast walk.now last }
    ensures { StepsTell (IsOrdered (walked walk.now)) last (λ s. s ≡ step) result }
{
    if is_safe(step, last, walk) {
        None
    } else {
        Some(step)
    }
}

impl Crowd {
    /// The crowd of one entry.
    pub fn of(alloc: Global, entry: Entry) -> Crowd
        ensures entry { result.entry ≡ entry }
        ensures others { result.others.list.items ≡ [] }
    {
        Crowd {
            entry,
            others: Stack::new(alloc),
        }
    }

    /// The latest of its steps that is neither the last one that was made nor happens before it.
    pub fn latest_unsafe(&self, last: u32, walk: &Walk) -> Option<u32>
        requires { IsLast walk.now last }
        ensures { StepsTell (IsOrdered (walked walk.now)) last (HasStep self.now) result }
    {
        let own = if_unsafe(self.entry.step, last, walk);
        later(own, self.others.latest_unsafe(last, walk))
    }

    /// Takes the last step that was made into the crowd, in the place of steps that happen before it where some are found.
    pub fn take(&mut self, last: u32, walk: &Walk) -> Result<(), RaceError>
        requires { IsLast walk.now last }
        ensures taken { OnOk result (IsTaken (IsOrdered (walked walk.now)) last self.old self.new) }
        ensures same { OnOk result (HasSameBytes self.new.entry self.old.entry) }
    {
        self.others.drop_safe(last, walk);
        if is_safe(self.entry.step, last, walk) {
            self.entry.step = last;
            return Ok(());
        }
        self.others.add(last)?;
        Ok(())
    }

    /// Adds these steps to the crowd.
    pub fn add(&mut self, step: u32, others: &Stack) -> Result<(), RaceError>
        ensures steps { OnOk result ((s : ℕ) → HasStep self.new s ↔ (HasStep self.old s ⊎ ((s ≡ step) ⊎ Contains others.now.list.items s))) }
        ensures same { OnOk result (HasSameBytes self.new.entry self.old.entry) }
    {
        self.others.add(step)?;
        self.others.add_all(others.list.as_slice())?;
        Ok(())
    }
}
