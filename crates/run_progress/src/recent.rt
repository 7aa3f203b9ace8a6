//! The last instructions that a processor executed after the last change.

ghost use Rattle.std.specs.Prelude.{◌≡◌, ◌≤◌, [], ◌∷◌, ◌++◌, length, OnOk};
ghost use Rattle.run_progress.specs.Progress.{last_ones, range_of};

use crate::progress::AddressRange;
use std::alloc::{AllocError, Global};
use std::collections::VecDeque;

/// How many of a processor's last instructions are kept.
const KEPT: usize = 1000;

/// The addresses of the last 1,000 instructions that a processor executed after the last change, or of all if there are fewer, in their order.
#[derive(Drop)]
pub struct Recent {
    addresses: VecDeque<u32>,
    ghost few: { length addresses.items ≤ 1000 },
}

impl Recent {
    /// Those of no instruction.
    pub fn new(alloc: Global) -> Recent
        ensures { result.addresses.items ≡ [] }
    {
        Recent {
            addresses: VecDeque::new(alloc),
        }
    }

    /// Forgets them.
    pub fn forget(&mut self)
        ensures { self.new.addresses.items ≡ [] }
    {
        self.addresses.clear();
    }

    /// Adds the address of an instruction.
    pub fn add(&mut self, at: u32) -> Result<(), AllocError>
        ensures { OnOk result (self.new.addresses.items ≡ last_ones 1000 (self.old.addresses.items ++ at ∷ [])) }
    {
        if self.addresses.len() == KEPT {
            let _ = self.addresses.pop_front();
        }
        self.addresses.push_back(at)?;
        Ok(())
    }

    /// The least and the greatest of the addresses.
    pub fn range(&self) -> Option<AddressRange>
        ensures { result ≡ range_of self.now.addresses.items }
    {
        let first = *self.addresses.front()?;
        let mut least = first;
        let mut greatest = first;
        for i in 0..self.addresses.len() {
            let at = self.addresses[i];
            least = least.min(at);
            greatest = greatest.max(at);
        }
        Some(AddressRange { least, greatest })
    }
}
