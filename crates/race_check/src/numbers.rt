//! The number of each slot's list.

ghost use Rattle.std.specs.Prelude.{◌≡◌, ℕ, ◌-◌, ◌^◌, ◌<◌, length, replicate, slice_index, slice_set, IfOk, OnErr, OnOk};
ghost use Rattle.race_check.specs.Numbers.{ArePages, number_at};

use crate::error::RaceError;
use std::alloc::Global;
use std::marker::Model;

/// The number of a slot that has no list.
const NONE: u32 = u32::MAX;

/// How many numbers a page has.
const PAGE: usize = 64;

/// The number in 32 bits. A larger one would count more lists or slots than memory holds, so the error is out of memory.
fn narrow(number: usize) -> Result<u32, RaceError>
    ensures { IfOk result (λ n. n ≡ number) }
{
    u32::try_from(number).map_err(|_| RaceError::Memory)
}

/// The start of these 64 slots' own page. Allocates the page if they still share the first one.
fn own_page(starts: &mut Vec<u32>, kept: &mut Vec<u32>, page: usize) -> Result<usize, RaceError>
    requires pages { ArePages starts.old.items kept.old.items }
    requires inside { page < length starts.old.items }
    ensures pages { ArePages starts.new.items kept.new.items }
    ensures long { length starts.new.items ≡ length starts.old.items }
    ensures same { (slot : ℕ) → number_at starts.new.items kept.new.items slot ≡ number_at starts.old.items kept.old.items slot }
    ensures start { IfOk result (λ start. start ≡ slice_index starts.new.items page) }
    ensures own { IfOk result (λ start. 0 < start) }
{
    let start = starts[page];
    if start != 0 {
        return Ok(start as usize);
    }
    let start = narrow(kept.len())?;
    kept.resize(start as usize + PAGE, NONE)?;
    starts[page] = start;
    Ok(start as usize)
}

/// A number for each slot, `NONE` until it is set. A run sets few of them, so pages are allocated on demand: a new table clears 4 KiB at most,
/// plus one page.
#[derive(Drop)]
pub struct Numbers {
    count: usize,
    // where in `kept` the page of each 64 slots begins; 0 until one of their numbers is set
    starts: Vec<u32>,
    // pages of 64 numbers. The first one is never written: it is read for all slots without a page of their own
    kept: Vec<u32>,
}

impl Model for Numbers {
    ghost use Rattle.std.specs.Prelude.{List, ℕ, ◌*◌, ◌≤◌, length};

    ghost Value = { List ℕ };

    ghost use Rattle.race_check.specs.Numbers.{ArePages, numbers_in};

    ghost view = { λ n. numbers_in n.count n.starts.items n.kept.items };

    ghost invariant = { λ n. (n.count ≤ 64 * length n.starts.items) × ArePages n.starts.items n.kept.items };
}

impl Numbers {
    /// The numbers of this many slots without a list.
    pub fn new(alloc: Global, count: usize) -> Result<Numbers, RaceError>
        ensures { IfOk result (λ numbers. numbers ≡ replicate count (2 ^ 32 - 1)) }
    {
        Ok(Numbers {
            count,
            starts: vec![in alloc; 0; count / PAGE + 1]?,
            kept: vec![in alloc; NONE; PAGE]?,
        })
    }

    /// How many slots there are.
    #[inline(always)]
    pub fn len(&self) -> usize
        ensures { result ≡ length self.now }
    {
        self.count
    }

    /// The number of a slot.
    #[inline(always)]
    pub fn get(&self, slot: usize) -> usize
        requires { slot < length self.now }
        ensures { result ≡ slice_index self.now slot }
    {
        let start = self.starts[slot / PAGE] as usize;
        self.kept[start + slot % PAGE] as usize
    }

    /// Sets the number of a slot. The only error is out of memory, which leaves the numbers as they were.
    pub fn set(&mut self, slot: usize, number: usize) -> Result<(), RaceError>
        requires { slot < length self.old }
        ensures set { OnOk result (self.new ≡ slice_set self.old slot number) }
        ensures kept { OnErr result (self.new ≡ self.old) }
    {
        let number = narrow(number)?;
        let start = own_page(&mut self.starts, &mut self.kept, slot / PAGE)?;
        self.kept[start + slot % PAGE] = number;
        Ok(())
    }
}
