//! The main memory that all processors share.
#![tactic(auto)]

ghost use Rattle.std.specs.Prelude.{◌≡◌, ◌+◌, ◌*◌, ◌%◌, ◌<◌, ◌≤◌, ℕ, List, length, slice_index, slice_range, IfOk};
ghost use Rattle.std.specs.Vec.{vec_capacity};
ghost use Rattle.cell_base.specs.Bytes.{put, zeros};
ghost use Rattle.main_memory.specs.Pages.{ArePages, AreSame};

use std::alloc::{AllocError, Global};
use std::marker::Model;

/// How many bytes a line has.
pub const LINE_BYTES: u32 = 128;

/// How many bytes a page has.
const PAGE: usize = 4096;

/// There was no room for the memory.
#[derive(Clone, Copy, Debug, PartialEq, Eq)]
pub enum MemoryError {
    Memory,
}

impl From<AllocError> for MemoryError {
    fn from(_: AllocError) -> MemoryError {
        MemoryError::Memory
    }
}

/// The bytes of main memory, 128 for each of its 1 to 524,288 lines. A page is cleared on its first write, so a run pays only for
/// the pages that it writes.
#[derive(Drop)]
pub struct Memory {
    lines: u32,
    /// For each page one more than its index in `kept`, or 0 if it was never written, so that its bytes are zero. The address after
    /// the last byte has a page too, which an empty range there looks up.
    numbers: Vec<u32>,
    /// The pages that were written, in the order of their first write. The capacity is that of all pages, so a write never allocates.
    kept: Vec<u8>,
}

impl Model for Memory {
    ghost use Rattle.std.specs.Prelude.{◌*◌, ◌<◌, ◌≤◌, List, ℕ, length};
    ghost use Rattle.std.specs.Vec.{vec_capacity};
    ghost use Rattle.main_memory.specs.Pages.{ArePages, bytes_in};

    ghost Value = { List ℕ };

    ghost view = { λ m. bytes_in (128 * m.lines) m.numbers.items m.kept.items };

    ghost invariant = { λ m. (m.lines ≤ 524288) × (128 * m.lines < 4096 * length m.numbers.items) × (4096 * length m.numbers.items ≤ vec_capacity m.kept) × ArePages m.numbers.items m.kept.items };
}

impl Memory {
    /// A memory of zero bytes with this many lines, from 1 to 524,288.
    pub fn new(alloc: Global, lines: u32) -> Result<Memory, MemoryError>
        requires some { 1 ≤ lines }
        requires few { lines ≤ 524288 }
        ensures { IfOk result (λ m. m ≡ zeros (128 * lines)) }
    {
        let bytes = (LINE_BYTES * lines) as usize;
        let pages = bytes / PAGE + 1;
        let numbers = vec![in alloc; 0u32; pages]?;
        let kept = Vec::with_capacity(alloc, PAGE * pages)?;
        Ok(Memory {
            lines,
            numbers,
            kept,
        })
    }

    /// How many lines of 128 bytes there are.
    pub fn lines(&self) -> u32
        ensures count { LINE_BYTES * result ≡ length self.now }
        ensures few { result ≤ 524288 }
    {
        self.lines
    }

    /// Copies the bytes from an address on. The range has to lie in the memory.
    pub fn copy_out(&self, at: u32, into: &mut [u8])
        requires { at + length into.old ≤ length self.now }
        ensures { into.new ≡ slice_range self.now at (at + length into.old) }
    {
        let start = at as usize;
        if start % PAGE + into.len() <= PAGE {
            self.read(start, into);
        } else {
            self.read_pages(at, into);
        }
    }

    /// Copies bytes to an address on, and leaves the others. The range has to lie in the memory.
    pub fn copy_in(&mut self, at: u32, from: &[u8])
        requires { at + length from.now ≤ length self.old }
        ensures bytes { self.new ≡ put self.old at from.now }
        ensures count { length self.new ≡ length self.old }
    {
        let start = at as usize;
        if start % PAGE + from.len() <= PAGE {
            self.write(start, from);
        } else {
            self.write_pages(at, from);
        }
    }

    /// Copies a range that lies in one page.
    #[inline(always)]
    fn read(&self, at: usize, into: &mut [u8])
        requires within { at + length into.old ≤ length self.now }
        requires one { at % 4096 + length into.old ≤ 4096 }
        ensures { into.new ≡ slice_range self.now at (at + length into.old) }
    {
        let number = self.numbers[at / PAGE] as usize;
        if number == 0 {
            into.fill(0);
            return;
        }
        let start = (number - 1) * PAGE + at % PAGE;
        into.copy_from_slice(&self.kept[start..start + into.len()]);
    }

    /// Copies a range of any length, a page at a time.
    #[inline(never)]
    fn read_pages(&self, at: u32, into: &mut [u8])
        requires within { at + length into.old ≤ length self.now }
        ensures { into.new ≡ slice_range self.now at (at + length into.old) }
    {
        let mut done = 0;
        while done < into.len() {
            let start = at as usize + done;
            let count = (PAGE - start % PAGE).min(into.len() - done);
            self.read(start, &mut into[done..done + count]);
            done += count;
        }
    }

    /// Copies bytes to a range that lies in one page.
    #[inline(always)]
    fn write(&mut self, at: usize, from: &[u8])
        requires within { at + length from.now ≤ length self.old }
        requires one { at % 4096 + length from.now ≤ 4096 }
        ensures bytes { self.new ≡ put self.old at from.now }
        ensures count { length self.new ≡ length self.old }
    {
        let index = kept_index(&mut self.numbers, &mut self.kept, at / PAGE);
        let start = index * PAGE + at % PAGE;
        self.kept[start..start + from.len()].copy_from_slice(from);
    }

    /// Copies bytes to a range of any length, a page at a time.
    #[inline(never)]
    fn write_pages(&mut self, at: u32, from: &[u8])
        requires within { at + length from.now ≤ length self.old }
        ensures bytes { self.new ≡ put self.old at from.now }
        ensures count { length self.new ≡ length self.old }
    {
        let mut done = 0;
        while done < from.len() {
            let start = at as usize + done;
            let count = (PAGE - start % PAGE).min(from.len() - done);
            self.write(start, &from[done..done + count]);
            done += count;
        }
    }
}

/// The index of a page among the kept ones, to which it is added if it was never written.
#[inline(always)]
fn kept_index(numbers: &mut Vec<u32>, kept: &mut Vec<u8>, page: usize) -> usize
    requires pages { ArePages numbers.old.items kept.old.items }
    requires room { 4096 * length numbers.old.items ≤ vec_capacity kept.old }
    requires there { page < length numbers.old.items }
    ensures index { slice_index numbers.new.items page ≡ result + 1 }
    ensures same { AreSame numbers.old.items kept.old.items numbers.new.items kept.new.items }
    ensures pages { ArePages numbers.new.items kept.new.items }
    ensures room { 4096 * length numbers.new.items ≤ vec_capacity kept.new }
    ensures count { length numbers.new.items ≡ length numbers.old.items }
{
    let number = numbers[page];
    if number == 0 {
        return add_page(numbers, kept, page);
    }
    number as usize - 1
}

/// Adds a page that was never written to the kept ones, and returns its index among them.
#[inline(never)]
fn add_page(numbers: &mut Vec<u32>, kept: &mut Vec<u8>, page: usize) -> usize
    requires pages { ArePages numbers.old.items kept.old.items }
    requires room { 4096 * length numbers.old.items ≤ vec_capacity kept.old }
    requires there { page < length numbers.old.items }
    requires unwritten { slice_index numbers.old.items page ≡ 0 }
    ensures index { slice_index numbers.new.items page ≡ result + 1 }
    ensures same { AreSame numbers.old.items kept.old.items numbers.new.items kept.new.items }
    ensures pages { ArePages numbers.new.items kept.new.items }
    ensures room { 4096 * length numbers.new.items ≤ vec_capacity kept.new }
    ensures count { length numbers.new.items ≡ length numbers.old.items }
{
    let index = kept.len() / PAGE;
    numbers[page] = index as u32 + 1;
    // This can't fail: the capacity is that of all pages.
    let _ = kept.resize(kept.len() + PAGE, 0);
    index
}
