//! A sparse list of digests, in pages that are allocated on their first write.
#![tactic(auto)]

ghost use Rattle.std.specs.Prelude.{◌≡◌, ◌≤◌, ◌<◌, ◌+◌, ℕ, [], length, max, replicate, slice_index, slice_index_or, slice_set, IfSome, OnErr, OnOk};
ghost use Rattle.digest_pages.specs.Nexts.{TellsNext};

mod page;

use page::{PAGE, Page};
use std::alloc::{AllocError, Global};
use std::marker::Model;

/// Adds empty pages, up to the one with this index.
fn grow(pages: &mut Vec<Page>, alloc: Global, index: usize) -> Result<(), AllocError>
    ensures there { OnOk result (index < length pages.new.items) }
    ensures few { length pages.new.items ≤ max (length pages.old.items) (index + 1) }
    ensures same { (k : ℕ) → slice_index_or pages.new.items k [] ≡ slice_index_or pages.old.items k [] }
{
    while pages.len() <= index {
        pages.push(Page::new(alloc))?;
    }
    Ok(())
}

/// A sparse list of digests. A new one allocates nothing. A write allocates its page of 2 KiB, and 24 bytes for each page up to it.
#[derive(Drop)]
pub struct DigestPages {
    alloc: Global,
    count: usize,
    // the pages up to the last one written; the digests of the pages after them are 0
    pages: Vec<Page>,
}

impl Model for DigestPages {
    ghost use Rattle.std.specs.Prelude.{List, ℕ};

    ghost Value = { List ℕ };

    ghost use Rattle.digest_pages.specs.Pages.{ArePages, digests_in};

    ghost view = { λ p. digests_in p.count p.pages.items };

    ghost invariant = { λ p. ArePages p.count p.pages.items };
}

impl DigestPages {
    /// A list of this many zeros.
    pub fn new(alloc: Global, count: usize) -> DigestPages
        ensures { result ≡ replicate count 0 }
    {
        DigestPages {
            alloc,
            count,
            pages: Vec::new(alloc),
        }
    }

    /// How many digests the list has.
    pub fn len(&self) -> usize
        ensures { result ≡ length self.now }
    {
        self.count
    }

    /// The digest at an index, 0 after the last one.
    pub fn get(&self, index: usize) -> u64
        ensures { result ≡ slice_index self.now index }
    {
        let page = index / PAGE;
        if page < self.pages.len() {
            self.pages[page].get(index % PAGE)
        } else {
            0
        }
    }

    /// Writes the digest at an index. The only error is out of memory, which leaves the list as it was.
    pub fn put(&mut self, index: usize, digest: u64) -> Result<(), AllocError>
        requires { index < length self.old }
        ensures put { OnOk result (self.new ≡ slice_set self.old index digest) }
        ensures kept { OnErr result (self.new ≡ self.old) }
    {
        let page = index / PAGE;
        grow(&mut self.pages, self.alloc, page)?;
        self.pages[page].put(index % PAGE, digest)?;
        Ok(())
    }

    /// The least index, from this one on, whose digest isn't 0.
    pub fn next_written(&self, from: usize) -> Option<usize>
        ensures next { TellsNext self.now from result }
        ensures inside { IfSome result (λ index. index < length self.now) }
    {
        for page in from / PAGE..self.pages.len() {
            let begin = page * PAGE;
            if let Some(at) = self.pages[page].next_written(from.saturating_sub(begin)) {
                return Some(begin + at);
            }
        }
        None
    }
}
