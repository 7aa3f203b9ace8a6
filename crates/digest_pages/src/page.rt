//! A page of digests.

ghost use Rattle.std.specs.Prelude.{◌≡◌, ◌<◌, [], length, slice_index, IfSome, OnErr, OnOk};
ghost use Rattle.digest_pages.specs.Nexts.{TellsNext};
ghost use Rattle.digest_pages.specs.Pages.{IsPut, IsSame};

use std::alloc::{AllocError, Global};
use std::marker::Model;

/// How many digests a page has.
pub const PAGE: usize = 256;

/// A page, empty until its first write. The digests that it doesn't have are 0.
#[derive(Drop)]
pub struct Page {
    digests: Vec<u64>,
}

impl Model for Page {
    ghost use Rattle.std.specs.Prelude.{◌≤◌, List, ℕ, length};

    ghost Value = { List ℕ };

    ghost view = { λ p. p.digests.items };

    ghost invariant = { λ p. length p.digests.items ≤ 256 };
}

impl Page {
    /// A page that was never written.
    pub fn new(alloc: Global) -> Page
        ensures { result ≡ [] }
    {
        Page {
            digests: Vec::new(alloc),
        }
    }

    /// The digest at an index.
    pub fn get(&self, at: usize) -> u64
        ensures { result ≡ slice_index self.now at }
    {
        if at < self.digests.len() {
            self.digests[at]
        } else {
            0
        }
    }

    /// Allocates all digests, if the page is empty.
    fn fill(&mut self) -> Result<(), AllocError>
        ensures full { OnOk result (length self.new ≡ 256) }
        ensures same { OnOk result (IsSame self.old self.new) }
        ensures kept { OnErr result (self.new ≡ self.old) }
    {
        self.digests.resize(PAGE, 0)?;
        Ok(())
    }

    /// Writes the digest at an index.
    pub fn put(&mut self, at: usize, digest: u64) -> Result<(), AllocError>
        requires { at < 256 }
        ensures put { OnOk result (IsPut at digest self.old self.new) }
        ensures kept { OnErr result (self.new ≡ self.old) }
    {
        self.fill()?;
        self.digests[at] = digest;
        Ok(())
    }

    /// The least index, from this one on, whose digest isn't 0.
    pub fn next_written(&self, from: usize) -> Option<usize>
        ensures next { TellsNext self.now from result }
        ensures inside { IfSome result (λ at. at < 256) }
    {
        for at in from..self.digests.len() {
            if self.digests[at] != 0 {
                return Some(at);
            }
        }
        None
    }
}
