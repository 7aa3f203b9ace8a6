//! What is kept of the accesses to one line of bytes.

ghost use Rattle.std.specs.Prelude.{◌≡◌, [], true, false, None, IfOk};
ghost use Rattle.run_walk.specs.Ordered.{IsOrdered};
ghost use Rattle.run_walk.specs.Walks.{IsLast, walked};
ghost use Rattle.race_check.specs.Lines.{IsVisited};

use crate::crowd::Crowd;
use crate::crowds::{is_again, join, latest_clash, trim};
use crate::entry::Entry;
use crate::error::RaceError;
use crate::later::later;
use run_walk::Walk;
use std::alloc::Global;

/// The crowds that wrote to a line, and those that fetched or read it.
#[derive(Drop)]
pub struct Line {
    pub writes: Vec<Crowd>,
    pub reads: Vec<Crowd>,
    /// Where the bytes that are read next are looked for first.
    pub near: usize,
}

impl Line {
    /// A line that no step touched.
    pub fn new(alloc: Global) -> Line
        ensures writes { result.writes.items ≡ [] }
        ensures reads { result.reads.items ≡ [] }
    {
        Line {
            writes: Vec::new(alloc),
            reads: Vec::new(alloc),
            near: 0,
        }
    }

    /// Takes an entry of the last step into the line, and answers the latest step that it clashes with.
    pub fn visit(
        &mut self,
        alloc: Global,
        new: &Entry,
        writes: bool,
        walk: &Walk,
    ) -> Result<Option<u32>, RaceError>
        requires { IsLast walk.now new.now.step }
        ensures { IfOk result (IsVisited (IsOrdered (walked walk.now)) new.now writes self.old self.new) }
    {
        if writes {
            self.write(alloc, new, walk)
        } else {
            self.read(alloc, new, walk)
        }
    }

    /// Takes in an entry that reads once more, where nobody wrote to the line, and the bytes that are looked for first are those of the entry: whether that
    /// is so.
    #[inline(always)]
    pub fn read_again(&mut self, new: &Entry, walk: &Walk) -> bool
        requires { IsLast walk.now new.now.step }
        ensures read { result ≡ true → IsVisited (IsOrdered (walked walk.now)) new.now false self.old self.new None }
        ensures kept { result ≡ false → self.new ≡ self.old }
    {
        if !self.writes.is_empty() {
            return false;
        }
        if !is_again(self.reads.as_slice(), self.near, new, walk) {
            return false;
        }
        self.reads[self.near].entry.step = new.step;
        self.near = self.near.wrapping_add(1);
        true
    }

    /// Takes a writing entry into the line, in the place of all that had its bytes, or beside them where it clashes with one.
    fn write(&mut self, alloc: Global, new: &Entry, walk: &Walk) -> Result<Option<u32>, RaceError>
        requires { IsLast walk.now new.now.step }
        ensures { IfOk result (IsVisited (IsOrdered (walked walk.now)) new.now true self.old self.new) }
    {
        let written = latest_clash(self.writes.as_slice(), new, walk);
        let clash = later(written, latest_clash(self.reads.as_slice(), new, walk));
        if clash.is_some() {
            join(alloc, &mut self.writes, new, 0, walk)?;
            return Ok(clash);
        }
        trim(alloc, &mut self.reads, new)?;
        trim(alloc, &mut self.writes, new)?;
        self.writes.push(Crowd::of(alloc, *new))?;
        Ok(None)
    }

    /// Takes a reading entry into the line.
    fn read(&mut self, alloc: Global, new: &Entry, walk: &Walk) -> Result<Option<u32>, RaceError>
        requires { IsLast walk.now new.now.step }
        ensures { IfOk result (IsVisited (IsOrdered (walked walk.now)) new.now false self.old self.new) }
    {
        let clash = latest_clash(self.writes.as_slice(), new, walk);
        self.near = join(alloc, &mut self.reads, new, self.near, walk)?;
        Ok(clash)
    }
}
