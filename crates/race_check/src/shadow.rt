//! What is kept of the accesses of a run, by lines of 128 bytes.

ghost use Rattle.std.specs.Prelude.{◌≡◌, ℕ, ◌+◌, ◌/◌, ◌%◌, ◌^◌, ◌<◌, true, false, None, [], length, IfOk, OnOk};
ghost use Rattle.cell_machine.specs.declared.effect.Place.{Place};
ghost use Rattle.cell_machine.specs.Sound.{covers};
ghost use Rattle.race_check.specs.Entries.{Holds};
ghost use Rattle.race_check.specs.Slots.{slot_of};

use crate::access::Access;
use crate::entry::Entry;
use crate::error::RaceError;
use crate::later::later;
use crate::line::Line;
use crate::numbers::Numbers;
use cell_machine::{Place, Span};
use run_walk::Walk;
use std::alloc::Global;

/// The most slots that a shadow has, however large main memory is: lines share one then.
const SLOTS: u64 = 65536;

/// The remainder, which mostly is the number itself.
#[inline(always)]
fn within(number: u64, lists: u64) -> u64
    requires { 0 < lists }
    ensures { result ≡ number % lists }
{
    if number < lists {
        number
    } else {
        number % lists
    }
}

/// Which of `count` slots says the list of a line of a place: local stores have the first ones, and main memory the last ones, counted
/// from the end. It is no harm where two lines share one.
fn slot(count: usize, place: Place, line: u64) -> usize
    requires count { 0 < count }
    requires line { line < 2 ^ 40 }
    ensures within { result < count }
    ensures is { result ≡ slot_of count place line }
{
    let lists = count as u64;
    let number = match place {
        Place::Memory => lists - 1 - within(line, lists),
        Place::Local(q) => within(2048 * u64::from(q) + line, lists),
    };
    number as usize
}

/// The bytes of the span in the line.
fn clip(span: &Span, line: u64, step: u32) -> Entry
    requires { line < 2 ^ 40 }
    ensures step { result.step ≡ step }
    ensures holds { (p : Place) (x : ℕ) → covers span.now p x ≡ true → x / 128 ≡ line → Holds result p x }
    ensures only { (p : Place) (x : ℕ) → Holds result p x → covers span.now p x ≡ true }
{
    let start = u64::from(span.at);
    let end = start + u64::from(span.len);
    Entry {
        place: span.place,
        step,
        from: start.max(128 * line),
        to: end.min(128 * line + 128),
    }
}

/// The bytes of the span.
#[inline(always)]
fn whole(span: &Span, step: u32) -> Entry
    ensures step { result.step ≡ step }
    ensures end { result.to ≡ span.now.at + span.now.len }
    ensures holds { (p : Place) (x : ℕ) → covers span.now p x ≡ true → Holds result p x }
    ensures only { (p : Place) (x : ℕ) → Holds result p x → covers span.now p x ≡ true }
{
    let start = u64::from(span.at);
    Entry {
        place: span.place,
        step,
        from: start,
        to: start + u64::from(span.len),
    }
}

/// Whether the step only fetches.
fn is_fetch(access: &Access) -> bool
    ensures reads { result ≡ true → access.now.reads.len ≡ 0 }
    ensures writes { result ≡ true → access.now.writes.len ≡ 0 }
{
    access.reads.len == 0 && access.writes.len == 0
}

/// What is kept of the accesses of a run so far. A list is made when a step first touches a line of its slot, since a run touches few of all.
#[derive(Drop)]
pub struct Shadow {
    alloc: Global,
    // the number of each slot's list
    numbers: Numbers,
    lists: Vec<Line>,
    ghost some: { 0 < length numbers },
}

impl Shadow {
    ghost use Rattle.run_walk.specs.Ordered.{IsOrdered};
    ghost use Rattle.run_walk.specs.Walks.{IsLast, walked};
    ghost use Rattle.race_check.specs.Shows.{IsLengthened, TakesEntry, TakesSpan, TakesStep, list_of};

    /// The shadow of no step, of so many processors, with main memory of `memory` lines: a slot for each line, and one more, but at most
    /// `SLOTS`.
    pub fn new(alloc: Global, spes: u8, memory: u32) -> Result<Shadow, RaceError>
        ensures { IfOk result (λ shadow. shadow.lists.items ≡ []) }
    {
        let count = (2048 * u64::from(spes) + u64::from(memory) + 1).min(SLOTS);
        let numbers = Numbers::new(alloc, count as usize)?;
        Ok(Shadow {
            alloc,
            numbers,
            lists: Vec::new(alloc),
        })
    }

    /// The number of the list that has the entries of a line of a place. It is made where there is none.
    fn list(&mut self, place: Place, line: u64) -> Result<usize, RaceError>
        requires { line < 2 ^ 40 }
        ensures number { IfOk result (λ number. number ≡ list_of self.new place line) }
        ensures inside { IfOk result (λ number. number < length self.new.lists.items) }
        ensures lengthened { OnOk result (IsLengthened self.old self.new) }
    {
        let slot = slot(self.numbers.len(), place, line);
        let number = self.numbers.get(slot);
        if number < self.lists.len() {
            return Ok(number);
        }
        let number = self.lists.len();
        self.lists.push(Line::new(self.alloc))?;
        self.numbers.set(slot, number)?;
        Ok(number)
    }

    /// Takes the entry, whose bytes are in the line, into its list, and answers the latest step that races with it.
    fn visit_line(
        &mut self,
        entry: &Entry,
        writes: bool,
        line: u64,
        walk: &Walk,
    ) -> Result<Option<u32>, RaceError>
        requires line { line < 2 ^ 40 }
        requires last { IsLast walk.now entry.now.step }
        ensures { IfOk result (TakesEntry (IsOrdered (walked walk.now)) self.old self.new entry.now writes line) }
    {
        let number = self.list(entry.place, line)?;
        let alloc = self.alloc;
        let latest = self.lists[number].visit(alloc, entry, writes, walk)?;
        Ok(latest)
    }

    /// Takes the bytes of the span, which the step at `step` reads or writes, into the lists of its lines, and answers
    /// the latest step that races with them.
    #[inline(never)]
    fn visit_lines(
        &mut self,
        span: &Span,
        writes: bool,
        step: u32,
        walk: &Walk,
    ) -> Result<Option<u32>, RaceError>
        requires { IsLast walk.now step }
        ensures { IfOk result (TakesSpan (IsOrdered (walked walk.now)) self.old self.new span.now step writes) }
    {
        let first = u64::from(span.at) / 128;
        let end = (u64::from(span.at) + u64::from(span.len) + 127) / 128;
        let mut latest = None;
        for line in first..end {
            let entry = clip(span, line, step);
            latest = later(latest, self.visit_line(&entry, writes, line, walk)?);
        }
        Ok(latest)
    }

    /// The same. Many spans are empty, and most others are within one line.
    fn visit_span(
        &mut self,
        span: &Span,
        writes: bool,
        step: u32,
        walk: &Walk,
    ) -> Result<Option<u32>, RaceError>
        requires { IsLast walk.now step }
        ensures { IfOk result (TakesSpan (IsOrdered (walked walk.now)) self.old self.new span.now step writes) }
    {
        if span.len == 0 {
            return Ok(None);
        }
        let line = u64::from(span.at) / 128;
        let entry = whole(span, step);
        if 128 * line + 128 < entry.to {
            return self.visit_lines(span, writes, step, walk);
        }
        let latest = self.visit_line(&entry, writes, line, walk)?;
        Ok(latest)
    }

    /// Takes in a span that is read once more, where nobody wrote to its line, and it stands where it is looked for first: whether that is so.
    #[inline(always)]
    fn read_again(&mut self, span: &Span, step: u32, walk: &Walk) -> bool
        requires { IsLast walk.now step }
        ensures taken { result ≡ true → TakesSpan (IsOrdered (walked walk.now)) self.old self.new span.now step false None }
        ensures kept { result ≡ false → self.new ≡ self.old }
    {
        let line = u64::from(span.at) / 128;
        let entry = whole(span, step);
        if 128 * line + 128 < entry.to {
            return false;
        }
        let slot = slot(self.numbers.len(), entry.place, line);
        let number = self.numbers.get(slot);
        if self.lists.len() <= number {
            return false;
        }
        self.lists[number].read_again(&entry, walk)
    }

    /// Takes in what a step fetches. Mostly it was fetched before.
    fn visit_fetch(&mut self, span: &Span, step: u32, walk: &Walk) -> Result<Option<u32>, RaceError>
        requires { IsLast walk.now step }
        ensures { IfOk result (TakesSpan (IsOrdered (walked walk.now)) self.old self.new span.now step false) }
    {
        if self.read_again(span, step, walk) {
            return Ok(None);
        }
        self.visit_span(span, false, step, walk)
    }

    /// Takes what the step at `step` fetches, reads and writes into the shadow, and answers the latest step that races with it.
    pub fn visit(
        &mut self,
        access: &Access,
        step: u32,
        walk: &Walk,
    ) -> Result<Option<u32>, RaceError>
        requires { IsLast walk.now step }
        ensures { IfOk result (TakesStep (IsOrdered (walked walk.now)) self.old self.new access.now step) }
    {
        let fetched = self.visit_fetch(&access.fetch, step, walk)?;
        if is_fetch(access) {
            return Ok(fetched);
        }
        let read = self.visit_span(&access.reads, false, step, walk)?;
        let written = self.visit_span(&access.writes, true, step, walk)?;
        Ok(later(later(fetched, read), written))
    }
}
