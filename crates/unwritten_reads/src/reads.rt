//! The unwritten reads of a run as it is made.

ghost use Rattle.std.specs.Prelude.{◌≡◌, ℕ, [], ◌++◌, true, false, length, Some, IfOk, OnOk};
ghost use Rattle.std.specs.Option.{option_to_list};
ghost use Rattle.cell_machine.specs.Effects.{effect_in};
ghost use Rattle.cell_machine.specs.Run.{Ran};
ghost use Rattle.unwritten_reads.specs.Marks.{HasMarked, is_marked};
ghost use Rattle.unwritten_reads.specs.Ranges.{IsInside, in_range, range_of as range_of_span};
ghost use Rattle.unwritten_reads.specs.ByMarks.{IsUnwrittenBy};
ghost use Rattle.unwritten_reads.specs.Reads.{AreAllUnwritten, is_instruction as is_instruction_step, with_step};

use crate::known::Known;
use crate::placed::placed_bytes;
use crate::range::{ByteRange, range_in, range_of, start_of};
use crate::unwritten::Unwritten;
use cell_base::Step;
use cell_machine::{Effect, Machine, Place, Setup, Span};
use std::alloc::{AllocError, Global};

/// Whether a step is an instruction.
fn is_instruction(step: Step) -> bool
    ensures { result ≡ is_instruction_step step }
{
    match step {
        Step::Exec { .. } => true,
        _ => false,
    }
}

/// Whether a step neither reads nor writes bytes. Most instructions don't, so they cost no look at the set.
#[inline(always)]
fn touches_none(effect: &Effect) -> bool
    ensures reads { result ≡ true → effect.now.reads.len ≡ 0 }
    ensures writes { result ≡ true → effect.now.writes.len ≡ 0 }
{
    effect.reads.len == 0 && effect.writes.len == 0
}

/// Whether all bytes of local stores that a step reads or writes are known already. Then the step changes nothing here; most loads and stores are such steps.
#[inline(always)]
fn touches_known(known: &Known, effect: &Effect) -> bool
    ensures reads { result ≡ true → (b : ℕ) → in_range (range_of_span effect.now.reads) b ≡ true → is_marked known.now.marks b ≡ true }
    ensures writes { result ≡ true → (b : ℕ) → in_range (range_of_span effect.now.writes) b ≡ true → is_marked known.now.marks b ≡ true }
{
    known.has_all(range_of(&effect.reads)) && known.has_all(range_of(&effect.writes))
}

/// Adds an unwritten read, if there is one.
fn keep(found: &mut Vec<Unwritten>, unwritten: Option<Unwritten>) -> Result<(), AllocError>
    ensures { OnOk result (found.new.items ≡ found.old.items ++ option_to_list unwritten) }
{
    if let Some(unwritten) = unwritten {
        found.push(unwritten)?;
    }
    Ok(())
}

/// Whether a step is an instruction that loads a known byte of the range.
fn loads_known(known: &Known, step: Step, range: ByteRange) -> bool
    ensures yes { result ≡ true → (is_instruction_step step ≡ true) × HasMarked known.now.marks range }
    ensures no { result ≡ false → is_instruction_step step ≡ true → (b : ℕ) → in_range range b ≡ true → is_marked known.now.marks b ≡ false }
{
    is_instruction(step) && known.has_any(range)
}

/// The unwritten read by a step that reads this span at this place of the run, if it is one.
fn unwritten_by(known: &Known, step: Step, span: &Span, place: u32) -> Option<Unwritten>
    requires { IsInside (length known.now.marks) span.now }
    ensures { IsUnwrittenBy known.now step span.now place result }
{
    let Place::Local(spe) = span.place else {
        return None;
    };
    let range = range_in(spe, span.at, span.len);
    let first = known.first(range, false)?;
    if loads_known(known, step, range) {
        return None;
    }
    let at = first - start_of(spe);
    Some(Unwritten {
        place,
        spe,
        at: at as u32,
    })
}

/// The unwritten reads of a run so far, and the known bytes. Call `add` for each step of the run in its order, and `finish` after the last one.
#[derive(Drop)]
pub struct UnwrittenReads {
    known: Known,
    found: Vec<Unwritten>,
}

impl UnwrittenReads {
    ghost use Rattle.unwritten_reads.specs.Keeping.{Adds, Knows};

    /// The unwritten reads of a run with no step; the known bytes are those that the machine file placed. Running out of memory is the only error.
    pub fn new(alloc: Global, setup: &Setup) -> Result<UnwrittenReads, AllocError>
        ensures { IfOk result (λ reads. (m : Ran) → m.setup ≡ setup.now → m.steps ≡ [] → Knows m reads) }
    {
        let known = placed_bytes(alloc, setup)?;
        Ok(UnwrittenReads {
            known,
            found: Vec::new(alloc),
        })
    }

    /// Adds a step that touches bytes that aren't known.
    #[inline(never)]
    fn add_new(&mut self, step: Step, effect: &Effect, place: u32) -> Result<(), AllocError>
        requires reads { IsInside (length self.old.known.marks) effect.now.reads }
        requires writes { IsInside (length self.old.known.marks) effect.now.writes }
        ensures { OnOk result (Adds step effect.now place self.old self.new) }
    {
        let unwritten = unwritten_by(&self.known, step, &effect.reads, place);
        keep(&mut self.found, unwritten)?;
        self.known.add(range_of(&effect.reads))?;
        self.known.add(range_of(&effect.writes))?;
        Ok(())
    }

    /// Adds a step that touches bytes.
    fn add_touches(&mut self, step: Step, effect: &Effect, place: u32) -> Result<(), AllocError>
        requires reads { IsInside (length self.old.known.marks) effect.now.reads }
        requires writes { IsInside (length self.old.known.marks) effect.now.writes }
        ensures { OnOk result (Adds step effect.now place self.old self.new) }
    {
        if touches_known(&self.known, effect) {
            return Ok(());
        }
        self.add_new(step, effect, place)
    }

    /// Adds the machine's next step, which comes at this place of the run and has this effect. Running out of memory is the only error;
    /// after it, the kept reads and bytes are incomplete, so the value is of no further use.
    #[inline]
    pub fn add(
        &mut self,
        machine: &Machine,
        step: Step,
        effect: &Effect,
        place: u32,
    ) -> Result<(), AllocError>
        requires effect { effect_in machine.now step ≡ Some effect.now }
        requires knows { Knows machine.now self.old }
        requires place { length machine.now.steps ≡ place }
        ensures { OnOk result (Knows (with_step machine.now step) self.new) }
    {
        if touches_none(effect) {
            return Ok(());
        }
        self.add_touches(step, effect, place)
    }

    /// All unwritten reads of the run, in its order.
    pub fn finish(self) -> Vec<Unwritten>
        ensures { (m : Ran) → Knows m self → AreAllUnwritten m result.items }
    {
        self.found
    }
}
