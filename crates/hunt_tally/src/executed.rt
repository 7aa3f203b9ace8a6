//! The instructions that runs executed.

ghost use Rattle.std.specs.Prelude.{◌≡◌, ℕ, ◌==◌, ◌||◌, ◌++◌, [], OnOk};
ghost use Rattle.hunt_tally.specs.Executed.{is_among, is_marked, set_of};

use std::alloc::{AllocError, Global};
use std::marker::Model;

/// How many numbers of instructions there are: 4 times the address and the processor, of sixteen local stores.
const MOST: usize = 1 << 20;

/// The instructions that at least one of some runs executed, each by its number. To a contract it is the ascending list of these numbers.
#[derive(Drop)]
pub struct Executed {
    /// For each number whether it is one of them; those behind the last aren't.
    marks: Vec<bool>,
}

impl Model for Executed {
    ghost use Rattle.std.specs.Prelude.{ℕ, List};
    ghost use Rattle.hunt_tally.specs.Executed.{marked};

    ghost Value = { List ℕ };

    ghost view = { λ e. marked e.marks.items };
}

/// Whether a number is marked.
fn is_marked(marks: &[bool], number: usize) -> bool
    ensures { result ≡ is_marked marks.now number }
{
    match marks.get(number) {
        Some(mark) => *mark,
        None => false,
    }
}

/// Marks a number.
fn mark(marks: &mut Vec<bool>, number: usize) -> Result<(), AllocError>
    ensures { OnOk result ((n : ℕ) → is_marked marks.new.items n ≡ (is_marked marks.old.items n || n == number)) }
{
    while marks.len() <= number {
        marks.push(false)?;
    }
    marks[number] = true;
    Ok(())
}

/// Marks numbers.
fn mark_all(marks: &mut Vec<bool>, numbers: &[usize]) -> Result<(), AllocError>
    ensures { OnOk result ((n : ℕ) → is_marked marks.new.items n ≡ (is_marked marks.old.items n || is_among n numbers.now)) }
{
    for number in numbers {
        mark(marks, *number)?;
    }
    Ok(())
}

/// Marks the numbers that others mark.
fn mark_marked(marks: &mut Vec<bool>, others: &[bool]) -> Result<(), AllocError>
    ensures { OnOk result ((n : ℕ) → is_marked marks.new.items n ≡ (is_marked marks.old.items n || is_marked others.now n)) }
{
    for number in 0..others.len() {
        if others[number] {
            mark(marks, number)?;
        }
    }
    Ok(())
}

impl Executed {
    /// None.
    pub fn new(alloc: Global) -> Executed
        ensures { result ≡ set_of [] }
    {
        Executed {
            marks: Vec::new(alloc),
        }
    }

    /// Whether an instruction is one of them.
    pub fn has(&self, number: usize) -> bool
        ensures { result ≡ is_among number self.now }
    {
        number < MOST && is_marked(self.marks.as_slice(), number)
    }

    /// Takes in the instructions that a run executed.
    pub fn take(&mut self, numbers: &[usize]) -> Result<(), AllocError>
        ensures { OnOk result (self.new ≡ set_of (self.old ++ numbers.now)) }
    {
        mark_all(&mut self.marks, numbers)
    }

    /// Takes in those of other runs.
    pub fn join(&mut self, other: Executed) -> Result<(), AllocError>
        ensures { OnOk result (self.new ≡ set_of (self.old ++ other)) }
    {
        mark_marked(&mut self.marks, other.marks.as_slice())
    }
}
