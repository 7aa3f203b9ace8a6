// A plan: what the lines of a machine file say.
ghost use Rattle.std.specs.Prelude.{◌≡◌, ◌≤◌, ◌<◌, ◌++◌, ◌∷◌, [], ℕ, List, length, map, None, Some, Ok, if◌then◌else◌, IfOk, IsErrOf, IsOk, OnOk};
ghost use Rattle.cell_base.specs.Words.{lines_of, words_of};
ghost use Rattle.cell_base.specs.Walk.{IsFirstFault, items_of, state_after};
ghost use Rattle.cell_load.specs.Entries.{entry_of, seen};
ghost use Rattle.cell_load.specs.Form.{Gives};
ghost use Rattle.cell_load.specs.Order.{line_step, with_place, lacks, machine_at};
ghost use Rattle.cell_load.specs.Plans.{IsBare, NamesBadLine, PlanGives, fault_of};
ghost use Rattle.cell_load.specs.Sources.{named, sources_of};
ghost use Rattle.cell_load.specs.declared.line.Stage.TheVariants.{Start};
ghost use Rattle.cell_load.specs.declared.line.Refusal.TheVariants as refusal;
ghost use Rattle.cell_load.specs.declared.plan.PlanError.TheVariants.{BadLine, Limit, Memory};

use crate::admit::admit;
use crate::form::line_says;
use crate::line::{Line, Refusal, Stage};
use crate::source::{SourceName, sources_in};
use cell_base::line_text::{before_comment, first_line, next_word};
use std::alloc::{AllocError, AllocFailed, Global};
use std::fmt;
use std::marker::Model;
use thiserror::Error;

/// What the lines of a machine file say, and the names of its sources.
#[derive(Drop)]
pub struct Plan {
    pub(crate) lines: Vec<Line>,
    sources: Vec<SourceName>,
}

impl Model for Plan {
    ghost use Rattle.std.specs.Prelude.{◌≡◌, List, map};
    ghost use Rattle.cell_load.specs.Entries.{Entry, entry_of};
    ghost use Rattle.cell_load.specs.Order.{IsMachine};
    ghost use Rattle.cell_load.specs.Sources.{named, sources_of};

    ghost Value = { List Entry };

    ghost view = { λ p. map entry_of p.lines.items };

    ghost invariant = { λ p. IsMachine (map entry_of p.lines.items) × (map named p.sources.items ≡ sources_of (map entry_of p.lines.items)) };
}

impl Plan {
    /// The sources in the order of their lines, each with its processor; at most 32.
    pub fn sources(&self) -> &[SourceName]
        ensures named { map named result.now ≡ sources_of self.now }
        ensures few { length result.now ≤ 32 }
    {
        self.sources.as_slice()
    }
}

/// Why a text is no machine file. Lines count from 1.
#[derive(Clone, Copy, PartialEq, Eq, Error)]
pub enum PlanError {
    /// The first faulty line, which is outside the form.
    #[error("line {line} is outside the form")]
    BadLine { line: u32 },
    /// The first faulty line, of which a number or a count is outside its limits.
    #[error("line {line} is outside a limit")]
    Limit { line: u32 },
    #[error("out of memory")]
    Memory,
}

impl fmt::Debug for PlanError {
    fn fmt<W: fmt::Write>(&self, f: &mut fmt::Formatter<W>) -> fmt::Result {
        fmt::Display::fmt(self, f)
    }
}

impl<T: Drop> From<AllocFailed<T>> for PlanError {
    ghost from_gives = { λ _ e. e ≡ Memory };

    fn from(_: AllocFailed<T>) -> PlanError {
        PlanError::Memory
    }
}

impl From<AllocError> for PlanError {
    ghost from_gives = { λ _ e. e ≡ Memory };

    fn from(_: AllocError) -> PlanError {
        PlanError::Memory
    }
}

fn fault(line: u32, refusal: Refusal) -> PlanError
    ensures { result ≡ fault_of line refusal }
{
    match refusal {
        Refusal::Form => PlanError::BadLine { line },
        Refusal::Limit => PlanError::Limit { line },
        Refusal::Memory => PlanError::Memory,
    }
}

/// A line and the stage after it.
fn with_place(stage: Stage, line: Line) -> Result<Option<(Line, Stage)>, Refusal>
    ensures { Gives seen result (with_place stage (entry_of line)) }
{
    match admit(stage, &line) {
        Ok(stage) => Ok(Some((line, stage))),
        Err(refusal) => Err(refusal),
    }
}

/// What a line says and the stage after it; None of a line without words.
#[tactic(auto, unfolding(crate::specs::Order::line_step))]
fn line_step(alloc: Global, stage: Stage, line: &[u8]) -> Result<Option<(Line, Stage)>, Refusal>
    ensures says { Gives seen result (line_step stage line.now) }
    ensures bare { words_of line.now ≡ [] → result ≡ Ok None }
{
    let Some((word, rest)) = next_word(before_comment(line)) else {
        return Ok(None);
    };
    with_place(stage, line_says(alloc, word, rest)?)
}

/// Keeps what the line said, and answers the stage after it.
fn keep(
    lines: &mut Vec<Line>,
    stage: Stage,
    done: Option<(Line, Stage)>,
) -> Result<Stage, AllocError>
    ensures lines { OnOk result (map entry_of lines.new.items ≡ map entry_of lines.old.items ++ items_of (seen done)) }
    ensures stage { IfOk result (λ t. t ≡ state_after stage (seen done)) }
    ensures bare { done ≡ None → IsOk result }
{
    match done {
        Some((line, next)) => {
            lines.push(line)?;
            Ok(next)
        }
        None => Ok(stage),
    }
}

/// Whether the file may end here.
fn may_end(stage: Stage) -> bool
    ensures { lacks stage ≡ (if result then None else Some refusal.Form) }
{
    match stage {
        Stage::Body { counts } => counts.spes != 0,
        _ => false,
    }
}

fn lines_in(alloc: Global, text: &[u8]) -> Result<Vec<Line>, PlanError>
    requires { length text.now ≤ 4194304 }
    ensures gives { PlanGives (λ v. map entry_of v.items) result (machine_at text.now) }
    ensures bare { IsBare (lines_of text.now) → NamesBadLine result }
{
    let mut lines = Vec::new(alloc);
    let mut stage = Stage::Start;
    let mut rest = text;
    let mut number: u32 = 1;
    while !rest.is_empty() {
        let (line, after) = first_line(rest);
        let done = match line_step(alloc, stage, line) {
            Ok(done) => done,
            Err(refusal) => return Err(fault(number, refusal)),
        };
        stage = keep(&mut lines, stage, done)?;
        rest = after;
        number += 1;
    }
    if !may_end(stage) {
        return Err(PlanError::BadLine { line: number });
    }
    Ok(lines)
}

/// The plan that stands for the lines of a machine file of at most 4,194,304 bytes. `BadLine` and
/// `Limit` name the first faulty line; a file that ends too early is faulty at the line after its
/// last. Where no line has words, no memory is taken.
pub fn read_machine(alloc: Global, text: &[u8]) -> Result<Plan, PlanError>
    requires { length text.now ≤ 4194304 }
    ensures exact { PlanGives (λ p. p) result (machine_at text.now) }
    ensures bad_line { (line : ℕ) → IsErrOf result (BadLine line) → IsFirstFault line_step lacks Start (lines_of text.now) line refusal.Form }
    ensures limit { (line : ℕ) → IsErrOf result (Limit line) → IsFirstFault line_step lacks Start (lines_of text.now) line refusal.Limit }

    // Want of memory is not told of a text without words.
    ensures bare { IsBare (lines_of text.now) → NamesBadLine result }
{
    let lines = lines_in(alloc, text)?;
    let sources = sources_in(alloc, lines.as_slice())?;
    Ok(Plan { lines, sources })
}
