//! The answer to words with files.

ghost use Rattle.std.specs.Prelude.{Some, false, map, string_bytes};
ghost use Rattle.cell_io.specs.Files.{HasDifferentNames};
ghost use Rattle.cell_commands.specs.Words.{spoken as cell_spoken, AsksForNoRun};
ghost use Rattle.hunt_command.specs.Words.{spoken as hunt_spoken};
ghost use Rattle.trace_commands.specs.Words.{said as trace_said};
ghost use Rattle.cell_library.specs.Asked.{asked_by, without_runs};
ghost use Rattle.cell_library.specs.Answers.{IsAnswerTo, IsOf, IsOfCell, IsOfHunt, IsOfTrace, RefusesCell, RefusesHunt, RefusesTrace, TellsCell, TellsHunt, TellsTrace};
ghost use Rattle.cell_library.specs.Reading.{ReadsBoth};

use crate::answer::Answer;
use crate::bundle::{BundleError, files_of, words_of};
use crate::given_files::GivenFiles;
use crate::text_sink::TextSink;
use cell_commands::{
    Fault as CellFault, Form as CellForm, Status as CellStatus, cell_quiet, form_of,
};
use cell_io::MemFile;
use hunt_command::{Fault as HuntFault, Progress, Status as HuntStatus, hunt_quiet};
use hunt_tally::Hunted;
use std::alloc::Global;
use trace_commands::{
    Fault as TraceFault, Form as TraceForm, Status as TraceStatus, form_of as trace_form_of,
    trace_form,
};

/// How many runs of a hunt are made in a batch.
const SHARE: u32 = 16;

/// Nobody looks on.
#[derive(Clone, Copy)]
struct Unseen;

impl Progress for Unseen {
    ghost stopped = { λ s. false };

    fn share(&mut self) -> u32 {
        SHARE
    }

    fn goes_on(&mut self) -> bool {
        true
    }

    fn show(&mut self, _: &Hunted, _: u32) {}

    fn end(&mut self) {}
}

/// How a refusal of `cell` is told.
fn refused_by_cell(alloc: Global, fault: CellFault) -> Answer
    ensures { RefusesCell fault result }
{
    match fault {
        CellFault::Memory => Answer::short(),
        CellFault::WriteFault => Answer::short(),
        _ => Answer::refusal(alloc, "cell", fault, CellStatus::Refused(fault).code()),
    }
}

/// How a status of `cell` is told, with what was put.
fn told_by_cell(alloc: Global, status: CellStatus, out: TextSink) -> Answer
    ensures { TellsCell status (Some out.text.items) result }
{
    match status {
        CellStatus::Refused(fault) => refused_by_cell(alloc, fault),
        _ => Answer::new(out.into_text(), status.code()),
    }
}

/// What `cell` answers to words that ask for no run.
fn cell_answer(alloc: Global, words: &[String], files: Vec<MemFile>) -> Answer
    requires quiet { AsksForNoRun (cell_spoken (map string_bytes words.now)) }
    requires different { HasDifferentNames files.items }
    ensures { IsOfCell files.items (cell_spoken (map string_bytes words.now)) result }
{
    let mut files = GivenFiles::new(alloc, files);
    let mut out = TextSink::new(alloc);
    let status = cell_quiet(alloc, words, &mut files, &mut out);
    told_by_cell(alloc, status, out)
}

/// How a refusal of `hunt` is told.
fn refused_by_hunt(alloc: Global, fault: HuntFault) -> Answer
    ensures { RefusesHunt fault result }
{
    match fault {
        HuntFault::Memory => Answer::short(),
        HuntFault::WriteFault => Answer::short(),
        _ => Answer::refusal(alloc, "hunt", fault, HuntStatus::Refused(fault).code()),
    }
}

/// How a status of `hunt` is told, with what was put.
fn told_by_hunt(alloc: Global, status: HuntStatus, out: TextSink) -> Answer
    ensures { TellsHunt status (Some out.text.items) result }
{
    match status {
        HuntStatus::Refused(fault) => refused_by_hunt(alloc, fault),
        _ => Answer::new(out.into_text(), status.code()),
    }
}

/// What `hunt` answers, all of whose runs are made by the caller.
fn hunt_answer(alloc: Global, words: &[String], files: Vec<MemFile>) -> Answer
    requires { HasDifferentNames files.items }
    ensures { IsOfHunt files.items (hunt_spoken (map string_bytes words.now)) result }
{
    let mut files = GivenFiles::new(alloc, files);
    let mut out = TextSink::new(alloc);
    let status = hunt_quiet(alloc, words, &mut files, &mut out, &mut Unseen);
    told_by_hunt(alloc, status, out)
}

/// How a refusal of run_trace is told.
fn refused_by_trace(alloc: Global, fault: TraceFault) -> Answer
    ensures { RefusesTrace fault result }
{
    match fault {
        TraceFault::Memory => Answer::short(),
        TraceFault::WriteFault => Answer::short(),
        _ => Answer::refusal(
            alloc,
            "run_trace",
            fault,
            TraceStatus::Refused(fault).code(),
        ),
    }
}

/// How a status of run_trace is told, with what was put.
fn told_by_trace(alloc: Global, status: TraceStatus, out: TextSink) -> Answer
    ensures { TellsTrace status (Some out.text.items) result }
{
    match status {
        TraceStatus::Refused(fault) => refused_by_trace(alloc, fault),
        TraceStatus::Done => Answer::new(out.into_text(), status.code()),
    }
}

/// What run_trace answers.
fn trace_answer(alloc: Global, form: TraceForm<'_>, files: Vec<MemFile>) -> Answer
    requires { HasDifferentNames files.items }
    ensures { IsOfTrace files.items (trace_said form.entry) result }
{
    let mut files = GivenFiles::new(alloc, files);
    let mut out = TextSink::new(alloc);
    let status = trace_form(alloc, form, &mut files, &mut out);
    told_by_trace(alloc, status, out)
}

/// What `cell` answers, but that a run is one in which the actors take turns, and no machine is generated.
fn answer_of_cell(alloc: Global, words: &[String], files: Vec<MemFile>) -> Answer
    requires { HasDifferentNames files.items }
    ensures { IsOf files.items (without_runs (cell_spoken (map string_bytes words.now))) result }
{
    match form_of(words) {
        CellForm::Run { machine } => trace_answer(alloc, TraceForm::Alone { machine }, files),
        // no words are no form
        CellForm::Gen { .. } => cell_answer(alloc, &words[..0], files),
        _ => cell_answer(alloc, words, files),
    }
}

/// The answer to these words.
fn answer_with(alloc: Global, words: &[String], files: Vec<MemFile>) -> Answer
    requires { HasDifferentNames files.items }
    ensures { IsOf files.items (asked_by (map string_bytes words.now)) result }
{
    match words {
        [form, more @ ..] if form.as_str() == "hunt" => hunt_answer(alloc, more, files),
        [form, more @ ..] if form.as_str() == "trace" => {
            trace_answer(alloc, trace_form_of(more), files)
        }
        _ => answer_of_cell(alloc, words, files),
    }
}

/// The words and the files that the bytes stand for.
fn read_both(
    alloc: Global,
    words: &[u8],
    files: &[u8],
) -> Result<(Vec<String>, Vec<MemFile>), BundleError>
    ensures { ReadsBoth words.now files.now result }
{
    let words = words_of(alloc, words)?;
    let files = files_of(alloc, files)?;
    Ok((words, files))
}

/// The answer to words with files, both as bytes.
pub fn answer_to(alloc: Global, words: &[u8], files: &[u8]) -> Answer
    ensures { IsAnswerTo words.now files.now result }
{
    match read_both(alloc, words, files) {
        Ok((words, files)) => answer_with(alloc, words.as_slice(), files),
        Err(BundleError::Form) => refused_by_cell(alloc, CellFault::Usage),
        Err(BundleError::Memory) => Answer::short(),
    }
}
