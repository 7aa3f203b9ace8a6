//! All that the program does.

ghost use Rattle.std.specs.Prelude.{◌≡◌, ◌≢◌, ◌≤◌, map, string_bytes, IfErr, OnOk};
ghost use Rattle.std.specs.Option.{ForSome};
ghost use Rattle.cell_io.specs.Store.{NoneFell};
ghost use Rattle.trace_commands.specs.Words.{said, spoken, alone, choose, asked, go, no_form};
ghost use Rattle.trace_commands.specs.Files.{IsOfFiles};
ghost use Rattle.trace_commands.specs.Answers.{Comes, Ends, FailsBy, Promises, TellsUsage};

use crate::choices::read_choices;
use crate::choosing::{run_alone, run_chosen};
use crate::fault::{Fault, Status};
use crate::listing::lines_text;
use crate::plan::planned_text;
use crate::reading::{read_recorded, read_start};
use crate::telling::{go_on, run_record, run_text, tell};
use crate::words::{Ask, Form, form_of};
use cell_io::{Sink, SinkFault, Store};
use std::alloc::Global;

/// The record and the states of a run to its end, in which the actors take turns.
fn alone_text<T: Store>(alloc: Global, files: &mut T, machine: &str) -> Result<Vec<u8>, Fault>
    ensures same { T.files files.new ≡ T.files files.old }
    ensures store_count { NoneFell (T.ledger files.old) (T.ledger files.new) }
    ensures input { IfErr result IsOfFiles }
    ensures cause { IfErr result (FailsBy (alone machine.now) (T.ledger files.old) (T.ledger files.new)) }
    ensures comes { ForSome (T.files files.old) (λ told. Comes told (alone machine.now) (T.ledger files.old) (T.ledger files.new) result) }
{
    let mut machine = read_start(alloc, files, machine)?;
    run_alone(&mut machine);
    match run_text(alloc, &machine) {
        Ok(text) => Ok(text),
        Err(_) => Err(Fault::Memory),
    }
}

/// The record of the run that the numbers of a file choose.
fn chosen_text<T: Store>(
    alloc: Global,
    files: &mut T,
    machine: &str,
    choices: &str,
) -> Result<Vec<u8>, Fault>
    ensures same { T.files files.new ≡ T.files files.old }
    ensures store_count { NoneFell (T.ledger files.old) (T.ledger files.new) }
    ensures input { IfErr result IsOfFiles }
    ensures cause { IfErr result (FailsBy (choose machine.now choices.now) (T.ledger files.old) (T.ledger files.new)) }
    ensures comes { ForSome (T.files files.old) (λ told. Comes told (choose machine.now choices.now) (T.ledger files.old) (T.ledger files.new) result) }
{
    let mut machine = read_start(alloc, files, machine)?;
    let numbers = read_choices(alloc, files, choices)?;
    run_chosen(&mut machine, numbers.as_slice());
    match run_record(alloc, &machine) {
        Ok(text) => Ok(text),
        Err(_) => Err(Fault::Memory),
    }
}

/// What is asked of the run that a record has.
fn asked_text<T: Store>(
    alloc: Global,
    files: &mut T,
    machine: &str,
    record_file: &str,
    ask: Ask,
) -> Result<Vec<u8>, Fault>
    ensures same { T.files files.new ≡ T.files files.old }
    ensures store_count { NoneFell (T.ledger files.old) (T.ledger files.new) }
    ensures input { IfErr result IsOfFiles }
    ensures cause { IfErr result (FailsBy (asked machine.now record_file.now ask) (T.ledger files.old) (T.ledger files.new)) }
    ensures comes { ForSome (T.files files.old) (λ told. Comes told (asked machine.now record_file.now ask) (T.ledger files.old) (T.ledger files.new) result) }
{
    let mut machine = read_start(alloc, files, machine)?;
    let recorded = read_recorded(alloc, files, record_file)?;
    tell(alloc, &mut machine, recorded.steps(), ask)
}

/// What further steps do behind the first so many of a record, which the numbers of a file choose, and how the machine stands then.
fn going_text<T: Store>(
    alloc: Global,
    files: &mut T,
    machine: &str,
    record_file: &str,
    count: u32,
    choices: &str,
) -> Result<Vec<u8>, Fault>
    ensures same { T.files files.new ≡ T.files files.old }
    ensures store_count { NoneFell (T.ledger files.old) (T.ledger files.new) }
    ensures input { IfErr result IsOfFiles }
    ensures cause { IfErr result (FailsBy (go machine.now record_file.now count choices.now) (T.ledger files.old) (T.ledger files.new)) }
    ensures comes { ForSome (T.files files.old) (λ told. Comes told (go machine.now record_file.now count choices.now) (T.ledger files.old) (T.ledger files.new) result) }
{
    let mut machine = read_start(alloc, files, machine)?;
    let recorded = read_recorded(alloc, files, record_file)?;
    let numbers = read_choices(alloc, files, choices)?;
    go_on(
        alloc,
        &mut machine,
        recorded.steps(),
        count,
        numbers.as_slice(),
    )
}

/// The text of a form.
fn text_of<T: Store>(alloc: Global, files: &mut T, form: Form<'_>) -> Result<Vec<u8>, Fault>
    ensures same { T.files files.new ≡ T.files files.old }
    ensures store_count { NoneFell (T.ledger files.old) (T.ledger files.new) }
    ensures form { OnOk result (said form.entry ≢ no_form) }
    ensures usage { IfErr result (TellsUsage (said form.entry)) }
    ensures cause { IfErr result (FailsBy (said form.entry) (T.ledger files.old) (T.ledger files.new)) }
    ensures comes { ForSome (T.files files.old) (λ told. Comes told (said form.entry) (T.ledger files.old) (T.ledger files.new) result) }
{
    match form {
        Form::Alone { machine } => alone_text(alloc, files, machine),
        Form::Choose { machine, choices } => chosen_text(alloc, files, machine, choices),
        Form::Ask {
            machine,
            record_file,
            ask,
        } => asked_text(alloc, files, machine, record_file, ask),
        Form::Go {
            machine,
            record_file,
            steps,
            choices,
        } => going_text(alloc, files, machine, record_file, steps, choices),
        Form::Lines { source } => lines_text(alloc, files, source),
        Form::Plan { machine } => planned_text(alloc, files, machine),
        Form::NoForm => Err(Fault::Usage),
    }
}

/// Writes a text.
fn write_text<K: Sink>(text: &[u8], out: &mut K) -> Status
    ensures sink_count { K.faults out.old ≤ K.faults out.new }
    ensures ends { Ends text.now (record { taken = K.taken out.old; faults = K.faults out.old }) (record { taken = K.taken out.new; faults = K.faults out.new }) result }
{
    match out.put(text) {
        Ok(()) => Status::Done,
        Err(SinkFault) => Status::Refused(Fault::WriteFault),
    }
}

/// Does what a form asks for.
pub fn trace_form<T: Store, K: Sink>(
    alloc: Global,
    form: Form<'_>,
    files: &mut T,
    out: &mut K,
) -> Status
    ensures { Promises (said form.entry)
        (record { files = T.files files.old; ledger = T.ledger files.old }) (record { files = T.files files.new; ledger = T.ledger files.new })
        (record { taken = K.taken out.old; faults = K.faults out.old }) (record { taken = K.taken out.new; faults = K.faults out.new }) result }
{
    match text_of(alloc, files, form) {
        Ok(text) => write_text(text.as_slice(), out),
        Err(fault) => Status::Refused(fault),
    }
}

/// Does what the words ask for: reads files, and puts one text. Refusals are tried in this order: the words, the machine file and its sources and then
/// the record file as `cell` does, the choice file, the number of steps, the steps, the output.
pub fn trace<T: Store, K: Sink>(
    alloc: Global,
    words: &[String],
    files: &mut T,
    out: &mut K,
) -> Status
    ensures { Promises (spoken (map string_bytes words.now))
        (record { files = T.files files.old; ledger = T.ledger files.old }) (record { files = T.files files.new; ledger = T.ledger files.new })
        (record { taken = K.taken out.old; faults = K.faults out.old }) (record { taken = K.taken out.new; faults = K.faults out.new }) result }
{
    trace_form(alloc, form_of(words), files, out)
}
