//! All that the program does.

ghost use Rattle.std.specs.Prelude.{[], ◌≡◌, ◌≢◌, ◌≤◌, ◌<◌, Bool, List, length, map, string_bytes, IfOk};
ghost use Rattle.hunt_tally.specs.Reports.{Reported, hunted};
ghost use Rattle.hunt_command.specs.declared.fault.Fault.{Fault as AFault};
ghost use Rattle.hunt_command.specs.Words.{spoken, asked, most_made, AreRuns, hunt, each, record_of};
ghost use Rattle.hunt_command.specs.Hunts.{status_of, is_found, text_by, text_with, TellsHunt, TellsEach, IsNext, MakesBatches};
ghost use Rattle.hunt_command.specs.Answers.{Promises, TellsRun, EndsText, EndsBy};

use crate::batch::{Batch, BatchMaker, make_alone};
use crate::each::tell_each;
use crate::ending::is_by_steps;
use crate::fault::{Fault, Status};
use crate::help::HELP;
use crate::hunting::hunt_runs;
use crate::input::Target;
use crate::progress::Progress;
use crate::target::read_target;
use crate::threads::{cores_of, make_on_threads};
use crate::words::{Form, Hunt, Warn, form_of};
use cell_commands::{Fault as InputFault, Status as InputStatus, write_run};
use cell_hunt::machine_of_seed;
use cell_io::{Sink, SinkFault, Store};
use cell_machine::Setup;
use hunt_reports::{Places, coverage_of};
use hunt_tally::{Hunted, SourceCoverage};
use hunt_texts::{About, hunt_json, hunt_text};
use std::alloc::{AllocError, Global};
use std::thread::Threads;

/// The status by whether something was found.
fn status_of(is_found: bool) -> Status
    ensures { result ≡ status_of is_found }
{
    if is_found {
        Status::Found
    } else {
        Status::Clean
    }
}

/// Whether something was found.
fn is_found(warn: Warn, sums: &Hunted) -> bool
    ensures { (reports : List Reported) → sums.now ≡ hunted reports → result ≡ is_found warn reports }
{
    match warn {
        Warn::Error => {
            let is_flawed = sums.has_flaw();
            let is_warned = sums.has_warning();
            is_flawed || is_warned
        }
        Warn::Print => sums.has_flaw(),
        Warn::Off => sums.has_flaw(),
    }
}

/// Writes a text, after which this is the status.
fn write_text<K: Sink>(text: &[u8], status: Status, out: &mut K) -> Status
    requires { (f : AFault) → status ≢ Status.Refused f }
    ensures sink_count { K.faults out.old ≤ K.faults out.new }
    ensures ends { EndsText text.now status (record { taken = K.taken out.old; faults = K.faults out.old }) (record { taken = K.taken out.new; faults = K.faults out.new }) result }
{
    match out.put(text) {
        Ok(()) => status,
        Err(SinkFault) => Status::Refused(Fault::WriteFault),
    }
}

/// The text of what was found, in the form that is asked for, with the lines of these sources.
fn text_with(
    alloc: Global,
    hunted: &Hunted,
    hunt: &Hunt,
    coverage: &[SourceCoverage],
) -> Result<Vec<u8>, AllocError>
    ensures { IfOk result (λ text. text.items ≡ text_with (asked hunt.now) hunted.now coverage.now) }
{
    let expects = hunt.expect.is_some();
    if hunt.json {
        return hunt_json(alloc, hunted, hunt.seed, hunt.from, expects, coverage);
    }
    let about = About {
        machine: hunt.machine.as_bytes(),
        tools: hunt.tools.as_bytes(),
        seed: hunt.seed,
        from: hunt.from,
        expects,
        by_steps: is_by_steps(hunt.runs, hunted),
        all: hunt.all,
        coverage,
    };
    hunt_text(alloc, hunted, &about)
}

/// The text of what was found, in the form that is asked for.
fn text_of(
    alloc: Global,
    places: &Places,
    hunted: &Hunted,
    hunt: &Hunt,
) -> Result<Vec<u8>, AllocError>
    ensures { IfOk result (λ text. text.items ≡ text_by places.now (asked hunt.now) hunted.now) }
{
    let coverage = coverage_of(alloc, places, hunted.executed())?;
    text_with(alloc, hunted, hunt, coverage.as_slice())
}

/// Makes the runs of a hunt, and takes their reports in: its text, and whether something was found.
fn tell_runs<F, P>(
    maker: &BatchMaker<F>,
    alloc: Global,
    target: &Target,
    hunt: &Hunt,
    progress: &mut P,
    sums: &mut Hunted,
) -> Result<(Vec<u8>, bool), AllocError>
where
    F: Fn(&Target, &Hunt, u32, Batch, &mut Hunted) -> Result<(), AllocError>,
    P: Progress,
    requires makes { MakesBatches (F.pre maker.now.make) (F.post maker.now.make) }
    requires some { 0 < length target.now.setup.entries }
    requires within { AreRuns hunt.now.from (most_made hunt.now.runs) }
    requires none { sums.old ≡ hunted [] }
    ensures { IfOk result (λ told. TellsHunt target.now.setup target.now.asked (asked hunt.now) (P.stopped progress.new) (status_of told.1) told.0.items) }
{
    hunt_runs(maker, target, hunt, progress, sums)?;
    let text = text_of(alloc, &target.asked.places, sums, hunt)?;
    Ok((text, is_found(hunt.warn, sums)))
}

/// The text of a hunt, and whether something was found.
fn tell_hunt<F, P>(
    maker: &BatchMaker<F>,
    alloc: Global,
    target: &Target,
    hunt: &Hunt,
    progress: &mut P,
) -> Result<(Vec<u8>, bool), AllocError>
where
    F: Fn(&Target, &Hunt, u32, Batch, &mut Hunted) -> Result<(), AllocError>,
    P: Progress,
    requires makes { MakesBatches (F.pre maker.now.make) (F.post maker.now.make) }
    requires some { 0 < length target.now.setup.entries }
    requires within { AreRuns hunt.now.from (most_made hunt.now.runs) }
    ensures { IfOk result (λ told. TellsHunt target.now.setup target.now.asked (asked hunt.now) (P.stopped progress.new) (status_of told.1) told.0.items) }
{
    let mut sums = Hunted::new(alloc);
    tell_runs(maker, alloc, target, hunt, progress, &mut sums)
}

/// Makes the runs of a hunt, and writes what was found.
fn write_hunt<F, K, P>(
    maker: &BatchMaker<F>,
    alloc: Global,
    target: &Target,
    hunt: &Hunt,
    out: &mut K,
    progress: &mut P,
) -> Status
where
    F: Fn(&Target, &Hunt, u32, Batch, &mut Hunted) -> Result<(), AllocError>,
    K: Sink,
    P: Progress,
    requires makes { MakesBatches (F.pre maker.now.make) (F.post maker.now.make) }
    requires some { 0 < length target.now.setup.entries }
    requires within { AreRuns hunt.now.from (most_made hunt.now.runs) }
    ensures sink_count { K.faults out.old ≤ K.faults out.new }
    ensures ends { EndsBy (TellsHunt target.now.setup target.now.asked (asked hunt.now) (P.stopped progress.new)) (record { taken = K.taken out.old; faults = K.faults out.old }) (record { taken = K.taken out.new; faults = K.faults out.new }) result }
{
    match tell_hunt(maker, alloc, target, hunt, progress) {
        Ok((text, is_found)) => write_text(text.as_slice(), status_of(is_found), out),
        Err(_) => Status::Refused(Fault::Memory),
    }
}

/// A hunt: its files are read, its runs are made, and what was found is written.
fn hunt_form<F, T, K, P>(
    maker: &BatchMaker<F>,
    alloc: Global,
    wanted: &Hunt,
    files: &mut T,
    out: &mut K,
    progress: &mut P,
) -> Status
where
    F: Fn(&Target, &Hunt, u32, Batch, &mut Hunted) -> Result<(), AllocError>,
    T: Store,
    K: Sink,
    P: Progress,
    requires makes { MakesBatches (F.pre maker.now.make) (F.post maker.now.make) }
    requires within { AreRuns wanted.now.from (most_made wanted.now.runs) }
    ensures { Promises (hunt (asked wanted.now)) (P.stopped progress.new)
        (record { files = T.files files.old; ledger = T.ledger files.old }) (record { files = T.files files.new; ledger = T.ledger files.new })
        (record { taken = K.taken out.old; faults = K.faults out.old }) (record { taken = K.taken out.new; faults = K.faults out.new }) result }
{
    match read_target(
        alloc,
        files,
        wanted.machine,
        wanted.expect,
        wanted.pass,
        wanted.warn.is_on(),
    ) {
        Ok(target) => write_hunt(maker, alloc, &target, wanted, out, progress),
        Err(fault) => Status::Refused(fault),
    }
}

/// Makes runs, and writes of each how it ends and its race, or whether it is settled.
fn write_each<K: Sink>(
    alloc: Global,
    setup: &Setup,
    from: u32,
    runs: u32,
    seed: u64,
    out: &mut K,
) -> Status
    requires some { 0 < length setup.now.entries }
    requires within { AreRuns from runs }
    ensures sink_count { K.faults out.old ≤ K.faults out.new }
    ensures ends { EndsBy (TellsEach setup.now from runs seed) (record { taken = K.taken out.old; faults = K.faults out.old }) (record { taken = K.taken out.new; faults = K.faults out.new }) result }
{
    match tell_each(alloc, setup, seed, from, runs) {
        Ok((text, is_racy)) => write_text(text.as_slice(), status_of(is_racy), out),
        Err(_) => Status::Refused(Fault::Memory),
    }
}

/// The form `each`: the files are read, and the lines of the runs are written.
fn each_form<T: Store, K: Sink>(
    alloc: Global,
    machine: &str,
    from: u32,
    runs: u32,
    seed: u64,
    files: &mut T,
    out: &mut K,
) -> Status
    requires within { AreRuns from runs }
    ensures { (stopped : Bool) → Promises (each machine.now from runs seed) stopped
        (record { files = T.files files.old; ledger = T.ledger files.old }) (record { files = T.files files.new; ledger = T.ledger files.new })
        (record { taken = K.taken out.old; faults = K.faults out.old }) (record { taken = K.taken out.new; faults = K.faults out.new }) result }
{
    match read_target(alloc, files, machine, None, None, false) {
        Ok(target) => write_each(alloc, &target.setup, from, runs, seed, out),
        Err(fault) => Status::Refused(fault),
    }
}

/// Makes a run, and writes what `cell run` would print of it.
fn write_record<K: Sink>(alloc: Global, setup: &Setup, run: u32, seed: u64, out: &mut K) -> Status
    requires some { 0 < length setup.now.entries }
    ensures sink_count { K.faults out.old ≤ K.faults out.new }
    ensures ends { EndsBy (TellsRun setup.now run seed) (record { taken = K.taken out.old; faults = K.faults out.old }) (record { taken = K.taken out.new; faults = K.faults out.new }) result }
{
    let Ok(made) = machine_of_seed(alloc, setup, seed, run) else {
        return Status::Refused(Fault::Memory);
    };
    match write_run(alloc, &made, out) {
        InputStatus::Done => Status::Clean,
        InputStatus::Refused(InputFault::WriteFault) => Status::Refused(Fault::WriteFault),
        _ => Status::Refused(Fault::Memory),
    }
}

/// A run that is printed: the files are read, and the run is written.
fn record_form<T: Store, K: Sink>(
    alloc: Global,
    machine: &str,
    run: u32,
    seed: u64,
    files: &mut T,
    out: &mut K,
) -> Status
    ensures { (stopped : Bool) → Promises (record_of machine.now run seed) stopped
        (record { files = T.files files.old; ledger = T.ledger files.old }) (record { files = T.files files.new; ledger = T.ledger files.new })
        (record { taken = K.taken out.old; faults = K.faults out.old }) (record { taken = K.taken out.new; faults = K.faults out.new }) result }
{
    match read_target(alloc, files, machine, None, None, false) {
        Ok(target) => write_record(alloc, &target.setup, run, seed, out),
        Err(fault) => Status::Refused(fault),
    }
}

/// Does what the words ask for, with a maker that makes the runs of a hunt.
fn hunt_with<F, T, K, P>(
    maker: &BatchMaker<F>,
    alloc: Global,
    words: &[String],
    files: &mut T,
    out: &mut K,
    progress: &mut P,
) -> Status
where
    F: Fn(&Target, &Hunt, u32, Batch, &mut Hunted) -> Result<(), AllocError>,
    T: Store,
    K: Sink,
    P: Progress,
    requires makes { MakesBatches (F.pre maker.now.make) (F.post maker.now.make) }
    ensures { Promises (spoken (map string_bytes words.now)) (P.stopped progress.new)
        (record { files = T.files files.old; ledger = T.ledger files.old }) (record { files = T.files files.new; ledger = T.ledger files.new })
        (record { taken = K.taken out.old; faults = K.faults out.old }) (record { taken = K.taken out.new; faults = K.faults out.new }) result }
{
    match form_of(words) {
        Form::Hunt(hunt) => hunt_form(maker, alloc, &hunt, files, out, progress),
        Form::Each {
            machine,
            from,
            runs,
            seed,
        } => each_form(alloc, machine, from, runs, seed, files, out),
        Form::Record { machine, run, seed } => record_form(alloc, machine, run, seed, files, out),
        Form::Help => write_text(HELP, Status::Clean, out),
        Form::NoForm => Status::Refused(Fault::Usage),
    }
}

/// Does what the words ask for: reads files, makes runs, and writes to the sink. Refusals are tried in this order: the words, the machine file
/// and its sources as `cell` does, the expectation file, the pass file, the output. Nothing is written before the output.
pub fn hunt<R: Threads + Sync, T: Store, K: Sink, P: Progress>(
    rt: &R,
    alloc: Global,
    words: &[String],
    files: &mut T,
    out: &mut K,
    progress: &mut P,
) -> Status
    ensures { Promises (spoken (map string_bytes words.now)) (P.stopped progress.new)
        (record { files = T.files files.old; ledger = T.ledger files.old }) (record { files = T.files files.new; ledger = T.ledger files.new })
        (record { taken = K.taken out.old; faults = K.faults out.old }) (record { taken = K.taken out.new; faults = K.faults out.new }) result }
{
    let maker = BatchMaker {
        cores: cores_of(rt),
        make: |target: &Target, hunt: &Hunt, made: u32, batch: Batch, sums: &mut Hunted|
            requires { IsNext target.now hunt.now made batch sums.old }
        { make_on_threads(rt, alloc, target, hunt, made, batch, sums) },
    };
    hunt_with(&maker, alloc, words, files, out, progress)
}

/// The same without threads: the caller makes all runs, whatever `--jobs` says.
pub fn hunt_quiet<T: Store, K: Sink, P: Progress>(
    alloc: Global,
    words: &[String],
    files: &mut T,
    out: &mut K,
    progress: &mut P,
) -> Status
    ensures { Promises (spoken (map string_bytes words.now)) (P.stopped progress.new)
        (record { files = T.files files.old; ledger = T.ledger files.old }) (record { files = T.files files.new; ledger = T.ledger files.new })
        (record { taken = K.taken out.old; faults = K.faults out.old }) (record { taken = K.taken out.new; faults = K.faults out.new }) result }
{
    let maker = BatchMaker {
        cores: 1,
        make: |target: &Target, hunt: &Hunt, made: u32, batch: Batch, sums: &mut Hunted|
            requires { IsNext target.now hunt.now made batch sums.old }
        { make_alone(alloc, target, hunt, made, batch, sums) },
    };
    hunt_with(&maker, alloc, words, files, out, progress)
}
