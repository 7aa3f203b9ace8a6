//! The form `gen`: a machine that is generated runs to its end on threads and is searched for races, and its summary is written.

ghost use Rattle.std.specs.Prelude.{◌≡◌, ◌≢◌, ◌≤◌, List};
ghost use Rattle.cell_io.specs.Files.{File};
ghost use Rattle.cell_io.specs.Store.{Ledger};
ghost use Rattle.cell_gen.specs.Generated.{generated};
ghost use Rattle.cell_machine.specs.Run.{HasEnd};
ghost use Rattle.cell_commands.specs.Task.{gen_of};
ghost use Rattle.cell_commands.specs.Forms.{gen_task};
ghost use Rattle.cell_commands.specs.Words.{gen, FailsIn};
ghost use Rattle.cell_commands.specs.Answer.{Answers, Ends, IsQuiet, ReadFails};

use crate::causes::gen_fault;
use crate::fault::{Fault, Status};
use crate::run::run_setup;
use cell_gen::generate;
use cell_io::{Sink, SinkFault};
use cell_machine::Machine;
use cell_report::summary_text;
use race_check::check_races;
use spe_workers::Gate;
use std::alloc::Global;
use std::sync::Wait;
use std::thread::Threads;

/// Looks for races of a generated machine that has ended, and writes the summary.
fn write_summary<K: Sink>(alloc: Global, n: u32, machine: &Machine, out: &mut K) -> Status
    requires setup { machine.now.setup ≡ generated n }
    requires ended { HasEnd machine.now }
    ensures sink_count { K.faults out.old ≤ K.faults out.new }
    ensures ends { Ends (gen_of n) (record { taken = K.taken out.old; faults = K.faults out.old }) (record { taken = K.taken out.new; faults = K.faults out.new }) result }
{
    let _run = machine.steps(); // which are a run, as its contract says
    let Ok(verdict) = check_races(alloc, machine) else {
        return Status::Refused(Fault::Memory);
    };
    let Ok(text) = summary_text(alloc, n, machine, verdict) else {
        return Status::Refused(Fault::Memory);
    };
    match out.put(text.as_slice()) {
        Ok(()) => Status::from(verdict),
        Err(SinkFault) => Status::Refused(Fault::WriteFault),
    }
}

/// Does what `gen` asks for, with this number. Nothing is written before the verdict is found.
pub fn run_generated<R: Threads + Wait + Sync, K: Sink, G: Gate + Sync>(
    rt: &R,
    alloc: Global,
    n: u32,
    out: &mut K,
    gate: &G,
) -> Status
    ensures sink_count { K.faults out.old ≤ K.faults out.new }

    // Whatever files there are, the answer has its cause in the number.
    ensures answer { (told : List File) (old new : Ledger) →
        Answers told (gen_task n) old new
        (record { taken = K.taken out.old; faults = K.faults out.old }) (record { taken = K.taken out.new; faults = K.faults out.new }) result }

    // No reading is said to fail.
    ensures read_fault { (old new : Ledger) → ReadFails (FailsIn (gen n)) old new result }

    // A refusal leaves the sink as it was, but for WriteFault, which comes only where the sink's count rose.
    ensures quiet { IsQuiet (record { taken = K.taken out.old; faults = K.faults out.old }) (record { taken = K.taken out.new; faults = K.faults out.new }) result }

    ensures usage { result ≢ Status.Refused Fault.Usage }
{
    let setup = match generate(alloc, n) {
        Ok(setup) => setup,
        Err(error) => return Status::Refused(gen_fault(error)),
    };
    match run_setup(rt, alloc, setup, gate) {
        Ok(machine) => write_summary(alloc, n, &machine, out),
        Err(fault) => Status::Refused(fault),
    }
}
