//! The form `run`: a machine runs to its end on threads, and its record and states are written.

ghost use Rattle.std.specs.Prelude.{◌≡◌, ◌≢◌, ◌≤◌, ◌++◌, ◌<◌, ℕ, List, length, IfErr, IfOk, OnErr, Err};
ghost use Rattle.std.specs.Option.{ForSome};
ghost use Rattle.cell_io.specs.Sink.{FailsWithCause, Takes};
ghost use Rattle.cell_io.specs.Store.{NoneFell};
ghost use Rattle.cell_machine.specs.Run.{HasEnd};
ghost use Rattle.cell_commands.specs.Causes.{IsOfInput};
ghost use Rattle.cell_commands.specs.Task.{ready, run_of, Work};
ghost use Rattle.cell_commands.specs.Forms.{run_task};
ghost use Rattle.cell_commands.specs.Output.{Writes};
ghost use Rattle.cell_commands.specs.Runs.{PrintsSteps};
ghost use Rattle.cell_commands.specs.declared.fault.Status.TheVariants.{Done};
ghost use Rattle.cell_commands.specs.Answer.{Answers, AtMachine, Comes, Ends, FailsBy, IsQuiet, ReadFails, WroteSteps};

use crate::fault::{Fault, Status};
use crate::reading::read_setup;
use cell_io::{Sink, SinkFault, Store};
use cell_machine::{Machine, Setup};
use cell_report::{record_text, states_text};
use spe_workers::{Gate, run_machine};
use std::alloc::Global;
use std::sync::Wait;
use std::thread::Threads;

/// Puts the one text, and then the other.
fn put_both<K: Sink>(out: &mut K, first: &[u8], second: &[u8]) -> Result<(), SinkFault>
    ensures takes { Takes (K.taken out.old) (K.taken out.new) (first.now ++ second.now) result }
    ensures cause { FailsWithCause (K.faults out.old) (K.faults out.new) result }
{
    out.put(first)?;
    out.put(second)
}

/// Writes the record's text of a machine, and the states'. Both are made before the first is put. Work that these texts do ends so.
pub fn write_run<K: Sink>(alloc: Global, machine: &Machine, out: &mut K) -> Status
    ensures sink_count { K.faults out.old ≤ K.faults out.new }
    ensures wrote { WroteSteps machine.now (record { taken = K.taken out.old; faults = K.faults out.old }) (record { taken = K.taken out.new; faults = K.faults out.new }) result }
    ensures ends { (work : Work) → ((text : List ℕ) → PrintsSteps machine.now text → Writes work Done text) → Ends work (record { taken = K.taken out.old; faults = K.faults out.old }) (record { taken = K.taken out.new; faults = K.faults out.new }) result }
{
    let Ok(steps) = record_text(alloc, machine.steps()) else {
        return Status::Refused(Fault::Memory);
    };
    let Ok(states) = states_text(alloc, machine) else {
        return Status::Refused(Fault::Memory);
    };
    match put_both(out, steps.as_slice(), states.as_slice()) {
        Ok(()) => Status::Done,
        Err(SinkFault) => Status::Refused(Fault::WriteFault),
    }
}

/// Runs the setup on threads until no step is allowed.
pub fn run_setup<R: Threads + Wait + Sync, G: Gate + Sync>(
    rt: &R,
    alloc: Global,
    setup: Setup,
    gate: &G,
) -> Result<Machine, Fault>
    requires { 0 < length setup.entries }
    ensures setup { IfOk result (λ machine. machine.setup ≡ setup) }
    ensures ended { IfOk result HasEnd }
    ensures memory { OnErr result (result ≡ Err Fault.Memory) }
{
    let Ok(start) = Machine::new(alloc, setup) else {
        return Err(Fault::Memory);
    };
    let Ok((machine, _)) = run_machine(rt, alloc, start, gate) else {
        return Err(Fault::Memory);
    };
    Ok(machine)
}

/// The setup to run.
fn prepare_run<T: Store>(alloc: Global, files: &mut T, machine: &str) -> Result<Setup, Fault>
    ensures same { T.files files.new ≡ T.files files.old }
    ensures store_count { NoneFell (T.ledger files.old) (T.ledger files.new) }
    ensures input { IfErr result IsOfInput }
    ensures some { IfOk result (λ setup. 0 < length setup.entries) }
    ensures cause { FailsBy (AtMachine machine.now) (T.ledger files.old) (T.ledger files.new) result }
    ensures comes { ForSome (T.files files.old) (λ told.
        Comes told (run_task machine.now) (λ setup. ready (run_of setup)) (T.ledger files.old) (T.ledger files.new) result) }
{
    read_setup(alloc, files, machine)
}

/// Does what `run` asks for, with this machine file: reads it and its sources, runs the machine, and writes the record and the states.
pub fn run<R: Threads + Wait + Sync, T: Store, K: Sink, G: Gate + Sync>(
    rt: &R,
    alloc: Global,
    machine: &str,
    files: &mut T,
    out: &mut K,
    gate: &G,
) -> Status
    ensures same { T.files files.new ≡ T.files files.old }
    ensures store_count { NoneFell (T.ledger files.old) (T.ledger files.new) }
    ensures sink_count { K.faults out.old ≤ K.faults out.new }

    // Where the store tells its files, each answer has its cause in them.
    ensures answer { ForSome (T.files files.old) (λ told.
        Answers told (run_task machine.now) (T.ledger files.old) (T.ledger files.new)
        (record { taken = K.taken out.old; faults = K.faults out.old }) (record { taken = K.taken out.new; faults = K.faults out.new }) result) }

    // Whatever it tells: a reading is said to fail only where it did, under the name of that file.
    ensures read_fault { ReadFails (AtMachine machine.now) (T.ledger files.old) (T.ledger files.new) result }

    // A refusal leaves the sink as it was, but for WriteFault, which comes only where the sink's count rose.
    ensures quiet { IsQuiet (record { taken = K.taken out.old; faults = K.faults out.old }) (record { taken = K.taken out.new; faults = K.faults out.new }) result }

    ensures usage { result ≢ Status.Refused Fault.Usage }
{
    let setup = match prepare_run(alloc, files, machine) {
        Ok(setup) => setup,
        Err(fault) => return Status::Refused(fault),
    };
    match run_setup(rt, alloc, setup, gate) {
        Ok(machine) => write_run(alloc, &machine, out),
        Err(fault) => Status::Refused(fault),
    }
}
