//! The form `debug`: a script is run on a machine, and what it prints is written.

ghost use Rattle.std.specs.Prelude.{◌≡◌, ◌≢◌, ◌≤◌, ◌<◌, [], length, Err, IfErr, IfOk, OnErr};
ghost use Rattle.std.specs.Option.{ForSome};
ghost use Rattle.cell_io.specs.Store.{NoneFell};
ghost use Rattle.cell_debug.specs.Debug.{printed};
ghost use Rattle.cell_debug.specs.Fits.{FitsSetup};
ghost use Rattle.cell_commands.specs.Causes.{IsOfInput};
ghost use Rattle.cell_commands.specs.Task.{ready, text_of};
ghost use Rattle.cell_commands.specs.Forms.{debug_task};
ghost use Rattle.cell_commands.specs.Answer.{Answers, AtMachineOrScript, Comes, FailsBy, IsQuiet, ReadFails};

use crate::asm::write_text;
use crate::causes::script_fault;
use crate::fault::{Fault, FileId, Status};
use crate::reading::{TEXT_LIMIT, read_file, read_setup};
use cell_debug::{Script, read_script, run_script};
use cell_io::{Sink, Store};
use cell_machine::{Machine, Setup};
use std::alloc::Global;

/// What a script prints of a machine at its start; there may be no memory for it.
fn printed(alloc: Global, setup: Setup, script: &Script) -> Result<Vec<u8>, Fault>
    requires some { 0 < length setup.entries }
    requires fits { FitsSetup setup script.now }
    ensures text { IfOk result (λ text. text.items ≡ printed (record { setup = setup; steps = [] }) script.now) }
    ensures memory { OnErr result (result ≡ Err Fault.Memory) }
{
    let Ok(mut machine) = Machine::new(alloc, setup) else {
        return Err(Fault::Memory);
    };
    let Ok(text) = run_script(alloc, &mut machine, script) else {
        return Err(Fault::Memory);
    };
    Ok(text)
}

/// What the script prints of the machine that the machine file and its sources stand for.
fn prepare_debug<T: Store>(
    alloc: Global,
    files: &mut T,
    machine: &str,
    script: &str,
) -> Result<Vec<u8>, Fault>
    ensures same { T.files files.new ≡ T.files files.old }
    ensures store_count { NoneFell (T.ledger files.old) (T.ledger files.new) }
    ensures input { IfErr result IsOfInput }
    ensures cause { FailsBy (AtMachineOrScript machine.now script.now) (T.ledger files.old) (T.ledger files.new) result }
    ensures comes { ForSome (T.files files.old) (λ told.
        Comes told (debug_task machine.now script.now) (λ text. ready (text_of text.items)) (T.ledger files.old) (T.ledger files.new) result) }
{
    let setup = read_setup(alloc, files, machine)?;
    let bytes = read_file(alloc, files, FileId::Script, script, TEXT_LIMIT)?;
    match read_script(alloc, bytes.as_slice(), &setup) {
        Ok(script) => printed(alloc, setup, &script),
        Err(error) => Err(script_fault(error)),
    }
}

/// Does what `debug` asks for, with this machine file and this script: reads them and the sources, runs the script on the machine at its
/// start, and writes what it prints.
pub fn debug<T: Store, K: Sink>(
    alloc: Global,
    machine: &str,
    script: &str,
    files: &mut T,
    out: &mut K,
) -> Status
    ensures same { T.files files.new ≡ T.files files.old }
    ensures store_count { NoneFell (T.ledger files.old) (T.ledger files.new) }
    ensures sink_count { K.faults out.old ≤ K.faults out.new }

    // Where the store tells its files, each answer has its cause in them.
    ensures answer { ForSome (T.files files.old) (λ told.
        Answers told (debug_task machine.now script.now) (T.ledger files.old) (T.ledger files.new)
        (record { taken = K.taken out.old; faults = K.faults out.old }) (record { taken = K.taken out.new; faults = K.faults out.new }) result) }

    // Whatever it tells: a reading is said to fail only where it did, under the name of that file.
    ensures read_fault { ReadFails (AtMachineOrScript machine.now script.now) (T.ledger files.old) (T.ledger files.new) result }

    // A refusal leaves the sink as it was, but for WriteFault, which comes only where the sink's count rose.
    ensures quiet { IsQuiet (record { taken = K.taken out.old; faults = K.faults out.old }) (record { taken = K.taken out.new; faults = K.faults out.new }) result }

    ensures usage { result ≢ Status.Refused Fault.Usage }
{
    match prepare_debug(alloc, files, machine, script) {
        Ok(text) => write_text(text.as_slice(), out),
        Err(fault) => Status::Refused(fault),
    }
}
