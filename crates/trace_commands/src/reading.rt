//! The machine file and the record file that the words name.

ghost use Rattle.std.specs.Prelude.{◌≡◌, IfErr, IfOk, OnOk};
ghost use Rattle.std.specs.Option.{ForSome};
ghost use Rattle.cell_io.specs.Store.{NoneFell};
ghost use Rattle.trace_commands.specs.Code.{told_as};
ghost use Rattle.trace_commands.specs.Choices.{start};
ghost use Rattle.trace_commands.specs.Files.{FailsAtMachine, FailsAtRecord, IsOfFiles, MachineComes, ReadsRecord, RecordComes};

use crate::fault::Fault;
use cell_commands::{Fault as InputFault, FileId, RECORD_LIMIT, read_file, read_setup};
use cell_io::Store;
use cell_machine::Machine;
use run_record::{RecordError, Recorded, read_record};
use std::alloc::Global;

/// What a refusal of the machine file, of a source or of the record file is called here.
pub fn fault_of(fault: InputFault) -> Fault
    ensures told { result ≡ told_as fault }
    ensures input { IsOfFiles result }
{
    match fault {
        InputFault::Memory => Fault::Memory,
        fault => Fault::Input(fault),
    }
}

/// The machine at its start that a machine file and its sources stand for.
pub fn read_start<T: Store>(alloc: Global, files: &mut T, name: &str) -> Result<Machine, Fault>
    ensures same { T.files files.new ≡ T.files files.old }
    ensures store_count { NoneFell (T.ledger files.old) (T.ledger files.new) }
    ensures kept { OnOk result (T.ledger files.new ≡ T.ledger files.old) }
    ensures starts { IfOk result (λ m. m ≡ start m.setup) }
    ensures input { IfErr result IsOfFiles }
    ensures cause { IfErr result (FailsAtMachine name.now (T.ledger files.old) (T.ledger files.new)) }
    ensures comes { ForSome (T.files files.old) (λ told. MachineComes told name.now (T.ledger files.old) (T.ledger files.new) result) }
{
    let setup = match read_setup(alloc, files, name) {
        Ok(setup) => setup,
        Err(fault) => return Err(fault_of(fault)),
    };
    match Machine::new(alloc, setup) {
        Ok(machine) => Ok(machine),
        Err(_) => Err(Fault::Memory),
    }
}

/// The record at the front of a text.
fn recorded_in(alloc: Global, text: &[u8]) -> Result<Recorded, Fault>
    ensures { ReadsRecord text.now result }
{
    match read_record(alloc, text) {
        Ok(recorded) => Ok(recorded),
        Err(RecordError::BadLine { line }) => Err(Fault::Input(InputFault::BadRecord { line })),
        Err(RecordError::Memory) => Err(Fault::Memory),
    }
}

/// The record at the front of a record file.
pub fn read_recorded<T: Store>(alloc: Global, files: &mut T, name: &str) -> Result<Recorded, Fault>
    ensures same { T.files files.new ≡ T.files files.old }
    ensures store_count { NoneFell (T.ledger files.old) (T.ledger files.new) }
    ensures kept { OnOk result (T.ledger files.new ≡ T.ledger files.old) }
    ensures input { IfErr result IsOfFiles }
    ensures cause { IfErr result (FailsAtRecord name.now (T.ledger files.old) (T.ledger files.new)) }
    ensures comes { ForSome (T.files files.old) (λ told. RecordComes told name.now (T.ledger files.old) (T.ledger files.new) result) }
{
    let text = match read_file(alloc, files, FileId::Rec, name, RECORD_LIMIT) {
        Ok(text) => text,
        Err(fault) => return Err(fault_of(fault)),
    };
    recorded_in(alloc, text.as_slice())
}
