//! The form `check`: a record file is read back, and searched for races.

ghost use Rattle.std.specs.Prelude.{◌≡◌, ◌≢◌, ◌≤◌, IfErr, IfOk};
ghost use Rattle.std.specs.Option.{ForSome};
ghost use Rattle.cell_io.specs.Store.{NoneFell};
ghost use Rattle.cell_commands.specs.Causes.{IsOfInput};
ghost use Rattle.cell_machine.specs.Run.{Ran};
ghost use Rattle.race_check.specs.Races.{IsVerdict};
ghost use Rattle.race_check.specs.Reorderings.{EveryReorderingAgrees};
ghost use Rattle.cell_commands.specs.Judging.{IsJudged};
ghost use Rattle.cell_commands.specs.Task.{ready, verdict_of, Work};
ghost use Rattle.cell_commands.specs.Forms.{check_task, recorded_task};
ghost use Rattle.cell_commands.specs.Answer.{Answers, AtMachineOrRecord, Comes, Ends, FailsBy, IsQuiet, ReadFails};

use crate::checking::check_record;
use crate::fault::{Fault, FileId, Status};
use crate::judging::Judged;
use crate::reading::{RECORD_LIMIT, read_file, read_setup};
use cell_io::{Sink, SinkFault, Store};
use cell_machine::Machine;
use cell_report::verdict_text;
use race_check::Verdict;
use std::alloc::Global;

/// The run that the record file has, judged.
pub fn read_run<T: Store>(
    alloc: Global,
    files: &mut T,
    machine: &str,
    record_file: &str,
    reorders: bool,
) -> Result<Judged, Fault>
    ensures same { T.files files.new ≡ T.files files.old }
    ensures store_count { NoneFell (T.ledger files.old) (T.ledger files.new) }
    ensures input { IfErr result IsOfInput }
    ensures cause { FailsBy (AtMachineOrRecord machine.now record_file.now) (T.ledger files.old) (T.ledger files.new) result }
    ensures judged { IfOk result (IsJudged reorders) }
    ensures comes { ForSome (T.files files.old) (λ told.
        (work : Ran → Work) → Comes told (recorded_task machine.now record_file.now work) (λ judged. ready (work judged.machine)) (T.ledger files.old) (T.ledger files.new) result) }
{
    let setup = read_setup(alloc, files, machine)?;
    let bytes = read_file(alloc, files, FileId::Rec, record_file, RECORD_LIMIT)?;
    check_record(alloc, &setup, bytes.as_slice(), reorders)
}

/// Writes the verdict on the machine's run. Its text is made before anything is put.
pub fn put_verdict<K: Sink>(
    alloc: Global,
    machine: &Machine,
    verdict: Verdict,
    out: &mut K,
) -> Status
    requires verdict { IsVerdict machine.now verdict }
    requires agree { verdict ≡ Verdict.Accepted → EveryReorderingAgrees machine.now }
    ensures sink_count { K.faults out.old ≤ K.faults out.new }
    ensures ends { Ends (verdict_of machine.now) (record { taken = K.taken out.old; faults = K.faults out.old }) (record { taken = K.taken out.new; faults = K.faults out.new }) result }
{
    let Ok(text) = verdict_text(alloc, machine, verdict) else {
        return Status::Refused(Fault::Memory);
    };
    match out.put(text.as_slice()) {
        Ok(()) => Status::from(verdict),
        Err(SinkFault) => Status::Refused(Fault::WriteFault),
    }
}

/// Does what `check` asks for, with this machine file and this record file: reads them and the sources, makes the steps of the record
/// and looks for races, compares the states, and writes the verdict.
pub fn check<T: Store, K: Sink>(
    alloc: Global,
    machine: &str,
    record_file: &str,
    files: &mut T,
    out: &mut K,
) -> Status
    ensures same { T.files files.new ≡ T.files files.old }
    ensures store_count { NoneFell (T.ledger files.old) (T.ledger files.new) }
    ensures sink_count { K.faults out.old ≤ K.faults out.new }

    // Where the store tells its files, each answer has its cause in them.
    ensures answer { ForSome (T.files files.old) (λ told.
        Answers told (check_task machine.now record_file.now) (T.ledger files.old) (T.ledger files.new)
        (record { taken = K.taken out.old; faults = K.faults out.old }) (record { taken = K.taken out.new; faults = K.faults out.new }) result) }

    // Whatever it tells: a reading is said to fail only where it did, under the name of that file.
    ensures read_fault { ReadFails (AtMachineOrRecord machine.now record_file.now) (T.ledger files.old) (T.ledger files.new) result }

    // A refusal leaves the sink as it was, but for WriteFault, which comes only where the sink's count rose.
    ensures quiet { IsQuiet (record { taken = K.taken out.old; faults = K.faults out.old }) (record { taken = K.taken out.new; faults = K.faults out.new }) result }

    ensures usage { result ≢ Status.Refused Fault.Usage }
{
    match read_run(alloc, files, machine, record_file, false) {
        Ok(judged) => put_verdict(alloc, &judged.machine, judged.verdict, out),
        Err(fault) => Status::Refused(fault),
    }
}
