//! The form `permute`: the run of a record file is made again in another order, and its record and states are written.

ghost use Rattle.std.specs.Prelude.{◌≡◌, ◌≢◌, ◌≤◌, IfErr, IfOk, true};
ghost use Rattle.std.specs.Option.{ForSome};
ghost use Rattle.cell_io.specs.Store.{NoneFell};
ghost use Rattle.race_check.specs.Races.{IsVerdict};
ghost use Rattle.run_permute.specs.Nth.{EndsAlike, IsReordered};
ghost use Rattle.reorder_laws.specs.Settled.{IsSettled};
ghost use Rattle.cell_commands.specs.Task.{reordering_of};
ghost use Rattle.cell_commands.specs.Forms.{permute_task};
ghost use Rattle.cell_commands.specs.Judging.{IsJudged, LooksAt};
ghost use Rattle.cell_commands.specs.Reordered.{IsUnsettledOrMemory};
ghost use Rattle.cell_commands.specs.Answer.{Answers, AtMachineOrRecord, Ends, IsQuiet, ReadFails};

use crate::check::{put_verdict, read_run};
use crate::fault::{Fault, Status};
use crate::judging::Judged;
use crate::looks::Looks;
use crate::run::write_run;
use cell_io::{Sink, Store};
use cell_machine::Machine;
use race_check::Verdict;
use run_permute::permute_by_needs;
use std::alloc::Global;

/// The machine that makes the run in the order of the number, where the run is settled.
fn reordered(alloc: Global, machine: &Machine, looks: &Looks, n: u32) -> Result<Machine, Fault>
    requires accepted { IsVerdict machine.now Verdict.Accepted }
    requires looks { LooksAt machine.now looks.now }
    ensures settled { IfOk result (λ _. IsSettled machine.now) }
    ensures reordered { IfOk result (IsReordered machine.now n) }
    ensures ends { IfOk result (EndsAlike machine.now) }
    ensures refused { IfErr result (IsUnsettledOrMemory machine.now) }
{
    if !looks.settling.is_settled(machine) {
        return Err(Fault::NotSettled);
    }
    match permute_by_needs(alloc, machine, &looks.needs, n) {
        Ok(again) => Ok(again),
        Err(_) => Err(Fault::Memory),
    }
}

/// Writes the record and the states of the run, which has no race, in the order of the number.
fn write_reordered<K: Sink>(
    alloc: Global,
    machine: &Machine,
    looks: &Looks,
    n: u32,
    out: &mut K,
) -> Status
    requires accepted { IsVerdict machine.now Verdict.Accepted }
    requires looks { LooksAt machine.now looks.now }
    ensures sink_count { K.faults out.old ≤ K.faults out.new }
    ensures ends { Ends (reordering_of machine.now n) (record { taken = K.taken out.old; faults = K.faults out.old }) (record { taken = K.taken out.new; faults = K.faults out.new }) result }
{
    let _run = machine.steps(); // which are a run, as its contract says
    match reordered(alloc, machine, looks, n) {
        Ok(again) => write_run(alloc, &again, out),
        Err(fault) => Status::Refused(fault),
    }
}

/// Writes the verdict on the run where it has a race, or else the run in the order of the number.
fn write_reordering<K: Sink>(alloc: Global, judged: &Judged, n: u32, out: &mut K) -> Status
    requires { IsJudged true judged.now }
    ensures sink_count { K.faults out.old ≤ K.faults out.new }
    ensures ends { Ends (reordering_of judged.now.machine n) (record { taken = K.taken out.old; faults = K.faults out.old }) (record { taken = K.taken out.new; faults = K.faults out.new }) result }
{
    let machine = &judged.machine;
    match judged.verdict {
        Verdict::Accepted => {
            let Some(looks) = &judged.looks else {
                unreachable!()
            };
            write_reordered(alloc, machine, looks, n, out)
        }
        Verdict::Race { .. } => put_verdict(alloc, machine, judged.verdict, out),
    }
}

/// Does what `permute` asks for, with this machine file, this record file and this number: goes as `check` does, and writes the verdict where the
/// run has a race, and else, where it is settled, the record and the states of the run in the order of the number.
pub fn permute<T: Store, K: Sink>(
    alloc: Global,
    machine: &str,
    record_file: &str,
    n: u32,
    files: &mut T,
    out: &mut K,
) -> Status
    ensures same { T.files files.new ≡ T.files files.old }
    ensures store_count { NoneFell (T.ledger files.old) (T.ledger files.new) }
    ensures sink_count { K.faults out.old ≤ K.faults out.new }

    // Where the store tells its files, each answer has its cause in them.
    ensures answer { ForSome (T.files files.old) (λ told.
        Answers told (permute_task machine.now record_file.now n) (T.ledger files.old) (T.ledger files.new)
        (record { taken = K.taken out.old; faults = K.faults out.old }) (record { taken = K.taken out.new; faults = K.faults out.new }) result) }

    // Whatever it tells: a reading is said to fail only where it did, under the name of that file.
    ensures read_fault { ReadFails (AtMachineOrRecord machine.now record_file.now) (T.ledger files.old) (T.ledger files.new) result }

    // A refusal leaves the sink as it was, but for WriteFault, which comes only where the sink's count rose.
    ensures quiet { IsQuiet (record { taken = K.taken out.old; faults = K.faults out.old }) (record { taken = K.taken out.new; faults = K.faults out.new }) result }

    ensures usage { result ≢ Status.Refused Fault.Usage }
{
    match read_run(alloc, files, machine, record_file, true) {
        Ok(judged) => write_reordering(alloc, &judged, n, out),
        Err(fault) => Status::Refused(fault),
    }
}
