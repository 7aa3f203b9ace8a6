//! All that the program does.

ghost use Rattle.std.specs.Prelude.{map, string_bytes};
ghost use Rattle.cell_commands.specs.Words.{spoken, AsksForNoRun};
ghost use Rattle.cell_commands.specs.Promises.{Promises};

use crate::asm::asm;
use crate::check::check;
use crate::debug::debug;
use crate::fault::{Fault, Status};
use crate::generated::run_generated;
use crate::permute::permute;
use crate::run::run;
use crate::words::{Form, form_of};
use cell_io::{Sink, Store};
use spe_workers::Gate;
use std::alloc::Global;
use std::sync::Wait;
use std::thread::Threads;

/// Does what `cell` does with words that ask for no run, with no thread: it is sure to return.
pub fn cell_quiet<T: Store, K: Sink>(
    alloc: Global,
    words: &[String],
    files: &mut T,
    out: &mut K,
) -> Status
    requires { AsksForNoRun (spoken (map string_bytes words.now)) }
    ensures { Promises (spoken (map string_bytes words.now))
        (record { files = T.files files.old; ledger = T.ledger files.old }) (record { files = T.files files.new; ledger = T.ledger files.new })
        (record { taken = K.taken out.old; faults = K.faults out.old }) (record { taken = K.taken out.new; faults = K.faults out.new }) result }
{
    match form_of(words) {
        Form::Check {
            machine,
            record_file,
        } => check(alloc, machine, record_file, files, out),
        Form::Asm { source } => asm(alloc, source, files, out),
        Form::Debug { machine, script } => debug(alloc, machine, script, files, out),
        Form::Permute {
            machine,
            record_file,
            n,
        } => permute(alloc, machine, record_file, n, files, out),
        Form::Run { .. } | Form::Gen { .. } => unreachable!(),
        Form::NoForm => Status::Refused(Fault::Usage),
    }
}

/// Does what the words ask for: reads files, and writes to the sink. Refusals are tried in this order: the words, the number of `gen`, the machine
/// file (read, length, form), each source in turn (read, length, assembling), the instruction words, the record file (read, length, form,
/// steps, states) or the script (read, length, form), a run to reorder that isn't settled, the output. A race is told only where nothing of the
/// files refuses, and answered once its verdict is written. Nothing is written before the output.
pub fn cell<R: Threads + Wait + Sync, T: Store, K: Sink, G: Gate + Sync>(
    rt: &R,
    alloc: Global,
    words: &[String],
    files: &mut T,
    out: &mut K,
    gate: &G,
) -> Status
    ensures { Promises (spoken (map string_bytes words.now))
        (record { files = T.files files.old; ledger = T.ledger files.old }) (record { files = T.files files.new; ledger = T.ledger files.new })
        (record { taken = K.taken out.old; faults = K.faults out.old }) (record { taken = K.taken out.new; faults = K.faults out.new }) result }
{
    match form_of(words) {
        Form::Run { machine } => run(rt, alloc, machine, files, out, gate),
        Form::Gen { n } => run_generated(rt, alloc, n, out, gate),
        _ => cell_quiet(alloc, words, files, out),
    }
}
