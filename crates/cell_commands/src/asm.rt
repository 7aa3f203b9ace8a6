//! The form `asm`: a source is assembled, and its image is written.

ghost use Rattle.std.specs.Prelude.{◌≡◌, ◌≢◌, ◌≤◌, IfErr};
ghost use Rattle.std.specs.Option.{ForSome};
ghost use Rattle.cell_io.specs.Store.{NoneFell};
ghost use Rattle.cell_commands.specs.Causes.{IsOfInput};
ghost use Rattle.cell_commands.specs.Task.{ready, text_of};
ghost use Rattle.cell_commands.specs.Forms.{asm_task};
ghost use Rattle.cell_commands.specs.Answer.{Answers, AtFile, Comes, Ends, FailsBy, IsQuiet, ReadFails};

use crate::fault::{Fault, FileId, Status};
use crate::reading::read_source;
use cell_io::{Sink, SinkFault, Store};
use cell_report::image_text;
use std::alloc::Global;

/// The image's text.
fn prepare_asm<T: Store>(alloc: Global, files: &mut T, source: &str) -> Result<Vec<u8>, Fault>
    ensures same { T.files files.new ≡ T.files files.old }
    ensures store_count { NoneFell (T.ledger files.old) (T.ledger files.new) }
    ensures input { IfErr result IsOfInput }
    ensures cause { FailsBy (AtFile (FileId.Source 0) source.now) (T.ledger files.old) (T.ledger files.new) result }
    ensures comes { ForSome (T.files files.old) (λ told.
        Comes told (asm_task source.now) (λ text. ready (text_of text.items)) (T.ledger files.old) (T.ledger files.new) result) }
{
    let image = read_source(alloc, files, 0, source)?;
    let Ok(text) = image_text(alloc, &image) else {
        return Err(Fault::Memory);
    };
    Ok(text)
}

/// Puts a text that is the work.
pub fn write_text<K: Sink>(text: &[u8], out: &mut K) -> Status
    ensures sink_count { K.faults out.old ≤ K.faults out.new }
    ensures ends { Ends (text_of text.now) (record { taken = K.taken out.old; faults = K.faults out.old }) (record { taken = K.taken out.new; faults = K.faults out.new }) result }
{
    match out.put(text) {
        Ok(()) => Status::Done,
        Err(SinkFault) => Status::Refused(Fault::WriteFault),
    }
}

/// Does what `asm` asks for, with this source: reads it, assembles it, and writes the image's text.
pub fn asm<T: Store, K: Sink>(alloc: Global, source: &str, files: &mut T, out: &mut K) -> Status
    ensures same { T.files files.new ≡ T.files files.old }
    ensures store_count { NoneFell (T.ledger files.old) (T.ledger files.new) }
    ensures sink_count { K.faults out.old ≤ K.faults out.new }

    // Where the store tells its files, each answer has its cause in them.
    ensures answer { ForSome (T.files files.old) (λ told.
        Answers told (asm_task source.now) (T.ledger files.old) (T.ledger files.new)
        (record { taken = K.taken out.old; faults = K.faults out.old }) (record { taken = K.taken out.new; faults = K.faults out.new }) result) }

    // Whatever it tells: a reading is said to fail only where it did, under the name of that file.
    ensures read_fault { ReadFails (AtFile (FileId.Source 0) source.now) (T.ledger files.old) (T.ledger files.new) result }

    // A refusal leaves the sink as it was, but for WriteFault, which comes only where the sink's count rose.
    ensures quiet { IsQuiet (record { taken = K.taken out.old; faults = K.faults out.old }) (record { taken = K.taken out.new; faults = K.faults out.new }) result }

    ensures usage { result ≢ Status.Refused Fault.Usage }
{
    match prepare_asm(alloc, files, source) {
        Ok(text) => write_text(text.as_slice(), out),
        Err(fault) => Status::Refused(fault),
    }
}
