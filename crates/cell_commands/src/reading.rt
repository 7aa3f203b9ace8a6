//! The files that the words name.

ghost use Rattle.std.specs.Prelude.{◌≡◌, ◌≤◌, ◌<◌, ◌^◌, [], ℕ, List, length, map, Err, IfOk, IfErr, OnOk};
ghost use Rattle.std.specs.Option.{ForSome};
ghost use Rattle.cell_io.specs.Store.{NoneFell, Rose};
ghost use Rattle.spu_asm.specs.Images.{Image};
ghost use Rattle.cell_load.specs.Entries.{Entry};
ghost use Rattle.cell_load.specs.Sources.{named};
ghost use Rattle.cell_machine.specs.Opening.{Opening};
ghost use Rattle.cell_commands.specs.Causes.{IsOfInput};
ghost use Rattle.cell_commands.specs.Task.{Task, read};
ghost use Rattle.cell_commands.specs.Answer.{Comes, FailsBy, AtFile, AtSources, AtMachine};
ghost use Rattle.cell_commands.specs.Forms.{source_task, sources_task, plan_task, planned_task, machine_task};

use crate::causes::{load_fault, plan_fault, source_fault};
use crate::fault::{Fault, FileId};
use cell_io::{FetchFault, Fetched, Store};
use cell_load::{Plan, SourceName, load, read_machine};
use cell_machine::Setup;
use spu_asm::{Image, assemble};
use std::alloc::Global;

/// How long a machine file, a source or a script may be, in bytes; so may the expectation files and pass files that hunt_command reads.
pub const TEXT_LIMIT: usize = 4_194_304;

/// How long a record file may be, in bytes, and a choice file of trace_commands.
pub const RECORD_LIMIT: usize = 33_554_432;

/// The bytes of a file, unless there are more than `limit`. It is short of memory only where the store was.
pub fn read_file<T: Store>(
    alloc: Global,
    files: &mut T,
    file: FileId,
    name: &str,
    limit: usize,
) -> Result<Vec<u8>, Fault>
    ensures same { T.files files.new ≡ T.files files.old }
    ensures store_count { NoneFell (T.ledger files.old) (T.ledger files.new) }
    ensures bound { IfOk result (λ bytes. length bytes.items ≤ limit) }
    ensures memory { result ≡ Err Fault.Memory → Rose (T.ledger files.old).short (T.ledger files.new).short }
    ensures kept { OnOk result (T.ledger files.new ≡ T.ledger files.old) }
    ensures input { IfErr result IsOfInput }
    ensures cause { FailsBy (AtFile file name.now) (T.ledger files.old) (T.ledger files.new) result }
    ensures comes { ForSome (T.files files.old) (λ told. (next : List ℕ → Task) →
        Comes told (read file name.now limit next) (λ bytes. next bytes.items) (T.ledger files.old) (T.ledger files.new) result) }
{
    let mut bytes = Vec::new(alloc);
    match files.fetch(alloc, name, limit, &mut bytes) {
        Ok(Fetched::Whole) => Ok(bytes),
        Ok(Fetched::TooLong) => Err(Fault::TooLong { file }),
        Err(FetchFault::Failed) => Err(Fault::ReadFault { file }),
        Err(FetchFault::Memory) => Err(Fault::Memory),
    }
}

/// The image of a source, of which the number is that of the file.
pub fn read_source<T: Store>(
    alloc: Global,
    files: &mut T,
    number: u32,
    name: &str,
) -> Result<Image, Fault>
    ensures same { T.files files.new ≡ T.files files.old }
    ensures store_count { NoneFell (T.ledger files.old) (T.ledger files.new) }
    ensures kept { OnOk result (T.ledger files.new ≡ T.ledger files.old) }
    ensures input { IfErr result IsOfInput }
    ensures cause { FailsBy (AtFile (FileId.Source number) name.now) (T.ledger files.old) (T.ledger files.new) result }
    ensures comes { ForSome (T.files files.old) (λ told. (next : Image → Task) →
        Comes told (source_task number name.now next) next (T.ledger files.old) (T.ledger files.new) result) }
{
    let file = FileId::Source(number);
    let text = read_file(alloc, files, file, name, TEXT_LIMIT)?;
    match assemble(alloc, text.as_slice()) {
        Ok(image) => Ok(image),
        Err(error) => Err(source_fault(file, error)),
    }
}

/// The images of the sources, in their order.
pub fn read_sources<T: Store>(
    alloc: Global,
    files: &mut T,
    sources: &[SourceName],
) -> Result<Vec<Image>, Fault>
    requires { length sources.now < 2 ^ 32 }
    ensures same { T.files files.new ≡ T.files files.old }
    ensures store_count { NoneFell (T.ledger files.old) (T.ledger files.new) }
    ensures kept { OnOk result (T.ledger files.new ≡ T.ledger files.old) }
    ensures count { IfOk result (λ images. length images.items ≡ length sources.now) }
    ensures input { IfErr result IsOfInput }
    ensures cause { FailsBy AtSources (T.ledger files.old) (T.ledger files.new) result }
    ensures comes { ForSome (T.files files.old) (λ told. (next : List Image → Task) →
        Comes told (sources_task 0 (map named sources.now) [] next) (λ images. next images.items) (T.ledger files.old) (T.ledger files.new) result) }
{
    let mut images = Vec::new(alloc);
    let mut number = 0;
    for source in sources {
        let image = read_source(alloc, files, number, source.name())?;
        match images.push(image) {
            Ok(()) => {}
            Err(_) => return Err(Fault::Memory),
        }
        number += 1;
    }
    Ok(images)
}

/// What a machine file says.
pub fn read_plan<T: Store>(alloc: Global, files: &mut T, name: &str) -> Result<Plan, Fault>
    ensures same { T.files files.new ≡ T.files files.old }
    ensures store_count { NoneFell (T.ledger files.old) (T.ledger files.new) }
    ensures kept { OnOk result (T.ledger files.new ≡ T.ledger files.old) }
    ensures input { IfErr result IsOfInput }
    ensures cause { FailsBy (AtFile FileId.Machine name.now) (T.ledger files.old) (T.ledger files.new) result }
    ensures comes { ForSome (T.files files.old) (λ told. (next : List Entry → Task) →
        Comes told (plan_task name.now next) next (T.ledger files.old) (T.ledger files.new) result) }
{
    let text = read_file(alloc, files, FileId::Machine, name, TEXT_LIMIT)?;
    match read_machine(alloc, text.as_slice()) {
        Ok(plan) => Ok(plan),
        Err(error) => Err(plan_fault(error)),
    }
}

/// The setup that the lines of a machine file and its sources stand for.
pub fn load_plan<T: Store>(alloc: Global, files: &mut T, plan: Plan) -> Result<Setup, Fault>
    ensures same { T.files files.new ≡ T.files files.old }
    ensures store_count { NoneFell (T.ledger files.old) (T.ledger files.new) }
    ensures kept { OnOk result (T.ledger files.new ≡ T.ledger files.old) }
    ensures input { IfErr result IsOfInput }
    ensures some { IfOk result (λ setup. 0 < length setup.entries) }
    ensures cause { FailsBy AtSources (T.ledger files.old) (T.ledger files.new) result }
    ensures comes { ForSome (T.files files.old) (λ told. (next : Opening → Task) →
        Comes told (planned_task plan next) next (T.ledger files.old) (T.ledger files.new) result) }
{
    let images = read_sources(alloc, files, plan.sources())?;
    match load(alloc, plan, images.as_slice()) {
        Ok(setup) => Ok(setup),
        Err(error) => Err(load_fault(error)),
    }
}

/// The setup that a machine file and its sources stand for.
pub fn read_setup<T: Store>(alloc: Global, files: &mut T, name: &str) -> Result<Setup, Fault>
    ensures same { T.files files.new ≡ T.files files.old }
    ensures store_count { NoneFell (T.ledger files.old) (T.ledger files.new) }
    ensures kept { OnOk result (T.ledger files.new ≡ T.ledger files.old) }
    ensures input { IfErr result IsOfInput }
    ensures some { IfOk result (λ setup. 0 < length setup.entries) }
    ensures cause { FailsBy (AtMachine name.now) (T.ledger files.old) (T.ledger files.new) result }
    ensures comes { ForSome (T.files files.old) (λ told. (next : Opening → Task) →
        Comes told (machine_task name.now next) next (T.ledger files.old) (T.ledger files.new) result) }
{
    let plan = read_plan(alloc, files, name)?;
    load_plan(alloc, files, plan)
}
