//! The machine that a machine file and its sources stand for, and the lines that place its words. Each file is read once.

ghost use Rattle.std.specs.Prelude.{◌≡◌, ◌≤◌, ◌<◌, ◌^◌, [], ◌∷◌, ◌++◌, ℕ, List, length, map, Some, IfOk, IfErr, OnOk};
ghost use Rattle.std.specs.Option.{ForSome};
ghost use Rattle.cell_io.specs.Files.{File};
ghost use Rattle.cell_io.specs.Store.{Ledger, NoneFell};
ghost use Rattle.spu_asm.specs.Assembling.{assembled};
ghost use Rattle.spu_asm.specs.Images.{Image};
ghost use Rattle.spu_asm.specs.Listings.{listed};
ghost use Rattle.spu_asm.specs.Outcomes.{Shows};
ghost use Rattle.cell_load.specs.Entries.{Entry};
ghost use Rattle.cell_load.specs.Loaded.{loaded};
ghost use Rattle.cell_load.specs.Sources.{named, sources_of};
ghost use Rattle.cell_machine.specs.Opening.{Opening};
ghost use Rattle.cell_commands.specs.Answer.{AtFile, AtMachine, AtSources, Comes, FailsBy};
ghost use Rattle.cell_commands.specs.Causes.{IsOfInput, load_fault_of, plan_fault_of, source_fault_of};
ghost use Rattle.cell_commands.specs.Forms.{machine_task, plan_task, planned_task, source_task, sources_task, with_setup};
ghost use Rattle.cell_commands.specs.Task.{Task};
ghost use Rattle.hunt_command.specs.Sources.{ArePlaces, AreSources, HasPlaces, IsMachineText, lines_listed, seen, source_lines, source_statements};
ghost use Rattle.hunt_command.specs.Statements.{statements_in};
ghost use Rattle.hunt_reports.specs.Lists.{bytes_in};

use crate::placings::placings_in;
use crate::statements::statements_in;
use cell_commands::{Fault, FileId, TEXT_LIMIT, read_file};
use cell_io::Store;
use cell_load::{LoadError, Plan, PlanError, SourceName, load, read_machine};
use cell_machine::Setup;
use hunt_reports::{Places, Source};
use spu_asm::{AsmError, Image, ListedLine, assemble, list};
use std::alloc::{AllocError, Global};

/// What a machine file says, and its text.
#[derive(Drop)]
struct Planned {
    text: Vec<u8>,
    plan: Plan,
}

/// The image of a source, the addresses of its lines, and their statements.
#[derive(Drop)]
struct Assembled {
    image: Image,
    lines: Vec<ListedLine>,
    statements: Vec<Vec<u8>>,
}

/// The images of the sources of a machine file, and their lines.
#[derive(Drop)]
struct Sources {
    images: Vec<Image>,
    listed: Vec<Source>,
}

fn plan_fault(error: PlanError) -> Fault
    ensures same { result ≡ plan_fault_of error }
    ensures input { IsOfInput result }
{
    match error {
        PlanError::BadLine { line } | PlanError::Limit { line } => Fault::Machine { line },
        PlanError::Memory => Fault::Memory,
    }
}

fn source_fault(file: FileId, error: AsmError) -> Fault
    ensures same { result ≡ source_fault_of file error }
    ensures input { IsOfInput result }
{
    match error {
        AsmError::At { line, kind } => Fault::Source { file, line, kind },
        AsmError::Memory => Fault::Memory,
    }
}

fn load_fault(error: LoadError) -> Fault
    ensures same { result ≡ load_fault_of error }
    ensures input { IsOfInput result }
{
    match error {
        LoadError::NotInTable { spe, address, word } => Fault::NotInTable { spe, address, word },
        LoadError::Memory => Fault::Memory,
    }
}

/// What a machine file says, and its text.
fn read_plan<T: Store>(alloc: Global, files: &mut T, name: &str) -> Result<Planned, Fault>
    ensures same { T.files files.new ≡ T.files files.old }
    ensures store_count { NoneFell (T.ledger files.old) (T.ledger files.new) }
    ensures kept { OnOk result (T.ledger files.new ≡ T.ledger files.old) }
    ensures input { IfErr result IsOfInput }
    ensures bound { IfOk result (λ p. length p.text.items ≤ 4194304) }
    ensures cause { FailsBy (AtFile FileId.Machine name.now) (T.ledger files.old) (T.ledger files.new) result }
    ensures comes { ForSome (T.files files.old) (λ told. (next : List Entry → Task) →
        Comes told (plan_task name.now next) (λ p. next p.plan) (T.ledger files.old) (T.ledger files.new) result) }
    ensures read { ForSome (T.files files.old) (λ told. IfOk result (λ p. IsMachineText told name.now p.text.items p.plan)) }
{
    let text = read_file(alloc, files, FileId::Machine, name, TEXT_LIMIT)?;
    match read_machine(alloc, text.as_slice()) {
        Ok(plan) => Ok(Planned { text, plan }),
        Err(error) => Err(plan_fault(error)),
    }
}

/// The image of a text, the addresses of its lines, and their statements.
fn assemble_lines(alloc: Global, text: &[u8]) -> Result<Assembled, AsmError>
    requires { length text.now ≤ 4194304 }
    ensures image { Shows (λ a. a.image) result (assembled text.now) }
    ensures lines { IfOk result (λ a. lines_listed (listed text.now) ≡ Some a.lines.items) }
    ensures statements { IfOk result (λ a. bytes_in a.statements.items ≡ statements_in text.now) }
{
    let image = assemble(alloc, text)?;
    let listing = list(alloc, text)?;
    let Ok(lines) = Vec::from_slice(alloc, listing.lines()) else {
        return Err(AsmError::Memory);
    };
    let Ok(statements) = statements_in(alloc, text) else {
        return Err(AsmError::Memory);
    };
    Ok(Assembled {
        image,
        lines,
        statements,
    })
}

/// The image of a source, of which the number is that of the file, the addresses of its lines, and their statements.
fn read_source<T: Store>(
    alloc: Global,
    files: &mut T,
    number: u32,
    name: &str,
) -> Result<Assembled, Fault>
    ensures same { T.files files.new ≡ T.files files.old }
    ensures store_count { NoneFell (T.ledger files.old) (T.ledger files.new) }
    ensures kept { OnOk result (T.ledger files.new ≡ T.ledger files.old) }
    ensures input { IfErr result IsOfInput }
    ensures cause { FailsBy (AtFile (FileId.Source number) name.now) (T.ledger files.old) (T.ledger files.new) result }
    ensures comes { ForSome (T.files files.old) (λ told. (next : Image → Task) →
        Comes told (source_task number name.now next) (λ a. next a.image) (T.ledger files.old) (T.ledger files.new) result) }
    ensures lines { ForSome (T.files files.old) (λ told. IfOk result (λ a. source_lines told name.now ≡ Some a.lines.items)) }
    ensures statements { ForSome (T.files files.old) (λ told. IfOk result (λ a. source_statements told name.now ≡ Some (bytes_in a.statements.items))) }
{
    let file = FileId::Source(number);
    let text = read_file(alloc, files, file, name, TEXT_LIMIT)?;
    match assemble_lines(alloc, text.as_slice()) {
        Ok(source) => Ok(source),
        Err(error) => Err(source_fault(file, error)),
    }
}

/// Keeps a source.
fn keep(
    alloc: Global,
    sources: &mut Sources,
    name: &str,
    source: Assembled,
) -> Result<(), AllocError>
    ensures images { OnOk result (sources.new.images.items ≡ sources.old.images.items ++ source.image ∷ []) }
    ensures listed { OnOk result (map seen sources.new.listed.items ≡ map seen sources.old.listed.items ++ record { name = name.now; lines = source.lines.items; statements = bytes_in source.statements.items } ∷ []) }
{
    let Assembled {
        image,
        lines,
        statements,
    } = source;
    let name = Vec::from_slice(alloc, name.as_bytes())?;
    sources.images.push(image)?;
    sources.listed.push(Source {
        name,
        lines,
        statements,
    })?;
    Ok(())
}

/// The images of the sources, and their lines, in their order.
fn read_sources<T: Store>(
    alloc: Global,
    files: &mut T,
    names: &[SourceName],
) -> Result<Sources, Fault>
    requires { length names.now < 2 ^ 32 }
    ensures same { T.files files.new ≡ T.files files.old }
    ensures store_count { NoneFell (T.ledger files.old) (T.ledger files.new) }
    ensures kept { OnOk result (T.ledger files.new ≡ T.ledger files.old) }
    ensures count { IfOk result (λ s. length s.images.items ≡ length names.now) }
    ensures input { IfErr result IsOfInput }
    ensures cause { FailsBy AtSources (T.ledger files.old) (T.ledger files.new) result }
    ensures comes { ForSome (T.files files.old) (λ told. (next : List Image → Task) →
        Comes told (sources_task 0 (map named names.now) [] next) (λ s. next s.images.items) (T.ledger files.old) (T.ledger files.new) result) }
    ensures listed { ForSome (T.files files.old) (λ told. IfOk result (λ s. AreSources told (map named names.now) s.listed.items)) }
{
    let mut sources = Sources {
        images: Vec::new(alloc),
        listed: Vec::new(alloc),
    };
    let mut number = 0;
    for source in names {
        let name = source.name();
        let read = read_source(alloc, files, number, name)?;
        match keep(alloc, &mut sources, name, read) {
            Ok(()) => {}
            Err(_) => return Err(Fault::Memory),
        }
        number += 1;
    }
    Ok(sources)
}

/// The setup that a plan and the images of its sources stand for.
fn loaded(alloc: Global, plan: Plan, images: &[Image]) -> Result<Setup, Fault>
    requires { length images.now ≡ length (sources_of plan) }
    ensures some { IfOk result (λ setup. 0 < length setup.entries) }
    ensures input { IfErr result IsOfInput }
    ensures cause { (old new : Ledger) → FailsBy AtSources old new result }
    ensures comes { (files : List File) (old new : Ledger) (next : Opening → Task) → Comes files (with_setup (loaded plan images.now) next) next old new result }
{
    match load(alloc, plan, images) {
        Ok(setup) => Ok(setup),
        Err(error) => Err(load_fault(error)),
    }
}

/// The setup that the lines of a machine file and its sources stand for, and which line places each of its words.
fn load_sources<T: Store>(
    alloc: Global,
    files: &mut T,
    planned: Planned,
) -> Result<(Setup, Places), Fault>
    requires { length planned.text.items ≤ 4194304 }
    ensures same { T.files files.new ≡ T.files files.old }
    ensures store_count { NoneFell (T.ledger files.old) (T.ledger files.new) }
    ensures kept { OnOk result (T.ledger files.new ≡ T.ledger files.old) }
    ensures some { IfOk result (λ m. 0 < length m.0.entries) }
    ensures input { IfErr result IsOfInput }
    ensures cause { FailsBy AtSources (T.ledger files.old) (T.ledger files.new) result }
    ensures comes { ForSome (T.files files.old) (λ told. (next : Opening → Task) →
        Comes told (planned_task planned.plan next) (λ m. next m.0) (T.ledger files.old) (T.ledger files.new) result) }
    ensures places { ForSome (T.files files.old) (λ told. IfOk result (λ m. ArePlaces told planned.text.items planned.plan m.1)) }
{
    let sources = read_sources(alloc, files, planned.plan.sources())?;
    let Planned { text, plan } = planned;
    let Ok(placings) = placings_in(alloc, text.as_slice()) else {
        return Err(Fault::Memory);
    };
    let setup = loaded(alloc, plan, sources.images.as_slice())?;
    let Sources { listed, .. } = sources;
    Ok((
        setup,
        Places {
            placings,
            sources: listed,
        },
    ))
}

/// The setup that a machine file and its sources stand for, and which line places each of its words.
pub fn read_places<T: Store>(
    alloc: Global,
    files: &mut T,
    name: &str,
) -> Result<(Setup, Places), Fault>
    ensures same { T.files files.new ≡ T.files files.old }
    ensures store_count { NoneFell (T.ledger files.old) (T.ledger files.new) }
    ensures kept { OnOk result (T.ledger files.new ≡ T.ledger files.old) }
    ensures some { IfOk result (λ m. 0 < length m.0.entries) }
    ensures input { IfErr result IsOfInput }
    ensures cause { FailsBy (AtMachine name.now) (T.ledger files.old) (T.ledger files.new) result }
    ensures comes { ForSome (T.files files.old) (λ told. (next : Opening → Task) →
        Comes told (machine_task name.now next) (λ m. next m.0) (T.ledger files.old) (T.ledger files.new) result) }
    ensures places { ForSome (T.files files.old) (λ told. IfOk result (λ m. HasPlaces told name.now m.1)) }
{
    let planned = read_plan(alloc, files, name)?;
    load_sources(alloc, files, planned)
}
