//! The files that the words name.

ghost use Rattle.std.specs.Prelude.{◌≡◌, ◌≤◌, ◌<◌, ◌+◌, ◌++◌, ◌∷◌, [], length, map, IfOk, OnOk, IfErr};
ghost use Rattle.std.specs.Option.{ForSome};
ghost use Rattle.cell_io.specs.Store.{NoneFell};
ghost use Rattle.hunt_reports.specs.Lists.{bytes_in};
ghost use Rattle.hunt_reports.specs.Places.{key_of};
ghost use Rattle.hunt_command.specs.Files.{told_as, FileComes, FileFails, IsOfFiles, MachineComes, ExpectComes, PassComes, FailsAt};

use crate::expected::read_expected;
use crate::fault::{Fault, FileId};
use crate::passes::{PassError, read_passes};
use crate::sources::read_places;
use cell_commands::{Fault as InputFault, TEXT_LIMIT};
use cell_hunt::Sites;
use cell_io::{FetchFault, Fetched, Store};
use cell_machine::Setup;
use hunt_reports::{Asked, Places, put_key};
use std::alloc::{AllocError, Global};

/// The target of a hunt: a machine, and what is asked of each run.
#[derive(Drop)]
pub struct Target {
    pub setup: Setup,
    pub asked: Asked,
}

/// The refusal of the machine file or of a source as one of this crate.
fn fault_of(fault: InputFault) -> Fault
    ensures told { result ≡ told_as fault }
    ensures input { IsOfFiles result }
{
    match fault {
        InputFault::Memory => Fault::Memory,
        fault => Fault::Machine(fault),
    }
}

/// The machine that the machine file and its sources stand for, and which line places each of its words.
pub fn read_machine<T: Store>(
    alloc: Global,
    files: &mut T,
    name: &str,
) -> Result<(Setup, Places), Fault>
    ensures same { T.files files.new ≡ T.files files.old }
    ensures store_count { NoneFell (T.ledger files.old) (T.ledger files.new) }
    ensures kept { OnOk result (T.ledger files.new ≡ T.ledger files.old) }
    ensures some { IfOk result (λ m. 0 < length m.0.entries) }
    ensures input { IfErr result IsOfFiles }
    ensures cause { IfErr result (FailsAt name.now (T.ledger files.old) (T.ledger files.new)) }
    ensures comes { ForSome (T.files files.old) (λ told. MachineComes told name.now (T.ledger files.old) (T.ledger files.new) result) }
{
    match read_places(alloc, files, name) {
        Ok(machine) => Ok(machine),
        Err(fault) => Err(fault_of(fault)),
    }
}

/// The text of the file of an option.
fn read_text<T: Store>(
    alloc: Global,
    files: &mut T,
    file: FileId,
    name: &str,
) -> Result<Vec<u8>, Fault>
    ensures same { T.files files.new ≡ T.files files.old }
    ensures store_count { NoneFell (T.ledger files.old) (T.ledger files.new) }
    ensures kept { OnOk result (T.ledger files.new ≡ T.ledger files.old) }
    ensures bound { IfOk result (λ bytes. length bytes.items ≤ 4194304) }
    ensures input { IfErr result IsOfFiles }
    ensures cause { IfErr result (FileFails file name.now (T.ledger files.old) (T.ledger files.new)) }
    ensures comes { ForSome (T.files files.old) (λ told. FileComes told file name.now result) }
{
    let mut bytes = Vec::new(alloc);
    match files.fetch(alloc, name, TEXT_LIMIT, &mut bytes) {
        Ok(Fetched::Whole) => Ok(bytes),
        Ok(Fetched::TooLong) => Err(Fault::TooLong { file }),
        Err(FetchFault::Failed) => Err(Fault::ReadFault { file }),
        Err(FetchFault::Memory) => Err(Fault::Memory),
    }
}

/// The lines that are expected.
pub fn read_expectation<T: Store>(
    alloc: Global,
    files: &mut T,
    name: &str,
) -> Result<Vec<Vec<u8>>, Fault>
    ensures same { T.files files.new ≡ T.files files.old }
    ensures store_count { NoneFell (T.ledger files.old) (T.ledger files.new) }
    ensures kept { OnOk result (T.ledger files.new ≡ T.ledger files.old) }
    ensures input { IfErr result IsOfFiles }
    ensures cause { IfErr result (FileFails FileId.Expect name.now (T.ledger files.old) (T.ledger files.new)) }
    ensures comes { ForSome (T.files files.old) (λ told. ExpectComes told name.now result) }
{
    let text = read_text(alloc, files, FileId::Expect, name)?;
    match read_expected(alloc, text.as_slice()) {
        Ok(expected) => Ok(expected),
        Err(_) => Err(Fault::Memory),
    }
}

/// Adds the key of a race.
fn add_key(
    alloc: Global,
    keys: &mut Vec<Vec<u8>>,
    places: &Places,
    race: Sites,
) -> Result<(), AllocError>
    ensures { OnOk result (bytes_in keys.new.items ≡ bytes_in keys.old.items ++ key_of places.now race ∷ []) }
{
    let mut key = Vec::new(alloc);
    put_key(alloc, &mut key, places, race)?;
    keys.push(key)?;
    Ok(())
}

/// The keys of races.
fn keys_of(alloc: Global, places: &Places, races: &[Sites]) -> Result<Vec<Vec<u8>>, AllocError>
    ensures { IfOk result (λ keys. bytes_in keys.items ≡ map (key_of places.now) races.now) }
{
    let mut keys = Vec::new(alloc);
    for race in races {
        add_key(alloc, &mut keys, places, *race)?;
    }
    Ok(keys)
}

/// The keys of the races that are left out.
pub fn read_pass<T: Store>(
    alloc: Global,
    files: &mut T,
    name: &str,
    setup: &Setup,
    places: &Places,
) -> Result<Vec<Vec<u8>>, Fault>
    ensures same { T.files files.new ≡ T.files files.old }
    ensures store_count { NoneFell (T.ledger files.old) (T.ledger files.new) }
    ensures kept { OnOk result (T.ledger files.new ≡ T.ledger files.old) }
    ensures input { IfErr result IsOfFiles }
    ensures cause { IfErr result (FileFails FileId.Pass name.now (T.ledger files.old) (T.ledger files.new)) }
    ensures comes { ForSome (T.files files.old) (λ told. PassComes told name.now setup.now places.now result) }
{
    let text = read_text(alloc, files, FileId::Pass, name)?;
    let races = match read_passes(alloc, setup, places, text.as_slice()) {
        Ok(races) => races,
        Err(PassError::BadLine { line }) => return Err(Fault::Pass { line }),
        Err(PassError::Memory) => return Err(Fault::Memory),
    };
    match keys_of(alloc, places, races.as_slice()) {
        Ok(keys) => Ok(keys),
        Err(_) => Err(Fault::Memory),
    }
}
