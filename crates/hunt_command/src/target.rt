//! The target of a hunt, read from the files that the words name.

ghost use Rattle.std.specs.Prelude.{◌≡◌, ◌<◌, length, IfOk, IfErr, OnOk};
ghost use Rattle.std.specs.Option.{ForSome};
ghost use Rattle.cell_io.specs.Store.{NoneFell};
ghost use Rattle.hunt_command.specs.Heard.{texts_of};
ghost use Rattle.hunt_command.specs.Files.{Comes, FailsBy, IsOfFiles, ExpectedComes, PassedComes, FileFailsBy};

use crate::fault::{Fault, FileId};
use crate::input::{Target, read_expectation, read_machine, read_pass};
use cell_io::Store;
use cell_machine::Setup;
use hunt_reports::{Asked, Places};
use std::alloc::Global;

/// The expected lines, if there is an expectation file.
fn expected_by<T: Store>(
    alloc: Global,
    files: &mut T,
    name: Option<&str>,
) -> Result<Vec<Vec<u8>>, Fault>
    ensures same { T.files files.new ≡ T.files files.old }
    ensures store_count { NoneFell (T.ledger files.old) (T.ledger files.new) }
    ensures kept { OnOk result (T.ledger files.new ≡ T.ledger files.old) }
    ensures input { IfErr result IsOfFiles }
    ensures cause { IfErr result (FileFailsBy FileId.Expect (texts_of name.entry) (T.ledger files.old) (T.ledger files.new)) }
    ensures comes { ForSome (T.files files.old) (λ told. ExpectedComes told (texts_of name.entry) result) }
{
    match name {
        Some(name) => read_expectation(alloc, files, name),
        None => Ok(Vec::new(alloc)),
    }
}

/// The keys of the suppressed races: none without a suppressions file.
fn passed_by<T: Store>(
    alloc: Global,
    files: &mut T,
    name: Option<&str>,
    setup: &Setup,
    places: &Places,
) -> Result<Vec<Vec<u8>>, Fault>
    ensures same { T.files files.new ≡ T.files files.old }
    ensures store_count { NoneFell (T.ledger files.old) (T.ledger files.new) }
    ensures kept { OnOk result (T.ledger files.new ≡ T.ledger files.old) }
    ensures input { IfErr result IsOfFiles }
    ensures cause { IfErr result (FileFailsBy FileId.Pass (texts_of name.entry) (T.ledger files.old) (T.ledger files.new)) }
    ensures comes { ForSome (T.files files.old) (λ told. PassedComes told (texts_of name.entry) setup.now places.now result) }
{
    match name {
        Some(name) => read_pass(alloc, files, name, setup, places),
        None => Ok(Vec::new(alloc)),
    }
}

/// The target of a hunt: reads the machine file and its sources, then the expectation file, then the suppressions file. With `warns` each run is
/// searched for warnings, too.
pub fn read_target<T: Store>(
    alloc: Global,
    files: &mut T,
    machine: &str,
    expect: Option<&str>,
    pass: Option<&str>,
    warns: bool,
) -> Result<Target, Fault>
    ensures same { T.files files.new ≡ T.files files.old }
    ensures store_count { NoneFell (T.ledger files.old) (T.ledger files.new) }
    ensures some { IfOk result (λ q. 0 < length q.setup.entries) }
    ensures input { IfErr result IsOfFiles }
    ensures cause { IfErr result (FailsBy machine.now (texts_of expect.entry) (texts_of pass.entry) (T.ledger files.old) (T.ledger files.new)) }
    ensures comes { ForSome (T.files files.old) (λ told.
        Comes told machine.now (texts_of expect.entry) (texts_of pass.entry) warns (T.ledger files.old) (T.ledger files.new) result) }
{
    let (setup, places) = read_machine(alloc, files, machine)?;
    let expected = expected_by(alloc, files, expect)?;
    let passed = passed_by(alloc, files, pass, &setup, &places)?;
    Ok(Target {
        setup,
        asked: Asked {
            places,
            expected,
            passed,
            warns,
        },
    })
}
