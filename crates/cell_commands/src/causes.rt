//! What a refusal of a layer is called here.

ghost use Rattle.std.specs.Prelude.{◌≡◌};
ghost use Rattle.cell_commands.specs.Causes.{plan_fault_of, source_fault_of, load_fault_of, record_fault_of, script_fault_of, gen_fault_of, IsOfInput};

use crate::fault::{Fault, FileId};
use cell_debug::ScriptError;
use cell_gen::GenError;
use cell_load::{LoadError, PlanError};
use run_record::RecordError;
use spu_asm::AsmError;

pub fn plan_fault(error: PlanError) -> Fault
    ensures same { result ≡ plan_fault_of error }
    ensures input { IsOfInput result }
{
    match error {
        PlanError::BadLine { line } | PlanError::Limit { line } => Fault::Machine { line },
        PlanError::Memory => Fault::Memory,
    }
}

pub fn source_fault(file: FileId, error: AsmError) -> Fault
    ensures same { result ≡ source_fault_of file error }
    ensures input { IsOfInput result }
{
    match error {
        AsmError::At { line, kind } => Fault::Source { file, line, kind },
        AsmError::Memory => Fault::Memory,
    }
}

pub fn load_fault(error: LoadError) -> Fault
    ensures same { result ≡ load_fault_of error }
    ensures input { IsOfInput result }
{
    match error {
        LoadError::NotInTable { spe, address, word } => Fault::NotInTable { spe, address, word },
        LoadError::Memory => Fault::Memory,
    }
}

pub fn record_fault(error: RecordError) -> Fault
    ensures same { result ≡ record_fault_of error }
    ensures input { IsOfInput result }
{
    match error {
        RecordError::BadLine { line } => Fault::BadRecord { line },
        RecordError::Memory => Fault::Memory,
    }
}

pub fn script_fault(error: ScriptError) -> Fault
    ensures same { result ≡ script_fault_of error }
    ensures input { IsOfInput result }
{
    match error {
        ScriptError::BadLine { line } => Fault::Script { line },
        ScriptError::Memory => Fault::Memory,
    }
}

pub fn gen_fault(error: GenError) -> Fault
    ensures same { result ≡ gen_fault_of error }
{
    match error {
        GenError::TooLarge { n } => Fault::TooLarge { n },
        GenError::Memory => Fault::Memory,
    }
}
