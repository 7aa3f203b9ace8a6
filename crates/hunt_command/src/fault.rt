//! The answers of the program.

ghost use Rattle.std.specs.Prelude.{◌≡◌};
ghost use Rattle.hunt_command.specs.Code.{code_of};

use cell_commands::{Fault as InputFault, Status as CellStatus};
use std::fmt;

/// A file that the options name.
#[derive(Clone, Copy, PartialEq, Eq)]
pub enum FileId {
    Expect,
    Pass,
}

/// Why the program did nothing. Lines count from 1.
#[derive(Clone, Copy, PartialEq, Eq)]
pub enum Fault {
    /// The words are no form of the command.
    Usage,
    /// What `cell` says of the machine file or of a source.
    Machine(InputFault),
    ReadFault { file: FileId },
    TooLong { file: FileId },
    /// The first line of the pass file that names no race of two places.
    Pass { line: u32 },
    /// A part of the output may have gone out.
    WriteFault,
    Memory,
}

/// How the program ended.
#[derive(Clone, Copy, PartialEq, Eq)]
pub enum Status {
    /// Nothing was found, or nothing was looked for.
    Clean,
    /// What was found was written.
    Found,
    Refused(Fault),
}

impl Status {
    /// The exit status: 0 if nothing was found, 1 if something was, and 2 to 7 for the refusals, as `cell` has them.
    pub fn code(&self) -> u8
        ensures { result ≡ code_of self.now }
    {
        match self {
            Status::Clean => 0,
            Status::Found => 1,
            Status::Refused(fault) => match fault {
                Fault::Usage => 2,
                Fault::Machine(fault) => CellStatus::Refused(*fault).code(),
                Fault::ReadFault { .. } => 3,
                Fault::WriteFault => 4,
                Fault::TooLong { .. } | Fault::Pass { .. } => 5,
                Fault::Memory => 7,
            },
        }
    }
}

impl fmt::Display for FileId {
    ghost use Rattle.std.specs.Prelude.{Some};
    ghost use Rattle.hunt_command.specs.FaultTexts.{file_text};

    ghost output = { λ file. Some (file_text file) };

    fn fmt<W: fmt::Write>(&self, f: &mut fmt::Formatter<W>) -> fmt::Result {
        f.write_str(match self {
            FileId::Expect => "expectation file",
            FileId::Pass => "pass file",
        })
    }
}

impl fmt::Display for Fault {
    ghost use Rattle.std.specs.Prelude.{Some};
    ghost use Rattle.hunt_command.specs.FaultTexts.{fault_text};

    ghost output = { λ fault. Some (fault_text fault) };

    #[tactic(auto, unfolding(crate::specs::FaultTexts::fault_text))]
    fn fmt<W: fmt::Write>(&self, f: &mut fmt::Formatter<W>) -> fmt::Result {
        match *self {
            Fault::Usage => f.write_str(
                "usage: hunt MACHINE [--runs N] [--time S] [--seed S] [--from K] [--jobs N] [--expect FILE] [--pass FILE] [--warn none|print|error] [--until FILE] [--all] [--tools DIR] [--json], hunt MACHINE RUNS [SEED], hunt MACHINE each [RUNS [SEED]] or hunt MACHINE record K [SEED]",
            ),
            Fault::Machine(fault) => fault.fmt(f),
            Fault::ReadFault { file } => write!(f, "cannot read {file}"),
            Fault::TooLong { file } => write!(f, "{file} is too long"),
            Fault::Pass { line } => write!(f, "pass file, line {line}"),
            Fault::WriteFault => f.write_str("cannot write"),
            Fault::Memory => f.write_str("out of memory"),
        }
    }
}
