//! The answers of the program.

ghost use Rattle.std.specs.Prelude.{◌≡◌, ◌++◌, codes};
ghost use Rattle.std.specs.Fmt.{decimal, WritesOnOk};
ghost use Rattle.trace_commands.specs.Code.{code_of};

use cell_commands::{Fault as InputFault, Status as CellStatus};
use std::alloc::AllocError;
use std::fmt;

/// Why the program did nothing.
#[derive(Clone, Copy)]
pub enum Fault {
    /// The words are no form of the command.
    Usage,
    /// What `cell` says of the machine file, of a source or of the record file.
    Input(InputFault),
    /// The record has fewer steps than are asked for.
    TooShort { steps: u64 },
    /// The choice file couldn't be read.
    ReadFault,
    /// The choice file is too long.
    TooLong,
    /// A word of the choice file is no number.
    Choices,
    /// A part of the output may have gone out.
    WriteFault,
    Memory,
}

impl From<AllocError> for Fault {
    ghost from_gives = { λ _ fault. fault ≡ Memory };

    ghost use Rattle.trace_commands.specs.declared.fault.Fault.TheVariants.{Memory};

    fn from(_: AllocError) -> Fault {
        Fault::Memory
    }
}

/// How the program ended.
#[derive(Clone, Copy)]
pub enum Status {
    Done,
    Refused(Fault),
}

impl Status {
    /// The exit status: 0 where it is done, and 2 to 7 for the refusals, as `cell` has them.
    pub fn code(&self) -> u8
        ensures { result ≡ code_of self.now }
    {
        match self {
            Status::Done => 0,
            Status::Refused(fault) => match fault {
                Fault::Usage => 2,
                Fault::Input(fault) => CellStatus::Refused(*fault).code(),
                Fault::ReadFault => 3,
                Fault::WriteFault => 4,
                Fault::TooShort { .. } | Fault::TooLong | Fault::Choices => 5,
                Fault::Memory => 7,
            },
        }
    }
}

/// That a record has fewer steps.
fn put_too_short<W: fmt::Write>(f: &mut fmt::Formatter<W>, steps: u64) -> fmt::Result
    ensures { WritesOnOk W.write_str_gives f.old result (codes "the record has fewer than " ++ decimal steps ++ codes " steps") f.new }
{
    write!(f, "the record has fewer than {steps} steps")
}

impl fmt::Display for Fault {
    ghost use Rattle.std.specs.Prelude.{Some};
    ghost use Rattle.trace_commands.specs.FaultTexts.{fault_text};

    ghost output = { λ fault. Some (fault_text fault) };

    #[tactic(auto, unfolding(crate::specs::FaultTexts::fault_text))]
    fn fmt<W: fmt::Write>(&self, f: &mut fmt::Formatter<W>) -> fmt::Result {
        match *self {
            Fault::Usage => f.write_str(
                "words: alone M, choose M CHOICES, (effects|log|before|states) M RECORD, (before|states) M RECORD NUMBER, go M RECORD STEPS CHOICES, lines SOURCE, plan M",
            ),
            Fault::Input(fault) => fault.fmt(f),
            Fault::TooShort { steps } => put_too_short(f, steps),
            Fault::ReadFault => f.write_str("cannot read choice file"),
            Fault::TooLong => f.write_str("choice file is too long"),
            Fault::Choices => f.write_str("a word of the choice file is no number"),
            Fault::WriteFault => f.write_str("cannot write"),
            Fault::Memory => f.write_str("out of memory"),
        }
    }
}
