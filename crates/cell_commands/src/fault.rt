//! The answers of the program.

ghost use Rattle.std.specs.Prelude.{◌≡◌, ◌++◌, codes};
ghost use Rattle.std.specs.Fmt.{decimal, WritesOnOk};
ghost use Rattle.cell_commands.specs.Code.{code_of, status_of};
ghost use Rattle.cell_commands.specs.FaultTexts.{file_text, kind_text, hex_text};

use race_check::Verdict;
use spu_asm::AsmKind;
use std::fmt;

/// A file that the words name, or that a machine file names: its sources are numbered from 0.
#[derive(Clone, Copy, PartialEq, Eq)]
pub enum FileId {
    Machine,
    Source(u32),
    Rec,
    Script,
}

/// Why the program did nothing. Lines count from 1.
#[derive(Clone, Copy, PartialEq, Eq)]
pub enum Fault {
    /// The words are no form of the command.
    Usage,
    ReadFault {
        file: FileId,
    },
    /// A part of the output may have gone out.
    WriteFault,
    TooLong {
        file: FileId,
    },
    /// The first line of the machine file that is outside its form or a limit.
    Machine {
        line: u32,
    },
    /// The first faulty line of a source in the first phase of assembling that has one.
    Source {
        file: FileId,
        line: u32,
        kind: AsmKind,
    },
    /// The first instruction word, by processor and address, that spells no instruction.
    NotInTable {
        spe: u8,
        address: u32,
        word: u32,
    },
    /// The first line of the record file that is outside the form of a record.
    BadRecord {
        line: u32,
    },
    /// The first step of the record, counted from 0, that isn't allowed or is one more than the budget.
    NotARun {
        at: u32,
    },
    /// The first byte of the record file, counted from 0, that isn't the one of its record with the states of that run; where it ends early, its end.
    StatesDiffer {
        at: u32,
    },
    /// The number of `gen`, which is above 64.
    TooLarge {
        n: u32,
    },
    /// The first line of the script that is outside its form.
    Script {
        line: u32,
    },
    /// The run of the record file has no race, but what a processor saw of it may be otherwise in another order.
    NotSettled,
    Memory,
}

/// How the program ended.
#[derive(Clone, Copy, PartialEq, Eq)]
pub enum Status {
    Done,
    /// Two steps of the record that race, by their places. The verdict that says so was written.
    Race { first: u32, second: u32 },
    Refused(Fault),
}

impl Status {
    /// The exit status: 0 where it is done, 1 for a race, and 2 to 7 for the refusals.
    pub fn code(&self) -> u8
        ensures { result ≡ code_of self.now }
    {
        match self {
            Status::Done => 0,
            Status::Race { .. } => 1,
            Status::Refused(fault) => match fault {
                Fault::Usage => 2,
                Fault::ReadFault { .. } => 3,
                Fault::WriteFault => 4,
                Fault::TooLong { .. }
                | Fault::Machine { .. }
                | Fault::Source { .. }
                | Fault::NotInTable { .. }
                | Fault::BadRecord { .. }
                | Fault::TooLarge { .. }
                | Fault::Script { .. } => 5,
                Fault::NotARun { .. } | Fault::StatesDiffer { .. } | Fault::NotSettled => 6,
                Fault::Memory => 7,
            },
        }
    }
}

impl From<Verdict> for Status {
    ghost from_gives = { λ verdict status. status ≡ status_of verdict };

    /// How the program ends when this verdict was written.
    fn from(verdict: Verdict) -> Status {
        match verdict {
            Verdict::Accepted => Status::Done,
            Verdict::Race { first, second } => Status::Race { first, second },
        }
    }
}

impl fmt::Display for FileId {
    ghost use Rattle.std.specs.Prelude.{Some};
    ghost use Rattle.cell_commands.specs.FaultTexts.{file_text};

    ghost output = { λ file. Some (file_text file) };

    fn fmt<W: fmt::Write>(&self, f: &mut fmt::Formatter<W>) -> fmt::Result {
        match *self {
            FileId::Machine => f.write_str("machine file"),
            FileId::Source(number) => put_number(f, "source ", number, ""),
            FileId::Rec => f.write_str("record file"),
            FileId::Script => f.write_str("script file"),
        }
    }
}

/// The name of a fault of the assembler.
fn kind_text(kind: AsmKind) -> &'static str
    ensures { result.now ≡ kind_text kind }
{
    match kind {
        AsmKind::BadChar => "BadChar",
        AsmKind::BadNumber => "BadNumber",
        AsmKind::UnknownName => "UnknownName",
        AsmKind::BadDirective => "BadDirective",
        AsmKind::BadOperand => "BadOperand",
        AsmKind::Twice => "Twice",
        AsmKind::NotMultiple => "NotMultiple",
        AsmKind::Overlap => "Overlap",
        AsmKind::OutsideStore => "OutsideStore",
        AsmKind::Undefined => "Undefined",
        AsmKind::OutOfRange => "OutOfRange",
    }
}

/// A number between two texts. What is formatted has small functions of its own, since a match with many `write!` is slow to prove.
fn put_number<W: fmt::Write>(
    f: &mut fmt::Formatter<W>,
    before: &str,
    number: u32,
    behind: &str,
) -> fmt::Result
    ensures { WritesOnOk W.write_str_gives f.old result (before.now ++ decimal number ++ behind.now) f.new }
{
    write!(f, "{before}{number}{behind}")
}

/// A file between two texts.
fn put_file<W: fmt::Write>(
    f: &mut fmt::Formatter<W>,
    before: &str,
    file: FileId,
    behind: &str,
) -> fmt::Result
    ensures { WritesOnOk W.write_str_gives f.old result (before.now ++ file_text file ++ behind.now) f.new }
{
    write!(f, "{before}{file}{behind}")
}

fn put_source<W: fmt::Write>(
    f: &mut fmt::Formatter<W>,
    file: FileId,
    line: u32,
    kind: AsmKind,
) -> fmt::Result
    ensures { WritesOnOk W.write_str_gives f.old result (file_text file ++ codes ", line " ++ decimal line ++ codes ": " ++ kind_text kind) f.new }
{
    let kind = kind_text(kind);
    write!(f, "{file}, line {line}: {kind}")
}

/// An address of a local store.
#[tactic(auto, unfolding(crate::specs::FaultTexts::hex_text))]
fn put_address<W: fmt::Write>(f: &mut fmt::Formatter<W>, address: u32) -> fmt::Result
    ensures { WritesOnOk W.write_str_gives f.old result (hex_text 5 address) f.new }
{
    write!(f, "0x{address:05x}")
}

/// An instruction word.
#[tactic(auto, unfolding(crate::specs::FaultTexts::hex_text))]
fn put_word<W: fmt::Write>(f: &mut fmt::Formatter<W>, word: u32) -> fmt::Result
    ensures { WritesOnOk W.write_str_gives f.old result (hex_text 8 word) f.new }
{
    write!(f, "0x{word:08x}")
}

fn put_not_in_table<W: fmt::Write>(
    f: &mut fmt::Formatter<W>,
    spe: u8,
    address: u32,
    word: u32,
) -> fmt::Result
    ensures { WritesOnOk W.write_str_gives f.old result (codes "processor " ++ decimal spe ++ codes ", " ++ hex_text 5 address ++ codes ": " ++ hex_text 8 word ++ codes " is not in the table") f.new }
{
    write!(f, "processor {spe}, ")?;
    put_address(f, address)?;
    f.write_str(": ")?;
    put_word(f, word)?;
    f.write_str(" is not in the table")
}

impl fmt::Display for Fault {
    ghost use Rattle.std.specs.Prelude.{Some};
    ghost use Rattle.cell_commands.specs.FaultTexts.{fault_text};

    ghost output = { λ fault. Some (fault_text fault) };

    #[tactic(auto, unfolding(crate::specs::FaultTexts::fault_text))]
    fn fmt<W: fmt::Write>(&self, f: &mut fmt::Formatter<W>) -> fmt::Result {
        match *self {
            Fault::Usage => f.write_str(
                "usage: cell run MACHINE, check MACHINE RECORD, asm SOURCE, gen N, debug MACHINE SCRIPT or permute MACHINE RECORD N",
            ),
            Fault::ReadFault { file } => put_file(f, "cannot read ", file, ""),
            Fault::WriteFault => f.write_str("cannot write"),
            Fault::TooLong { file } => put_file(f, "", file, " is too long"),
            Fault::Machine { line } => put_number(f, "machine file, line ", line, ""),
            Fault::Source { file, line, kind } => put_source(f, file, line, kind),
            Fault::NotInTable { spe, address, word } => put_not_in_table(f, spe, address, word),
            Fault::BadRecord { line } => put_number(f, "record file, line ", line, ""),
            Fault::NotARun { at } => put_number(f, "step ", at, " is not allowed"),
            Fault::StatesDiffer { at } => put_number(f, "states differ at byte ", at, ""),
            Fault::TooLarge { n } => put_number(f, "", n, " is above 64"),
            Fault::Script { line } => put_number(f, "script file, line ", line, ""),
            Fault::NotSettled => f.write_str("the run is not settled"),
            Fault::Memory => f.write_str("out of memory"),
        }
    }
}
