// Files and outputs in memory that fail at each call in turn, and texts that no form of `cell` prints or that it prints with no thread.
ghost use Rattle.std.specs.Prelude.{map, string_bytes, IfOk};
ghost use Rattle.cell_commands.specs.Words.{spoken, AsksForNoRun};

use crate::{EXEC, holds};
use cell_commands::{Fault, FileId, Status, cell, cell_quiet};
use cell_io::{Cut, MemFile, MemSink, MemStore};
use cell_report::record_text_1;
use spe_workers::OpenGate;
use std::alloc::{AllocError, Global};
use std::sync::Wait;
use std::test::Fail;
use std::thread::Threads;

/// A processor with two sources.
const MACHINE: &str = "cell-machine 1\nlines 1\nbudget 9\nspe\nsource s\nsource t\n";

/// A source that stops at once.
const STOPS: &str = "stop 0\n";

/// What a run of it prints: a record, and the states.
const RECORD: &str = "cell-record 2\nx 0 1\nsteps 1\n";

const STATES: &str = "end AllStopped\nspe 0 stopped 0x0000 pc 0x00004 queued 0\nhost 0 of 0\n";

/// A source as a compiler writes it.
const COMPILED: &str = "\
\t.file\t\"sum.c\"
\t.text
\t.global _start
_start:\tbrsl\t$lr,main
\tstop\t0
\t.align\t3
\t.global\tmain
\t.type\tmain, @function
main:\tila\t$2,table
\til\t$3,0
\til\t$4,4
\thbrr\t.L9,.L2
.L2:\tlqd\t$5,0($2)
\ta\t$3,$3,$5
\tai\t$2,$2,16
\tai\t$4,$4,-1
.L9:\tbrnz\t$4,.L2
\tstqd\t$3,-64($2)
\tbi\t$lr
\t.size\tmain, .-main
\t.section\t.rodata
\t.align\t4
table:\t.long\t1,2,3,4,5,6,7,8
\t.long\t9,10,11,12,13,14,15,16
\t.ident\t\"GCC: (GNU) 4.5\"
";

/// Its image.
const IMAGE: &str = "\
code 0x00000 33000100000000004200400240800003
code 0x00010 40800204002000003400010518014183
code 0x00020 1c0401021cffc204217ffe0424ff0103
code 0x00030 35000000
bytes 0x00080 00000001000000020000000300000004
bytes 0x00090 00000005000000060000000700000008
bytes 0x000a0 000000090000000a0000000b0000000c
bytes 0x000b0 0000000d0000000e0000000f00000010
entry 0x00000
";

/// The machine file `m` and its sources, of which these calls fail.
fn store(alloc: Global, failing: &[u32]) -> Result<MemStore, AllocError> {
    let mut files = Vec::new(alloc);
    files.push(MemFile {
        name: String::from_str(alloc, "m")?,
        bytes: MACHINE.as_bytes().to_vec(alloc)?,
    })?;
    files.push(MemFile {
        name: String::from_str(alloc, "s")?,
        bytes: STOPS.as_bytes().to_vec(alloc)?,
    })?;
    files.push(MemFile {
        name: String::from_str(alloc, "t")?,
        bytes: Vec::new(alloc),
    })?;
    Ok(MemStore::new(files, failing.to_vec(alloc)?))
}

/// `run m`.
fn run_words(alloc: Global) -> Result<Vec<String>, AllocError> {
    let mut words = Vec::new(alloc);
    words.push(String::from_str(alloc, "run")?)?;
    words.push(String::from_str(alloc, "m")?)?;
    Ok(words)
}

// The machine file and each of its sources, in the order in which they are fetched: the one that fails is named, and nothing is written.
#[test]
fn each_fetch_that_fails_is_named(rt: HostRuntime) -> Result<(), Fail> {
    let alloc = rt.alloc();
    let words = run_words(alloc)?;
    let named = [FileId::Machine, FileId::Source(0), FileId::Source(1)];
    for call in 0..3u32 {
        let mut files = store(alloc, &[call])?;
        let mut out = MemSink::new(alloc, 1_000, Vec::new(alloc))?;
        let status = cell(
            &rt,
            alloc,
            words.as_slice(),
            &mut files,
            &mut out,
            &OpenGate,
        );
        let wanted = Status::Refused(Fault::ReadFault {
            file: named[call as usize],
        });
        holds(&rt, status == wanted);
        holds(&rt, out.bytes().is_empty());
    }
    Ok(())
}

/// Runs the machine with an output of which a call lets out so many bytes.
fn run_cut<R: Threads + Wait + Sync>(
    rt: &R,
    alloc: Global,
    call: u32,
    bytes: u32,
) -> Result<(Status, MemSink), Fail> {
    let words = run_words(alloc)?;
    let mut cuts = Vec::new(alloc);
    cuts.push(Cut { call, bytes })?;
    let mut files = store(alloc, &[])?;
    let mut out = MemSink::new(alloc, 1_000, cuts)?;
    let status = cell(rt, alloc, words.as_slice(), &mut files, &mut out, &OpenGate);
    Ok((status, out))
}

// The record goes out in one call and the states in another: where one of them fails, what went out before and so many bytes of it stand there.
#[test]
fn each_put_that_fails_leaves_what_went_out(rt: HostRuntime) -> Result<(), Fail> {
    let alloc = rt.alloc();
    let wanted = Status::Refused(Fault::WriteFault);
    for bytes in [0u32, 5] {
        let (status, out) = run_cut(&rt, alloc, 0, bytes)?;
        holds(&rt, status == wanted);
        holds(&rt, out.bytes() == &RECORD.as_bytes()[..bytes as usize]);
        let (status, out) = run_cut(&rt, alloc, 1, bytes)?;
        holds(&rt, status == wanted);
        let left = out.bytes();
        holds(&rt, left.len() == RECORD.len() + bytes as usize);
        holds(&rt, left.starts_with(RECORD.as_bytes()));
        holds(&rt, left.ends_with(&STATES.as_bytes()[..bytes as usize]));
    }
    Ok(())
}

/// `asm s`.
fn asm_words(alloc: Global) -> Result<Vec<String>, AllocError>
    ensures { IfOk result (λ words. AsksForNoRun (spoken (map string_bytes words.items))) }
{
    let mut words = Vec::new(alloc);
    words.push(String::from_str(alloc, "asm")?)?;
    words.push(String::from_str(alloc, "s")?)?;
    Ok(words)
}

#[test]
fn an_image_needs_no_thread(rt: HostRuntime) -> Result<(), Fail> {
    let alloc = rt.alloc();
    let mut files = Vec::new(alloc);
    files.push(MemFile {
        name: String::from_str(alloc, "s")?,
        bytes: COMPILED.as_bytes().to_vec(alloc)?,
    })?;
    let mut files = MemStore::new(files, Vec::new(alloc));
    let mut out = MemSink::new(alloc, 1_000, Vec::new(alloc))?;
    let words = asm_words(alloc)?;
    let status = cell_quiet(alloc, words.as_slice(), &mut files, &mut out);
    holds(&rt, status == Status::Done);
    holds(&rt, out.bytes() == IMAGE.as_bytes());
    Ok(())
}

// A record of the first format, a line for each step.
#[test]
fn a_record_of_format_1_has_a_line_for_each_step(rt: HostRuntime) -> Result<(), Fail> {
    let text = record_text_1(rt.alloc(), &[EXEC, EXEC, EXEC])?;
    holds(
        &rt,
        text.as_slice() == b"cell-record 1\nx 0\nx 0\nx 0\nsteps 3\n".as_slice(),
    );
    Ok(())
}
