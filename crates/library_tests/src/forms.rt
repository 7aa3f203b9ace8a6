// The calls `cell` and `cell_quiet`: a run whose workers meet, and a check with no thread at all.
ghost use Rattle.std.specs.Prelude.{map, string_bytes, IfOk};
ghost use Rattle.cell_commands.specs.Words.{spoken, AsksForNoRun};

use crate::holds;
use cell_commands::{Status, cell, cell_quiet};
use cell_io::{Cut, MemFile, MemSink, MemStore};
use spe_workers::Gate;
use std::alloc::{AllocError, Global};
use std::sync::{Barrier, Wait};
use std::test::Fail;

/// A gate at which workers 0 and 1, before their first turns, wait for each other.
#[derive(Drop)]
struct Meet<'a, R: Wait> {
    rt: &'a R,
    barrier: Barrier,
}

impl<'a, R: Wait> Gate for Meet<'a, R> {
    fn pass(&self, worker: u32, turn: u32) {
        if worker < 2 && turn == 0 {
            self.barrier.wait(self.rt);
        }
    }
}

/// The files `m`, `s` and `r`.
fn files(alloc: Global, [machine, source, record_file]: [&str; 3]) -> Result<MemStore, AllocError> {
    let mut files = Vec::new(alloc);
    files.push(MemFile {
        name: String::from_str(alloc, "m")?,
        bytes: machine.as_bytes().to_vec(alloc)?,
    })?;
    files.push(MemFile {
        name: String::from_str(alloc, "s")?,
        bytes: source.as_bytes().to_vec(alloc)?,
    })?;
    files.push(MemFile {
        name: String::from_str(alloc, "r")?,
        bytes: record_file.as_bytes().to_vec(alloc)?,
    })?;
    Ok(MemStore::new(files, Vec::new(alloc)))
}

/// `run m`.
fn run_words(alloc: Global) -> Result<Vec<String>, AllocError> {
    let mut words = Vec::new(alloc);
    words.push(String::from_str(alloc, "run")?)?;
    words.push(String::from_str(alloc, "m")?)?;
    Ok(words)
}

/// Two processors.
const TWO: &str =
    "cell-machine 1\nlines 1\nbudget 1000000\nspe\nsource s\nspe\nsource s\nshow mem 0x0 16\n";

/// Raises a number in memory a hundred times.
const RAISE: &str =
    "ila $5,0x1000\nil $7,100\nloop: wrch $ch16,$5\nwrch $ch18,$0\nil $8,0xD0\nwrch $ch21,$8\nrdch $9,$ch27\nlqd $10,0($5)\nai $10,$10,1\nstqd $10,0($5)\nil $8,0xB4\nwrch $ch21,$8\nrdch $9,$ch27\nbrnz $9,loop\nai $7,$7,-1\nbrnz $7,loop\nstop 0\n";

/// For an output of which the call behind so many fails: what is whole goes to it in no more than these, a call for each text.
fn fails_behind(alloc: Global, texts: u32) -> Result<Vec<Cut>, AllocError> {
    let mut cuts = Vec::new(alloc);
    cuts.push(Cut {
        call: texts,
        bytes: 0,
    })?;
    Ok(cuts)
}

// It ends only where the workers run beside each other. The record and the states are two texts.
#[test]
fn two_workers_wait_for_each_other(rt: HostRuntime) -> Result<(), Fail> {
    let alloc = rt.alloc();
    let mut files = files(alloc, [TWO, RAISE, ""])?;
    let mut out = MemSink::new(alloc, 100_000, fails_behind(alloc, 2)?)?;
    let gate = Meet {
        rt: &rt,
        barrier: Barrier::new(2),
    };
    let words = run_words(alloc)?;
    let status = cell(&rt, alloc, words.as_slice(), &mut files, &mut out, &gate);
    holds(&rt, status == Status::Done);
    holds(
        &rt,
        out.bytes()
            .ends_with(b"\nmem 0x00000000 000000c8000000c8000000c8000000c8\n"),
    );
    Ok(())
}

/// `check m r`.
fn check_words(alloc: Global) -> Result<Vec<String>, AllocError>
    ensures { IfOk result (λ words. AsksForNoRun (spoken (map string_bytes words.items))) }
{
    let mut words = Vec::new(alloc);
    words.push(String::from_str(alloc, "check")?)?;
    words.push(String::from_str(alloc, "m")?)?;
    words.push(String::from_str(alloc, "r")?)?;
    Ok(words)
}

const ONE: &str = "cell-machine 1\nlines 1\nbudget 100\nspe\nsource s\n";

/// A block that is put is written over before the transfer is known to be done.
const REUSE: &str =
    "ila $3,0x100\nwrch $ch16,$3\nwrch $ch18,$0\nil $4,16\nwrch $ch19,$4\nil $5,0x20\nwrch $ch21,$5\nstqd $4,0($3)\nstop 0\n";

const RACING: &str =
    "cell-record 1\nx 0\nx 0\nx 0\nx 0\nx 0\nx 0\nx 0\np 0 0 0 0\nx 0\nx 0\nsteps 10\n";

#[test]
fn a_check_needs_no_thread(rt: HostRuntime) -> Result<(), Fail> {
    let alloc = rt.alloc();
    let mut files = files(alloc, [ONE, REUSE, RACING])?;
    let mut out = MemSink::new(alloc, 100, fails_behind(alloc, 1)?)?;
    let words = check_words(alloc)?;
    let status = cell_quiet(alloc, words.as_slice(), &mut files, &mut out);
    let wanted = Status::Race {
        first: 7,
        second: 8,
    };
    holds(&rt, status == wanted);
    holds(
        &rt,
        out.bytes() == b"race 7 8\nfirst p 0 0 0 0\nsecond x 0\n".as_slice(),
    );
    Ok(())
}
