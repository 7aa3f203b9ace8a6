//! The text of the summary of a run.

ghost use Rattle.std.specs.Prelude.{◌≡◌, ◌*◌, ◌≤◌, ◌++◌, length, Option, OnOk, IfOk, IsSomeAnd};
ghost use Rattle.std.specs.List.{count_by, sum};
ghost use Rattle.cell_base.specs.Bytes.{number};
ghost use Rattle.cell_machine.specs.declared.status.End.{End};
ghost use Rattle.cell_machine.specs.Run.{IsEnd, state_of};
ghost use Rattle.cell_report.specs.Verdicts.{NamesSteps};
ghost use Rattle.cell_report.specs.Summaries.{is_exec, is_piece, memory_words, number_line, summary_of};

use crate::error::TextError;
use crate::verdict::put_verdict;
use cell_base::Step;
use cell_machine::Machine;
use main_memory::{LINE_BYTES, Memory};
use race_check::Verdict;
use state_lines::put_end;
use std::alloc::{AllocError, Global};

/// How many steps are instructions.
fn count_exec(steps: &[Step]) -> u64
    ensures { result ≡ count_by is_exec steps.now }
{
    steps
        .iter()
        .filter(|s| matches!(s, Step::Exec { .. }))
        .count() as u64
}

/// How many steps are pieces of transfers.
fn count_pieces(steps: &[Step]) -> u64
    ensures { result ≡ count_by is_piece steps.now }
{
    steps
        .iter()
        .filter(|s| matches!(s, Step::Piece { .. }))
        .count() as u64
}

/// The word that four bytes spell, the first byte the highest.
fn word_of(bytes: &[u8; 4]) -> u32
    ensures { result ≡ number bytes.now }
{
    u32::from_be_bytes(*bytes)
}

/// The sum of the 32 words of a line.
fn line_sum(line: &[u8]) -> u64
    requires { length line.now ≡ 128 }
    ensures sum { result ≡ sum (memory_words line.now) }
    ensures small { result ≤ 32 * 4294967295 }
{
    let (words, _) = line.as_chunks::<4>();
    let mut sum = 0;
    for word in words {
        sum += u64::from(word_of(word));
    }
    sum
}

/// The sum of all words of a memory, which does not wrap: there are at most 524,288 lines of 32 words.
fn memory_sum(memory: &Memory) -> u64
    ensures { result ≡ sum (memory_words memory.now) }
{
    let mut line = [0; LINE_BYTES as usize];
    let mut sum = 0;
    for index in 0..memory.lines() {
        memory.copy_out(LINE_BYTES * index, &mut line);
        sum += line_sum(&line);
    }
    sum
}

/// Writes the line of a name and a number at the end.
fn put_number(out: &mut Vec<u8>, name: &str, n: u64) -> Result<(), AllocError>
    ensures { OnOk result (out.new.items ≡ out.old.items ++ number_line name.now n) }
{
    let alloc = *out.allocator();
    let line = format!(in alloc; "{name} {n}\n")?;
    out.extend_from_slice(line.as_bytes())
}

/// The summary of the machine's run, which is number `n`, as text: its number, its end word, how many steps it has, how many of them are
/// instructions and how many pieces of transfers, the sum of all words of main memory, which does not wrap, and then the verdict on it.
pub fn summary_text(alloc: Global, n: u32, m: &Machine, v: Verdict) -> Result<Vec<u8>, TextError>
    requires { NamesSteps m.now.steps v }
    ensures { IfOk result (λ text. IsSomeAnd (state_of m.now) (λ M. (end : Option End) × IsEnd M m.now.setup.budget end × (text.items ≡ summary_of n end m.now.steps M.memory.bytes v))) }
{
    let steps = m.steps();
    let mut out = Vec::new(alloc);
    put_number(&mut out, "gen", u64::from(n))?;
    put_end(&mut out, m.end())?;
    put_number(&mut out, "steps", steps.len() as u64)?;
    put_number(&mut out, "exec", count_exec(steps))?;
    put_number(&mut out, "pieces", count_pieces(steps))?;
    put_number(&mut out, "sum", memory_sum(m.memory()))?;
    put_verdict(&mut out, m, v)?;
    Ok(out)
}
