//! The lines of a machine file that have words.

ghost use Rattle.std.specs.Prelude.{◌≡◌, ◌≤◌, ◌<◌, ◌+◌, ◌++◌, length, IfErr, IfOk, OnOk};
ghost use Rattle.std.specs.List.{flat_map};
ghost use Rattle.std.specs.Option.{ForSome};
ghost use Rattle.cell_base.specs.Words.{words_in, words_of};
ghost use Rattle.cell_io.specs.Store.{NoneFell};
ghost use Rattle.trace_commands.specs.Words.{planned};
ghost use Rattle.trace_commands.specs.Files.{IsOfFiles};
ghost use Rattle.trace_commands.specs.Answers.{Comes, FailsBy};
ghost use Rattle.trace_commands.specs.Plans.{PlansText, is_of_latest, plan_text, planned_line, processor_text, spaced, spes_behind};

use crate::fault::Fault;
use crate::reading::fault_of;
use cell_base::line_text::{before_comment, first_line, next_word, put_decimal};
use cell_commands::{Fault as InputFault, FileId, TEXT_LIMIT, read_file};
use cell_io::Store;
use cell_load::{PlanError, read_machine};
use std::alloc::{AllocError, Global};

/// Whether a line that begins so is of the latest processor.
fn is_of_latest(word: &[u8]) -> bool
    ensures { result ≡ is_of_latest word.now }
{
    word == b"spe".as_slice()
        || word == b"entry".as_slice()
        || word == b"code".as_slice()
        || word == b"bytes".as_slice()
        || word == b"source".as_slice()
}

/// Writes the number of the processor that a line is of, or a dash.
fn put_processor(out: &mut Vec<u8>, spes: u32, word: &[u8]) -> Result<(), AllocError>
    ensures { OnOk result (out.new.items ≡ out.old.items ++ processor_text spes word.now) }
{
    out.push(b' ')?;
    if is_of_latest(word) {
        put_decimal(out, spes.saturating_sub(1))?;
    } else {
        out.push(b'-')?;
    }
    Ok(())
}

/// Writes each word behind a blank.
fn put_words(out: &mut Vec<u8>, words: &[u8]) -> Result<(), AllocError>
    ensures { OnOk result (out.new.items ≡ out.old.items ++ flat_map spaced (words_in words.now)) }
{
    let mut rest = words;
    while let Some((word, after)) = next_word(rest) {
        out.push(b' ')?;
        out.extend_from_slice(word)?;
        rest = after;
    }
    Ok(())
}

/// Writes a line, where it has words, and answers how many processors came by its end.
fn put_line(out: &mut Vec<u8>, number: u32, spes: u32, line: &[u8]) -> Result<u32, AllocError>
    requires { spes < 4294967295 }
    ensures line { OnOk result (out.new.items ≡ out.old.items ++ planned_line number (spes_behind spes (words_of line.now)) (words_of line.now)) }
    ensures spes { IfOk result (λ behind. behind ≡ spes_behind spes (words_of line.now)) }
    ensures few { IfOk result (λ behind. behind ≤ spes + 1) }
{
    let words = before_comment(line);
    let Some((word, _)) = next_word(words) else {
        return Ok(spes);
    };
    let behind = if word == b"spe".as_slice() {
        spes + 1
    } else {
        spes
    };
    put_decimal(out, number)?;
    put_processor(out, behind, word)?;
    put_words(out, words)?;
    out.push(b'\n')?;
    Ok(behind)
}

/// The lines of a text that have words.
fn plan_text(alloc: Global, text: &[u8]) -> Result<Vec<u8>, AllocError>
    requires { length text.now ≤ 4194304 }
    ensures { IfOk result (λ out. out.items ≡ plan_text text.now) }
{
    let mut out = Vec::new(alloc);
    let mut rest = text;
    let mut number: u32 = 1;
    let mut spes: u32 = 0;
    while !rest.is_empty() {
        let (line, after) = first_line(rest);
        spes = put_line(&mut out, number, spes, line)?;
        rest = after;
        number += 1;
    }
    Ok(out)
}

/// The plan of the text of a machine file.
fn text_plan(alloc: Global, text: &[u8]) -> Result<Vec<u8>, Fault>
    requires { length text.now ≤ 4194304 }
    ensures { PlansText text.now result }
{
    match read_machine(alloc, text) {
        Ok(_) => match plan_text(alloc, text) {
            Ok(out) => Ok(out),
            Err(_) => Err(Fault::Memory),
        },
        Err(PlanError::BadLine { line }) => Err(Fault::Input(InputFault::Machine { line })),
        Err(PlanError::Limit { line }) => Err(Fault::Input(InputFault::Machine { line })),
        Err(PlanError::Memory) => Err(Fault::Memory),
    }
}

/// The lines of a machine file that have words, each with its number and its processor. No source is read.
pub fn planned_text<T: Store>(alloc: Global, files: &mut T, machine: &str) -> Result<Vec<u8>, Fault>
    ensures same { T.files files.new ≡ T.files files.old }
    ensures store_count { NoneFell (T.ledger files.old) (T.ledger files.new) }
    ensures input { IfErr result IsOfFiles }
    ensures cause { IfErr result (FailsBy (planned machine.now) (T.ledger files.old) (T.ledger files.new)) }
    ensures comes { ForSome (T.files files.old) (λ told. Comes told (planned machine.now) (T.ledger files.old) (T.ledger files.new) result) }
{
    let text = match read_file(alloc, files, FileId::Machine, machine, TEXT_LIMIT) {
        Ok(text) => text,
        Err(fault) => return Err(fault_of(fault)),
    };
    text_plan(alloc, text.as_slice())
}
