//! What an expectation file says.

ghost use Rattle.std.specs.Prelude.{◌≡◌, ◌++◌, map, IfOk, OnOk};
ghost use Rattle.cell_base.specs.Words.{words_in};
ghost use Rattle.hunt_command.specs.Expected.{spaced, said_by, some_line, expected_in};

use crate::lines::without_return;
use cell_base::line_text::{before_comment, first_line, next_word};
use std::alloc::{AllocError, Global};

/// Writes each word after a space.
#[tactic(auto, unfolding(crate::specs::Expected::spaced))]
fn put_spaced(out: &mut Vec<u8>, words: &[u8]) -> Result<(), AllocError>
    ensures { OnOk result (out.new.items ≡ out.old.items ++ spaced (words_in words.now)) }
{
    let mut rest = words;
    while let Some((word, after)) = next_word(rest) {
        out.push(b' ')?;
        out.extend_from_slice(word)?;
        rest = after;
    }
    Ok(())
}

/// What a line says: its words up to a comment, with a space between two of them.
#[tactic(auto, unfolding(crate::specs::Expected::joined))]
fn said_by(alloc: Global, line: &[u8]) -> Result<Vec<u8>, AllocError>
    ensures { IfOk result (λ said. said.items ≡ said_by line.now) }
{
    let mut out = Vec::new(alloc);
    if let Some((word, rest)) = next_word(before_comment(without_return(line))) {
        out.extend_from_slice(word)?;
        put_spaced(&mut out, rest)?;
    }
    Ok(out)
}

/// Keeps the words of a line, if it has some.
fn keep(expected: &mut Vec<Vec<u8>>, said: Vec<u8>) -> Result<(), AllocError>
    ensures { OnOk result (map (λ v. v.items) expected.new.items ≡ map (λ v. v.items) expected.old.items ++ some_line said.items) }
{
    if !said.is_empty() {
        expected.push(said)?;
    }
    Ok(())
}

/// The lines that a text expects.
pub fn read_expected(alloc: Global, text: &[u8]) -> Result<Vec<Vec<u8>>, AllocError>
    ensures { IfOk result (λ expected. map (λ v. v.items) expected.items ≡ expected_in text.now) }
{
    let mut expected = Vec::new(alloc);
    let mut rest = text;
    while !rest.is_empty() {
        let (line, after) = first_line(rest);
        let said = said_by(alloc, line)?;
        keep(&mut expected, said)?;
        rest = after;
    }
    Ok(expected)
}
