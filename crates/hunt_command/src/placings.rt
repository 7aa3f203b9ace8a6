//! What the lines of a machine file place, and in whose store.

ghost use Rattle.std.specs.Prelude.{◌≡◌, ◌≤◌, ◌<◌, ◌+◌, ◌++◌, length, IfOk, OnOk};
ghost use Rattle.std.specs.Option.{option_to_list};
ghost use Rattle.cell_base.specs.Numbers.{Reads};
ghost use Rattle.cell_base.specs.Words.{words_in, words_of};
ghost use Rattle.hunt_command.specs.Placings.{bytes_said, said_by, spes_after, sources_after, placing_of, placings_in};

use cell_base::line_text::{before_comment, first_line, next_word, word_number};
use hunt_reports::{Placed, Placing};
use std::alloc::{AllocError, Global};

/// What a line of a machine file says of what is placed.
#[derive(Clone, Copy)]
pub enum Said {
    /// A processor begins.
    Spe,
    /// The image of a source is placed.
    Source,
    /// So many bytes are placed, from an address on.
    Bytes { at: u32, len: usize },
    Nothing,
}

/// How many processors and sources came.
#[derive(Clone, Copy)]
struct Counts {
    spes: u32,
    sources: usize,
}

/// The bytes of a `code` or `bytes` line, by the words after its first one.
#[tactic(auto, unfolding(crate::specs::Placings::bytes_said))]
fn bytes_said(words: &[u8]) -> Option<Said>
    ensures { result ≡ bytes_said (words_in words.now) }
{
    let (word, rest) = next_word(words)?;
    let at = word_number(word)?;
    let (digits, _) = next_word(rest)?;
    Some(Said::Bytes {
        at,
        len: digits.len() / 2,
    })
}

/// What a line says.
fn said_by(line: &[u8]) -> Said
    ensures { result ≡ said_by (words_of line.now) }
{
    let Some((word, rest)) = next_word(before_comment(line)) else {
        return Said::Nothing;
    };
    if word == b"spe".as_slice() {
        Said::Spe
    } else if word == b"source".as_slice() {
        Said::Source
    } else if word == b"code".as_slice() || word == b"bytes".as_slice() {
        bytes_said(rest).unwrap_or(Said::Nothing)
    } else {
        Said::Nothing
    }
}

/// How many processors came by the end of a line.
fn spes_after(spes: u32, said: Said) -> u32
    requires { spes < 4294967295 }
    ensures after { result ≡ spes_after spes said }
    ensures few { result ≤ spes + 1 }
{
    match said {
        Said::Spe => spes + 1,
        _ => spes,
    }
}

/// How many sources came by the end of a line.
fn sources_after(sources: usize, said: Said) -> usize
    requires { sources < 4294967295 }
    ensures after { result ≡ sources_after sources said }
    ensures few { result ≤ sources + 1 }
{
    match said {
        Said::Source => sources + 1,
        _ => sources,
    }
}

/// What a line places, if it does.
fn placing_of(counts: Counts, said: Said) -> Option<Placing>
    ensures { result ≡ placing_of counts.spes counts.sources said }
{
    let placed = match said {
        Said::Source => Placed::Source {
            number: counts.sources,
        },
        Said::Bytes { at, len } => Placed::Bytes { at, len },
        _ => return None,
    };
    Some(Placing {
        spe: counts.spes.saturating_sub(1),
        placed,
    })
}

/// Keeps what a line places.
fn keep(placings: &mut Vec<Placing>, placing: Option<Placing>) -> Result<(), AllocError>
    ensures { OnOk result (placings.new.items ≡ placings.old.items ++ option_to_list placing) }
{
    match placing {
        Some(placing) => {
            placings.push(placing)?;
            Ok(())
        }
        None => Ok(()),
    }
}

/// What the lines of the text of a machine file place, in their order.
pub fn placings_in(alloc: Global, text: &[u8]) -> Result<Vec<Placing>, AllocError>
    requires { length text.now ≤ 4194304 }
    ensures { IfOk result (λ placings. placings.items ≡ placings_in text.now) }
{
    let mut placings = Vec::new(alloc);
    let mut counts = Counts {
        spes: 0,
        sources: 0,
    };
    let mut rest = text;
    while !rest.is_empty() {
        let (line, after) = first_line(rest);
        let said = said_by(line);
        keep(&mut placings, placing_of(counts, said))?;
        counts = Counts {
            spes: spes_after(counts.spes, said),
            sources: sources_after(counts.sources, said),
        };
        rest = after;
    }
    Ok(placings)
}
