// What the words of a line say.
ghost use Rattle.std.specs.Prelude.{◌≡◌};
ghost use Rattle.std.specs.List.{list_all};
ghost use Rattle.std.specs.Option.{option_map};
ghost use Rattle.cell_base.specs.Words.{words_in};
ghost use Rattle.cell_load.specs.Entries.{entry_of};
ghost use Rattle.cell_load.specs.Form.{Gives, is_visible, number_in, hex_of, hex_in, ended, is_name, name_of, name_in, head_line, lines_line, budget_line, spe_line, entry_line, code_line, bytes_line, source_line, memory_line, show_local_line, show_memory_line, show_line, shared_line, body_line, line_says};
ghost use Rattle.std.specs.Prelude.{string_bytes};

use crate::host_form::{host_line, mode_line};
use crate::line::{Line, Refusal};
use cell_base::line_text::{next_word, word_number};
use hex::FromHexError;
use std::alloc::Global;
use std::str;

/// A number, and what stands behind it.
#[tactic(auto, unfolding(crate::specs::Form::number_in))]
pub(crate) fn number_in(words: &[u8]) -> Result<(u32, &[u8]), Refusal>
    ensures { Gives (λ x. (x.0, words_in x.1.now)) result (number_in (words_in words.now)) }
{
    let Some((word, rest)) = next_word(words) else {
        return Err(Refusal::Form);
    };
    match word_number(word) {
        Some(n) => Ok((n, rest)),
        None => Err(Refusal::Form),
    }
}

/// The bytes that a word of hexadecimal digits stands for: 1 to 4,096.
fn hex_of(alloc: Global, word: &[u8]) -> Result<Vec<u8>, Refusal>
    ensures { Gives (λ v. v.items) result (hex_of word.now) }
{
    if word.len() < 2 || word.len() > 8192 {
        return Err(Refusal::Form);
    }
    match hex::decode(alloc, word) {
        Ok(bytes) => Ok(bytes),
        Err(FromHexError::OutOfMemory) => Err(Refusal::Memory),
        Err(_) => Err(Refusal::Form),
    }
}

/// The bytes of a word of hexadecimal digits, and what stands behind it.
#[tactic(auto, unfolding(crate::specs::Form::hex_in))]
pub(crate) fn hex_in(alloc: Global, words: &[u8]) -> Result<(Vec<u8>, &[u8]), Refusal>
    ensures { Gives (λ x. (x.0.items, words_in x.1.now)) result (hex_in (words_in words.now)) }
{
    let Some((word, rest)) = next_word(words) else {
        return Err(Refusal::Form);
    };
    Ok((hex_of(alloc, word)?, rest))
}

fn all_visible(word: &[u8]) -> bool
    ensures { result ≡ list_all is_visible word.now }
{
    word.iter().all(|b| 33 <= *b && *b <= 126 && *b != b'#')
}

fn is_name(word: &[u8]) -> bool
    ensures { result ≡ is_name word.now }
{
    !word.is_empty() && word.len() <= 255 && all_visible(word)
}

/// The word as text, if it is a name.
#[tactic(auto, using(crate::proofs::Names::name_is_text))]
fn name_of(word: &[u8]) -> Option<&str>
    ensures { option_map (λ name. name.now) result ≡ name_of word.now }
{
    if !is_name(word) {
        return None;
    }
    str::from_utf8(word).ok()
}

#[tactic(auto, unfolding(crate::specs::Form::name_in))]
fn name_in(alloc: Global, words: &[u8]) -> Result<(String, &[u8]), Refusal>
    ensures { Gives (λ x. (string_bytes x.0, words_in x.1.now)) result (name_in (words_in words.now)) }
{
    let Some((word, rest)) = next_word(words) else {
        return Err(Refusal::Form);
    };
    let Some(name) = name_of(word) else {
        return Err(Refusal::Form);
    };
    match String::from_str(alloc, name) {
        Ok(name) => Ok((name, rest)),
        Err(_) => Err(Refusal::Memory),
    }
}

/// Nothing but blanks is left of the line.
#[tactic(auto, unfolding(crate::specs::Form::ended))]
pub(crate) fn ended(words: &[u8]) -> Result<(), Refusal>
    ensures { Gives (λ x. x) result (ended (words_in words.now)) }
{
    match next_word(words) {
        Some(_) => Err(Refusal::Form),
        None => Ok(()),
    }
}

#[tactic(auto, unfolding(crate::specs::Form::head_line))]
fn head_line(words: &[u8]) -> Result<Line, Refusal>
    ensures { Gives entry_of result (head_line (words_in words.now)) }
{
    let Some((word, rest)) = next_word(words) else {
        return Err(Refusal::Form);
    };
    ended(rest)?;
    if word == b"1".as_slice() {
        Ok(Line::Head)
    } else {
        Err(Refusal::Form)
    }
}

#[tactic(auto, unfolding(crate::specs::Form::lines_line))]
fn lines_line(words: &[u8]) -> Result<Line, Refusal>
    ensures { Gives entry_of result (lines_line (words_in words.now)) }
{
    let (n, rest) = number_in(words)?;
    ended(rest)?;
    Ok(Line::Lines { n })
}

#[tactic(auto, unfolding(crate::specs::Form::budget_line))]
fn budget_line(words: &[u8]) -> Result<Line, Refusal>
    ensures { Gives entry_of result (budget_line (words_in words.now)) }
{
    let (n, rest) = number_in(words)?;
    ended(rest)?;
    Ok(Line::Budget { n })
}

#[tactic(auto, unfolding(crate::specs::Form::spe_line))]
fn spe_line(words: &[u8]) -> Result<Line, Refusal>
    ensures { Gives entry_of result (spe_line (words_in words.now)) }
{
    ended(words)?;
    Ok(Line::Spe)
}

#[tactic(auto, unfolding(crate::specs::Form::entry_line))]
fn entry_line(words: &[u8]) -> Result<Line, Refusal>
    ensures { Gives entry_of result (entry_line (words_in words.now)) }
{
    let (at, rest) = number_in(words)?;
    ended(rest)?;
    Ok(Line::Entry { at })
}

#[tactic(auto, unfolding(crate::specs::Form::code_line))]
fn code_line(alloc: Global, words: &[u8]) -> Result<Line, Refusal>
    ensures { Gives entry_of result (code_line (words_in words.now)) }
{
    let (at, rest) = number_in(words)?;
    let (bytes, rest) = hex_in(alloc, rest)?;
    ended(rest)?;
    Ok(Line::Code { at, bytes })
}

#[tactic(auto, unfolding(crate::specs::Form::bytes_line))]
fn bytes_line(alloc: Global, words: &[u8]) -> Result<Line, Refusal>
    ensures { Gives entry_of result (bytes_line (words_in words.now)) }
{
    let (at, rest) = number_in(words)?;
    let (bytes, rest) = hex_in(alloc, rest)?;
    ended(rest)?;
    Ok(Line::Bytes { at, bytes })
}

#[tactic(auto, unfolding(crate::specs::Form::source_line))]
fn source_line(alloc: Global, words: &[u8]) -> Result<Line, Refusal>
    ensures { Gives entry_of result (source_line (words_in words.now)) }
{
    let (name, rest) = name_in(alloc, words)?;
    ended(rest)?;
    Ok(Line::Source { name })
}

#[tactic(auto, unfolding(crate::specs::Form::memory_line))]
fn memory_line(alloc: Global, words: &[u8]) -> Result<Line, Refusal>
    ensures { Gives entry_of result (memory_line (words_in words.now)) }
{
    let (at, rest) = number_in(words)?;
    let (bytes, rest) = hex_in(alloc, rest)?;
    ended(rest)?;
    Ok(Line::MemoryBytes { at, bytes })
}

#[tactic(auto, unfolding(crate::specs::Form::show_local_line))]
fn show_local_line(words: &[u8]) -> Result<Line, Refusal>
    ensures { Gives entry_of result (show_local_line (words_in words.now)) }
{
    let (spe, rest) = number_in(words)?;
    let (at, rest) = number_in(rest)?;
    let (len, rest) = number_in(rest)?;
    ended(rest)?;
    Ok(Line::ShowLocal { spe, at, len })
}

#[tactic(auto, unfolding(crate::specs::Form::show_memory_line))]
fn show_memory_line(words: &[u8]) -> Result<Line, Refusal>
    ensures { Gives entry_of result (show_memory_line (words_in words.now)) }
{
    let (at, rest) = number_in(words)?;
    let (len, rest) = number_in(rest)?;
    ended(rest)?;
    Ok(Line::ShowMemory { at, len })
}

#[tactic(auto, unfolding(crate::specs::Form::show_line))]
fn show_line(words: &[u8]) -> Result<Line, Refusal>
    ensures { Gives entry_of result (show_line (words_in words.now)) }
{
    let Some((word, rest)) = next_word(words) else {
        return Err(Refusal::Form);
    };
    if word == b"ls".as_slice() {
        show_local_line(rest)
    } else if word == b"mem".as_slice() {
        show_memory_line(rest)
    } else {
        Err(Refusal::Form)
    }
}

/// What a line behind the first three says that isn't of the latest processor.
#[tactic(auto, unfolding(crate::specs::Form::shared_line))]
fn shared_line(alloc: Global, word: &[u8], words: &[u8]) -> Result<Line, Refusal>
    ensures { Gives entry_of result (shared_line word.now (words_in words.now)) }
{
    if word == b"mem".as_slice() {
        memory_line(alloc, words)
    } else if word == b"host".as_slice() {
        host_line(alloc, words)
    } else if word == b"ormode".as_slice() {
        mode_line(words)
    } else if word == b"show".as_slice() {
        show_line(words)
    } else {
        Err(Refusal::Form)
    }
}

/// What a line behind the first three says.
#[tactic(auto, unfolding(crate::specs::Form::body_line))]
fn body_line(alloc: Global, word: &[u8], words: &[u8]) -> Result<Line, Refusal>
    ensures { Gives entry_of result (body_line word.now (words_in words.now)) }
{
    if word == b"spe".as_slice() {
        spe_line(words)
    } else if word == b"entry".as_slice() {
        entry_line(words)
    } else if word == b"code".as_slice() {
        code_line(alloc, words)
    } else if word == b"bytes".as_slice() {
        bytes_line(alloc, words)
    } else if word == b"source".as_slice() {
        source_line(alloc, words)
    } else {
        shared_line(alloc, word, words)
    }
}

/// What a line says whose first word is `word`.
#[tactic(auto, unfolding(crate::specs::Form::line_says))]
pub(crate) fn line_says(alloc: Global, word: &[u8], words: &[u8]) -> Result<Line, Refusal>
    ensures { Gives entry_of result (line_says word.now (words_in words.now)) }
{
    if word == b"cell-machine".as_slice() {
        head_line(words)
    } else if word == b"lines".as_slice() {
        lines_line(words)
    } else if word == b"budget".as_slice() {
        budget_line(words)
    } else {
        body_line(alloc, word, words)
    }
}
