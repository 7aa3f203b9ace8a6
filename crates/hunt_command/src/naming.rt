//! Whether a pass line names a place of the machine.

ghost use Rattle.std.specs.Prelude.{◌≡◌};
ghost use Rattle.std.specs.List.{list_any};
ghost use Rattle.cell_base.specs.Words.{words_in};
ghost use Rattle.hunt_reports.specs.Origins.{named_line};
ghost use Rattle.hunt_command.specs.Naming.{begins_with, number_behind, names_source, names_line, agrees, is_instruction, is_named};

use cell_base::line_text::{next_word, word_number};
use cell_hunt::Site;
use cell_machine::Setup;
use hunt_reports::{Places, Source, SourceLine};

/// Whether a word begins with a name and a colon.
fn begins_with(name: &[u8], word: &[u8]) -> bool
    ensures { result ≡ begins_with name.now word.now }
{
    word.len() > name.len() && &word[..name.len()] == name && word[name.len()] == b':'
}

/// The number of `NAME:NUMBER`, if a word has this name.
fn number_behind(name: &[u8], word: &[u8]) -> Option<u32>
    ensures { result ≡ number_behind name.now word.now }
{
    if begins_with(name, word) {
        word_number(&word[name.len() + 1..])
    } else {
        None
    }
}

/// Whether a word names a source.
fn names_source(sources: &[Source], word: &[u8]) -> bool
    ensures { result ≡ list_any (names_source word.now) sources.now }
{
    sources
        .iter()
        .any(|source| begins_with(source.name.as_slice(), word))
}

/// Whether a word names this line of a source.
fn names_line(line: Option<SourceLine<'_>>, word: &[u8]) -> bool
    ensures { result ≡ names_line (named_line line.entry) word.now }
{
    let Some(line) = line else {
        return false;
    };
    match number_behind(line.name, word) {
        Some(number) => number == line.number,
        None => false,
    }
}

/// Whether what is after a place is no other line of a source than the one that placed its instruction.
fn agrees(places: &Places, spe: u8, at: u32, words: &[u8]) -> bool
    ensures { result ≡ agrees places.now spe at (words_in words.now) }
{
    let Some((word, _)) = next_word(words) else {
        return true;
    };
    !names_source(places.sources.as_slice(), word) || names_line(places.source_line(spe, at), word)
}

/// Whether an instruction was placed at an address of a processor, by the line of a source that is named after it, if one is.
fn is_instruction(places: &Places, spe: u8, at: u32, words: &[u8]) -> bool
    ensures { result ≡ is_instruction places.now spe at (words_in words.now) }
{
    at % 4 == 0 && places.is_placed(spe, at) && agrees(places, spe, at, words)
}

/// Whether a site is one of the machine, where these words follow it.
pub fn is_named(setup: &Setup, places: &Places, site: Site, words: &[u8]) -> bool
    ensures { result ≡ is_named setup.now places.now site (words_in words.now) }
{
    match site {
        Site::Exec { spe, at } => is_instruction(places, spe, at, words),
        Site::Piece { spe, at } => is_instruction(places, spe, at, words),
        Site::Elem { spe, at } => is_instruction(places, spe, at, words),
        Site::Retire { spe, at } => is_instruction(places, spe, at, words),
        Site::Atomic { spe, at } => is_instruction(places, spe, at, words),
        Site::Host { action } => (action as usize) < setup.actions().len(),
    }
}
