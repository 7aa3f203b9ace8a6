//! What a pass file says: the races that are left out.

ghost use Rattle.std.specs.Prelude.{◌≡◌, ◌≤◌, ◌++◌, length, OnOk};
ghost use Rattle.cell_base.specs.Numbers.{Reads};
ghost use Rattle.cell_base.specs.Words.{words_in};
ghost use Rattle.cell_base.specs.Walk.{items_of};
ghost use Rattle.hunt_command.specs.Passes.{number_in, spe_in, mark_in, behind_bar, site_named, spe_site, host_site, site_in, named_in, head_in, race_in, has_hash, line_step, passes_at, PassesGive};

use crate::lines::without_return;
use crate::naming::is_named;
use cell_base::line_text::{first_line, next_word, word_number};
use cell_hunt::{Site, Sites};
use cell_machine::Setup;
use hunt_reports::Places;
use std::alloc::{AllocError, AllocFailed, Global};

/// Why a text is no pass file.
#[derive(Clone, Copy)]
pub enum PassError {
    /// The first line that names no race, counted from 1.
    BadLine { line: u32 },
    Memory,
}

/// A number, and the words after it.
#[tactic(auto, unfolding(crate::specs::Passes::number_in))]
fn number_in(words: &[u8]) -> Option<(u32, &[u8])>
    ensures { Reads (λ x. (x.0, words_in x.1.now)) result (number_in (words_in words.now)) }
{
    let (word, rest) = next_word(words)?;
    let n = word_number(word)?;
    Some((n, rest))
}

/// A processor, of this many.
#[tactic(auto, unfolding(crate::specs::Passes::spe_in))]
fn spe_in(spes: u8, words: &[u8]) -> Option<(u8, &[u8])>
    ensures { Reads (λ x. (x.0, words_in x.1.now)) result (spe_in spes (words_in words.now)) }
{
    let (n, rest) = number_in(words)?;
    if n < u32::from(spes) {
        Some((n as u8, rest))
    } else {
        None
    }
}

/// The words after this very word.
#[tactic(auto, unfolding(crate::specs::Passes::mark_in))]
fn mark_in<'a>(mark: &[u8], words: &'a [u8]) -> Option<&'a [u8]>
    ensures { Reads (λ x. words_in x.now) result (mark_in mark.now (words_in words.now)) }
{
    let (word, rest) = next_word(words)?;
    if word == mark { Some(rest) } else { None }
}

/// The words after the next bar.
#[tactic(auto, unfolding(crate::specs::Passes::behind_bar))]
fn behind_bar(words: &[u8]) -> Option<&[u8]>
    ensures { Reads (λ x. words_in x.now) result (behind_bar (words_in words.now)) }
{
    let mut rest = words;
    while let Some((word, after)) = next_word(rest) {
        if word == b"|".as_slice() {
            return Some(after);
        }
        rest = after;
    }
    None
}

/// The site of a step whose line begins with this letter.
fn site_named(letter: &[u8], spe: u8, at: u32) -> Option<Site>
    ensures { result ≡ site_named letter.now spe at }
{
    if letter == b"x".as_slice() {
        Some(Site::Exec { spe, at })
    } else if letter == b"p".as_slice() {
        Some(Site::Piece { spe, at })
    } else if letter == b"e".as_slice() {
        Some(Site::Elem { spe, at })
    } else if letter == b"r".as_slice() {
        Some(Site::Retire { spe, at })
    } else if letter == b"a".as_slice() {
        Some(Site::Atomic { spe, at })
    } else {
        None
    }
}

/// `x 0 at 0x00080`, after its letter.
#[tactic(auto, unfolding(crate::specs::Passes::spe_site))]
fn spe_site<'a>(spes: u8, letter: &[u8], words: &'a [u8]) -> Option<(Site, &'a [u8])>
    ensures { Reads (λ x. (x.0, words_in x.1.now)) result (spe_site spes letter.now (words_in words.now)) }
{
    let (spe, rest) = spe_in(spes, words)?;
    let rest = mark_in(b"at", rest)?;
    let (at, rest) = number_in(rest)?;
    let site = site_named(letter, spe, at)?;
    Some((site, rest))
}

/// `h 3`, after its letter.
#[tactic(auto, unfolding(crate::specs::Passes::host_site))]
fn host_site(words: &[u8]) -> Option<(Site, &[u8])>
    ensures { Reads (λ x. (x.0, words_in x.1.now)) result (host_site (words_in words.now)) }
{
    let (action, rest) = number_in(words)?;
    Some((Site::Host { action }, rest))
}

/// A site, and the words after it.
#[tactic(auto, unfolding(crate::specs::Passes::site_in))]
fn site_in(spes: u8, words: &[u8]) -> Option<(Site, &[u8])>
    ensures { Reads (λ x. (x.0, words_in x.1.now)) result (site_in spes (words_in words.now)) }
{
    let (letter, rest) = next_word(words)?;
    if letter == b"h".as_slice() {
        host_site(rest)
    } else {
        spe_site(spes, letter, rest)
    }
}

/// A site of the machine, and the words after it.
#[tactic(auto, unfolding(crate::specs::Passes::named_in))]
fn named_in<'a>(setup: &Setup, places: &Places, words: &'a [u8]) -> Option<(Site, &'a [u8])>
    ensures { Reads (λ x. (x.0, words_in x.1.now)) result (named_in setup.now places.now (words_in words.now)) }
{
    let (site, rest) = site_in(setup.spes(), words)?;
    if is_named(setup, places, site, rest) {
        Some((site, rest))
    } else {
        None
    }
}

/// The words after `race COUNT FIRST |`, or after the bar alone.
#[tactic(auto, unfolding(crate::specs::Passes::head_in))]
fn head_in(words: &[u8]) -> Option<&[u8]>
    ensures { Reads (λ x. words_in x.now) result (head_in (words_in words.now)) }
{
    let (word, rest) = next_word(words)?;
    if word != b"race".as_slice() {
        return mark_in(b"|", words);
    }
    let (_, rest) = number_in(rest)?;
    let (_, rest) = number_in(rest)?;
    mark_in(b"|", rest)
}

/// Two sites, each after a bar; the line of a source may follow each.
#[tactic(auto, unfolding(crate::specs::Passes::race_in))]
fn race_in(setup: &Setup, places: &Places, words: &[u8]) -> Option<Sites>
    ensures { result ≡ race_in setup.now places.now (words_in words.now) }
{
    let rest = head_in(words)?;
    let (first, rest) = named_in(setup, places, rest)?;
    let rest = behind_bar(rest)?;
    let (second, rest) = named_in(setup, places, rest)?;
    match behind_bar(rest) {
        None => Some(Sites { first, second }),
        Some(_) => None,
    }
}

fn has_hash(word: &[u8]) -> bool
    ensures { result ≡ has_hash word.now }
{
    match word {
        [b, ..] => *b == b'#',
        [] => false,
    }
}

/// The race of a line; None if it is skipped.
#[tactic(auto, unfolding(crate::specs::Passes::line_step))]
fn line_step(setup: &Setup, places: &Places, line: &[u8]) -> Result<Option<(Sites, ())>, ()>
    ensures { result ≡ line_step setup.now places.now tt line.now }
{
    let words = without_return(line);
    let Some((word, _)) = next_word(words) else {
        return Ok(None);
    };
    if has_hash(word) {
        return Ok(None);
    }
    match race_in(setup, places, words) {
        Some(race) => Ok(Some((race, ()))),
        None => Err(()),
    }
}

/// Keeps the race of a line.
fn keep(races: &mut Vec<Sites>, done: Option<(Sites, ())>) -> Result<(), AllocError>
    ensures { OnOk result (races.new.items ≡ races.old.items ++ items_of done) }
{
    match done {
        Some((race, ())) => {
            races.push(race)?;
            Ok(())
        }
        None => Ok(()),
    }
}

/// The races of a text of at most 4,194,304 bytes. `BadLine` names the first line that names no race of two places of the machine.
pub fn read_passes(
    alloc: Global,
    setup: &Setup,
    places: &Places,
    text: &[u8],
) -> Result<Vec<Sites>, PassError>
    requires { length text.now ≤ 4194304 }
    ensures { PassesGive (λ v. v.items) result (passes_at setup.now places.now text.now) }
{
    let mut races = Vec::new(alloc);
    let mut rest = text;
    let mut number: u32 = 1;
    while !rest.is_empty() {
        let (line, after) = first_line(rest);
        let done = match line_step(setup, places, line) {
            Ok(done) => done,
            Err(()) => return Err(PassError::BadLine { line: number }),
        };
        match keep(&mut races, done) {
            Ok(()) => {}
            Err(_) => return Err(PassError::Memory),
        }
        rest = after;
        number += 1;
    }
    Ok(races)
}
