//! The first byte in which two results differ, as the debugger names it.

ghost use Rattle.std.specs.Prelude.{◌≡◌, ◌++◌, OnOk};
ghost use Rattle.std.specs.Option.{option_map};
ghost use Rattle.cell_base.specs.Words.{words_in};
ghost use Rattle.hunt_texts.specs.Watches.{same_bytes, watch_at, digit_at, local_at, byte_in, watch_in, byte_text, last_text, watch_text};
ghost use Rattle.hunt_texts.specs.Watched.{watched, word_of};

use cell_base::line_text::{next_word, put_hex, word_number};
use std::alloc::AllocError;

/// A byte of main memory, or of the local store of the processor that a word names.
#[derive(Clone, Copy)]
pub struct Watch<'a> {
    pub spe: Option<&'a [u8]>,
    pub at: u32,
}

/// How many bytes of two lines are equal before the first that differs.
fn same_bytes(line: &[u8], other: &[u8]) -> usize
    ensures { result ≡ same_bytes line.now other.now }
{
    let most = line.len().min(other.len());
    for place in 0..most {
        if line[place] != other[place] {
            return place;
        }
    }
    most
}

/// The byte at an address, if there is such an address.
fn watch_at(spe: Option<&[u8]>, at: u64) -> Option<Watch<'_>>
    ensures { option_map watched result ≡ watch_at (word_of spe.entry) at }
{
    if at < 1 << 32 {
        Some(Watch { spe, at: at as u32 })
    } else {
        None
    }
}

/// The byte of the last digit of `0xA DIGITS`.
#[tactic(auto, unfolding(crate::specs::Watches::digit_at))]
fn digit_at<'a>(spe: Option<&'a [u8]>, words: &[u8]) -> Option<Watch<'a>>
    ensures { option_map watched result ≡ digit_at (word_of spe.entry) (words_in words.now) }
{
    let (word, rest) = next_word(words)?;
    let first = word_number(word)?;
    let (digits, _) = next_word(rest)?;
    watch_at(
        spe,
        u64::from(first) + digits.len().saturating_sub(1) as u64 / 2,
    )
}

#[tactic(auto, unfolding(crate::specs::Watches::local_at))]
fn local_at(words: &[u8]) -> Option<Watch<'_>>
    ensures { option_map watched result ≡ local_at (words_in words.now) }
{
    let (spe, rest) = next_word(words)?;
    digit_at(Some(spe), rest)
}

/// The byte of the last digit of `mem 0xA DIGITS` or `ls P 0xA DIGITS`.
#[tactic(auto, unfolding(crate::specs::Watches::byte_in))]
fn byte_in(words: &[u8]) -> Option<Watch<'_>>
    ensures { option_map watched result ≡ byte_in (words_in words.now) }
{
    let (word, rest) = next_word(words)?;
    if word == b"mem".as_slice() {
        digit_at(None, rest)
    } else if word == b"ls".as_slice() {
        local_at(rest)
    } else {
        None
    }
}

/// The byte in whose digits two lines differ first. None if they differ in other words.
#[tactic(auto, unfolding(crate::specs::Watches::watch_in))]
fn watch_in<'a>(line: &'a [u8], other: &[u8]) -> Option<Watch<'a>>
    ensures { option_map watched result ≡ watch_in line.now other.now }
{
    let same = same_bytes(line, other);
    if same < line.len() && same < other.len() {
        byte_in(&line[..same + 1])
    } else {
        None
    }
}

fn put_byte(out: &mut Vec<u8>, spe: Option<&[u8]>, at: u32) -> Result<(), AllocError>
    ensures { OnOk result (out.new.items ≡ out.old.items ++ byte_text (word_of spe.entry) at) }
{
    match spe {
        None => {
            out.extend_from_slice(b"mem 0x")?;
            put_hex(out, 8, at)
        }
        Some(spe) => {
            out.push(b'x')?;
            out.extend_from_slice(spe)?;
            out.extend_from_slice(b" 0x")?;
            put_hex(out, 5, at)
        }
    }
}

#[tactic(auto, unfolding(crate::specs::Watches::last_text))]
fn put_last(out: &mut Vec<u8>, spe: Option<&[u8]>, at: u32) -> Result<(), AllocError>
    ensures { OnOk result (out.new.items ≡ out.old.items ++ last_text (word_of spe.entry) at) }
{
    out.extend_from_slice(b", then `run` and `last ")?;
    put_byte(out, spe, at)?;
    out.extend_from_slice(b" 1`")
}

/// Writes the commands of the debugger that stop at the step that wrote the byte in which two lines differ first, if they show it.
pub fn put_watch(out: &mut Vec<u8>, line: &[u8], other: &[u8]) -> Result<(), AllocError>
    ensures { OnOk result (out.new.items ≡ out.old.items ++ watch_text (watch_in line.now other.now)) }
{
    match watch_in(line, other) {
        Some(watch) => put_last(out, watch.spe, watch.at),
        None => Ok(()),
    }
}
