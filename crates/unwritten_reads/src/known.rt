//! The set of known bytes.

ghost use Rattle.std.specs.Prelude.{◌≡◌, ℕ, ◌+◌, ◌-◌, ◌*◌, ◌/◌, ◌^◌, ◌<◌, ◌≤◌, true, false, ◌||◌, replicate, length, OnOk};
ghost use Rattle.unwritten_reads.specs.Ranges.{IsWithin, in_range};
ghost use Rattle.unwritten_reads.specs.Marks.{HasMarked, IsFirst, has_bit, is_marked, looked};

use crate::range::ByteRange;
use digest_pages::DigestPages;
use std::alloc::{AllocError, Global};

/// The number of bytes that one word has marks for.
const WORD_BYTES: usize = 64;

/// The bits of the bytes that are in the set, or of those that aren't.
#[inline(always)]
fn looked(word: u64, is_in: bool) -> u64
    ensures { result ≡ looked is_in word }
{
    if is_in { word } else { !word }
}

/// The bits of the bytes of a range within one word.
#[inline(always)]
fn mask(range: ByteRange) -> u64
    requires some { range.from < range.end }
    requires fits { range.end ≤ 64 }
    ensures { result ≡ 2 ^ range.end - 2 ^ range.from }
{
    ((1u128 << range.end) - (1u128 << range.from)) as u64
}

/// The first byte of a range within this word that is in the set, or that isn't.
#[inline(always)]
fn first_bit(word: u64, range: ByteRange, is_in: bool) -> Option<usize>
    requires some { range.from < range.end }
    requires fits { range.end ≤ 64 }
    ensures { IsFirst (has_bit word) is_in range result }
{
    let found = looked(word, is_in) & mask(range);
    if found == 0 {
        return None;
    }
    Some(found.trailing_zeros() as usize)
}

/// A set of bytes of the local stores. Only a stretch of 16 KiB with a byte of the set takes memory, since a run touches few of all bytes.
#[derive(Drop)]
pub(crate) struct Known {
    /// A word for each 64 bytes; the lowest bit is the mark of the first of them.
    marks: DigestPages,
}

impl Known {
    /// The empty set, with this number of words.
    pub(crate) fn new(alloc: Global, words: usize) -> Known
        ensures { result.marks ≡ replicate words 0 }
    {
        Known {
            marks: DigestPages::new(alloc, words),
        }
    }

    /// The first byte of a range within one word that is in the set, or that isn't.
    #[inline(always)]
    fn first_in_word(&self, range: ByteRange, is_in: bool) -> Option<usize>
        requires some { range.from < range.end }
        requires word { range.end ≤ 64 * (range.from / 64) + 64 }
        ensures { IsFirst (is_marked self.now.marks) is_in range result }
    {
        let start = WORD_BYTES * (range.from / WORD_BYTES);
        let word = self.marks.get(range.from / WORD_BYTES);
        let bits = ByteRange {
            from: range.from - start,
            end: range.end - start,
        };
        let first = first_bit(word, bits, is_in)?;
        Some(start + first)
    }

    /// The first byte of the range that is in the set, or that isn't.
    pub(crate) fn first(&self, range: ByteRange, is_in: bool) -> Option<usize>
        ensures { IsFirst (is_marked self.now.marks) is_in range result }
    {
        let mut from = range.from;
        while from < range.end {
            let end = from + (range.end - from).min(WORD_BYTES - from % WORD_BYTES);
            match self.first_in_word(ByteRange { from, end }, is_in) {
                Some(first) => return Some(first),
                None => from = end,
            }
        }
        None
    }

    /// Whether each byte of the range is in the set.
    #[inline(always)]
    pub(crate) fn has_all(&self, range: ByteRange) -> bool
        ensures { result ≡ true → (b : ℕ) → in_range range b ≡ true → is_marked self.now.marks b ≡ true }
    {
        self.first(range, false).is_none()
    }

    /// Whether a byte of the range is in the set.
    pub(crate) fn has_any(&self, range: ByteRange) -> bool
        ensures some { result ≡ true → HasMarked self.now.marks range }
        ensures none { result ≡ false → (b : ℕ) → in_range range b ≡ true → is_marked self.now.marks b ≡ false }
    {
        self.first(range, true).is_some()
    }

    /// Adds the bytes of a range within one word.
    fn add_in_word(&mut self, range: ByteRange) -> Result<(), AllocError>
        requires some { range.from < range.end }
        requires word { range.end ≤ 64 * (range.from / 64) + 64 }
        requires inside { range.end ≤ 64 * length self.old.marks }
        ensures long { OnOk result (length self.new.marks ≡ length self.old.marks) }
        ensures marked { OnOk result ((b : ℕ) → is_marked self.new.marks b ≡ (is_marked self.old.marks b || in_range range b)) }
    {
        let index = range.from / WORD_BYTES;
        let start = WORD_BYTES * index;
        let bits = ByteRange {
            from: range.from - start,
            end: range.end - start,
        };
        let word = self.marks.get(index) | mask(bits);
        self.marks.put(index, word)
    }

    /// Adds the bytes of the range.
    pub(crate) fn add(&mut self, range: ByteRange) -> Result<(), AllocError>
        requires { IsWithin (length self.old.marks) range }
        ensures long { OnOk result (length self.new.marks ≡ length self.old.marks) }
        ensures marked { OnOk result ((b : ℕ) → is_marked self.new.marks b ≡ (is_marked self.old.marks b || in_range range b)) }
    {
        let mut from = range.from;
        while from < range.end {
            let end = from + (range.end - from).min(WORD_BYTES - from % WORD_BYTES);
            self.add_in_word(ByteRange { from, end })?;
            from = end;
        }
        Ok(())
    }
}
