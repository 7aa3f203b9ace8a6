// The words of the command line.
ghost use Rattle.std.specs.Prelude.{◌≡◌, ◌++◌, ◌∷◌, [], map, string_bytes, vec_len, OnOk, Some, unwrap_or};
ghost use Rattle.std.specs.Str.{IsUtf8};
ghost use Rattle.std.specs.Str.Lossy.{utf8_lossy};

use std::alloc::{AllocError, Global};
use std::env::{Env, FillError};
use std::str;

/// How many bytes there is room for when a word is first read.
const FIRST_ROOM: usize = 256;

/// The words behind the program's name.
#[derive(Drop)]
pub struct Words {
    /// Each word; in one that isn't UTF-8, U+FFFD stands for what isn't.
    pub texts: Vec<String>,
    /// The place of the first word that isn't UTF-8.
    pub not_utf8: Option<usize>,
}

impl Words {
    /// Adds a word behind the others.
    fn add(&mut self, alloc: Global, word: &[u8]) -> Result<(), AllocError>
        ensures texts { OnOk result (map string_bytes self.new.texts.items ≡ map string_bytes self.old.texts.items ++ utf8_lossy word.now ∷ []) }
        ensures utf8 { OnOk result (IsUtf8 word.now → self.new.not_utf8 ≡ self.old.not_utf8) }
        ensures told { OnOk result (¬ (IsUtf8 word.now) → self.new.not_utf8 ≡ Some (unwrap_or self.old.not_utf8 (vec_len self.old.texts))) }
    {
        let text = String::from_utf8_lossy(alloc, word)?;
        if self.not_utf8.is_none() && str::from_utf8(word).is_err() {
            self.not_utf8 = Some(self.texts.len());
        }
        self.texts.push(text)?;
        Ok(())
    }
}

/// The bytes of the word of this number, where there is one.
fn read_word<R: Env>(rt: &R, alloc: Global, number: usize) -> Result<Option<Vec<u8>>, AllocError> {
    let mut bytes = Vec::new(alloc);
    let mut room = FIRST_ROOM;
    for _ in 0..usize::BITS {
        bytes.resize(room, 0u8)?;
        match rt.arg(number, bytes.as_mut_slice()) {
            Ok(count) => {
                bytes.truncate(count);
                return Ok(Some(bytes));
            }
            Err(FillError::NotPresent) => return Ok(None),
            Err(FillError::TooLong) => room = room.saturating_mul(2),
        }
    }
    Err(AllocError)
}

/// Reads the words behind the program's name, which need not be UTF-8. Only want of memory is an error.
pub fn read_words<R: Env>(rt: &R, alloc: Global) -> Result<Words, AllocError> {
    let mut words = Words {
        texts: Vec::new(alloc),
        not_utf8: None,
    };
    for number in 1..usize::MAX {
        match read_word(rt, alloc, number)? {
            Some(word) => words.add(alloc, word.as_slice())?,
            None => break,
        }
    }
    Ok(words)
}
