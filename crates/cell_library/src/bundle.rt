//! What comes in: the words, and the files.

ghost use Rattle.std.specs.Prelude.{◌≡◌, IfOk};
ghost use Rattle.std.specs.List.{position};
ghost use Rattle.cell_base.specs.Numbers.{Reads};
ghost use Rattle.cell_base.specs.Words.{is_feed};
ghost use Rattle.cell_io.specs.Files.{are_different};
ghost use Rattle.cell_library.specs.Question.{line_at, number_line, file_at};
ghost use Rattle.cell_library.specs.Reading.{IsText, KeepsFile, ReadsWords, ReadsAll, ReadsFiles};

use cell_base::line_text::{first_line, number_at};
use cell_io::MemFile;
use indexmap::IndexSet;
use std::alloc::{AllocError, AllocFailed, Global};
use std::str;

/// Why nothing came of it.
#[derive(Clone, Copy)]
pub enum BundleError {
    /// It is outside its form, or two files have one name.
    Form,
    Memory,
}

impl From<AllocError> for BundleError {
    ghost from_gives = { λ _ error. error ≡ Memory };

    ghost use Rattle.cell_library.specs.declared.bundle.BundleError.TheVariants.{Memory};

    fn from(_: AllocError) -> BundleError {
        BundleError::Memory
    }
}

impl<T: Drop> From<AllocFailed<T>> for BundleError {
    ghost from_gives = { λ _ error. error ≡ Memory };

    ghost use Rattle.cell_library.specs.declared.bundle.BundleError.TheVariants.{Memory};

    fn from(_: AllocFailed<T>) -> BundleError {
        BundleError::Memory
    }
}

/// These bytes as a text.
fn text_of(alloc: Global, bytes: &[u8]) -> Result<String, BundleError>
    ensures { IsText bytes.now result }
{
    match str::from_utf8(bytes) {
        Ok(text) => Ok(String::from_str(alloc, text)?),
        Err(_) => Err(BundleError::Form),
    }
}

/// The words, which stand one on a line.
pub fn words_of(alloc: Global, bytes: &[u8]) -> Result<Vec<String>, BundleError>
    ensures { ReadsWords bytes.now result }
{
    let mut words = Vec::new(alloc);
    let mut rest = bytes;
    while !rest.is_empty() {
        let (line, behind) = first_line(rest);
        words.push(text_of(alloc, line)?)?;
        rest = behind;
    }
    Ok(words)
}

/// The place of the first line feed.
fn feed_at(bytes: &[u8]) -> Option<usize>
    ensures { result ≡ position is_feed bytes.now }
{
    bytes.iter().position(|b| *b == b'\n')
}

/// The bytes up to the first line feed, and those behind it.
fn line_at(bytes: &[u8]) -> Option<(&[u8], &[u8])>
    ensures { Reads (λ x. (x.0.now, x.1.now)) result (line_at bytes.now) }
{
    let end = feed_at(bytes)?;
    Some((&bytes[..end], &bytes[end + 1..]))
}

/// A number on a line of its own, and the bytes behind it.
fn number_line(bytes: &[u8]) -> Option<(u32, &[u8])>
    ensures { Reads (λ x. (x.0, x.1.now)) result (number_line bytes.now) }
{
    let (digits, behind) = line_at(bytes)?;
    let (number, more) = number_at(digits, u32::MAX)?;
    if more.is_empty() {
        Some((number, behind))
    } else {
        None
    }
}

/// The name and the bytes of the file at the front, and what is behind it.
fn file_at(bytes: &[u8]) -> Option<(&[u8], &[u8], &[u8])>
    ensures { Reads (λ x. (record { name = x.0.now; bytes = x.1.now }, x.2.now)) result (file_at bytes.now) }
{
    let (name, behind) = line_at(bytes)?;
    let (count, behind) = number_line(behind)?;
    let count = count as usize;
    if count > behind.len() {
        return None;
    }
    Some((name, &behind[..count], &behind[count..]))
}

/// Keeps a file.
fn keep_file(
    alloc: Global,
    files: &mut Vec<MemFile>,
    name: &[u8],
    own: &[u8],
) -> Result<(), BundleError>
    ensures { KeepsFile (record { name = name.now; bytes = own.now }) files.old.items files.new.items result }
{
    let file = MemFile {
        name: text_of(alloc, name)?,
        bytes: own.to_vec(alloc)?,
    };
    files.push(file)?;
    Ok(())
}

/// The files, whose names may be the same.
fn all_files(alloc: Global, bytes: &[u8]) -> Result<Vec<MemFile>, BundleError>
    ensures { ReadsAll bytes.now result }
{
    let mut files = Vec::new(alloc);
    let mut rest = bytes;
    while !rest.is_empty() {
        let Some((name, own, behind)) = file_at(rest) else {
            return Err(BundleError::Form);
        };
        keep_file(alloc, &mut files, name, own)?;
        rest = behind;
    }
    Ok(files)
}

/// Whether no two of them have one name. The names that were seen are kept, so each file is looked up once.
fn are_different(alloc: Global, files: &[MemFile]) -> Result<bool, AllocError>
    ensures { IfOk result (λ b. b ≡ are_different files.now) }
{
    let mut seen = IndexSet::new(alloc);
    for file in files {
        if !seen.insert(file.name.as_str())? {
            return Ok(false);
        }
    }
    Ok(true)
}

/// The files.
pub fn files_of(alloc: Global, bytes: &[u8]) -> Result<Vec<MemFile>, BundleError>
    ensures { ReadsFiles bytes.now result }
{
    let files = all_files(alloc, bytes)?;
    if are_different(alloc, files.as_slice())? {
        Ok(files)
    } else {
        Err(BundleError::Form)
    }
}
