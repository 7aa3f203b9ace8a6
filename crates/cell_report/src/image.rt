//! The text of an assembled image.

ghost use Rattle.std.specs.Prelude.{◌≡◌, ◌+◌, ◌*◌, ◌<◌, ◌≤◌, ◌++◌, length, OnOk, IfOk};
ghost use Rattle.cell_report.specs.Images.{row_of, row_line, row_lines, image_lines};

use crate::error::TextError;
use cell_base::line_text::{put_hex, put_hex_bytes};
use spu_asm::Image;
use std::alloc::{AllocError, Global};

/// How many bytes a row has.
const ROW_BYTES: usize = 16;

/// The bytes of row k: sixteen of them, or what is left.
fn row_of(bytes: &[u8], k: usize) -> &[u8]
    requires { 16 * k < length bytes.now }
    ensures { result.now ≡ row_of bytes.now k }
{
    let start = ROW_BYTES * k;
    &bytes[start..bytes.len().min(start + ROW_BYTES)]
}

/// Writes the line of a row at an address.
fn put_row(out: &mut Vec<u8>, word: &[u8], at: u32, row: &[u8]) -> Result<(), AllocError>
    ensures { OnOk result (out.new.items ≡ out.old.items ++ row_line word.now at row.now) }
{
    out.extend_from_slice(word)?;
    out.extend_from_slice(b" 0x")?;
    put_hex(out, 5, at)?;
    out.push(b' ')?;
    put_hex_bytes(out, row)?;
    out.push(b'\n')?;
    Ok(())
}

/// Writes all bytes, row by row.
fn put_rows(out: &mut Vec<u8>, word: &[u8], at: u32, bytes: &[u8]) -> Result<(), AllocError>
    requires { at + length bytes.now ≤ 262144 }
    ensures { OnOk result (out.new.items ≡ out.old.items ++ row_lines word.now at bytes.now) }
{
    for k in 0..(bytes.len() + 15) / ROW_BYTES {
        put_row(out, word, at + (ROW_BYTES * k) as u32, row_of(bytes, k))?;
    }
    Ok(())
}

/// The image of a source as text: its instruction words in `code` lines, its data in `bytes` lines, and its entry.
pub fn image_text(alloc: Global, i: &Image) -> Result<Vec<u8>, TextError>
    ensures { IfOk result (λ text. text.items ≡ image_lines i.now) }
{
    let mut out = Vec::new(alloc);
    put_rows(&mut out, b"code", 0, i.text())?;
    put_rows(&mut out, b"bytes", i.bytes_at(), i.bytes())?;
    out.extend_from_slice(b"entry 0x")?;
    put_hex(&mut out, 5, i.entry())?;
    out.push(b'\n')?;
    Ok(out)
}
