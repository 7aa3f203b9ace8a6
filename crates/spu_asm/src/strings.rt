//! What strings stand for.

ghost use Rattle.std.specs.Prelude.{◌≡◌, ◌≤◌, length, IfOk};
ghost use Rattle.spu_asm.specs.Strings.{string_value, escape_value, is_octal, letter_byte};

use std::alloc::{AllocError, Global};

/// How many bytes a string's inside stands for.
pub(crate) fn string_len(quoted: &[u8]) -> usize
    ensures { result ≡ length (string_value quoted.now) }
{
    if quoted.len() < 2 {
        return 0;
    }
    let inside = &quoted[1..quoted.len() - 1];
    let mut rest = inside;
    let mut len = 0;
    while let [b, after @ ..] = rest {
        len += 1;
        if *b == b'\\' {
            let (_, taken) = escape_value(after);
            rest = &after[taken..];
        } else {
            rest = after;
        }
    }
    len
}

/// The byte of an escape, and how many bytes it has behind its backslash.
fn escape_value(bytes: &[u8]) -> (u8, usize)
    ensures value { result ≡ escape_value bytes.now }
    ensures taken { result.1 ≤ length bytes.now }
{
    match bytes {
        [] => (0, 0),
        [a, ..] if !is_octal(*a) => (letter_byte(*a), 1),
        [a, b, c, ..] if is_octal(*b) && is_octal(*c) && *a < b'4' => (
            (*a - b'0') * 64 + (*b - b'0') * 8 + (*c - b'0'),
            3,
        ),
        [a, b, ..] if is_octal(*b) => ((*a - b'0') * 8 + (*b - b'0'), 2),
        [a, ..] => (*a - b'0', 1),
    }
}

fn is_octal(b: u8) -> bool
    ensures { result ≡ is_octal b }
{
    b'0' <= b && b < b'8'
}

fn letter_byte(b: u8) -> u8
    ensures { result ≡ letter_byte b }
{
    match b {
        b'n' => b'\n',
        b't' => b'\t',
        b'r' => b'\r',
        _ => b,
    }
}

/// The bytes that a string stands for.
pub(crate) fn string_bytes(alloc: Global, quoted: &[u8]) -> Result<Vec<u8>, AllocError>
    ensures { IfOk result (λ v. v.items ≡ string_value quoted.now) }
{
    let mut out = Vec::new(alloc);
    if quoted.len() < 2 {
        return Ok(out);
    }
    let inside = &quoted[1..quoted.len() - 1];
    let mut rest = inside;
    while let [b, after @ ..] = rest {
        if *b == b'\\' {
            let (byte, taken) = escape_value(after);
            out.push(byte)?;
            rest = &after[taken..];
        } else {
            out.push(*b)?;
            rest = after;
        }
    }
    Ok(out)
}
