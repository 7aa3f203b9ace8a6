//! Numbers in lines of text.

ghost use Rattle.std.specs.Prelude.{◌≡◌, ℕ, ◌+◌, ◌*◌, ◌-◌, ◌^◌, ◌<◌, ◌≤◌, ◌++◌, length, OnOk, IfSome};
ghost use Rattle.std.specs.Fmt.{decimal};
ghost use Rattle.cell_base.specs.Numbers.{Reads, number_at, digits_at, at_most, decimal_number, hex_digit, hex_number, word_number};

use std::alloc::AllocError;

fn digits_within(first: u8, bytes: &[u8], limit: u32) -> Option<(u32, &[u8])>
    ensures value { Reads (λ x. (x.0, x.1.now)) result (at_most limit (digits_at first bytes.now)) }
    ensures bound { IfSome result (λ x. x.0 ≤ limit) }
{
    let mut n = u64::from(first);
    let mut rest = bytes;
    while let Some((b, after)) = rest.split_first() {
        if !b.is_ascii_digit() || n > u64::from(limit) {
            break;
        }
        n = n * 10 + u64::from(*b - b'0');
        rest = after;
    }
    if n > u64::from(limit) {
        return None;
    }
    Some((n as u32, rest))
}

/// A number in decimal, 0 or without a leading zero, and the bytes after it; none above `limit`.
#[tactic(auto, unfolding(crate::specs::Numbers::number_at))]
pub fn number_at(bytes: &[u8], limit: u32) -> Option<(u32, &[u8])>
    ensures value { Reads (λ x. (x.0, x.1.now)) result (number_at limit bytes.now) }
    ensures bound { IfSome result (λ x. x.0 ≤ limit) }
{
    match bytes {
        [b'0', rest @ ..] => Some((0, rest)),
        [b @ b'1'..=b'9', rest @ ..] => digits_within(*b - b'0', rest, limit),
        _ => None,
    }
}

/// Writes a number in decimal at the end. It is compiled into its callers, since most numbers of a record have one digit.
#[inline(always)]
#[cycle(decimal)]
pub fn put_decimal(out: &mut Vec<u8>, n: u32) -> Result<(), AllocError>
    ensures { OnOk result (out.new.items ≡ out.old.items ++ decimal n) }
{
    if n >= 10 {
        put_leading(out, n / 10)?;
    }
    out.push(b'0' + (n % 10) as u8)?;
    Ok(())
}

/// Writes the digits before the last one.
#[cycle(decimal)]
fn put_leading(out: &mut Vec<u8>, n: u32) -> Result<(), AllocError>
    ensures { OnOk result (out.new.items ≡ out.old.items ++ decimal n) }
{
    put_decimal(out, n)
}

fn hex_digit(c: u8) -> Option<u32>
    ensures value { result ≡ hex_digit c }
    ensures bound { IfSome result (λ d. d < 16) }
{
    char::from(c).to_digit(16)
}

fn hex_number(digits: &[u8]) -> Option<u32>
    ensures { result ≡ hex_number digits.now }
{
    if digits.is_empty() || digits.len() > 8 {
        return None;
    }
    let mut n: u64 = 0;
    let mut rest = digits;
    while let Some((c, after)) = rest.split_first() {
        let digit = hex_digit(*c)?;
        n = n * 16 + u64::from(digit);
        rest = after;
    }
    Some(n as u32)
}

fn whole_decimal(word: &[u8]) -> Option<u32>
    ensures { result ≡ decimal_number word.now }
{
    let (n, rest) = number_at(word, u32::MAX)?;
    if rest.is_empty() { Some(n) } else { None }
}

/// A word that is a number: decimal, or `0x` and up to eight hexadecimal digits.
#[tactic(auto, unfolding(crate::specs::Numbers::word_number))]
pub fn word_number(word: &[u8]) -> Option<u32>
    ensures { result ≡ word_number word.now }
{
    match word {
        [] => None,
        [b'0', b'x', digits @ ..] => hex_number(digits),
        _ => whole_decimal(word),
    }
}
