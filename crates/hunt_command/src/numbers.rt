//! Words that are numbers.

ghost use Rattle.std.specs.Prelude.{◌≡◌, ◌≤◌, IfSome};
ghost use Rattle.cell_base.specs.Numbers.{Reads, digits_at, number_at, at_most};
ghost use Rattle.hunt_command.specs.Numbers.{number_within, seconds_within};

/// The value of the digits at the front, after a first digit, and the bytes after them; none above `limit`.
fn digits_within(first: u8, bytes: &[u8], limit: u64) -> Option<(u64, &[u8])>
    ensures value { Reads (λ x. (x.0, x.1.now)) result (at_most limit (digits_at first bytes.now)) }
    ensures bound { IfSome result (λ x. x.0 ≤ limit) }
{
    let mut n = u128::from(first);
    let mut rest = bytes;
    while let Some((b, after)) = rest.split_first() {
        if !b.is_ascii_digit() || n > u128::from(limit) {
            break;
        }
        n = n * 10 + u128::from(*b - b'0');
        rest = after;
    }
    if n > u128::from(limit) {
        return None;
    }
    Some((n as u64, rest))
}

/// The number at the front of a word in decimal, without a sign or a leading zero, and the bytes after it; none above `limit`.
#[tactic(auto, unfolding(cell_base::specs::Numbers::number_at))]
fn number_at(word: &str, limit: u64) -> Option<(u64, &[u8])>
    ensures value { Reads (λ x. (x.0, x.1.now)) result (number_at limit word.now) }
    ensures bound { IfSome result (λ x. x.0 ≤ limit) }
{
    match word.as_bytes() {
        [b'0', rest @ ..] => Some((0, rest)),
        [b @ b'1'..=b'9', rest @ ..] => digits_within(*b - b'0', rest, limit),
        _ => None,
    }
}

/// The number that a word is in decimal, without a sign or a leading zero; none above `limit`.
pub fn number_of(word: &str, limit: u64) -> Option<u64>
    ensures value { result ≡ number_within limit word.now }
    ensures bound { IfSome result (λ n. n ≤ limit) }
{
    let (n, rest) = number_at(word, limit)?;
    if rest.is_empty() { Some(n) } else { None }
}

/// The same of a number of seconds, which may have an `s` after it.
pub fn seconds_of(word: &str, limit: u64) -> Option<u64>
    ensures value { result ≡ seconds_within limit word.now }
    ensures bound { IfSome result (λ n. n ≤ limit) }
{
    let (n, rest) = number_at(word, limit)?;
    match rest {
        [] | [b's'] => Some(n),
        _ => None,
    }
}
