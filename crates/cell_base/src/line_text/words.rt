//! The lines of a text, and the words of a line.

ghost use Rattle.std.specs.Prelude.{◌≡◌, ◌<◌, ◌≤◌, ◌+◌, ◌∷◌, [], not, length, MatchOption};
ghost use Rattle.std.specs.List.{position, before_first};
ghost use Rattle.cell_base.specs.Words.{is_feed, is_blank, is_hash, lines_of, words_in};

fn is_blank(b: u8) -> bool
    ensures { result ≡ is_blank b }
{
    b == b' ' || b == b'\t'
}

fn feed_at(bytes: &[u8]) -> Option<usize>
    ensures { result ≡ position is_feed bytes.now }
{
    bytes.iter().position(|b| *b == b'\n')
}

fn hash_at(bytes: &[u8]) -> Option<usize>
    ensures { result ≡ position is_hash bytes.now }
{
    bytes.iter().position(|b| *b == b'#')
}

fn nonblank_at(bytes: &[u8]) -> Option<usize>
    ensures { result ≡ position (λ b. not (is_blank b)) bytes.now }
{
    bytes.iter().position(|b| !is_blank(*b))
}

fn blank_at(bytes: &[u8]) -> Option<usize>
    ensures { result ≡ position is_blank bytes.now }
{
    bytes.iter().position(|b| is_blank(*b))
}

/// The first line, without its line feed, and the bytes behind it.
pub fn first_line(bytes: &[u8]) -> (&[u8], &[u8])
    requires { 0 < length bytes.now }
    ensures line { lines_of bytes.now ≡ result.0.now ∷ lines_of result.1.now }
    ensures shorter { length result.0.now + length result.1.now ≤ length bytes.now }
    ensures less { length result.1.now < length bytes.now }
{
    match feed_at(bytes) {
        Some(i) => (&bytes[..i], &bytes[i + 1..]),
        None => (bytes, &[]),
    }
}

/// A line up to its comment.
pub fn before_comment(line: &[u8]) -> &[u8]
    ensures { result.now ≡ before_first is_hash line.now }
{
    match hash_at(line) {
        Some(i) => &line[..i],
        None => line,
    }
}

/// The first word, and the bytes behind it; None where no word is there.
pub fn next_word(bytes: &[u8]) -> Option<(&[u8], &[u8])>
    ensures { MatchOption result (words_in bytes.now ≡ []) (λ x. words_in bytes.now ≡ x.0.now ∷ words_in x.1.now) }
{
    let word = &bytes[nonblank_at(bytes)?..];
    match blank_at(word) {
        Some(i) => Some((&word[..i], &word[i..])),
        None => Some((word, &[])),
    }
}
