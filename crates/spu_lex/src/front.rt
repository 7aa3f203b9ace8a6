ghost use Rattle.std.specs.Prelude.{◌≡◌, ◌+◌, ◌^◌, ◌<◌, ◌≤◌, length, IfOk, IfErr};
ghost use Rattle.std.specs.List.{prefix_len};
ghost use Rattle.std.specs.Char.{is_ascii_alphanumeric};
ghost use Rattle.spu_lex.specs.Bytes.{is_in_word, is_in_line};
ghost use Rattle.spu_lex.specs.Pieces.{front, comment_end, string_end, number_piece, closed, gap, token, begins_with, FitsIn};

use crate::TokenKind;
use crate::bytes::{is_blank, is_escaped, is_in_word, is_visible, starts_name};
use crate::numbers::number;

/// What stands at the front of a text: a token, or a blank or a comment, which has no kind.
#[derive(Clone, Copy)]
pub(crate) struct Piece {
    pub token: Option<TokenKind>,
    pub len: usize,
}

/// What is wrong at the front of a text.
#[derive(Clone, Copy)]
pub(crate) enum Fault {
    /// The byte so far behind the front stands nowhere.
    Char(usize),
    /// The word is no number.
    Word,
}

/// The piece at the front of a text.
#[tactic(auto, unfolding(crate::specs::Pieces::front))]
pub(crate) fn front_of(bytes: &[u8]) -> Result<Piece, Fault>
    requires { 0 < length bytes.now }
    ensures front { result ≡ front bytes.now }
    ensures fits { FitsIn (length bytes.now) result }
{
    let [b, rest @ ..] = bytes else {
        return Err(Fault::Char(0));
    };
    let b = *b;
    if is_blank(b) {
        gap(1)
    } else if b == b'\n' {
        token(TokenKind::LineEnd, 1)
    } else if b == b'#' {
        gap(1 + line_len(rest))
    } else if b == b'/' && begins_with(b'*', rest) {
        closed(None, 2, comment_end(&rest[1..]))
    } else if b == b'"' {
        closed(Some(TokenKind::Text), 1, string_end(rest))
    } else if b.is_ascii_digit() {
        number_piece(bytes)
    } else if starts_name(b) {
        token(TokenKind::Name, 1 + word_len(rest))
    } else if b == b'$' && 0 < register_len(rest) {
        token(TokenKind::Register, 1 + register_len(rest))
    } else if is_visible(b) {
        token(TokenKind::Mark, 1)
    } else {
        Err(Fault::Char(0))
    }
}

fn gap(len: usize) -> Result<Piece, Fault>
    ensures { result ≡ gap len }
{
    Ok(Piece { token: None, len })
}

fn token(kind: TokenKind, len: usize) -> Result<Piece, Fault>
    ensures { result ≡ token kind len }
{
    Ok(Piece {
        token: Some(kind),
        len,
    })
}

/// A piece of `opened` bytes and those that close it.
fn closed(kind: Option<TokenKind>, opened: usize, end: Result<usize, usize>) -> Result<Piece, Fault>
    requires ok { IfOk end (λ len. opened + len < 2 ^ 64) }
    requires err { IfErr end (λ at. opened + at < 2 ^ 64) }
    ensures { result ≡ closed kind opened end }
{
    match end {
        Ok(len) => Ok(Piece {
            token: kind,
            len: opened + len,
        }),
        Err(at) => Err(Fault::Char(opened + at)),
    }
}

fn number_piece(bytes: &[u8]) -> Result<Piece, Fault>
    requires { 0 < prefix_len is_in_word bytes.now }
    ensures piece { result ≡ number_piece bytes.now }
    ensures fits { FitsIn (length bytes.now) result }
{
    let len = word_len(bytes);
    if number(&bytes[..len]).is_some() {
        token(TokenKind::Number, len)
    } else {
        Err(Fault::Word)
    }
}

fn begins_with(b: u8, bytes: &[u8]) -> bool
    ensures { result ≡ begins_with b bytes.now }
{
    match bytes {
        [] => false,
        [c, ..] => *c == b,
    }
}

/// How many bytes are left of the line.
fn line_len(bytes: &[u8]) -> usize
    ensures len { result ≡ prefix_len is_in_line bytes.now }
    ensures within { result ≤ length bytes.now }
{
    bytes.iter().take_while(|b| **b != b'\n').count()
}

fn word_len(bytes: &[u8]) -> usize
    ensures len { result ≡ prefix_len is_in_word bytes.now }
    ensures within { result ≤ length bytes.now }
{
    bytes.iter().take_while(|b| is_in_word(**b)).count()
}

fn register_len(bytes: &[u8]) -> usize
    ensures len { result ≡ prefix_len is_ascii_alphanumeric bytes.now }
    ensures within { result ≤ length bytes.now }
{
    bytes
        .iter()
        .take_while(|b| b.is_ascii_alphanumeric())
        .count()
}

/// How many bytes close a comment that was opened, or where it is cut off.
#[tactic(auto, using(crate::proofs::Ends::further_again, crate::proofs::Ends::further_none), unfolding(crate::specs::Pieces::comment_end))]
fn comment_end(bytes: &[u8]) -> Result<usize, usize>
    ensures end { result ≡ comment_end bytes.now }
    ensures within { IfOk result (λ n. n ≤ length bytes.now) }
    ensures place { IfErr result (λ n. n ≤ length bytes.now) }
{
    let mut len = 0;
    let mut rest = bytes;
    while let [b, after @ ..] = rest {
        if *b == b'\n' {
            return Err(len);
        }
        if *b == b'*' && begins_with(b'/', after) {
            return Ok(len + 2);
        }
        len += 1;
        rest = after;
    }
    Err(len)
}

/// How many bytes close a string that was opened, or where its fault stands.
#[tactic(auto, using(crate::proofs::Ends::further_again, crate::proofs::Ends::further_none, crate::proofs::Ends::string_goes_on), unfolding(crate::specs::Pieces::string_end))]
fn string_end(bytes: &[u8]) -> Result<usize, usize>
    ensures end { result ≡ string_end bytes.now }
    ensures within { IfOk result (λ n. n ≤ length bytes.now) }
    ensures place { IfErr result (λ n. n ≤ length bytes.now) }
{
    let mut len = 0;
    let mut rest = bytes;
    while let [b, after @ ..] = rest {
        if *b == b'"' {
            return Ok(len + 1);
        }
        if *b == b'\n' {
            return Err(len);
        }
        if *b == b'\\' {
            match after {
                [escaped, after @ ..] if is_escaped(*escaped) => {
                    len += 2;
                    rest = after;
                }
                _ => return Err(len),
            }
        } else {
            len += 1;
            rest = after;
        }
    }
    Err(len)
}
