//! The tokens of the assembler's texts.
#![tactic(auto)]

ghost use Rattle.std.specs.Prelude.{◌≡◌, ◌+◌, ◌^◌, ◌<◌, ◌≤◌, ◌++◌, length, IfOk, IfErr, OnOk};
ghost use Rattle.spu_lex.specs.Order.{InOrder};
ghost use Rattle.spu_lex.specs.Pieces.{front};
ghost use Rattle.spu_lex.specs.Tokens.{tokens_of, Gives, located, token_of, line_after};
ghost use Rattle.spu_lex.specs.declared.LexError.TheVariants.{Memory};

mod bytes;
mod front;
mod numbers;

use front::{Fault, Piece, front_of};
pub use numbers::number;
use std::alloc::{AllocFailed, Global};
use std::marker::Model;

/// What a token is.
#[derive(Clone, Copy, Debug, PartialEq, Eq)]
pub enum TokenKind {
    /// A letter, `_` or `.`, then letters, digits, `_` and `.`.
    Name,
    /// `$`, then letters and digits.
    Register,
    /// Decimal digits without a leading zero, or `0x` and hexadecimal digits; at most 64 bits.
    Number,
    /// A string with its quotes.
    Text,
    /// One character that begins none of the others.
    Mark,
    /// A line feed.
    LineEnd,
}

/// A token, the bytes from `start` up to `end` of the text. Lines count from 1.
#[derive(Clone, Copy, Debug, PartialEq, Eq)]
pub struct Token {
    pub kind: TokenKind,
    pub start: u32,
    pub end: u32,
    pub line: u32,
}

/// The tokens of a text, in order.
#[derive(Drop)]
pub struct Tokens {
    items: Vec<Token>,
}

impl Model for Tokens {
    ghost use Rattle.std.specs.Prelude.{List};
    ghost use Rattle.spu_lex.specs.declared.Token.{Token};

    ghost Value = { List Token };

    ghost view = { λ s. s.items.items };
}

impl Tokens {
    /// All of them.
    pub fn items(&self) -> &[Token]
        ensures { result.now ≡ self.now }
    {
        &self.items
    }
}

/// Why a text has no tokens: its first fault, by the place of its byte.
#[derive(Clone, Copy, Debug, PartialEq, Eq)]
pub enum LexError {
    /// A byte that stands nowhere, an unfinished string or comment, or a wrong escape.
    BadChar { at: u32 },
    /// A word that begins with a digit and is no number.
    BadNumber { at: u32 },
    Memory,
}

impl<T: Drop> From<AllocFailed<T>> for LexError {
    ghost from_gives = { λ _ e. e ≡ Memory };

    fn from(_: AllocFailed<T>) -> LexError {
        LexError::Memory
    }
}

/// The piece at the front of what stands at a place, or the fault by its place.
fn piece_at(at: u32, bytes: &[u8]) -> Result<Piece, LexError>
    requires bytes { 0 < length bytes.now }
    requires room { at + length bytes.now < 2 ^ 32 }
    ensures located { result ≡ located at (front bytes.now) }
    ensures within { IfOk result (λ p. (0 < p.len) × (p.len ≤ length bytes.now)) }
{
    match front_of(bytes) {
        Ok(piece) => Ok(piece),
        Err(Fault::Char(n)) => Err(LexError::BadChar { at: at + n as u32 }),
        Err(Fault::Word) => Err(LexError::BadNumber { at }),
    }
}

/// Adds the token that a piece is, if it is one.
fn push_token(items: &mut Vec<Token>, at: u32, line: u32, piece: Piece) -> Result<(), LexError>
    requires { at + piece.len < 2 ^ 32 }
    ensures ok { OnOk result (items.new.items ≡ items.old.items ++ token_of at line piece.len piece.token) }
    ensures err { IfErr result (λ e. e ≡ Memory) }
{
    if let Some(kind) = piece.token {
        let end = at + piece.len as u32;
        items.push(Token {
            kind,
            start: at,
            end,
            line,
        })?;
    }
    Ok(())
}

fn line_after(line: u32, token: Option<TokenKind>) -> u32
    requires { line + 1 < 2 ^ 32 }
    ensures line { result ≡ line_after line token }
    ensures bound { result ≤ line + 1 }
{
    match token {
        Some(TokenKind::LineEnd) => line + 1,
        _ => line,
    }
}

/// The tokens of a text, in order, or its first fault by the earliest byte.
/// A text has at most 4,194,304 bytes.
pub fn lex(alloc: Global, text: &[u8]) -> Result<Tokens, LexError>
    requires { length text.now ≤ 4194304 }
    ensures tokens { Gives result (tokens_of text.now) }
    ensures ordered { IfOk result (InOrder 0 (length text.now)) }
{
    let mut items = Vec::new(alloc);
    let mut rest = text;
    let mut at: u32 = 0;
    let mut line: u32 = 1;
    while !rest.is_empty() {
        let piece = piece_at(at, rest)?;
        push_token(&mut items, at, line, piece)?;
        line = line_after(line, piece.token);
        rest = &rest[piece.len..];
        at += piece.len as u32;
    }
    Ok(Tokens { items })
}
