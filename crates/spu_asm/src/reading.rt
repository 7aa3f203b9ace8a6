//! Reading a line's tokens from the left.

ghost use Rattle.std.specs.Prelude.{◌≡◌, ◌&&◌, drop, IfSome, [], ◌∷◌, length};
ghost use Rattle.spu_lex.specs.Order.{LiesIn};
ghost use Rattle.spu_asm.specs.Reading.{word, is_the_mark, mark_at, begins_with_mark, name_at, number_at, seen, seen_rest, Within};

use spu_lex::{Token, TokenKind, number};

/// The bytes of a token.
pub(crate) fn word(text: &[u8], token: Token) -> &[u8]
    requires { LiesIn (length text.now) token }
    ensures { result.now ≡ word text.now token }
{
    &text[token.start as usize..token.end as usize]
}

/// What stands after a token's first byte.
pub(crate) fn word_tail(text: &[u8], token: Token) -> &[u8]
    requires { LiesIn (length text.now) token }
    ensures { result.now ≡ drop 1 (word text.now token) }
{
    match word(text, token) {
        [_, tail @ ..] => tail,
        [] => &[],
    }
}

/// Whether a token is the mark of a character.
pub(crate) fn is_the_mark(text: &[u8], b: u8, token: Token) -> bool
    requires { LiesIn (length text.now) token }
    ensures { result ≡ is_the_mark text.now b token }
{
    token.kind == TokenKind::Mark && word(text, token) == [b].as_slice()
}

/// The tokens after a mark.
pub(crate) fn mark_at<'a>(text: &[u8], b: u8, tokens: &'a [Token]) -> Option<&'a [Token]>
    requires { Within text.now tokens.now }
    ensures rest { seen_rest result ≡ mark_at text.now b tokens.now }
    ensures within { IfSome result (λ rest. Within text.now rest.now) }
{
    match tokens {
        [t, rest @ ..] if is_the_mark(text, b, *t) => Some(rest),
        _ => None,
    }
}

pub(crate) fn begins_with_mark(text: &[u8], b: u8, tokens: &[Token]) -> bool
    requires { Within text.now tokens.now }
    ensures { result ≡ begins_with_mark text.now b tokens.now }
{
    match tokens {
        [] => false,
        [t, ..] => is_the_mark(text, b, *t),
    }
}

/// A name, and the tokens after it.
pub(crate) fn name_at<'a>(text: &[u8], tokens: &'a [Token]) -> Option<(Token, &'a [Token])>
    requires { Within text.now tokens.now }
    ensures name { seen result ≡ name_at tokens.now }
    ensures lies { IfSome result (λ x. LiesIn (length text.now) x.0) }
    ensures within { IfSome result (λ x. Within text.now x.1.now) }
{
    match tokens {
        [t, rest @ ..] if t.kind == TokenKind::Name => Some((*t, rest)),
        _ => None,
    }
}

/// A number, and the tokens after it.
pub(crate) fn number_at<'a>(text: &[u8], tokens: &'a [Token]) -> Option<(u64, &'a [Token])>
    requires { Within text.now tokens.now }
    ensures number { seen result ≡ number_at text.now tokens.now }
    ensures within { IfSome result (λ x. Within text.now x.1.now) }
{
    match tokens {
        [t, rest @ ..] if t.kind == TokenKind::Number => {
            let n = number(word(text, *t))?;
            Some((n, rest))
        }
        _ => None,
    }
}
