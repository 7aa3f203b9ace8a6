//! Expressions: numbers, and labels with a number added.

ghost use Rattle.std.specs.Prelude.{◌≡◌, ◌^◌, pos, neg_ℤ, ◌≤ℤ◌, IfSome, length};
ghost use Rattle.spu_lex.specs.Order.{LiesIn};
ghost use Rattle.spu_asm.specs.Reading.{seen, Within};
ghost use Rattle.spu_asm.specs.Expressions.{signed_at, offset_at, part_named, part_at, labelled_at, expression_at, number_only, IsOf};

use crate::reading::{begins_with_mark, name_at, number_at, word};
use crate::syntax::{Expression, Part};
use spu_lex::{Token, TokenKind};

/// A number with or without `-`.
#[tactic(auto, unfolding(crate::specs::Expressions::signed_at))]
fn signed_at<'a>(text: &[u8], tokens: &'a [Token]) -> Option<(i128, &'a [Token])>
    requires { Within text.now tokens.now }
    ensures signed { seen result ≡ signed_at text.now tokens.now }
    ensures low { IfSome result (λ x. neg_ℤ (pos (2 ^ 64)) ≤ℤ x.0) }
    ensures high { IfSome result (λ x. x.0 ≤ℤ pos (2 ^ 64)) }
    ensures within { IfSome result (λ x. Within text.now x.1.now) }
{
    if begins_with_mark(text, b'-', tokens) {
        let (n, rest) = number_at(text, &tokens[1..])?;
        Some((-(n as i128), rest))
    } else {
        let (n, rest) = number_at(text, tokens)?;
        Some((n as i128, rest))
    }
}

fn part_named(name: &[u8]) -> Option<Part>
    ensures { result ≡ part_named name.now }
{
    if name == b"h".as_slice() {
        Some(Part::High)
    } else if name == b"l".as_slice() {
        Some(Part::Low)
    } else {
        None
    }
}

/// The part of a label's value that is meant.
#[tactic(auto, unfolding(crate::specs::Expressions::part_at))]
fn part_at<'a>(text: &[u8], tokens: &'a [Token]) -> Option<(Part, &'a [Token])>
    requires { Within text.now tokens.now }
    ensures part { seen result ≡ part_at text.now tokens.now }
    ensures within { IfSome result (λ x. Within text.now x.1.now) }
{
    if begins_with_mark(text, b'@', tokens) {
        let (name, rest) = name_at(text, &tokens[1..])?;
        let part = part_named(word(text, name))?;
        Some((part, rest))
    } else {
        Some((Part::Whole, tokens))
    }
}

/// What is added to a label.
#[tactic(auto, unfolding(crate::specs::Expressions::offset_at))]
fn offset_at<'a>(text: &[u8], tokens: &'a [Token]) -> Option<(i128, &'a [Token])>
    requires { Within text.now tokens.now }
    ensures offset { seen result ≡ offset_at text.now tokens.now }
    ensures low { IfSome result (λ x. neg_ℤ (pos (2 ^ 64)) ≤ℤ x.0) }
    ensures high { IfSome result (λ x. x.0 ≤ℤ pos (2 ^ 64)) }
    ensures within { IfSome result (λ x. Within text.now x.1.now) }
{
    if begins_with_mark(text, b'+', tokens) {
        signed_at(text, &tokens[1..])
    } else if begins_with_mark(text, b'-', tokens) {
        let (n, rest) = signed_at(text, &tokens[1..])?;
        Some((-n, rest))
    } else {
        Some((0, tokens))
    }
}

/// An expression that begins with a label, and the tokens after it.
#[tactic(auto, unfolding(crate::specs::Expressions::labelled_at))]
fn labelled_at<'a>(
    text: &[u8],
    name: Token,
    tokens: &'a [Token],
) -> Option<(Expression, &'a [Token])>
    requires name { LiesIn (length text.now) name }
    requires tokens { Within text.now tokens.now }
    ensures expression { seen result ≡ labelled_at text.now name tokens.now }
    ensures of { IfSome result (λ x. IsOf text.now x.0) }
    ensures within { IfSome result (λ x. Within text.now x.1.now) }
{
    let (offset, rest) = offset_at(text, tokens)?;
    let (part, rest) = part_at(text, rest)?;
    let label = Some(name);
    Some((
        Expression {
            label,
            offset,
            part,
        },
        rest,
    ))
}

/// An expression, and the tokens after it.
#[tactic(auto, unfolding(crate::specs::Expressions::expression_at))]
pub(crate) fn expression_at<'a>(
    text: &[u8],
    tokens: &'a [Token],
) -> Option<(Expression, &'a [Token])>
    requires { Within text.now tokens.now }
    ensures expression { seen result ≡ expression_at text.now tokens.now }
    ensures of { IfSome result (λ x. IsOf text.now x.0) }
    ensures within { IfSome result (λ x. Within text.now x.1.now) }
{
    let [t, rest @ ..] = tokens else {
        return None;
    };
    if t.kind == TokenKind::Name {
        labelled_at(text, *t, rest)
    } else {
        let (offset, rest) = signed_at(text, tokens)?;
        Some((number_only(offset), rest))
    }
}

pub(crate) fn number_only(offset: i128) -> Expression
    ensures { result ≡ number_only offset }
{
    Expression {
        label: None,
        offset,
        part: Part::Whole,
    }
}
