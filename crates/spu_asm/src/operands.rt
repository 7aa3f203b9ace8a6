//! The operands of an instruction, read along the pattern of its row.

ghost use Rattle.std.specs.Prelude.{◌≡◌, ◌<◌, nat_lt, IfSome};
ghost use Rattle.std.specs.List.{list_all};
ghost use Rattle.std.specs.Char.{digit_value};
ghost use Rattle.spu_lex.specs.Numbers.{are_digits};
ghost use Rattle.spu_asm.specs.Reading.{seen, Within};
ghost use Rattle.spu_asm.specs.Operands.{small_number, register_named, register_at, channel_at, channel_named, up_to_127, put_at, filled, pattern, is_optional, nothing_given, operands_of, GivenFits};

use crate::expressions::expression_at;
use crate::reading::{mark_at, word, word_tail};
use crate::syntax::{Given, Slot};
use spu_decode::Operands;
use spu_lex::{Token, TokenKind, number};

/// A decimal number up to 127, without a leading zero.
fn small_number(digits: &[u8]) -> Option<u8>
    ensures number { result ≡ small_number digits.now }
    ensures below { IfSome result (λ n. n < 128) }
{
    if are_digits(digits) {
        up_to_127(number(digits))
    } else {
        None
    }
}

fn are_digits(digits: &[u8]) -> bool
    ensures { result ≡ are_digits 10 digits.now }
{
    !digits.is_empty() && all_digits(digits)
}

fn all_digits(digits: &[u8]) -> bool
    ensures { result ≡ list_all (λ d. nat_lt (digit_value d) 10) digits.now }
{
    digits.iter().all(|d| (*d as char).is_digit(10))
}

fn register_named(name: &[u8]) -> Option<u8>
    ensures number { result ≡ register_named name.now }
    ensures below { IfSome result (λ n. n < 128) }
{
    if name == b"lr".as_slice() {
        Some(0)
    } else if name == b"sp".as_slice() {
        Some(1)
    } else {
        small_number(name)
    }
}

/// A register, and the tokens after it.
#[tactic(auto, unfolding(crate::specs::Operands::register_at))]
fn register_at<'a>(text: &[u8], tokens: &'a [Token]) -> Option<(u8, &'a [Token])>
    requires { Within text.now tokens.now }
    ensures number { seen result ≡ register_at text.now tokens.now }
    ensures below { IfSome result (λ x. x.0 < 128) }
    ensures within { IfSome result (λ x. Within text.now x.1.now) }
{
    match tokens {
        [t, rest @ ..] if t.kind == TokenKind::Register => {
            let n = register_named(word_tail(text, *t))?;
            Some((n, rest))
        }
        _ => None,
    }
}

/// A channel, and the tokens after it.
#[tactic(auto, unfolding(crate::specs::Operands::channel_at))]
fn channel_at<'a>(text: &[u8], tokens: &'a [Token]) -> Option<(u8, &'a [Token])>
    requires { Within text.now tokens.now }
    ensures number { seen result ≡ channel_at text.now tokens.now }
    ensures below { IfSome result (λ x. x.0 < 128) }
    ensures within { IfSome result (λ x. Within text.now x.1.now) }
{
    let [t, rest @ ..] = tokens else {
        return None;
    };
    if t.kind == TokenKind::Register {
        let n = channel_named(word_tail(text, *t))?;
        Some((n, rest))
    } else if t.kind == TokenKind::Number {
        let n = up_to_127(number(word(text, *t)))?;
        Some((n, rest))
    } else {
        None
    }
}

fn channel_named(name: &[u8]) -> Option<u8>
    ensures number { result ≡ channel_named name.now }
    ensures below { IfSome result (λ n. n < 128) }
{
    match name {
        [b'c', b'h', digits @ ..] => small_number(digits),
        _ => None,
    }
}

fn up_to_127(n: Option<u64>) -> Option<u8>
    ensures number { result ≡ up_to_127 n }
    ensures below { IfSome result (λ n. n < 128) }
{
    match n {
        Some(n) if n < 128 => Some(n as u8),
        _ => None,
    }
}

/// What a slot takes from the front, beside what was given before it.
#[tactic(auto, unfolding(crate::specs::Operands::put_at))]
fn put_at<'a>(
    text: &[u8],
    slot: Slot,
    given: Given,
    tokens: &'a [Token],
) -> Option<(Given, &'a [Token])>
    requires given { GivenFits text.now given }
    requires tokens { Within text.now tokens.now }
    ensures put { seen result ≡ put_at text.now slot given tokens.now }
    ensures fits { IfSome result (λ x. GivenFits text.now x.0) }
    ensures within { IfSome result (λ x. Within text.now x.1.now) }
{
    match slot {
        Slot::Rt => {
            let (rt, rest) = register_at(text, tokens)?;
            Some((Given { rt, ..given }, rest))
        }
        Slot::Ra => {
            let (ra, rest) = register_at(text, tokens)?;
            Some((Given { ra, ..given }, rest))
        }
        Slot::Rb => {
            let (rb, rest) = register_at(text, tokens)?;
            Some((Given { rb, ..given }, rest))
        }
        Slot::Rc => {
            let (rc, rest) = register_at(text, tokens)?;
            Some((Given { rc, ..given }, rest))
        }
        Slot::Channel => {
            let (ra, rest) = channel_at(text, tokens)?;
            Some((Given { ra, ..given }, rest))
        }
        Slot::Value => {
            let (e, rest) = expression_at(text, tokens)?;
            let value = Some(e);
            Some((Given { value, ..given }, rest))
        }
        Slot::Second => {
            let (e, rest) = expression_at(text, tokens)?;
            let second = Some(e);
            Some((Given { second, ..given }, rest))
        }
        Slot::Mark(b) => {
            let rest = mark_at(text, b, tokens)?;
            Some((given, rest))
        }
    }
}

/// The operands that fill a pattern.
#[tactic(auto, unfolding(crate::specs::Operands::filled))]
fn filled(text: &[u8], slots: &[Slot], given: Given, tokens: &[Token]) -> Option<Given>
    requires given { GivenFits text.now given }
    requires tokens { Within text.now tokens.now }
    ensures filled { result ≡ filled text.now slots.now given tokens.now }
    ensures fits { IfSome result (GivenFits text.now) }
{
    let mut all = given;
    let mut rest = tokens;
    for slot in slots {
        let (more, after) = put_at(text, *slot, all, rest)?;
        all = more;
        rest = after;
    }
    if rest.is_empty() { Some(all) } else { None }
}

fn nothing_given() -> Given
    ensures { result ≡ nothing_given }
{
    Given {
        rt: 0,
        ra: 0,
        rb: 0,
        rc: 0,
        value: None,
        second: None,
    }
}

/// What is written for a row's operands, in order.
pub fn pattern(form: Operands) -> &'static [Slot]
    ensures { result.now ≡ pattern form }
{
    match form {
        Operands::RtDisplacementRa | Operands::RtSevenRa => &[
            Slot::Rt,
            Slot::Mark(b','),
            Slot::Value,
            Slot::Mark(b'('),
            Slot::Ra,
            Slot::Mark(b')'),
        ],
        Operands::RtRaRb => &[
            Slot::Rt,
            Slot::Mark(b','),
            Slot::Ra,
            Slot::Mark(b','),
            Slot::Rb,
        ],
        Operands::RtRaRbRc => &[
            Slot::Rt,
            Slot::Mark(b','),
            Slot::Ra,
            Slot::Mark(b','),
            Slot::Rb,
            Slot::Mark(b','),
            Slot::Rc,
        ],
        Operands::RtRaTen | Operands::RtRaByte | Operands::RtRaSeven => &[
            Slot::Rt,
            Slot::Mark(b','),
            Slot::Ra,
            Slot::Mark(b','),
            Slot::Value,
        ],
        Operands::RtAbsolute
        | Operands::RtRelative
        | Operands::RtSignedHalf
        | Operands::RtHalf
        | Operands::RtUnsigned => &[Slot::Rt, Slot::Mark(b','), Slot::Value],
        Operands::RtRa => &[Slot::Rt, Slot::Mark(b','), Slot::Ra],
        Operands::RaRb => &[Slot::Ra, Slot::Mark(b','), Slot::Rb],
        Operands::RaTen => &[Slot::Ra, Slot::Mark(b','), Slot::Value],
        Operands::Ra => &[Slot::Ra],
        Operands::Absolute | Operands::Relative | Operands::Code => &[Slot::Value],
        Operands::RtChannel => &[Slot::Rt, Slot::Mark(b','), Slot::Channel],
        Operands::ChannelRt => &[Slot::Channel, Slot::Mark(b','), Slot::Rt],
        Operands::OptionalRegister => &[Slot::Rt],
        Operands::HintRa => &[Slot::Value, Slot::Mark(b','), Slot::Ra],
        Operands::HintAddresses => &[Slot::Value, Slot::Mark(b','), Slot::Second],
        Operands::Bare => &[],
    }
}

/// Whether the operands may be left out.
pub fn is_optional(form: Operands) -> bool
    ensures { result ≡ is_optional form }
{
    match form {
        Operands::OptionalRegister => true,
        _ => false,
    }
}

/// The operands of a form.
pub(crate) fn operands_of(text: &[u8], form: Operands, tokens: &[Token]) -> Option<Given>
    requires { Within text.now tokens.now }
    ensures operands { result ≡ operands_of text.now form tokens.now }
    ensures fits { IfSome result (GivenFits text.now) }
{
    if is_optional(form) && tokens.is_empty() {
        Some(nothing_given())
    } else {
        filled(text, pattern(form), nothing_given(), tokens)
    }
}
