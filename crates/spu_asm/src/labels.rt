//! The labels at the front of a line.

ghost use Rattle.std.specs.Prelude.{◌≡◌, length};
ghost use Rattle.spu_lex.specs.Order.{LiesIn};
ghost use Rattle.spu_asm.specs.Outcomes.{on_line, Shows};
ghost use Rattle.spu_asm.specs.Reading.{Within};
ghost use Rattle.spu_asm.specs.Source.{labels_of, after_labels, is_label, with_label, with_labels, labels_view};

use crate::reading::{is_the_mark, word};
use crate::{AsmError, AsmKind};
use indexmap::IndexMap;
use spu_lex::{Token, TokenKind};

/// A name and a colon.
fn is_label(text: &[u8], t: Token, u: Token) -> bool
    requires { LiesIn (length text.now) u }
    ensures { result ≡ is_label text.now t u }
{
    t.kind == TokenKind::Name && is_the_mark(text, b':', u)
}

/// What stands after the labels of a line.
#[tactic(auto, unfolding(crate::specs::Source::after_labels))]
pub(crate) fn after_labels<'a>(text: &[u8], line: &'a [Token]) -> &'a [Token]
    requires { Within text.now line.now }
    ensures after { result.now ≡ after_labels text.now line.now }
    ensures within { Within text.now result.now }
{
    let mut rest = line;
    while let [t, u, after @ ..] = rest {
        if !is_label(text, *t, *u) {
            return rest;
        }
        rest = after;
    }
    rest
}

/// Adds a label, which was not defined before.
#[tactic(auto, unfolding(crate::specs::Source::with_label))]
fn add_label<'a>(
    labels: &mut IndexMap<&'a [u8], u32>,
    name: &'a [u8],
    number: u32,
) -> Result<(), AsmError>
    ensures { Shows (λ _. labels_view labels.new.entries) result (on_line number (with_label (labels_view labels.old.entries) number name.now)) }
{
    let old = labels.insert(name, number)?;
    if old.is_some() {
        return Err(AsmError::At {
            line: number,
            kind: AsmKind::Twice,
        });
    }
    Ok(())
}

/// Adds the labels of a line.
#[tactic(auto, unfolding(crate::specs::Source::labels_of, crate::specs::Source::with_labels))]
pub(crate) fn add_labels<'a>(
    labels: &mut IndexMap<&'a [u8], u32>,
    text: &'a [u8],
    number: u32,
    line: &[Token],
) -> Result<(), AsmError>
    requires { Within text.now line.now }
    ensures { Shows (λ _. labels_view labels.new.entries) result (on_line number (with_labels (labels_view labels.old.entries) number (labels_of text.now line.now))) }
{
    let mut rest = line;
    while let [t, u, after @ ..] = rest {
        if !is_label(text, *t, *u) {
            return Ok(());
        }
        add_label(labels, word(text, *t), number)?;
        rest = after;
    }
    Ok(())
}
