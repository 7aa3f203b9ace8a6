//! The lines of a text. They are read from its tokens each time that they are asked for, so that no list of them
//! takes memory: of a text of short lines it would take many times as much as the text.

ghost use Rattle.std.specs.Prelude.{◌≡◌, ◌+◌, ◌<◌, ◌≤◌, ◌^◌, ◌∷◌, length, take, drop, IfOk};
ghost use Rattle.spu_asm.specs.declared.syntax.Section.TheVariants.{Text};
ghost use Rattle.spu_asm.specs.Outcomes.{on_line, Shows};
ghost use Rattle.spu_asm.specs.Reading.{is_line_end, Within};
ghost use Rattle.spu_asm.specs.ReadLines.{IsRead, IsReadLine, AllRead};
ghost use Rattle.spu_asm.specs.Source.{source_of, line_len, section_after, or_nothing, lines_left, lines_in, line_view, source_view, IsLeft};
ghost use Rattle.spu_asm.specs.Statements.{statement_of};

use crate::AsmError;
use crate::labels::{add_labels, after_labels};
use crate::statements::statement_of;
use crate::syntax::{Line, Section, Statement, Unread};
use indexmap::IndexMap;
use spu_lex::{Token, TokenKind};
use std::alloc::Global;

fn is_line_end(kind: TokenKind) -> bool
    ensures { result ≡ is_line_end kind }
{
    match kind {
        TokenKind::LineEnd => true,
        _ => false,
    }
}

/// How many tokens stand before the first line end.
fn line_len(tokens: &[Token]) -> usize
    ensures len { result ≡ line_len tokens.now }
    ensures within { result ≤ length tokens.now }
{
    tokens.iter().take_while(|t| !is_line_end(t.kind)).count()
}

/// The section after a statement.
fn section_after(section: Section, statement: Statement) -> Section
    ensures { result ≡ section_after section statement }
{
    match statement {
        Statement::Choose(other) => other,
        _ => section,
    }
}

/// The statement of a line.
fn statement_on(
    text: &[u8],
    number: u32,
    section: Section,
    tokens: &[Token],
) -> Result<Statement, AsmError>
    requires { Within text.now tokens.now }
    ensures statement { result ≡ on_line number (statement_of text.now section tokens.now) }
    ensures read { IfOk result (λ s. IsRead text.now section s (drop 1 tokens.now)) }
{
    match statement_of(text, section, tokens) {
        Ok(statement) => Ok(statement),
        Err(kind) => Err(AsmError::At { line: number, kind }),
    }
}

/// What stands after the first token.
fn after_first(tokens: &[Token]) -> &[Token]
    ensures { result.now ≡ drop 1 tokens.now }
{
    match tokens {
        [_, rest @ ..] => rest,
        [] => tokens,
    }
}

/// The tokens of the first line, without its end.
fn first_line(tokens: &[Token]) -> &[Token]
    ensures { result.now ≡ take (line_len tokens.now) tokens.now }
{
    &tokens[..line_len(tokens)]
}

/// What stands after the first line end.
fn after_line_end(tokens: &[Token]) -> &[Token]
    ensures { result.now ≡ drop (line_len tokens.now + 1) tokens.now }
{
    let len = line_len(tokens);
    if len < tokens.len() {
        &tokens[len + 1..]
    } else {
        &tokens[len..]
    }
}

/// All lines of a text, which begins in the text section.
pub(crate) fn all_lines(tokens: &[Token]) -> Unread<'_>
    ensures number { result.number ≡ 1 }
    ensures section { result.section ≡ Text }
    ensures tokens { result.tokens.now ≡ tokens.now }
{
    Unread {
        number: 1,
        section: Section::Text,
        tokens,
    }
}

/// The lines after the next, which has a statement.
fn after_line<'a>(unread: Unread<'a>, statement: Statement) -> Unread<'a>
    requires some { 0 < length unread.tokens.now }
    requires room { unread.number + length unread.tokens.now < 2 ^ 32 }
    ensures number { result.number ≡ unread.entry.number + 1 }
    ensures section { result.section ≡ section_after unread.entry.section statement }
    ensures tokens { result.tokens.now ≡ drop (line_len unread.entry.tokens.now + 1) unread.entry.tokens.now }
    ensures room { result.number + length result.tokens.now < 2 ^ 32 }
    ensures shorter { length result.tokens.now < length unread.entry.tokens.now }
{
    Unread {
        number: unread.number + 1,
        section: section_after(unread.section, statement),
        tokens: after_line_end(unread.tokens),
    }
}

/// The statement of a line that has no fault.
fn statement_or_nothing(text: &[u8], section: Section, tokens: &[Token]) -> Statement
    requires { Within text.now tokens.now }
    ensures statement { result ≡ or_nothing (statement_of text.now section tokens.now) }
    ensures read { IsRead text.now section result (drop 1 tokens.now) }
{
    match statement_of(text, section, tokens) {
        Ok(statement) => statement,
        Err(_) => Statement::Nothing,
    }
}

/// The next line, and those after it.
pub(crate) fn read_line<'a>(text: &[u8], unread: Unread<'a>) -> (Line<'a>, Unread<'a>)
    requires some { 0 < length unread.tokens.now }
    requires left { IsLeft text.now unread }
    ensures line { lines_left text.now unread.entry ≡ line_view result.0 ∷ lines_left text.now result.1 }
    ensures read { IsReadLine text.now result.0 }
    ensures left { IsLeft text.now result.1 }
    ensures shorter { length result.1.tokens.now < length unread.entry.tokens.now }
{
    let stated = after_labels(text, first_line(unread.tokens));
    let statement = statement_or_nothing(text, unread.section, stated);
    let line = Line {
        number: unread.number,
        section: unread.section,
        statement,
        arguments: after_first(stated),
    };
    (line, after_line(unread, statement))
}

/// The labels of a text, whose statements have no fault, or its first fault.
pub(crate) fn labels_in<'a>(
    alloc: Global,
    text: &'a [u8],
    tokens: &[Token],
) -> Result<IndexMap<&'a [u8], u32>, AsmError>
    requires count { length tokens.now < 2 ^ 31 }
    requires within { Within text.now tokens.now }
    ensures source { Shows (λ labels. source_view text.now tokens.now labels.entries) result (source_of text.now tokens.now) }
    ensures read { IfOk result (λ _. AllRead text.now (lines_in text.now tokens.now)) }
{
    let mut labels = IndexMap::new(alloc);
    let mut unread = all_lines(tokens);
    while !unread.tokens.is_empty() {
        let line = first_line(unread.tokens);
        let stated = after_labels(text, line);
        let statement = statement_on(text, unread.number, unread.section, stated)?;
        add_labels(&mut labels, text, unread.number, line)?;
        unread = after_line(unread, statement);
    }
    Ok(labels)
}
