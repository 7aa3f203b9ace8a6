//! Statements: directives with their arguments, mnemonics with their operands.

ghost use Rattle.std.specs.Prelude.{◌≡◌, IfOk, IfSome, true, drop};
ghost use Rattle.spu_asm.specs.Reading.{Within};
ghost use Rattle.spu_asm.specs.ReadLines.{IsRead};
ghost use Rattle.spu_asm.specs.Statements.{lone_number, is_allowed_in, argued, directed, operated, named, statement_of};

use crate::AsmKind;
use crate::expressions::number_only;
use crate::lists::expression_count;
use crate::names::{directive_named, mnemonic_named, section_named};
use crate::operands::operands_of;
use crate::reading::{number_at, word};
use crate::strings::string_len;
use crate::syntax::{Directive, Given, Mnemonic, Section, Size, Statement};
use spu_decode::{Operands, Row, row_shape};
use spu_lex::{Token, TokenKind};

/// A number and nothing more.
fn lone_number(text: &[u8], tokens: &[Token]) -> Option<u64>
    requires { Within text.now tokens.now }
    ensures { result ≡ lone_number text.now tokens.now }
{
    let (n, rest) = number_at(text, tokens)?;
    if rest.is_empty() { Some(n) } else { None }
}

fn is_allowed_in(section: Section, directive: Directive) -> bool
    ensures { result ≡ is_allowed_in section directive }
{
    match (section, directive) {
        (Section::Text, Directive::Values(Size::Byte)) => false,
        (Section::Text, Directive::Values(Size::Half)) => false,
        (Section::Text, Directive::Text(_)) => false,
        _ => true,
    }
}

/// The operation with its operands.
#[tactic(auto, unfolding(crate::specs::Statements::operated))]
fn operated(
    text: &[u8],
    section: Section,
    mnemonic: Mnemonic,
    tokens: &[Token],
) -> Option<Statement>
    requires { Within text.now tokens.now }
    ensures statement { result ≡ operated text.now mnemonic tokens.now }
    ensures read { IfSome result (λ s. IsRead text.now section s tokens.now) }
{
    match mnemonic {
        Mnemonic::Row(row) => {
            let given = operands_of(text, row_shape(row).operands, tokens)?;
            Some(Statement::Instruction(row, given))
        }
        Mnemonic::LoadRegister => {
            let given = operands_of(text, Operands::RtRa, tokens)?;
            let value = Some(number_only(0));
            Some(Statement::Instruction(Row::Ori, Given { value, ..given }))
        }
    }
}

/// The directive with its arguments, which may stand in the section.
#[tactic(auto, unfolding(crate::specs::Statements::argued))]
fn argued(
    text: &[u8],
    section: Section,
    directive: Directive,
    tokens: &[Token],
) -> Option<Statement>
    requires tokens { Within text.now tokens.now }
    requires allowed { is_allowed_in section directive ≡ true }
    ensures statement { result ≡ argued text.now directive tokens.now }
    ensures read { IfSome result (λ s. IsRead text.now section s tokens.now) }
{
    match directive {
        Directive::Skipped => Some(Statement::Nothing),
        Directive::Choose(section) => {
            if tokens.is_empty() {
                Some(Statement::Choose(section))
            } else {
                None
            }
        }
        Directive::ChooseNamed => match tokens {
            [t, ..] if t.kind == TokenKind::Name => {
                Some(Statement::Choose(section_named(word(text, *t))))
            }
            _ => None,
        },
        Directive::Align => {
            let n = lone_number(text, tokens)?;
            if n <= 12 {
                Some(Statement::Align(n as u32))
            } else {
                None
            }
        }
        Directive::Org => {
            let n = lone_number(text, tokens)?;
            Some(Statement::Org(n))
        }
        Directive::Skip => {
            let n = lone_number(text, tokens)?;
            Some(Statement::Skip(n))
        }
        Directive::Values(size) => {
            let count = expression_count(text, tokens)?;
            Some(Statement::Values(size, count))
        }
        Directive::Text(zero_byte) => match tokens {
            [t] if t.kind == TokenKind::Text => {
                let len = string_len(word(text, *t));
                Some(Statement::Bytes(len, zero_byte))
            }
            _ => None,
        },
    }
}

/// The directive in a section.
fn directed(
    text: &[u8],
    section: Section,
    directive: Directive,
    tokens: &[Token],
) -> Option<Statement>
    requires { Within text.now tokens.now }
    ensures statement { result ≡ directed text.now section directive tokens.now }
    ensures read { IfSome result (λ s. IsRead text.now section s tokens.now) }
{
    if is_allowed_in(section, directive) {
        argued(text, section, directive, tokens)
    } else {
        None
    }
}

/// The statement of the tokens after the labels.
#[tactic(auto, unfolding(crate::specs::Statements::statement_of))]
pub(crate) fn statement_of(
    text: &[u8],
    section: Section,
    tokens: &[Token],
) -> Result<Statement, AsmKind>
    requires { Within text.now tokens.now }
    ensures statement { result ≡ statement_of text.now section tokens.now }
    ensures read { IfOk result (λ s. IsRead text.now section s (drop 1 tokens.now)) }
{
    let [t, arguments @ ..] = tokens else {
        return Ok(Statement::Nothing);
    };
    if t.kind == TokenKind::Name {
        named(text, section, word(text, *t), arguments)
    } else {
        Err(AsmKind::UnknownName)
    }
}

/// The statement that a name begins. It is looked for among the mnemonics only where no directive has it.
#[tactic(auto, unfolding(crate::specs::Statements::named))]
fn named(
    text: &[u8],
    section: Section,
    name: &[u8],
    arguments: &[Token],
) -> Result<Statement, AsmKind>
    requires { Within text.now arguments.now }
    ensures statement { result ≡ named text.now section name.now arguments.now }
    ensures read { IfOk result (λ s. IsRead text.now section s arguments.now) }
{
    if let Some(directive) = directive_named(name) {
        return directed(text, section, directive, arguments).ok_or(AsmKind::BadDirective);
    }
    match mnemonic_named(name) {
        Some(mnemonic) => operated(text, section, mnemonic, arguments).ok_or(AsmKind::BadOperand),
        None => Err(AsmKind::UnknownName),
    }
}
