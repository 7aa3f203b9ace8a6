//! The assembler: a text in the language of SPU assemblers to an image of a local store.
#![tactic(auto)]

ghost use Rattle.std.specs.Prelude.{◌≡◌, ◌≤◌, ◌<◌, ◌%◌, ◌^◌, length, IfOk};
ghost use Rattle.spu_lex.specs.Tokens.{tokens_of};
ghost use Rattle.spu_asm.specs.Assembling.{assembled, lexed, laid_out, line_at, entry_of, FitsLines, IsAsLongAsItsLines};
ghost use Rattle.spu_asm.specs.Listings.{listed};
ghost use Rattle.spu_asm.specs.Outcomes.{Gives, Shows};
ghost use Rattle.spu_asm.specs.ReadLines.{AllRead};
ghost use Rattle.spu_asm.specs.Reading.{Within};
ghost use Rattle.spu_asm.specs.Source.{source_view, lines_in};

mod error;
mod expressions;
mod filling;
mod image;
mod instructions;
mod labels;
mod layout;
mod lines;
mod listing;
mod lists;
mod names;
mod numbers;
mod operands;
mod reading;
mod sections;
mod source;
mod statements;
mod strings;
mod syntax;
mod values;

pub use error::{AsmError, AsmKind};
pub use image::Image;
use indexmap::IndexMap;
pub use instructions::{allowed, is_hint, range_of};
use layout::{next_multiple, places, text_end};
pub use listing::Listing;
use listing::{listed_labels, listed_lines};
pub use operands::{is_optional, pattern};
use sections::make_sections;
use source::{all_lines, labels_in};
use spu_lex::{LexError, Token, Tokens, lex};
use std::alloc::Global;
pub use syntax::{Label, ListedLine, Range, Section, Slot};
use values::value_of_label;

/// The image of a text, or the first faulty line of the first phase that has one.
/// A text has at most 4,194,304 bytes. Each line of it has as many bytes as its address and the next say.
#[tactic(auto, unfolding(crate::specs::Assembling::assembled))]
pub fn assemble(alloc: Global, text: &[u8]) -> Result<Image, AsmError>
    requires { length text.now ≤ 4194304 }
    ensures image { Gives result (assembled text.now) }
    ensures lengths { IfOk result (IsAsLongAsItsLines text.now) }
{
    let tokens = tokens_in(alloc, text)?;
    let labels = labels_in(alloc, text, tokens.items())?;
    lay_out(alloc, text, tokens.items(), &labels)
}

/// The image of a text with its lines and labels, or what `assemble` refuses the text for.
#[tactic(auto, unfolding(crate::specs::Assembling::assembled, crate::specs::Listings::listed))]
pub fn list(alloc: Global, text: &[u8]) -> Result<Listing<'_>, AsmError>
    requires { length text.now ≤ 4194304 }
    ensures listing { Gives result (listed text.now) }
    ensures image { Shows (λ listing. listing.image) result (assembled text.now) }
{
    let tokens = tokens_in(alloc, text)?;
    let defined = labels_in(alloc, text, tokens.items())?;
    let image = lay_out(alloc, text, tokens.items(), &defined)?;
    let lines = listed_lines(alloc, text, all_lines(tokens.items()), image.bytes_at)?;
    let labels = listed_labels(alloc, &defined)?;
    Ok(Listing {
        image,
        lines,
        labels,
    })
}

/// The tokens of a text, or its first fault by its line.
fn tokens_in(alloc: Global, text: &[u8]) -> Result<Tokens, AsmError>
    requires { length text.now ≤ 4194304 }
    ensures tokens { Gives result (lexed text.now (tokens_of text.now)) }
    ensures within { IfOk result (Within text.now) }
    ensures count { IfOk result (λ tokens. length tokens ≤ length text.now) }
{
    match lex(alloc, text) {
        Ok(tokens) => Ok(tokens),
        Err(LexError::BadChar { at }) => Err(AsmError::At {
            line: line_at(text, at),
            kind: AsmKind::BadChar,
        }),
        Err(LexError::BadNumber { at }) => Err(AsmError::At {
            line: line_at(text, at),
            kind: AsmKind::BadNumber,
        }),
        Err(LexError::Memory) => Err(AsmError::Memory),
    }
}

/// The number of the line of a byte.
fn line_at(text: &[u8], at: u32) -> u32
    requires { length text.now ≤ 4194304 }
    ensures { result ≡ line_at text.now at }
{
    let before = if (at as usize) < text.len() {
        &text[..at as usize]
    } else {
        text
    };
    before.iter().filter(|b| **b == b'\n').count() as u32 + 1
}

/// The image of tokens and labels, or the first fault of the places or bytes of their lines.
#[tactic(auto, unfolding(crate::specs::Assembling::laid_out))]
fn lay_out(
    alloc: Global,
    text: &[u8],
    tokens: &[Token],
    labels: &IndexMap<&[u8], u32>,
) -> Result<Image, AsmError>
    requires count { length tokens.now < 2 ^ 31 }
    requires within { Within text.now tokens.now }
    requires read { AllRead text.now (lines_in text.now tokens.now) }
    ensures image { Gives result (laid_out text.now (source_view text.now tokens.now labels.now.entries)) }
    ensures lengths { IfOk result (FitsLines text.now (lines_in text.now tokens.now)) }
{
    let lines = all_lines(tokens);
    let start = next_multiple(128, text_end(text, lines)?);
    let at = places(alloc, text, lines, start)?;
    let made = make_sections(alloc, text, labels, lines, &at)?;
    let entry = entry(value_of_label(labels, &at, b"_start"));
    Ok(Image {
        text: made.text,
        data_bytes: made.data_bytes,
        bytes_at: start,
        entry,
    })
}

/// Where a program starts, by the value of `_start`.
fn entry(start: Option<u32>) -> u32
    ensures entry { result ≡ entry_of start }
    ensures aligned { result % 4 ≡ 0 }
    ensures within { result < 262144 }
{
    match start {
        None => 0,
        Some(at) => at & 0x3FFFC,
    }
}
