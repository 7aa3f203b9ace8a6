//! Addresses of lines.

ghost use Rattle.std.specs.Prelude.{◌≡◌, ◌^◌, ◌<◌, ◌≤◌, IfOk};
ghost use Rattle.std.specs.List.{All};
ghost use Rattle.spu_asm.specs.declared.syntax.Section.TheVariants.{Text};
ghost use Rattle.spu_asm.specs.Layout.{next_multiple, bytes_in, alignment, address_after, is_not_multiple, overlaps, placed, is_multiple_of_4, same_section, stepped, both_stepped, section_end, present, places_from};
ghost use Rattle.spu_asm.specs.Outcomes.{Shows};
ghost use Rattle.spu_asm.specs.ReadLines.{IsSmall};
ghost use Rattle.spu_asm.specs.Source.{line_view, lines_left, IsLeft};

use crate::source::read_line;
use crate::syntax::{Line, Section, Size, Statement, Unread};
use crate::{AsmError, AsmKind};
use std::alloc::Global;
use std::cmp::max;

/// How many bytes the local store has.
const STORE: u128 = 262144;

/// The least multiple of m at or above n.
pub(crate) fn next_multiple(m: u32, n: u32) -> u32
    requires some { 0 < m }
    requires low { m ≤ 4096 }
    requires high { n ≤ 262144 }
    ensures { result ≡ next_multiple m n }
{
    (n + (m - 1)) / m * m
}

fn bytes_in(size: Size) -> usize
    ensures bytes { result ≡ bytes_in size }
    ensures bound { result ≤ 8 }
{
    match size {
        Size::Byte => 1,
        Size::Half => 2,
        Size::Word => 4,
        Size::Double => 8,
    }
}

pub(crate) fn alignment(section: Section, n: u32) -> u32
    requires { n ≤ 12 }
    ensures alignment { result ≡ alignment section n }
    ensures some { 0 < result }
    ensures bound { result ≤ 4096 }
{
    match section {
        Section::Text => power_of_two(max(2, n)),
        Section::Data => power_of_two(n),
    }
}

fn power_of_two(n: u32) -> u32
    requires { n ≤ 12 }
    ensures power { result ≡ 2 ^ n }
    ensures some { 0 < result }
    ensures bound { result ≤ 4096 }
{
    1 << n
}

/// The address after a statement that stands at an address.
#[tactic(auto, unfolding(crate::specs::Layout::address_after))]
pub(crate) fn address_after(section: Section, at: u32, statement: Statement) -> u128
    requires at { at ≤ 262144 }
    requires small { IsSmall statement }
    ensures { result ≡ address_after section at statement }
{
    match statement {
        Statement::Nothing => at as u128,
        Statement::Choose(_) => at as u128,
        Statement::Align(n) => next_multiple(alignment(section, n), at) as u128,
        Statement::Org(n) => n as u128,
        Statement::Skip(n) => at as u128 + n as u128,
        Statement::Values(size, count) => at as u128 + bytes_in(size) as u128 * count as u128,
        Statement::Bytes(n, zero_byte) => at as u128 + n as u128 + (if zero_byte { 1 } else { 0 }),
        Statement::Instruction(_, _) => at as u128 + 4,
    }
}

fn is_multiple_of_4(n: u64) -> bool
    ensures { result ≡ is_multiple_of_4 n }
{
    n % 4 == 0
}

fn is_not_multiple(section: Section, at: u32, statement: Statement) -> bool
    ensures { result ≡ is_not_multiple section at statement }
{
    match (section, statement) {
        (Section::Text, Statement::Org(n)) => !is_multiple_of_4(n),
        (Section::Text, Statement::Skip(n)) => !is_multiple_of_4(n),
        (Section::Data, Statement::Instruction(_, _)) => !is_multiple_of_4(at as u64),
        _ => false,
    }
}

fn overlaps(at: u32, statement: Statement) -> bool
    ensures { result ≡ overlaps at statement }
{
    match statement {
        Statement::Org(n) => n < at as u64,
        _ => false,
    }
}

/// The address after a statement, or what is wrong with its place.
#[tactic(auto, unfolding(crate::specs::Layout::placed))]
fn placed(section: Section, at: u32, statement: Statement) -> Result<u32, AsmKind>
    requires at { at ≤ 262144 }
    requires small { IsSmall statement }
    ensures placed { result ≡ placed section at statement }
    ensures bound { IfOk result (λ n. n ≤ 262144) }
{
    if is_not_multiple(section, at, statement) {
        return Err(AsmKind::NotMultiple);
    }
    if overlaps(at, statement) {
        return Err(AsmKind::Overlap);
    }
    let next = address_after(section, at, statement);
    if STORE < next {
        Err(AsmKind::OutsideStore)
    } else {
        Ok(next as u32)
    }
}

fn same_section(a: Section, b: Section) -> bool
    ensures { result ≡ same_section a b }
{
    match (a, b) {
        (Section::Text, Section::Text) => true,
        (Section::Data, Section::Data) => true,
        _ => false,
    }
}

/// The address of a section after a line.
fn stepped(section: Section, at: u32, line: &Line) -> Result<u32, AsmError>
    requires at { at ≤ 262144 }
    requires small { IsSmall line.now.statement }
    ensures stepped { result ≡ stepped section at (line_view line.now) }
    ensures bound { IfOk result (λ n. n ≤ 262144) }
{
    if same_section(section, line.section) {
        match placed(section, at, line.statement) {
            Ok(next) => Ok(next),
            Err(kind) => Err(AsmError::At {
                line: line.number,
                kind,
            }),
        }
    } else {
        Ok(at)
    }
}

/// Where the text ends.
pub(crate) fn text_end(text: &[u8], lines: Unread<'_>) -> Result<u32, AsmError>
    requires { IsLeft text.now lines }
    ensures end { Shows (λ at. at) result (section_end Text 0 (lines_left text.now lines.entry)) }
    ensures bound { IfOk result (λ at. at ≤ 262144) }
{
    let mut at = 0;
    let mut unread = lines;
    while !unread.tokens.is_empty() {
        let (line, others) = read_line(text, unread);
        at = stepped(Section::Text, at, &line)?;
        unread = others;
    }
    Ok(at)
}

/// The addresses of text and of data after a line.
pub(crate) fn both_stepped(text_at: u32, data_at: u32, line: &Line) -> Result<(u32, u32), AsmError>
    requires text_at { text_at ≤ 262144 }
    requires data_at { data_at ≤ 262144 }
    requires small { IsSmall line.now.statement }
    ensures stepped { result ≡ both_stepped text_at data_at (line_view line.now) }
    ensures text_bound { IfOk result (λ x. x.0 ≤ 262144) }
    ensures data_bound { IfOk result (λ x. x.1 ≤ 262144) }
{
    let text_next = stepped(Section::Text, text_at, line)?;
    let data_next = stepped(Section::Data, data_at, line)?;
    Ok((text_next, data_next))
}

pub(crate) fn present(section: Section, text_at: u32, data_at: u32) -> u32
    ensures { result ≡ present section text_at data_at }
{
    match section {
        Section::Text => text_at,
        Section::Data => data_at,
    }
}

/// The place of each line, where the data begin at an address.
pub(crate) fn places(
    alloc: Global,
    text: &[u8],
    lines: Unread<'_>,
    start: u32,
) -> Result<Vec<u32>, AsmError>
    requires left { IsLeft text.now lines }
    requires start { start ≤ 262144 }
    ensures places { Shows (λ v. v.items) result (places_from 0 start (lines_left text.now lines.entry)) }
    ensures bound { IfOk result (λ v. All (λ n. n ≤ 262144) v.items) }
{
    let mut found = Vec::new(alloc);
    let mut text_at = 0;
    let mut data_at = start;
    let mut unread = lines;
    while !unread.tokens.is_empty() {
        let (line, others) = read_line(text, unread);
        found.push(present(line.section, text_at, data_at))?;
        (text_at, data_at) = both_stepped(text_at, data_at, &line)?;
        unread = others;
    }
    Ok(found)
}
