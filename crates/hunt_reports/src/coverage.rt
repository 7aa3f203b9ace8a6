//! Which lines of the sources the runs of a hunt executed.

ghost use Rattle.std.specs.Prelude.{◌≡◌, ◌++◌, flat_map, map, take, IfOk, OnOk};
ghost use Rattle.hunt_reports.specs.Coverage.{coverage_of, executes, first_after, has_executed, is_blank, is_directive, is_instruction, is_named, is_repeated, is_text, line_coverage, name_of, number_of, some_source};

use crate::origins::{Placed, Places, Placing, Source, statement_of};
use hunt_tally::{Executed, LineCoverage, SourceCoverage};
use spu_asm::{ListedLine, Section};
use std::alloc::{AllocError, Global};

/// The number of an instruction.
fn number_of(instruction: cell_hunt::Executed) -> usize
    ensures { result ≡ number_of instruction }
{
    4 * instruction.at as usize + instruction.spe as usize
}

/// The numbers of instructions.
pub fn numbers_of(alloc: Global, executed: &[cell_hunt::Executed]) -> Result<Vec<usize>, AllocError>
    ensures { IfOk result (λ v. v.items ≡ map number_of executed.now) }
{
    let mut numbers = Vec::with_capacity(alloc, executed.len())?;
    for instruction in executed {
        numbers.push(number_of(*instruction))?;
    }
    Ok(numbers)
}

fn is_text(section: Section) -> bool
    ensures { result ≡ is_text section }
{
    match section {
        Section::Text => true,
        Section::Data => false,
    }
}

/// Whether a byte is a space, a tab or a carriage return.
fn is_blank(b: u8) -> bool
    ensures { result ≡ is_blank b }
{
    b == b' ' || b == b'\t' || b == b'\r'
}

/// The first byte behind the labels of a statement after one more byte of it; 0 if there is none yet.
fn first_after(first: u8, b: u8) -> u8
    ensures { result ≡ first_after first b }
{
    if b == b':' {
        0
    } else if first == 0 && !is_blank(b) {
        b
    } else {
        first
    }
}

/// Whether a statement is a directive.
fn is_directive(statement: &[u8]) -> bool
    ensures { result ≡ is_directive statement.now }
{
    let mut first = 0;
    let mut rest = statement;
    while let Some((b, after)) = rest.split_first() {
        first = first_after(first, *b);
        rest = after;
    }
    first == b'.'
}

/// Whether a line of a source has an instruction.
fn is_instruction(source: &Source, line: ListedLine) -> bool
    ensures { result ≡ is_instruction source.now line }
{
    is_text(line.section)
        && u64::from(line.next) == u64::from(line.at) + 4
        && !is_directive(statement_of(source, line.number))
}

/// The name of the source of this number.
fn name_of(sources: &[Source], number: usize) -> &[u8]
    ensures { result.now ≡ name_of sources.now number }
{
    match sources.get(number) {
        Some(source) => source.name.as_slice(),
        None => &[],
    }
}

/// Whether a line of the machine file loads a source of this name.
fn is_named(sources: &[Source], name: &[u8], placed: Placed) -> bool
    ensures { result ≡ is_named sources.now name.now placed }
{
    match placed {
        Placed::Source { number } => name == name_of(sources, number),
        Placed::Bytes { .. } => false,
    }
}

/// Whether the processor of a line of the machine file executed the instruction at an address of the source of this name.
fn executes(sources: &[Source], executed: &Executed, name: &[u8], at: u32, placing: Placing) -> bool
    ensures { result ≡ executes sources.now executed.now name.now at placing }
{
    is_named(sources, name, placing.placed) && executed.has(4 * at as usize + placing.spe as usize)
}

/// Whether a processor that loads the source of this name executed the instruction at an address.
fn has_executed(places: &Places, executed: &Executed, name: &[u8], at: u32) -> bool
    ensures { result ≡ has_executed places.now executed.now name.now at }
{
    let mut rest = places.placings.as_slice();
    while let Some((placing, after)) = rest.split_first() {
        if executes(places.sources.as_slice(), executed, name, at, *placing) {
            return true;
        }
        rest = after;
    }
    false
}

/// Adds a line of a source, if it has an instruction.
fn add_line(
    lines: &mut Vec<LineCoverage>,
    places: &Places,
    executed: &Executed,
    source: &Source,
    line: ListedLine,
) -> Result<(), AllocError>
    ensures { OnOk result (lines.new.items ≡ lines.old.items ++ line_coverage places.now executed.now source.now line) }
{
    if is_instruction(source, line) {
        lines.push(LineCoverage {
            number: line.number,
            executed: has_executed(places, executed, source.name.as_slice(), line.at),
        })?;
    }
    Ok(())
}

/// The lines of a source that have an instruction.
fn lines_of(
    alloc: Global,
    places: &Places,
    executed: &Executed,
    source: &Source,
) -> Result<Vec<LineCoverage>, AllocError>
    ensures { IfOk result (λ v. v.items ≡ flat_map (line_coverage places.now executed.now source.now) source.now.lines.items) }
{
    let mut lines = Vec::new(alloc);
    for line in &source.lines {
        add_line(&mut lines, places, executed, source, *line)?;
    }
    Ok(lines)
}

/// Whether one of these sources has the name of another.
fn is_repeated(earlier: &[Source], source: &Source) -> bool
    ensures { result ≡ is_repeated earlier.now source.now }
{
    let mut rest = earlier;
    while let Some((other, after)) = rest.split_first() {
        if source.name.as_slice() == other.name.as_slice() {
            return true;
        }
        rest = after;
    }
    false
}

/// The sources before this number.
fn earlier(sources: &[Source], number: usize) -> &[Source]
    ensures { result.now ≡ take number sources.now }
{
    &sources[..number.min(sources.len())]
}

/// Adds the source of this number, unless one with its name is there.
fn add_source(
    alloc: Global,
    coverage: &mut Vec<SourceCoverage>,
    places: &Places,
    executed: &Executed,
    number: usize,
    source: &Source,
) -> Result<(), AllocError>
    ensures { OnOk result (coverage.new.items ≡ coverage.old.items ++ some_source places.now executed.now number source.now) }
{
    if is_repeated(earlier(places.sources.as_slice(), number), source) {
        return Ok(());
    }
    let name = Vec::from_slice(alloc, source.name.as_slice())?;
    let lines = lines_of(alloc, places, executed, source)?;
    coverage.push(SourceCoverage { name, lines })?;
    Ok(())
}

/// The lines of all sources that a machine file loads, each with an instruction and whether it was executed.
pub fn coverage_of(
    alloc: Global,
    places: &Places,
    executed: &Executed,
) -> Result<Vec<SourceCoverage>, AllocError>
    ensures { IfOk result (λ v. v.items ≡ coverage_of places.now executed.now) }
{
    let sources = places.sources.as_slice();
    let mut coverage = Vec::new(alloc);
    for number in 0..sources.len() {
        add_source(
            alloc,
            &mut coverage,
            places,
            executed,
            number,
            &sources[number],
        )?;
    }
    Ok(coverage)
}
