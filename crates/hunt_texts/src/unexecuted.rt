//! The lines of the sources that no run executed.

ghost use Rattle.std.specs.Prelude.{◌≡◌, ◌++◌, ◌∷◌, [], None, option_to_list, if◌then◌else◌, take, flat_map, IfOk, OnOk};
ghost use Rattle.hunt_texts.specs.Unexecuted.{grown, last_text, lines_in, missed_among, more_spans, some_spans, source_text, span_text, spans_from, spans_line, unexecuted_lines};

use crate::numbers::{put_number, put_word};
use hunt_tally::{LineCoverage, SourceCoverage};
use std::alloc::{AllocError, Global};

/// How many spans of a source are printed.
const PRINTED: usize = 8;

/// Lines of a source that follow one another, by the numbers of the first and the last.
#[derive(Clone, Copy)]
pub struct Span {
    pub first: u32,
    pub last: u32,
}

/// The lines with an instruction of all sources.
#[tactic(auto, unfolding(crate::specs::Unexecuted::lines_in))]
pub fn lines_in(alloc: Global, coverage: &[SourceCoverage]) -> Result<Vec<LineCoverage>, AllocError>
    ensures { IfOk result (λ v. v.items ≡ lines_in coverage.now) }
{
    let mut lines = Vec::new(alloc);
    for source in coverage {
        lines.extend_from_slice(source.lines.as_slice())?;
    }
    Ok(lines)
}

/// Adds a line that no run executed, and no other.
fn add_missed(lines: &mut Vec<LineCoverage>, line: LineCoverage) -> Result<(), AllocError>
    ensures { OnOk result (lines.new.items ≡ lines.old.items ++ (if line.executed then [] else line ∷ [])) }
{
    if !line.executed {
        lines.push(line)?;
    }
    Ok(())
}

/// Those of some lines that no run executed.
pub fn missed_among(alloc: Global, lines: &[LineCoverage]) -> Result<Vec<LineCoverage>, AllocError>
    ensures { IfOk result (λ v. v.items ≡ missed_among lines.now) }
{
    let mut missed = Vec::new(alloc);
    let mut rest = lines;
    while let Some((line, after)) = rest.split_first() {
        add_missed(&mut missed, *line)?;
        rest = after;
    }
    Ok(missed)
}

/// A span with one line more.
fn grown(begun: Option<Span>, number: u32) -> Span
    ensures { result ≡ grown begun number }
{
    match begun {
        None => Span {
            first: number,
            last: number,
        },
        Some(span) => Span {
            first: span.first,
            last: number,
        },
    }
}

/// Adds a span, if there is one.
fn close(spans: &mut Vec<Span>, begun: Option<Span>) -> Result<(), AllocError>
    ensures { OnOk result (spans.new.items ≡ spans.old.items ++ option_to_list begun) }
{
    if let Some(span) = begun {
        spans.push(span)?;
    }
    Ok(())
}

/// The spans of lines that no run executed.
fn spans_of(alloc: Global, lines: &[LineCoverage]) -> Result<Vec<Span>, AllocError>
    ensures { IfOk result (λ v. v.items ≡ spans_from None lines.now) }
{
    let mut spans = Vec::new(alloc);
    let mut begun = None;
    let mut rest = lines;
    while let Some((line, after)) = rest.split_first() {
        if line.executed {
            close(&mut spans, begun)?;
            begun = None;
        } else {
            begun = Some(grown(begun, line.number));
        }
        rest = after;
    }
    close(&mut spans, begun)?;
    Ok(spans)
}

fn put_last(out: &mut Vec<u8>, span: Span) -> Result<(), AllocError>
    ensures { OnOk result (out.new.items ≡ out.old.items ++ last_text span) }
{
    if span.last == span.first {
        return Ok(());
    }
    out.extend_from_slice(b"-")?;
    put_number(out, u64::from(span.last))
}

#[tactic(auto, unfolding(crate::specs::Unexecuted::span_text))]
fn put_span(out: &mut Vec<u8>, name: &[u8], span: Span) -> Result<(), AllocError>
    ensures { OnOk result (out.new.items ≡ out.old.items ++ span_text name.now span) }
{
    out.extend_from_slice(b" ")?;
    out.extend_from_slice(name)?;
    out.extend_from_slice(b":")?;
    put_number(out, u64::from(span.first))?;
    put_last(out, span)
}

/// The spans that are printed.
fn printed(spans: &[Span]) -> &[Span]
    ensures { result.now ≡ take 8 spans.now }
{
    &spans[..spans.len().min(PRINTED)]
}

fn put_spans(out: &mut Vec<u8>, name: &[u8], spans: &[Span]) -> Result<(), AllocError>
    ensures { OnOk result (out.new.items ≡ out.old.items ++ flat_map (span_text name.now) spans.now) }
{
    for span in spans {
        put_span(out, name, *span)?;
    }
    Ok(())
}

/// Writes how many spans are not printed, if there are any.
#[tactic(auto, unfolding(crate::specs::Unexecuted::more_spans))]
fn put_more(out: &mut Vec<u8>, spans: usize) -> Result<(), AllocError>
    ensures { OnOk result (out.new.items ≡ out.old.items ++ more_spans spans) }
{
    if spans <= PRINTED {
        return Ok(());
    }
    out.extend_from_slice(b" and ")?;
    put_word(out, (spans - PRINTED) as u64, b" more")
}

#[tactic(auto, unfolding(crate::specs::Unexecuted::spans_line))]
fn put_spans_line(out: &mut Vec<u8>, name: &[u8], spans: &[Span]) -> Result<(), AllocError>
    ensures { OnOk result (out.new.items ≡ out.old.items ++ spans_line name.now spans.now) }
{
    out.extend_from_slice(b"never executed:")?;
    put_spans(out, name, printed(spans))?;
    put_more(out, spans.len())?;
    out.push(b'\n')?;
    Ok(())
}

fn put_some(out: &mut Vec<u8>, name: &[u8], spans: &[Span]) -> Result<(), AllocError>
    ensures { OnOk result (out.new.items ≡ out.old.items ++ some_spans name.now spans.now) }
{
    if spans.is_empty() {
        return Ok(());
    }
    put_spans_line(out, name, spans)
}

/// Writes the lines of a source that no run executed, if there are any.
fn put_source(out: &mut Vec<u8>, alloc: Global, source: &SourceCoverage) -> Result<(), AllocError>
    ensures { OnOk result (out.new.items ≡ out.old.items ++ source_text source.now) }
{
    let spans = spans_of(alloc, source.lines.as_slice())?;
    put_some(out, source.name.as_slice(), spans.as_slice())
}

/// Writes the lines that no run executed, source by source.
#[tactic(auto, unfolding(crate::specs::Unexecuted::unexecuted_lines))]
pub fn put_unexecuted(
    out: &mut Vec<u8>,
    alloc: Global,
    coverage: &[SourceCoverage],
) -> Result<(), AllocError>
    ensures { OnOk result (out.new.items ≡ out.old.items ++ unexecuted_lines coverage.now) }
{
    for source in coverage {
        put_source(out, alloc, source)?;
    }
    Ok(())
}
