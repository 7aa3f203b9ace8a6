//! The bytes of the two sections.

ghost use Rattle.std.specs.Prelude.{◌≡◌, ◌≤◌, length};
ghost use Rattle.std.specs.List.{All};
ghost use Rattle.spu_asm.specs.Assembling.{sections_of, sections_view, added_to};
ghost use Rattle.spu_asm.specs.Encoding.{bytes_of};
ghost use Rattle.spu_asm.specs.Outcomes.{on_line, Shows};
ghost use Rattle.spu_asm.specs.ReadLines.{IsReadLine};
ghost use Rattle.spu_asm.specs.Source.{line_view, lines_left, labels_view, IsLeft};

use crate::AsmError;
use crate::lines::line_bytes;
use crate::source::read_line;
use crate::syntax::{Line, Section, Sections, Unread};
use indexmap::IndexMap;
use std::alloc::Global;

/// Adds the bytes of a line to those of its section.
fn push_line(
    alloc: Global,
    made: &mut Sections,
    text: &[u8],
    labels: &IndexMap<&[u8], u32>,
    places: &[u32],
    at: u32,
    line: &Line,
) -> Result<(), AsmError>
    requires at { at ≤ 262144 }
    requires read { IsReadLine text.now line.now }
    ensures { Shows (λ _. sections_view made.new) result (added_to line.now.section (sections_view made.old) (on_line line.now.number (bytes_of text.now (labels_view labels.now.entries) places.now at (line_view line.now)))) }
{
    let bytes = line_bytes(alloc, text, labels, places, at, line)?;
    match line.section {
        Section::Text => made.text.extend_from_slice(&bytes)?,
        Section::Data => made.data_bytes.extend_from_slice(&bytes)?,
    }
    Ok(())
}

/// The bytes of all lines, each at its place.
pub(crate) fn make_sections(
    alloc: Global,
    text: &[u8],
    labels: &IndexMap<&[u8], u32>,
    lines: Unread<'_>,
    places: &[u32],
) -> Result<Sections, AsmError>
    requires left { IsLeft text.now lines }
    requires len { length places.now ≡ length (lines_left text.now lines) }
    requires places { All (λ n. n ≤ 262144) places.now }
    ensures { Shows sections_view result (sections_of text.now (labels_view labels.now.entries) places.now (lines_left text.now lines.entry) places.now) }
{
    let mut made = Sections {
        text: Vec::new(alloc),
        data_bytes: Vec::new(alloc),
    };
    let mut unread = lines;
    for at in places {
        let (line, others) = read_line(text, unread);
        push_line(alloc, &mut made, text, labels, places, *at, &line)?;
        unread = others;
    }
    Ok(made)
}
