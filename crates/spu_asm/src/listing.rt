//! Where the lines of a text stand, and the labels that they define.

ghost use Rattle.std.specs.Prelude.{◌≡◌, ◌^◌, ◌<◌, ◌≤◌, IfOk};
ghost use Rattle.spu_asm.specs.Layout.{both_stepped};
ghost use Rattle.spu_asm.specs.Listings.{listed_from, listed_line, named_lines};
ghost use Rattle.spu_asm.specs.Outcomes.{Shows};
ghost use Rattle.spu_asm.specs.Source.{line_view, lines_left, labels_view, IsLeft};

use crate::AsmError;
use crate::image::Image;
use crate::layout::{both_stepped, present};
use crate::source::read_line;
use crate::syntax::{Label, Line, ListedLine, Unread};
use indexmap::IndexMap;
use std::alloc::{AllocError, Global};
use std::marker::Model;

/// An image, the lines that it is made of, and the labels in the order of their lines.
#[derive(Drop)]
pub struct Listing<'a> {
    pub(crate) image: Image,
    pub(crate) lines: Vec<ListedLine>,
    pub(crate) labels: Vec<Label<'a>>,
}

impl<'a> Model for Listing<'a> {
    ghost use Rattle.spu_asm.specs.Listings.{Listing, named_lines};

    ghost Value = { Listing };

    ghost view = { λ s. record { image = s.image; lines = s.lines.items; labels = named_lines s.labels.items } };
}

impl<'a> Listing<'a> {
    /// The image that `assemble` answers.
    pub fn image(&self) -> &Image
        ensures { result.now ≡ self.now.image }
    {
        &self.image
    }

    /// The lines of the text.
    pub fn lines(&self) -> &[ListedLine]
        ensures { result.now ≡ self.now.lines }
    {
        &self.lines
    }

    /// The labels, in the order of their lines.
    pub fn labels(&self) -> &[Label<'a>]
        ensures { named_lines result.now ≡ self.now.labels }
    {
        &self.labels
    }
}

/// A line between two pairs of present addresses.
fn listed_line(line: &Line, text_at: u32, data_at: u32, next: (u32, u32)) -> ListedLine
    ensures { result ≡ listed_line (line_view line.now) text_at data_at next }
{
    ListedLine {
        number: line.number,
        section: line.section,
        at: present(line.section, text_at, data_at),
        next: present(line.section, next.0, next.1),
    }
}

/// All lines, where the data begin at an address.
pub(crate) fn listed_lines(
    alloc: Global,
    text: &[u8],
    lines: Unread<'_>,
    start: u32,
) -> Result<Vec<ListedLine>, AsmError>
    requires left { IsLeft text.now lines }
    requires start { start ≤ 262144 }
    ensures { Shows (λ v. v.items) result (listed_from 0 start (lines_left text.now lines.entry)) }
{
    let mut found = Vec::new(alloc);
    let mut text_at = 0;
    let mut data_at = start;
    let mut unread = lines;
    while !unread.tokens.is_empty() {
        let (line, others) = read_line(text, unread);
        let next = both_stepped(text_at, data_at, &line)?;
        found.push(listed_line(&line, text_at, data_at, next))?;
        (text_at, data_at) = next;
        unread = others;
    }
    Ok(found)
}

/// Labels as a listing has them.
pub(crate) fn listed_labels<'a>(
    alloc: Global,
    labels: &IndexMap<&'a [u8], u32>,
) -> Result<Vec<Label<'a>>, AllocError>
    ensures { IfOk result (λ v. named_lines v.items ≡ labels_view labels.now.entries) }
{
    let mut found = Vec::new(alloc);
    for (name, line) in labels.iter() {
        found.push(Label {
            name: *name,
            line: *line,
        })?;
    }
    Ok(found)
}
