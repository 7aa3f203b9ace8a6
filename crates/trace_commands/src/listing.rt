//! Where the lines of a source stand, and its labels.

ghost use Rattle.std.specs.Prelude.{◌≡◌, ◌≤◌, ◌++◌, length, IfErr, IfOk, OnOk};
ghost use Rattle.std.specs.List.{flat_map};
ghost use Rattle.std.specs.Option.{ForSome};
ghost use Rattle.cell_io.specs.Store.{NoneFell};
ghost use Rattle.trace_commands.specs.Words.{lined};
ghost use Rattle.trace_commands.specs.Files.{IsOfFiles};
ghost use Rattle.trace_commands.specs.Answers.{Comes, FailsBy};
ghost use Rattle.trace_commands.specs.Listings.{ListsText, label_text, listed_text, listing_text, section_name};

use crate::fault::Fault;
use crate::reading::fault_of;
use cell_base::line_text::put_decimal;
use cell_commands::{Fault as InputFault, FileId, TEXT_LIMIT, read_file};
use cell_io::Store;
use spu_asm::{AsmError, Label, ListedLine, Listing, Section, list};
use std::alloc::{AllocError, Global};

/// Writes the name of a section behind a blank.
fn put_section(out: &mut Vec<u8>, section: Section) -> Result<(), AllocError>
    ensures { OnOk result (out.new.items ≡ out.old.items ++ section_name section) }
{
    match section {
        Section::Text => out.extend_from_slice(b" text"),
        Section::Data => out.extend_from_slice(b" data"),
    }
}

/// Writes where a line stands: its number, its section, its address, and the address behind it.
fn put_line(out: &mut Vec<u8>, line: ListedLine) -> Result<(), AllocError>
    ensures { OnOk result (out.new.items ≡ out.old.items ++ listed_text line) }
{
    put_decimal(out, line.number)?;
    put_section(out, line.section)?;
    out.push(b' ')?;
    put_decimal(out, line.at)?;
    out.push(b' ')?;
    put_decimal(out, line.next)?;
    out.push(b'\n')?;
    Ok(())
}

/// Writes where each line stands.
fn put_lines(out: &mut Vec<u8>, lines: &[ListedLine]) -> Result<(), AllocError>
    ensures { OnOk result (out.new.items ≡ out.old.items ++ flat_map listed_text lines.now) }
{
    for line in lines {
        put_line(out, *line)?;
    }
    Ok(())
}

/// Writes a label: the number of its line, and its name.
fn put_label(out: &mut Vec<u8>, label: Label<'_>) -> Result<(), AllocError>
    ensures { OnOk result (out.new.items ≡ out.old.items ++ label_text (label.entry.name.now, label.entry.line)) }
{
    out.extend_from_slice(b"label ")?;
    put_decimal(out, label.line)?;
    out.push(b' ')?;
    out.extend_from_slice(label.name)?;
    out.push(b'\n')?;
    Ok(())
}

/// Writes each label.
fn put_labels(out: &mut Vec<u8>, labels: &[Label<'_>]) -> Result<(), AllocError>
    ensures { OnOk result (out.new.items ≡ out.old.items ++ flat_map (λ l. label_text (l.name.now, l.line)) labels.now) }
{
    for label in labels {
        put_label(out, *label)?;
    }
    Ok(())
}

/// A listing as a text.
fn listing_text(alloc: Global, listing: &Listing<'_>) -> Result<Vec<u8>, AllocError>
    ensures { IfOk result (λ text. text.items ≡ listing_text listing.now) }
{
    let mut out = Vec::new(alloc);
    put_lines(&mut out, listing.lines())?;
    put_labels(&mut out, listing.labels())?;
    Ok(out)
}

/// The listing of the text of a source.
fn text_listing(alloc: Global, text: &[u8]) -> Result<Vec<u8>, Fault>
    requires { length text.now ≤ 4194304 }
    ensures { ListsText text.now result }
{
    match list(alloc, text) {
        Ok(listing) => match listing_text(alloc, &listing) {
            Ok(out) => Ok(out),
            Err(_) => Err(Fault::Memory),
        },
        Err(AsmError::At { line, kind }) => Err(Fault::Input(InputFault::Source {
            file: FileId::Source(0),
            line,
            kind,
        })),
        Err(AsmError::Memory) => Err(Fault::Memory),
    }
}

/// Where the lines of a source stand, and its labels.
pub fn lines_text<T: Store>(alloc: Global, files: &mut T, source: &str) -> Result<Vec<u8>, Fault>
    ensures same { T.files files.new ≡ T.files files.old }
    ensures store_count { NoneFell (T.ledger files.old) (T.ledger files.new) }
    ensures input { IfErr result IsOfFiles }
    ensures cause { IfErr result (FailsBy (lined source.now) (T.ledger files.old) (T.ledger files.new)) }
    ensures comes { ForSome (T.files files.old) (λ told. Comes told (lined source.now) (T.ledger files.old) (T.ledger files.new) result) }
{
    let text = match read_file(alloc, files, FileId::Source(0), source, TEXT_LIMIT) {
        Ok(text) => text,
        Err(fault) => return Err(fault_of(fault)),
    };
    text_listing(alloc, text.as_slice())
}
