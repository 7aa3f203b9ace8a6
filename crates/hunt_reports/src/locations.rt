//! Instructions of processors, as findings show them.

ghost use Rattle.std.specs.Prelude.{◌≡◌, ◌++◌, OnOk};
ghost use Rattle.std.specs.Fmt.{decimal};
ghost use Rattle.hunt_reports.specs.Origins.{named_line};
ghost use Rattle.hunt_reports.specs.Locations.{location_of, line_shown, location_shown, note_start, short_line, short_shown, spu_text};

use crate::origins::{Places, SourceLine};
use cell_base::line_text::{put_decimal, put_hex};
use cell_hunt::Site;
use std::alloc::AllocError;

/// An instruction: its processor, and its address in the local store.
#[derive(Clone, Copy)]
pub struct Location {
    pub spe: u8,
    pub at: u32,
}

/// The instruction that a step comes from; None for an action of the host.
pub fn location_of(site: Site) -> Option<Location>
    ensures { result ≡ location_of site }
{
    match site {
        Site::Exec { spe, at } => Some(Location { spe, at }),
        Site::Piece { spe, at } => Some(Location { spe, at }),
        Site::Elem { spe, at } => Some(Location { spe, at }),
        Site::Retire { spe, at } => Some(Location { spe, at }),
        Site::Atomic { spe, at } => Some(Location { spe, at }),
        Site::Host { .. } => None,
    }
}

/// Writes a word and a number.
pub fn put_numbered(out: &mut Vec<u8>, word: &[u8], number: u32) -> Result<(), AllocError>
    ensures { OnOk result (out.new.items ≡ out.old.items ++ (word.now ++ decimal number)) }
{
    out.extend_from_slice(word)?;
    put_decimal(out, number)
}

/// Writes the name of a processor.
pub fn put_spu(out: &mut Vec<u8>, spe: u8) -> Result<(), AllocError>
    ensures { OnOk result (out.new.items ≡ out.old.items ++ spu_text spe) }
{
    put_numbered(out, b"SPU ", u32::from(spe))
}

/// Writes file, line and statement; if no source placed the instruction, its processor and its address.
fn put_line(
    out: &mut Vec<u8>,
    line: Option<SourceLine<'_>>,
    location: Location,
) -> Result<(), AllocError>
    ensures { OnOk result (out.new.items ≡ out.old.items ++ line_shown (named_line line.entry) location) }
{
    match line {
        Some(line) => {
            out.extend_from_slice(line.name)?;
            out.push(b':')?;
            put_decimal(out, line.number)?;
            out.extend_from_slice(b": ")?;
            out.extend_from_slice(line.statement)
        }
        None => {
            put_spu(out, location.spe)?;
            out.extend_from_slice(b" at 0x")?;
            put_hex(out, 5, location.at)
        }
    }
}

/// Writes file and line; if no source placed the instruction, its address.
fn put_short_line(
    out: &mut Vec<u8>,
    line: Option<SourceLine<'_>>,
    at: u32,
) -> Result<(), AllocError>
    ensures { OnOk result (out.new.items ≡ out.old.items ++ short_line (named_line line.entry) at) }
{
    match line {
        Some(line) => {
            out.extend_from_slice(line.name)?;
            out.push(b':')?;
            put_decimal(out, line.number)
        }
        None => {
            out.extend_from_slice(b"0x")?;
            put_hex(out, 5, at)
        }
    }
}

/// Writes file and line of an instruction.
pub fn put_short(out: &mut Vec<u8>, places: &Places, location: Location) -> Result<(), AllocError>
    ensures { OnOk result (out.new.items ≡ out.old.items ++ short_shown places.now location) }
{
    put_short_line(
        out,
        places.source_line(location.spe, location.at),
        location.at,
    )
}

/// Writes the start of a line that shows an instruction: all before the note in parentheses.
pub fn put_note_start(
    out: &mut Vec<u8>,
    places: &Places,
    location: Location,
) -> Result<(), AllocError>
    ensures { OnOk result (out.new.items ≡ out.old.items ++ note_start places.now location) }
{
    out.extend_from_slice(b"  ")?;
    put_line(out, places.source_line(location.spe, location.at), location)?;
    out.extend_from_slice(b"  (")
}
