//! Lines that show steps, and those of a finding that is a data race.

ghost use Rattle.std.specs.Prelude.{◌≡◌, ◌++◌, IfOk, OnOk};
ghost use Rattle.hunt_reports.specs.Origins.{named_line};
ghost use Rattle.hunt_reports.specs.Locations.{spu_text};
ghost use Rattle.hunt_reports.specs.RaceLines.{actor_text, line_word, race_shown, site_line, site_word, step_line, suppressed_site, suppressed_sites, suppression_line};

use crate::locations::{location_of, put_note_start, put_numbered, put_spu};
use crate::origins::{Places, SourceLine};
use crate::places::put_site;
use cell_base::line_text::put_decimal;
use cell_hunt::{Site, Sites};
use std::alloc::{AllocError, Global};

/// Writes a part of a processor.
fn put_part(out: &mut Vec<u8>, part: &[u8], spe: u8) -> Result<(), AllocError>
    ensures { OnOk result (out.new.items ≡ out.old.items ++ (part.now ++ spu_text spe)) }
{
    out.extend_from_slice(part)?;
    put_spu(out, spe)
}

/// Writes who makes a step.
fn put_actor(out: &mut Vec<u8>, site: Site) -> Result<(), AllocError>
    ensures { OnOk result (out.new.items ≡ out.old.items ++ actor_text site) }
{
    match site {
        Site::Exec { spe, .. } => put_spu(out, spe),
        Site::Piece { spe, .. } => put_part(out, b"DMA transfer of ", spe),
        Site::Elem { spe, .. } => put_part(out, b"list element read by the MFC of ", spe),
        Site::Retire { spe, .. } => put_part(out, b"DMA command of ", spe),
        Site::Atomic { spe, .. } => put_part(out, b"atomic command of ", spe),
        Site::Host { action } => put_numbered(out, b"host action ", action),
    }
}

/// Writes the line of a step, and what it does.
pub fn put_step_line(
    out: &mut Vec<u8>,
    places: &Places,
    site: Site,
    does: &[u8],
) -> Result<(), AllocError>
    ensures { OnOk result (out.new.items ≡ out.old.items ++ step_line places.now site does.now) }
{
    match location_of(site) {
        Some(location) => {
            put_note_start(out, places, location)?;
            put_actor(out, site)?;
            out.extend_from_slice(does)?;
            out.extend_from_slice(b")\n")
        }
        None => {
            out.extend_from_slice(b"  ")?;
            put_actor(out, site)?;
            out.extend_from_slice(does)?;
            out.extend_from_slice(b"\n")
        }
    }
}

/// Writes the line of a step.
pub fn put_site_line(out: &mut Vec<u8>, places: &Places, site: Site) -> Result<(), AllocError>
    ensures { OnOk result (out.new.items ≡ out.old.items ++ site_line places.now site) }
{
    put_step_line(out, places, site, b"")
}

/// Writes a blank and the line of a source, if there is one.
fn put_line_word(out: &mut Vec<u8>, line: Option<SourceLine<'_>>) -> Result<(), AllocError>
    ensures { OnOk result (out.new.items ≡ out.old.items ++ line_word (named_line line.entry)) }
{
    let Some(line) = line else {
        return Ok(());
    };
    out.push(b' ')?;
    out.extend_from_slice(line.name)?;
    out.push(b':')?;
    put_decimal(out, line.number)
}

/// Writes a blank and the line that a step comes from, if a source placed it.
fn put_site_word(out: &mut Vec<u8>, places: &Places, site: Site) -> Result<(), AllocError>
    ensures { OnOk result (out.new.items ≡ out.old.items ++ site_word places.now site) }
{
    match location_of(site) {
        Some(location) => put_line_word(out, places.source_line(location.spe, location.at)),
        None => Ok(()),
    }
}

/// Writes a step as a suppression names it.
fn put_suppressed(out: &mut Vec<u8>, places: &Places, site: Site) -> Result<(), AllocError>
    ensures { OnOk result (out.new.items ≡ out.old.items ++ suppressed_site places.now site) }
{
    put_site(out, site)?;
    put_site_word(out, places, site)
}

/// Writes both steps as a suppression names them.
fn put_both(out: &mut Vec<u8>, places: &Places, sites: Sites) -> Result<(), AllocError>
    ensures { OnOk result (out.new.items ≡ out.old.items ++ suppressed_sites places.now sites) }
{
    put_suppressed(out, places, sites.first)?;
    put_suppressed(out, places, sites.second)
}

/// Writes the suppression of a data race.
fn put_suppression(out: &mut Vec<u8>, places: &Places, sites: Sites) -> Result<(), AllocError>
    ensures { OnOk result (out.new.items ≡ out.old.items ++ suppression_line places.now sites) }
{
    out.extend_from_slice(b"  suppression:")?;
    put_both(out, places, sites)?;
    out.push(b'\n')?;
    Ok(())
}

/// The lines of a data race: its two steps, and its suppression.
pub fn race_shown(alloc: Global, places: &Places, sites: Sites) -> Result<Vec<u8>, AllocError>
    ensures { IfOk result (λ v. v.items ≡ race_shown places.now sites) }
{
    let mut out = Vec::new(alloc);
    put_site_line(&mut out, places, sites.first)?;
    put_site_line(&mut out, places, sites.second)?;
    put_suppression(&mut out, places, sites)?;
    Ok(out)
}
