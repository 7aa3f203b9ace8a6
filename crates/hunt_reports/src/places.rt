//! Where the steps of a race come from, as text.

ghost use Rattle.std.specs.Prelude.{◌≡◌, [], ◌∷◌, ◌++◌, IfOk, OnOk};
ghost use Rattle.hunt_reports.specs.Origins.{named_line};
ghost use Rattle.hunt_reports.specs.Places.{spe_site_text, site_text, sites_text, place_text, instruction_text, origin_text, in_order, key_of};

use crate::origins::{Places, SourceLine};
use cell_base::line_text::{put_decimal, put_hex};
use cell_hunt::{Site, Sites};
use std::alloc::{AllocError, Global};

/// Writes the letter of a step's line, its processor, and the address of its instruction.
fn put_spe_site(out: &mut Vec<u8>, letter: u8, spe: u8, at: u32) -> Result<(), AllocError>
    ensures { OnOk result (out.new.items ≡ out.old.items ++ spe_site_text (letter ∷ []) spe at) }
{
    out.extend_from_slice(b" | ")?;
    out.push(letter)?;
    out.push(b' ')?;
    put_decimal(out, u32::from(spe))?;
    out.extend_from_slice(b" at 0x")?;
    put_hex(out, 5, at)
}

/// Writes a step as a line of races has it.
pub fn put_site(out: &mut Vec<u8>, site: Site) -> Result<(), AllocError>
    ensures { OnOk result (out.new.items ≡ out.old.items ++ site_text site) }
{
    match site {
        Site::Exec { spe, at } => put_spe_site(out, b'x', spe, at),
        Site::Piece { spe, at } => put_spe_site(out, b'p', spe, at),
        Site::Elem { spe, at } => put_spe_site(out, b'e', spe, at),
        Site::Retire { spe, at } => put_spe_site(out, b'r', spe, at),
        Site::Atomic { spe, at } => put_spe_site(out, b'a', spe, at),
        Site::Host { action } => {
            out.extend_from_slice(b" | h ")?;
            put_decimal(out, action)
        }
    }
}

/// Writes where the two steps of a race come from.
pub fn put_sites(out: &mut Vec<u8>, sites: Sites) -> Result<(), AllocError>
    ensures { OnOk result (out.new.items ≡ out.old.items ++ sites_text sites) }
{
    put_site(out, sites.first)?;
    put_site(out, sites.second)
}

/// Writes the line that placed an instruction: by the name of the source, or where no source did by the processor and the address.
fn put_place(
    out: &mut Vec<u8>,
    line: Option<SourceLine<'_>>,
    spe: u8,
    at: u32,
) -> Result<(), AllocError>
    ensures { OnOk result (out.new.items ≡ out.old.items ++ place_text (named_line line.entry) spe at) }
{
    out.extend_from_slice(b" | ")?;
    match line {
        Some(line) => {
            out.extend_from_slice(line.name)?;
            out.push(b':')?;
            put_decimal(out, line.number)
        }
        None => {
            put_decimal(out, u32::from(spe))?;
            out.extend_from_slice(b" at 0x")?;
            put_hex(out, 5, at)
        }
    }
}

/// Writes the line that placed the instruction at an address of a processor's store.
pub fn put_instruction(
    out: &mut Vec<u8>,
    places: &Places,
    spe: u8,
    at: u32,
) -> Result<(), AllocError>
    ensures { OnOk result (out.new.items ≡ out.old.items ++ instruction_text places.now spe at) }
{
    put_place(out, places.source_line(spe, at), spe, at)
}

/// Writes the line that a step comes from.
pub fn put_origin(out: &mut Vec<u8>, places: &Places, site: Site) -> Result<(), AllocError>
    ensures { OnOk result (out.new.items ≡ out.old.items ++ origin_text places.now site) }
{
    match site {
        Site::Exec { spe, at } => put_instruction(out, places, spe, at),
        Site::Piece { spe, at } => put_instruction(out, places, spe, at),
        Site::Elem { spe, at } => put_instruction(out, places, spe, at),
        Site::Retire { spe, at } => put_instruction(out, places, spe, at),
        Site::Atomic { spe, at } => put_instruction(out, places, spe, at),
        Site::Host { .. } => put_site(out, site),
    }
}

/// The line that a step comes from, as text.
fn origin_of(alloc: Global, places: &Places, site: Site) -> Result<Vec<u8>, AllocError>
    ensures { IfOk result (λ v. v.items ≡ origin_text places.now site) }
{
    let mut text = Vec::new(alloc);
    put_origin(&mut text, places, site)?;
    Ok(text)
}

/// Writes two texts, the lesser first.
fn put_ordered(out: &mut Vec<u8>, first: &[u8], second: &[u8]) -> Result<(), AllocError>
    ensures { OnOk result (out.new.items ≡ out.old.items ++ in_order first.now second.now) }
{
    if second.cmp(&first).is_lt() {
        out.extend_from_slice(second)?;
        out.extend_from_slice(first)
    } else {
        out.extend_from_slice(first)?;
        out.extend_from_slice(second)
    }
}

/// Writes the key of a race: the two lines that its steps come from, the lesser first. Two races are the same exactly if their keys are.
pub fn put_key(
    alloc: Global,
    out: &mut Vec<u8>,
    places: &Places,
    sites: Sites,
) -> Result<(), AllocError>
    ensures { OnOk result (out.new.items ≡ out.old.items ++ key_of places.now sites) }
{
    let first = origin_of(alloc, places, sites.first)?;
    let second = origin_of(alloc, places, sites.second)?;
    put_ordered(out, first.as_slice(), second.as_slice())
}
