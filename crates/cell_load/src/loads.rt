// What the lines of a machine file and the images of its sources give to the processors.
ghost use Rattle.std.specs.Prelude.{◌≡◌, ◌≤◌, ◌<◌, ◌++◌, ◌-◌, map, slice_get, IfOk, OnOk};
ghost use Rattle.cell_load.specs.Entries.{entry_of};
ghost use Rattle.cell_load.specs.Loaded.{first_of, for_spe, given_to, image_start, images_after, line_start, loads_of, parts_of, parts_of_image, start_of};
ghost use Rattle.cell_load.specs.LoadViews.{AllTakeFit, TakesFit, load_of};
ghost use Rattle.spu_asm.specs.Images.{IsImage};
ghost use Rattle.cell_load.specs.Sources.{spes_after, spes_in};

use crate::line::Line;
use spu_asm::Image;
use std::alloc::{AllocError, Global};

/// What is given to a processor.
#[derive(Clone, Copy)]
pub(crate) enum Part<'a> {
    /// Bytes whose words are instructions.
    Text { at: u32, bytes: &'a [u8] },
    /// Other bytes.
    Data { at: u32, bytes: &'a [u8] },
    /// The start address of its own line.
    Start { at: u32 },
    /// The entry of an image.
    ImageEntry { at: u32 },
}

/// A part, and the number of its processor.
#[derive(Clone, Copy)]
pub(crate) struct Load<'a> {
    pub(crate) spe: u8,
    pub(crate) part: Part<'a>,
}

fn keep_image<'a>(loads: &mut Vec<Load<'a>>, spe: u8, image: &'a Image) -> Result<(), AllocError>
    ensures kept { OnOk result (map load_of loads.new.items ≡ map load_of loads.old.items ++ given_to spe (parts_of_image image.now)) }
    ensures fits { IsImage image.now }
{
    let text = Part::Text {
        at: 0,
        bytes: image.text(),
    };
    let data = Part::Data {
        at: image.bytes_at(),
        bytes: image.bytes(),
    };
    let entry = Part::ImageEntry { at: image.entry() };
    loads.push(Load { spe, part: text })?;
    loads.push(Load { spe, part: data })?;
    loads.push(Load { spe, part: entry })?;
    Ok(())
}

/// Keeps what a line gives to a processor; a source line gives the first image.
fn keep_parts<'a>(
    loads: &mut Vec<Load<'a>>,
    spe: u8,
    line: &'a Line,
    images: &'a [Image],
) -> Result<(), AllocError>
    ensures kept { OnOk result (map load_of loads.new.items ≡ map load_of loads.old.items ++ given_to spe (parts_of (slice_get images.now 0) (entry_of line.now))) }
    ensures fits { TakesFit images.now (entry_of line.now) }
{
    let part = match line {
        Line::Entry { at } => Part::Start { at: *at },
        Line::Code { at, bytes } => Part::Text {
            at: *at,
            bytes: bytes.as_slice(),
        },
        Line::Bytes { at, bytes } => Part::Data {
            at: *at,
            bytes: bytes.as_slice(),
        },
        Line::Source { name: _ } => {
            let Some(image) = images.first() else {
                return Ok(());
            };
            return keep_image(loads, spe, image);
        }
        _ => return Ok(()),
    };
    loads.push(Load { spe, part })?;
    Ok(())
}

/// How many processors came by the end of a line, where so many came before.
fn spes_after(spes: u8, line: &Line) -> u8
    requires { spes < 255 }
    ensures { result ≡ spes_after spes (entry_of line.now) }
{
    match line {
        Line::Spe => spes + 1,
        _ => spes,
    }
}

/// The images that are left behind a line.
fn images_after<'a>(images: &'a [Image], line: &Line) -> &'a [Image]
    ensures { result.now ≡ images_after images.now (entry_of line.now) }
{
    let Line::Source { name: _ } = line else {
        return images;
    };
    let Some((_, rest)) = images.split_first() else {
        return images;
    };
    rest
}

/// What the lines and the images give, in the order of the lines.
pub(crate) fn loads_in<'a>(
    alloc: Global,
    lines: &'a [Line],
    images: &'a [Image],
) -> Result<Vec<Load<'a>>, AllocError>
    requires { spes_in (map entry_of lines.now) ≤ 16 }
    ensures all { IfOk result (λ loads. map load_of loads.items ≡ loads_of (map entry_of lines.now) images.now) }
    ensures fits { OnOk result (AllTakeFit (map entry_of lines.now) images.now) }
{
    let mut loads = Vec::new(alloc);
    let mut spes: u8 = 0;
    let mut left = images;
    for line in lines {
        keep_parts(&mut loads, spes.saturating_sub(1), line, left)?;
        spes = spes_after(spes, line);
        left = images_after(left, line);
    }
    Ok(loads)
}

fn line_start(load: &Load, spe: u8) -> Option<u32>
    ensures { result ≡ for_spe spe line_start (load_of load.now) }
{
    match load.part {
        Part::Start { at } if load.spe == spe => Some(at),
        _ => None,
    }
}

fn image_start(load: &Load, spe: u8) -> Option<u32>
    ensures { result ≡ for_spe spe image_start (load_of load.now) }
{
    match load.part {
        Part::ImageEntry { at } if load.spe == spe => Some(at),
        _ => None,
    }
}

fn first_line_start(loads: &[Load], spe: u8) -> Option<u32>
    ensures { result ≡ first_of (for_spe spe line_start) (map load_of loads.now) }
{
    for load in loads {
        if let Some(at) = line_start(load, spe) {
            return Some(at);
        }
    }
    None
}

fn first_image_start(loads: &[Load], spe: u8) -> Option<u32>
    ensures { result ≡ first_of (for_spe spe image_start) (map load_of loads.now) }
{
    for load in loads {
        if let Some(at) = image_start(load, spe) {
            return Some(at);
        }
    }
    None
}

/// Where a processor starts.
pub(crate) fn start_of(loads: &[Load], spe: u8) -> u32
    ensures { result ≡ start_of (map load_of loads.now) spe }
{
    first_line_start(loads, spe)
        .or(first_image_start(loads, spe))
        .unwrap_or(0)
}

/// How many processors these lines begin.
pub(crate) fn spes_in(lines: &[Line]) -> u8
    requires { spes_in (map entry_of lines.now) ≤ 16 }
    ensures { result ≡ spes_in (map entry_of lines.now) }
{
    let mut spes: u8 = 0;
    for line in lines {
        spes = spes_after(spes, line);
    }
    spes
}
