//! The warnings of a run: the values that it loses, and its reads of bytes that nothing wrote.

ghost use Rattle.std.specs.Prelude.{◌≡◌, ◌<◌, ◌++◌, codes, length, All, IfSome, IfOk, OnOk};
ghost use Rattle.cell_hunt.specs.Sites.{IsSite};
ghost use Rattle.lost_values.specs.Losses.{IsLoss};
ghost use Rattle.hunt_reports.specs.Lists.{BothOrNone};
ghost use Rattle.hunt_reports.specs.Taking.{with_telling};
ghost use Rattle.hunt_reports.specs.Warnings.{by_line, by_text, first_line, loss_word, lost_key, lost_shown, lost_told, read_key, read_shown, read_told, register_text, set_text, signal_text, AreTold, AreWarnings, IsLostAt, IsReadAt};
ghost use Rattle.unwritten_reads.specs.Reads.{IsUnwritten};

use crate::asked::Asked;
use crate::locations::{put_numbered, put_spu};
use crate::origins::Places;
use crate::places::put_origin;
use crate::race_lines::{put_site_line, put_step_line};
use crate::races::has_key;
use cell_base::line_text::put_hex;
use cell_hunt::{SeedRun, Site};
use hunt_tally::Telling;
use lost_values::{Loss, LossKind};
use std::alloc::{AllocError, Global};
use unwritten_reads::Unwritten;

/// A lost value: where the step comes from that set it, and the one that replaced it. None if the run ended first.
#[derive(Clone, Copy)]
pub struct Lost {
    pub kind: LossKind,
    pub lost: Site,
    pub by: Option<Site>,
}

/// A read of bytes that nothing wrote: where its step comes from, and the first of these bytes by its processor and its address.
#[derive(Clone, Copy)]
pub struct UnwrittenRead {
    pub by: Site,
    pub spe: u8,
    pub at: u32,
}

/// Where the step at this place comes from, if there is one.
fn site_of(run: &SeedRun, place: Option<u32>) -> Option<Site>
    requires { IfSome place (λ i. i < length run.now.steps) }
    ensures { BothOrNone (IsSite run.now) place result }
{
    match place {
        Some(place) => Some(run.site(place)),
        None => None,
    }
}

/// A lost value with the sites of its steps.
fn lost_of(run: &SeedRun, loss: Loss) -> Lost
    requires { IsLoss run.now loss }
    ensures { IsLostAt run.now loss result }
{
    Lost {
        kind: loss.kind,
        lost: run.site(loss.lost),
        by: site_of(run, loss.by),
    }
}

/// A read of unwritten bytes with the site of its step.
fn read_of(run: &SeedRun, read: Unwritten) -> UnwrittenRead
    requires { IsUnwritten run.now read }
    ensures { IsReadAt run.now read result }
{
    UnwrittenRead {
        by: run.site(read.place),
        spe: read.spe,
        at: read.at,
    }
}

/// Writes the first word of a warning's key.
fn put_word(out: &mut Vec<u8>, kind: LossKind) -> Result<(), AllocError>
    ensures { OnOk result (out.new.items ≡ out.old.items ++ loss_word kind) }
{
    match kind {
        LossKind::Signal { .. } => out.extend_from_slice(b"lost-signal"),
        LossKind::FailedStore { .. } => out.extend_from_slice(b"unread-putllc"),
        LossKind::TagStatus { .. } => out.extend_from_slice(b"unread-tags"),
    }
}

/// Writes the step that replaces a value as a key has it.
fn put_by(out: &mut Vec<u8>, places: &Places, by: Option<Site>) -> Result<(), AllocError>
    ensures { OnOk result (out.new.items ≡ out.old.items ++ by_text places.now by) }
{
    match by {
        Some(site) => put_origin(out, places, site),
        None => out.extend_from_slice(b" | end"),
    }
}

/// Writes the key of a warning.
fn put_lost_key(out: &mut Vec<u8>, places: &Places, lost: Lost) -> Result<(), AllocError>
    ensures { OnOk result (out.new.items ≡ out.old.items ++ lost_key places.now lost) }
{
    put_word(out, lost.kind)?;
    put_origin(out, places, lost.lost)?;
    put_by(out, places, lost.by)
}

/// Writes which signal register a step sets.
fn put_register(out: &mut Vec<u8>, register: u8) -> Result<(), AllocError>
    ensures { OnOk result (out.new.items ≡ out.old.items ++ register_text register) }
{
    put_numbered(out, b" sets signal register ", u32::from(register))
}

/// Writes that nobody reads the value of a signal register.
fn put_unread(out: &mut Vec<u8>) -> Result<(), AllocError>
    ensures { OnOk result (out.new.items ≡ out.old.items ++ codes " to a value that is never read") }
{
    out.extend_from_slice(b" to a value that is never read")
}

/// Writes that a step sets a signal register.
#[tactic(auto, unfolding(crate::specs::Warnings::signal_text))]
fn put_signal(out: &mut Vec<u8>, spe: u8, register: u8) -> Result<(), AllocError>
    ensures { OnOk result (out.new.items ≡ out.old.items ++ signal_text spe register) }
{
    put_register(out, register)?;
    out.extend_from_slice(b" of ")?;
    put_spu(out, spe)?;
    put_unread(out)
}

/// Writes what the step does that sets a value.
fn put_set(out: &mut Vec<u8>, kind: LossKind) -> Result<(), AllocError>
    ensures { OnOk result (out.new.items ≡ out.old.items ++ set_text kind) }
{
    match kind {
        LossKind::Signal { spe, register } => put_signal(out, spe, register),
        LossKind::FailedStore { .. } => {
            out.extend_from_slice(b" stores nothing, and its status is never read")
        }
        LossKind::TagStatus { .. } => {
            out.extend_from_slice(b" sets a tag status that is never read")
        }
    }
}

/// Writes the line of the step that replaces a value.
fn put_by_line(out: &mut Vec<u8>, places: &Places, by: Option<Site>) -> Result<(), AllocError>
    ensures { OnOk result (out.new.items ≡ out.old.items ++ by_line places.now by) }
{
    match by {
        Some(site) => put_step_line(out, places, site, b" replaces it"),
        None => out.extend_from_slice(b"  the run ends before it is read\n"),
    }
}

/// The lines of a warning.
fn lost_shown(alloc: Global, places: &Places, lost: Lost) -> Result<Vec<u8>, AllocError>
    ensures { IfOk result (λ v. v.items ≡ lost_shown places.now lost) }
{
    let mut does = Vec::new(alloc);
    put_set(&mut does, lost.kind)?;
    let mut out = Vec::new(alloc);
    put_step_line(&mut out, places, lost.lost, does.as_slice())?;
    put_by_line(&mut out, places, lost.by)?;
    Ok(out)
}

/// Takes in a warning, unless one with its key is known.
fn take_lost(
    alloc: Global,
    warnings: &mut Vec<Telling>,
    places: &Places,
    lost: Lost,
) -> Result<(), AllocError>
    ensures { OnOk result (warnings.new.items ≡ with_telling (lost_told places.now lost) warnings.old.items) }
{
    let mut key = Vec::new(alloc);
    put_lost_key(&mut key, places, lost)?;
    if has_key(warnings.as_slice(), key.as_slice()) {
        return Ok(());
    }
    let shown = lost_shown(alloc, places, lost)?;
    warnings.push(Telling { key, shown })?;
    Ok(())
}

/// Writes the key of a warning that is a read of unwritten bytes.
fn put_read_key(out: &mut Vec<u8>, places: &Places, read: UnwrittenRead) -> Result<(), AllocError>
    ensures { OnOk result (out.new.items ≡ out.old.items ++ read_key places.now read) }
{
    out.extend_from_slice(b"unwritten-bytes")?;
    put_origin(out, places, read.by)
}

/// Writes the line that names the first byte that a step reads and that nothing wrote.
fn put_first_line(out: &mut Vec<u8>, spe: u8, at: u32) -> Result<(), AllocError>
    ensures { OnOk result (out.new.items ≡ out.old.items ++ first_line spe at) }
{
    out.extend_from_slice(b"  it reads bytes that nothing wrote, the first at 0x")?;
    put_hex(out, 5, at)?;
    out.extend_from_slice(b" in the local store of ")?;
    put_spu(out, spe)?;
    out.push(b'\n')?;
    Ok(())
}

/// The lines of a warning that is a read of unwritten bytes.
fn read_shown(alloc: Global, places: &Places, read: UnwrittenRead) -> Result<Vec<u8>, AllocError>
    ensures { IfOk result (λ v. v.items ≡ read_shown places.now read) }
{
    let mut out = Vec::new(alloc);
    put_site_line(&mut out, places, read.by)?;
    put_first_line(&mut out, read.spe, read.at)?;
    Ok(out)
}

/// Takes in a read of unwritten bytes, unless a warning with its key is known.
fn take_read(
    alloc: Global,
    warnings: &mut Vec<Telling>,
    places: &Places,
    read: UnwrittenRead,
) -> Result<(), AllocError>
    ensures { OnOk result (warnings.new.items ≡ with_telling (read_told places.now read) warnings.old.items) }
{
    let mut key = Vec::new(alloc);
    put_read_key(&mut key, places, read)?;
    if has_key(warnings.as_slice(), key.as_slice()) {
        return Ok(());
    }
    let shown = read_shown(alloc, places, read)?;
    warnings.push(Telling { key, shown })?;
    Ok(())
}

/// The warnings of these losses and then of these reads, one of each key.
fn warnings_in(
    alloc: Global,
    run: &SeedRun,
    places: &Places,
    losses: &[Loss],
    reads: &[Unwritten],
) -> Result<Vec<Telling>, AllocError>
    requires losses { All (IsLoss run.now) losses.now }
    requires reads { All (IsUnwritten run.now) reads.now }
    ensures { IfOk result (λ v. AreTold run.now places.now losses.now reads.now v.items) }
{
    let mut warnings = Vec::new(alloc);
    for loss in losses {
        take_lost(alloc, &mut warnings, places, lost_of(run, *loss))?;
    }
    for read in reads {
        take_read(alloc, &mut warnings, places, read_of(run, *read))?;
    }
    Ok(warnings)
}

/// The warnings of a run, if they are asked for.
pub fn warnings_of(alloc: Global, run: &SeedRun, asked: &Asked) -> Result<Vec<Telling>, AllocError>
    ensures { IfOk result (λ v. AreWarnings run.now asked.now.places asked.now.warns v.items) }
{
    if !asked.warns {
        return Ok(Vec::new(alloc));
    }
    warnings_in(
        alloc,
        run,
        &asked.places,
        run.losses(),
        run.unwritten_reads(),
    )
}
