//! Processors that still run at the end, and the finding of a deadlock.

ghost use Rattle.std.specs.Prelude.{◌≡◌, ◌≤◌, ◌<◌, [], ◌∷◌, ◌++◌, flat_map, length, take, All, IfOk, OnOk};
ghost use Rattle.std.specs.Fmt.{decimal};
ghost use Rattle.hunt_reports.specs.Waits.{deadlock_told, hidden_line, lines_shown, location_key, more_line, running_at, running_from, running_line, running_shown, stuck_told};

use crate::ended::AtEnd;
use crate::locations::{Location, put_note_start, put_spu};
use crate::origins::Places;
use crate::places::put_instruction;
use cell_base::line_text::put_decimal;
use cell_machine::{End, Status};
use hunt_tally::Telling;
use std::alloc::{AllocError, Global};

/// Takes in a processor, if it runs.
fn take_running(
    running: &mut Vec<Location>,
    spe: u8,
    status: Status,
    at: u32,
) -> Result<(), AllocError>
    ensures { OnOk result (running.new.items ≡ running.old.items ++ running_at spe at status) }
{
    match status {
        Status::Running => running.push(Location { spe, at })?,
        _ => {}
    }
    Ok(())
}

/// The processors that run, each at its PC.
pub fn running_of(alloc: Global, spes: &[AtEnd]) -> Result<Vec<Location>, AllocError>
    requires { length spes.now ≤ 16 }
    ensures running { IfOk result (λ v. v.items ≡ running_from 0 spes.now) }
    ensures within { IfOk result (λ v. All (λ here. here.spe < length spes.now) v.items) }
    ensures few { IfOk result (λ v. length v.items ≤ 16) }
{
    let mut running = Vec::new(alloc);
    let mut p = 0;
    for ended in spes {
        take_running(&mut running, p, ended.status, ended.pc)?;
        p += 1;
    }
    Ok(running)
}

/// Writes the line of a processor that runs.
fn put_running(
    out: &mut Vec<u8>,
    places: &Places,
    does: &[u8],
    location: Location,
) -> Result<(), AllocError>
    ensures { OnOk result (out.new.items ≡ out.old.items ++ running_line places.now does.now location) }
{
    put_note_start(out, places, location)?;
    put_spu(out, location.spe)?;
    out.extend_from_slice(does)?;
    out.extend_from_slice(b")\n")
}

/// Writes the lines of processors that run.
fn put_all_running(
    out: &mut Vec<u8>,
    places: &Places,
    does: &[u8],
    running: &[Location],
) -> Result<(), AllocError>
    ensures { OnOk result (out.new.items ≡ out.old.items ++ flat_map (running_line places.now does.now) running.now) }
{
    for location in running {
        put_running(out, places, does, *location)?;
    }
    Ok(())
}

/// Writes a number, and what stands before and after it.
fn put_count(out: &mut Vec<u8>, before: &[u8], n: u32, after: &[u8]) -> Result<(), AllocError>
    ensures { OnOk result (out.new.items ≡ out.old.items ++ (before.now ++ decimal n ++ after.now)) }
{
    out.extend_from_slice(before)?;
    put_decimal(out, n)?;
    out.extend_from_slice(after)
}

/// Writes how many processors are not shown.
fn put_hidden(out: &mut Vec<u8>, hidden: u32) -> Result<(), AllocError>
    ensures { OnOk result (out.new.items ≡ out.old.items ++ hidden_line hidden) }
{
    if hidden == 1 {
        out.extend_from_slice(b"  and 1 more SPU\n")
    } else {
        put_count(out, b"  and ", hidden, b" more SPUs\n")
    }
}

/// Writes how many processors run besides the four that are shown.
pub fn put_more(out: &mut Vec<u8>, running: usize) -> Result<(), AllocError>
    requires { running ≤ 16 }
    ensures { OnOk result (out.new.items ≡ out.old.items ++ more_line running) }
{
    if running <= 4 {
        return Ok(());
    }
    put_hidden(out, (running - 4) as u32)
}

/// The first four at most.
pub fn first_four<T>(running: &[T]) -> &[T]
    ensures { result.now ≡ take 4 running.now }
{
    if running.len() <= 4 {
        running
    } else {
        &running[..4]
    }
}

/// The line where no processor runs.
pub fn none_shown(alloc: Global) -> Result<Vec<u8>, AllocError>
    ensures { IfOk result (λ v. v.items ≡ lines_shown 0 []) }
{
    Vec::from_slice(
        alloc,
        b"  no SPU is running, but a DMA command is not complete\n",
    )
}

/// The lines of the processors that run.
pub fn running_shown(
    alloc: Global,
    places: &Places,
    does: &[u8],
    running: &[Location],
) -> Result<Vec<u8>, AllocError>
    requires { length running.now ≤ 16 }
    ensures { IfOk result (λ v. v.items ≡ running_shown places.now does.now running.now) }
{
    if running.is_empty() {
        return none_shown(alloc);
    }
    let mut shown = Vec::new(alloc);
    put_all_running(&mut shown, places, does, first_four(running))?;
    put_more(&mut shown, running.len())?;
    Ok(shown)
}

/// Writes the lines that placed the instructions of processors.
fn put_keys(out: &mut Vec<u8>, places: &Places, running: &[Location]) -> Result<(), AllocError>
    ensures { OnOk result (out.new.items ≡ out.old.items ++ flat_map (location_key places.now) running.now) }
{
    for location in running {
        put_instruction(out, places, location.spe, location.at)?;
    }
    Ok(())
}

/// The finding of a deadlock.
fn deadlock_told(
    alloc: Global,
    places: &Places,
    running: &[Location],
) -> Result<Telling, AllocError>
    requires { length running.now ≤ 16 }
    ensures { IfOk result (λ t. t ≡ deadlock_told places.now running.now) }
{
    let mut key = Vec::from_slice(alloc, b"deadlock")?;
    put_keys(&mut key, places, running)?;
    let shown = running_shown(alloc, places, b" waits", running)?;
    Ok(Telling { key, shown })
}

/// Takes in the finding of a deadlock, if the run ends with one.
pub fn take_stuck(
    alloc: Global,
    findings: &mut Vec<Telling>,
    places: &Places,
    running: &[Location],
    end: End,
) -> Result<(), AllocError>
    requires { length running.now ≤ 16 }
    ensures { OnOk result (findings.new.items ≡ findings.old.items ++ stuck_told places.now running.now end) }
{
    match end {
        End::Stuck => findings.push(deadlock_told(alloc, places, running)?)?,
        End::Budget => {}
        End::AllStopped => {}
    }
    Ok(())
}
