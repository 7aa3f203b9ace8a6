//! The finding of a livelock.

ghost use Rattle.std.specs.Prelude.{◌≡◌, ◌≤◌, ◌++◌, flat_map, length, IfOk, OnOk};
ghost use Rattle.hunt_reports.specs.Livelocks.{after_text, bytes_text, does_text, livelock_told, loop_key, loop_line, loops_shown, never_text, no_progress_line, poll_text, polled_text, since_text, written_at, written_by, written_text};

use crate::locations::{Location, location_of, put_note_start, put_numbered, put_short, put_spu};
use crate::origins::Places;
use crate::places::put_instruction;
use crate::spent::{Loop, Polled, Spent};
use crate::waits::{first_four, none_shown, put_more};
use cell_base::line_text::{put_decimal, put_hex};
use cell_hunt::Site;
use hunt_tally::Telling;
use std::alloc::{AllocError, Global};

/// Writes how many bytes.
fn put_bytes(out: &mut Vec<u8>, n: u32) -> Result<(), AllocError>
    ensures { OnOk result (out.new.items ≡ out.old.items ++ bytes_text n) }
{
    if n == 1 {
        return out.extend_from_slice(b"1 byte");
    }
    put_decimal(out, n)?;
    out.extend_from_slice(b" bytes")
}

/// Writes the instruction that wrote bytes last.
#[tactic(auto, unfolding(crate::specs::Livelocks::written_at))]
fn put_written_at(out: &mut Vec<u8>, places: &Places, location: Location) -> Result<(), AllocError>
    ensures { OnOk result (out.new.items ≡ out.old.items ++ written_at places.now location) }
{
    out.extend_from_slice(b"last written at ")?;
    put_short(out, places, location)?;
    out.extend_from_slice(b" by ")?;
    put_spu(out, location.spe)
}

/// Writes who wrote bytes last.
fn put_written_by(
    out: &mut Vec<u8>,
    places: &Places,
    location: Option<Location>,
) -> Result<(), AllocError>
    ensures { OnOk result (out.new.items ≡ out.old.items ++ written_by places.now location) }
{
    match location {
        Some(location) => put_written_at(out, places, location),
        None => out.extend_from_slice(b"last written by the host"),
    }
}

/// Writes who wrote bytes last, if a step did.
fn put_written(out: &mut Vec<u8>, places: &Places, writer: Option<Site>) -> Result<(), AllocError>
    ensures { OnOk result (out.new.items ≡ out.old.items ++ written_text places.now writer) }
{
    match writer {
        Some(site) => put_written_by(out, places, location_of(site)),
        None => out.extend_from_slice(b"never written"),
    }
}

/// Writes what an MFC polls.
fn put_poll(out: &mut Vec<u8>, places: &Places, polled: Polled) -> Result<(), AllocError>
    ensures { OnOk result (out.new.items ≡ out.old.items ++ poll_text places.now polled) }
{
    out.extend_from_slice(b"; polls ")?;
    put_bytes(out, polled.len)?;
    out.extend_from_slice(b" at 0x")?;
    put_hex(out, 8, polled.at)?;
    out.extend_from_slice(b", ")?;
    put_written(out, places, polled.writer)
}

/// Writes what an MFC polls, if it polls.
fn put_polled(out: &mut Vec<u8>, places: &Places, polled: Option<Polled>) -> Result<(), AllocError>
    ensures { OnOk result (out.new.items ≡ out.old.items ++ polled_text places.now polled) }
{
    match polled {
        Some(polled) => put_poll(out, places, polled),
        None => Ok(()),
    }
}

/// Writes up to which instruction a processor loops, or that it waits.
fn put_does(
    out: &mut Vec<u8>,
    places: &Places,
    spe: u8,
    last: Option<u32>,
) -> Result<(), AllocError>
    ensures { OnOk result (out.new.items ≡ out.old.items ++ does_text places.now spe last) }
{
    match last {
        Some(at) => {
            out.extend_from_slice(b" loops up to ")?;
            put_short(out, places, Location { spe, at })
        }
        None => out.extend_from_slice(b" waits"),
    }
}

/// Writes the line of a processor.
fn put_loop(out: &mut Vec<u8>, places: &Places, looping: Loop) -> Result<(), AllocError>
    ensures { OnOk result (out.new.items ≡ out.old.items ++ loop_line places.now looping) }
{
    put_note_start(out, places, looping.first)?;
    put_spu(out, looping.first.spe)?;
    put_does(out, places, looping.first.spe, looping.last)?;
    put_polled(out, places, looping.polled)?;
    out.extend_from_slice(b")\n")
}

/// Writes the lines of processors.
fn put_loops(out: &mut Vec<u8>, places: &Places, loops: &[Loop]) -> Result<(), AllocError>
    ensures { OnOk result (out.new.items ≡ out.old.items ++ flat_map (loop_line places.now) loops.now) }
{
    for looping in loops {
        put_loop(out, places, *looping)?;
    }
    Ok(())
}

/// The lines of the processors that run.
fn loops_shown(alloc: Global, places: &Places, loops: &[Loop]) -> Result<Vec<u8>, AllocError>
    requires { length loops.now ≤ 16 }
    ensures { IfOk result (λ v. v.items ≡ loops_shown places.now loops.now) }
{
    if loops.is_empty() {
        return none_shown(alloc);
    }
    let mut shown = Vec::new(alloc);
    put_loops(&mut shown, places, first_four(loops))?;
    put_more(&mut shown, loops.len())?;
    Ok(shown)
}

/// Writes the lines that placed the first instructions of loops.
fn put_loop_keys(out: &mut Vec<u8>, places: &Places, loops: &[Loop]) -> Result<(), AllocError>
    ensures { OnOk result (out.new.items ≡ out.old.items ++ flat_map (loop_key places.now) loops.now) }
{
    for looping in loops {
        put_instruction(out, places, looping.first.spe, looping.first.at)?;
    }
    Ok(())
}

/// Writes that no step was a change.
#[tactic(auto, unfolding(crate::specs::Livelocks::never_text))]
fn put_never(out: &mut Vec<u8>, budget: u32) -> Result<(), AllocError>
    ensures { OnOk result (out.new.items ≡ out.old.items ++ never_text budget) }
{
    put_numbered(out, b"  no progress in ", budget)?;
    out.extend_from_slice(b" steps")
}

/// Writes that this step was the last change.
#[tactic(auto, unfolding(crate::specs::Livelocks::after_text))]
fn put_after(out: &mut Vec<u8>, step: u32, budget: u32) -> Result<(), AllocError>
    ensures { OnOk result (out.new.items ≡ out.old.items ++ after_text step budget) }
{
    put_numbered(out, b"  no progress after step ", step)?;
    out.extend_from_slice(b" of ")?;
    put_decimal(out, budget)
}

/// Writes since when nothing changed.
fn put_since(out: &mut Vec<u8>, change: u32, budget: u32) -> Result<(), AllocError>
    ensures { OnOk result (out.new.items ≡ out.old.items ++ since_text change budget) }
{
    if change == 0 {
        return put_never(out, budget);
    }
    put_after(out, change - 1, budget)
}

/// Writes since when nothing changed, and what a change is.
fn put_no_progress(out: &mut Vec<u8>, spent: &Spent) -> Result<(), AllocError>
    ensures { OnOk result (out.new.items ≡ out.old.items ++ no_progress_line spent.now) }
{
    put_since(out, spent.last_change, spent.budget)?;
    out.extend_from_slice(b": no mailbox, signal, status or byte of memory changed\n")
}

/// The finding of a livelock.
pub fn livelock_told(alloc: Global, places: &Places, spent: &Spent) -> Result<Telling, AllocError>
    requires { length spent.now.loops.items ≤ 16 }
    ensures { IfOk result (λ t. t ≡ livelock_told places.now spent.now) }
{
    let mut key = Vec::from_slice(alloc, b"livelock")?;
    put_loop_keys(&mut key, places, spent.loops.as_slice())?;
    let mut shown = loops_shown(alloc, places, spent.loops.as_slice())?;
    put_no_progress(&mut shown, spent)?;
    Ok(Telling { key, shown })
}
