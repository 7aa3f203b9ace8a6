// Where a line may stand, and the limits of its numbers and counts.
ghost use Rattle.std.specs.Prelude.{◌≡◌, ◌<◌, ◌+◌, ◌&&◌, ◌^◌, List, ℕ, length, nat_lt};
ghost use Rattle.cell_load.specs.Entries.{entry_of, Spe, Entrance, Code, Bytes, Source, MemoryBytes, Host, ShowLocal, ShowMemory};
ghost use Rattle.cell_load.specs.Order.{admit, counted, fits_action, in_line, in_local, in_memory, is_register, is_shown, limited, nothing, only_if};
ghost use Rattle.cell_load.specs.declared.line.Stage.TheVariants.{Start, Headed, Sized, Body};

use crate::line::{Counts, Line, Refusal, Stage};
use cell_host::{HostAction, MAX_ACTIONS};
use local_store::STORE_BYTES;
use main_memory::LINE_BYTES;

/// How many bytes a host action may store.
const MAX_STORED: u32 = 16;

fn in_local(at: u32, len: usize) -> bool
    requires { len < 2 ^ 63 }
    ensures { result ≡ in_local at len }
{
    at as usize + len <= STORE_BYTES
}

fn in_memory(lines: u32, at: u32, len: usize) -> bool
    requires { len < 2 ^ 63 }
    ensures { result ≡ in_memory lines at len }
{
    at as usize + len <= LINE_BYTES as usize * lines as usize
}

/// Whether so many bytes are 1 to 16 within one line of main memory.
fn in_line(lines: u32, at: u32, len: u8) -> bool
    ensures { result ≡ in_line lines at len }
{
    let stored = u32::from(len);
    1 <= stored
        && stored <= MAX_STORED
        && at % LINE_BYTES + stored <= LINE_BYTES
        && in_memory(lines, at, len as usize)
}

fn is_shown(len: u32) -> bool
    ensures { result ≡ is_shown len }
{
    1 <= len && len <= 4096
}

fn is_register(register: u8) -> bool
    ensures { result ≡ is_register register }
{
    register == 1 || register == 2
}

/// Whether an action's processor came before, or its bytes lie within one line of main memory.
fn fits_action(counts: Counts, action: HostAction) -> bool
    ensures { result ≡ fits_action counts action }
{
    match action {
        HostAction::Send { spe, .. } => u32::from(spe) < counts.spes,
        HostAction::Take { spe } => u32::from(spe) < counts.spes,
        HostAction::TakeIntr { spe } => u32::from(spe) < counts.spes,
        HostAction::Await { spe } => u32::from(spe) < counts.spes,
        HostAction::Signal { spe, register, .. } => {
            u32::from(spe) < counts.spes && is_register(register)
        }
        HostAction::Store { ea, len, .. } => in_line(counts.lines, ea, len),
    }
}

fn only_if(holds: bool, counts: Counts) -> Result<Counts, Refusal>
    ensures { result ≡ only_if holds (Ok counts) }
{
    if holds {
        Ok(counts)
    } else {
        Err(Refusal::Form)
    }
}

#[tactic(auto, unfolding(crate::specs::Order::counted))]
fn count_spe(counts: Counts) -> Result<Counts, Refusal>
    ensures { result ≡ counted counts Spe }
{
    if counts.spes >= 16 {
        return Err(Refusal::Limit);
    }
    let mut next = counts;
    next.spes += 1;
    next.entry = false;
    Ok(next)
}

#[tactic(auto, unfolding(crate::specs::Order::counted))]
fn count_entry(counts: Counts, at: u32) -> Result<Counts, Refusal>
    ensures { result ≡ counted counts (Entrance at) }
{
    let mut next = counts;
    next.entry = true;
    only_if(
        0 < counts.spes && !counts.entry && at % 4 == 0 && at < 262_144,
        next,
    )
}

#[tactic(auto, unfolding(crate::specs::Order::counted))]
fn count_code(counts: Counts, at: u32, len: usize) -> Result<Counts, Refusal>
    requires { len < 2 ^ 63 }
    ensures { (bytes : List ℕ) → length bytes ≡ len → result ≡ counted counts (Code at bytes) }
{
    only_if(
        0 < counts.spes && at % 4 == 0 && len % 4 == 0 && in_local(at, len),
        counts,
    )
}

#[tactic(auto, unfolding(crate::specs::Order::counted))]
fn count_bytes(counts: Counts, at: u32, len: usize) -> Result<Counts, Refusal>
    requires { len < 2 ^ 63 }
    ensures { (bytes : List ℕ) → length bytes ≡ len → result ≡ counted counts (Bytes at bytes) }
{
    only_if(0 < counts.spes && in_local(at, len), counts)
}

#[tactic(auto, unfolding(crate::specs::Order::counted))]
fn count_source(counts: Counts) -> Result<Counts, Refusal>
    ensures { (name : List ℕ) → result ≡ counted counts (Source name) }
{
    if counts.spes == 0 {
        return Err(Refusal::Form);
    }
    if counts.sources >= 32 {
        return Err(Refusal::Limit);
    }
    let mut next = counts;
    next.sources += 1;
    Ok(next)
}

#[tactic(auto, unfolding(crate::specs::Order::counted))]
fn count_memory_bytes(counts: Counts, at: u32, len: usize) -> Result<Counts, Refusal>
    requires { len < 2 ^ 63 }
    ensures { (bytes : List ℕ) → length bytes ≡ len → result ≡ counted counts (MemoryBytes at bytes) }
{
    only_if(in_memory(counts.lines, at, len), counts)
}

#[tactic(auto, unfolding(crate::specs::Order::counted))]
fn count_action(counts: Counts, action: HostAction) -> Result<Counts, Refusal>
    ensures { result ≡ counted counts (Host action) }
{
    if !fits_action(counts, action) {
        return Err(Refusal::Form);
    }
    if counts.actions as usize >= MAX_ACTIONS {
        return Err(Refusal::Limit);
    }
    let mut next = counts;
    next.actions += 1;
    Ok(next)
}

/// The counts after one more range of so many bytes, which lies where it is shown.
fn one_more_show(counts: Counts, len: u32) -> Result<Counts, Refusal>
    ensures { result ≡ limited (is_shown len && nat_lt counts.shows 64) (record counts { shows = counts.shows + 1 }) }
{
    if !is_shown(len) || counts.shows >= 64 {
        return Err(Refusal::Limit);
    }
    let mut next = counts;
    next.shows += 1;
    Ok(next)
}

#[tactic(auto, unfolding(crate::specs::Order::counted))]
fn count_show_local(counts: Counts, spe: u32, at: u32, len: u32) -> Result<Counts, Refusal>
    ensures { result ≡ counted counts (ShowLocal spe at len) }
{
    if spe >= counts.spes || !in_local(at, len as usize) {
        return Err(Refusal::Form);
    }
    one_more_show(counts, len)
}

#[tactic(auto, unfolding(crate::specs::Order::counted))]
fn count_show_memory(counts: Counts, at: u32, len: u32) -> Result<Counts, Refusal>
    ensures { result ≡ counted counts (ShowMemory at len) }
{
    if !in_memory(counts.lines, at, len as usize) {
        return Err(Refusal::Form);
    }
    one_more_show(counts, len)
}

/// The counts after a line that stands behind the first three.
#[tactic(auto, unfolding(crate::specs::Order::counted))]
fn counted(counts: Counts, line: &Line) -> Result<Counts, Refusal>
    ensures { result ≡ counted counts (entry_of line.now) }
{
    match line {
        Line::Spe => count_spe(counts),
        Line::Entry { at } => count_entry(counts, *at),
        Line::Code { at, bytes } => count_code(counts, *at, bytes.len()),
        Line::Bytes { at, bytes } => count_bytes(counts, *at, bytes.len()),
        Line::Source { name: _ } => count_source(counts),
        Line::MemoryBytes { at, bytes } => count_memory_bytes(counts, *at, bytes.len()),
        Line::Host { action } => count_action(counts, *action),
        Line::OrMode { spe, register } => only_if(
            u32::from(*spe) < counts.spes && is_register(*register),
            counts,
        ),
        Line::ShowLocal { spe, at, len } => count_show_local(counts, *spe, *at, *len),
        Line::ShowMemory { at, len } => count_show_memory(counts, *at, *len),
        Line::Head => Err(Refusal::Form),
        Line::Lines { n: _ } => Err(Refusal::Form),
        Line::Budget { n: _ } => Err(Refusal::Form),
    }
}

/// No line behind the first three, where the memory has so many lines.
fn nothing(lines: u32) -> Counts
    ensures { result ≡ nothing lines }
{
    Counts {
        lines,
        spes: 0,
        entry: false,
        sources: 0,
        actions: 0,
        shows: 0,
    }
}

#[tactic(auto, unfolding(crate::specs::Order::admit))]
fn admit_head(line: &Line) -> Result<Stage, Refusal>
    ensures { result ≡ admit Start (entry_of line.now) }
{
    match line {
        Line::Head => Ok(Stage::Headed),
        _ => Err(Refusal::Form),
    }
}

#[tactic(auto, unfolding(crate::specs::Order::admit))]
fn admit_lines(line: &Line) -> Result<Stage, Refusal>
    ensures { result ≡ admit Headed (entry_of line.now) }
{
    match line {
        Line::Lines { n } => {
            if 1 <= *n && *n <= 524_288 {
                Ok(Stage::Sized { lines: *n })
            } else {
                Err(Refusal::Limit)
            }
        }
        _ => Err(Refusal::Form),
    }
}

#[tactic(auto, unfolding(crate::specs::Order::admit))]
fn admit_budget(lines: u32, line: &Line) -> Result<Stage, Refusal>
    ensures { result ≡ admit (Sized lines) (entry_of line.now) }
{
    match line {
        Line::Budget { n } => {
            if 1 <= *n && *n <= 1_000_000 {
                Ok(Stage::Body {
                    counts: nothing(lines),
                })
            } else {
                Err(Refusal::Limit)
            }
        }
        _ => Err(Refusal::Form),
    }
}

/// The stage after a line, or why it has no place.
#[tactic(auto, unfolding(crate::specs::Order::admit))]
pub(crate) fn admit(stage: Stage, line: &Line) -> Result<Stage, Refusal>
    ensures { result ≡ admit stage (entry_of line.now) }
{
    match stage {
        Stage::Start => admit_head(line),
        Stage::Headed => admit_lines(line),
        Stage::Sized { lines } => admit_budget(lines, line),
        Stage::Body { counts } => match counted(counts, line) {
            Ok(counts) => Ok(Stage::Body { counts }),
            Err(refusal) => Err(refusal),
        },
    }
}
