//! How a run ended.

ghost use Rattle.std.specs.Prelude.{◌≡◌, ◌≤◌, ◌+◌, ◌++◌, map, length, Some, OnOk, IfOk};
ghost use Rattle.std.specs.List.{list_any};
ghost use Rattle.cell_machine.specs.State.{State};
ghost use Rattle.cell_machine.specs.Run.{state_of};
ghost use Rattle.state_lines.specs.Lines.{end_word};
ghost use Rattle.hunt_reports.specs.Endings.{ended_in, is_fault, is_halted, is_stuck, is_budget, pc_text, spe_ending, spe_endings, ending_text};

use cell_base::line_text::{put_decimal, put_hex};
use cell_machine::{End, Machine, Status};
use state_lines::put_status;
use std::alloc::{AllocError, Global};

/// What a processor does at the end, and its PC.
#[derive(Clone, Copy)]
pub struct AtEnd {
    pub status: Status,
    pub pc: u32,
}

/// What the processors do.
pub fn ended_of(alloc: Global, m: &Machine) -> Result<Vec<AtEnd>, AllocError>
    ensures ended { IfOk result (λ v. (M : State) → state_of m.now ≡ Some M → v.items ≡ map ended_in M.spes) }
    ensures count { IfOk result (λ v. length v.items ≡ length m.now.setup.entries) }
    ensures few { IfOk result (λ v. length v.items ≤ 16) }
{
    let mut ended = Vec::new(alloc);
    for p in 0..m.setup().spes() {
        ended.push(AtEnd {
            status: m.status(p),
            pc: m.pc(p),
        })?;
    }
    Ok(ended)
}

pub fn is_stuck(end: End) -> bool
    ensures { result ≡ is_stuck end }
{
    matches!(end, End::Stuck)
}

pub fn is_budget(end: End) -> bool
    ensures { result ≡ is_budget end }
{
    matches!(end, End::Budget)
}

fn is_fault(status: Status) -> bool
    ensures { result ≡ is_fault status }
{
    match status {
        Status::BadWord => true,
        Status::BadChannel => true,
        Status::DmaFault { .. } => true,
        _ => false,
    }
}

fn is_halted(status: Status) -> bool
    ensures { result ≡ is_halted status }
{
    matches!(status, Status::Halted)
}

/// Whether a processor has a fault.
pub fn has_fault(spes: &[AtEnd]) -> bool
    ensures { result ≡ list_any (λ e. is_fault e.status) spes.now }
{
    spes.iter().any(|e| is_fault(e.status))
}

/// Whether a processor halted.
pub fn has_halt(spes: &[AtEnd]) -> bool
    ensures { result ≡ list_any (λ e. is_halted e.status) spes.now }
{
    spes.iter().any(|e| is_halted(e.status))
}

fn put_word(out: &mut Vec<u8>, end: End) -> Result<(), AllocError>
    ensures { OnOk result (out.new.items ≡ out.old.items ++ end_word (Some end)) }
{
    match end {
        End::AllStopped => out.extend_from_slice(b"AllStopped"),
        End::Stuck => out.extend_from_slice(b"Stuck"),
        End::Budget => out.extend_from_slice(b"Budget"),
    }
}

/// Writes where a processor is that still runs.
fn put_pc(out: &mut Vec<u8>, status: Status, pc: u32) -> Result<(), AllocError>
    ensures { OnOk result (out.new.items ≡ out.old.items ++ pc_text status pc) }
{
    match status {
        Status::Running => {
            out.extend_from_slice(b" at 0x")?;
            put_hex(out, 5, pc)
        }
        _ => Ok(()),
    }
}

fn put_spe(out: &mut Vec<u8>, p: u8, ended: AtEnd) -> Result<(), AllocError>
    ensures { OnOk result (out.new.items ≡ out.old.items ++ spe_ending p ended) }
{
    out.extend_from_slice(b" | ")?;
    put_decimal(out, u32::from(p))?;
    out.push(b' ')?;
    put_status(out, ended.status)?;
    put_pc(out, ended.status, ended.pc)
}

fn put_spes(out: &mut Vec<u8>, spes: &[AtEnd]) -> Result<(), AllocError>
    requires { length spes.now ≤ 16 }
    ensures { OnOk result (out.new.items ≡ out.old.items ++ spe_endings 0 spes.now) }
{
    let mut p = 0;
    for ended in spes {
        put_spe(out, p, *ended)?;
        p += 1;
    }
    Ok(())
}

/// The end word, and of each processor what it does and where it is, if it still runs.
pub fn ending_text(alloc: Global, end: End, spes: &[AtEnd]) -> Result<Vec<u8>, AllocError>
    requires { length spes.now ≤ 16 }
    ensures { IfOk result (λ text. text.items ≡ ending_text end spes.now) }
{
    let mut out = Vec::new(alloc);
    put_word(&mut out, end)?;
    put_spes(&mut out, spes)?;
    Ok(out)
}
