//! How a run ended, what a processor does, and its registers.

ghost use Rattle.std.specs.Prelude.{◌≡◌, ◌<◌, ◌≤◌, ◌+◌, ◌*◌, ◌++◌, length, OnOk, IsSomeAnd};
ghost use Rattle.cell_machine.specs.Moves.{outstanding};
ghost use Rattle.cell_machine.specs.Run.{spe_of};
ghost use Rattle.state_lines.specs.Lines.{end_line, kind_text, status_text, place_text, spe_line, register_line};

use cell_base::Quad;
use cell_base::line_text::{put_decimal, put_hex, put_hex_bytes};
use cell_machine::{DmaFault, End, Machine, Status};
use std::alloc::AllocError;

/// Writes the line of the end word at the end.
pub fn put_end(out: &mut Vec<u8>, end: Option<End>) -> Result<(), AllocError>
    ensures text { OnOk result (out.new.items ≡ out.old.items ++ end_line end) }
    ensures short { OnOk result (length out.new.items ≤ length out.old.items + 15) }
{
    match end {
        Some(End::AllStopped) => out.extend_from_slice(b"end AllStopped\n"),
        Some(End::Stuck) => out.extend_from_slice(b"end Stuck\n"),
        Some(End::Budget) => out.extend_from_slice(b"end Budget\n"),
        None => out.extend_from_slice(b"end Open\n"),
    }
}

fn put_kind(out: &mut Vec<u8>, kind: DmaFault) -> Result<(), AllocError>
    ensures { OnOk result (out.new.items ≡ out.old.items ++ kind_text kind) }
{
    match kind {
        DmaFault::Opcode => out.extend_from_slice(b"opcode"),
        DmaFault::Tag => out.extend_from_slice(b"tag"),
        DmaFault::Size => out.extend_from_slice(b"size"),
        DmaFault::Alignment => out.extend_from_slice(b"alignment"),
        DmaFault::StoreRange => out.extend_from_slice(b"store"),
        DmaFault::MemoryRange => out.extend_from_slice(b"memory"),
        DmaFault::High => out.extend_from_slice(b"high"),
    }
}

/// Writes what a processor does, with its stop code or the kind of its fault.
pub fn put_status(out: &mut Vec<u8>, status: Status) -> Result<(), AllocError>
    ensures { OnOk result (out.new.items ≡ out.old.items ++ status_text status) }
{
    match status {
        Status::Running => out.extend_from_slice(b"running"),
        Status::Stopped { code } => {
            out.extend_from_slice(b"stopped 0x")?;
            put_hex(out, 4, u32::from(code))
        }
        Status::Halted => out.extend_from_slice(b"halted"),
        Status::BadWord => out.extend_from_slice(b"badword"),
        Status::BadChannel => out.extend_from_slice(b"badchannel"),
        Status::DmaFault { kind } => {
            out.extend_from_slice(b"dmafault ")?;
            put_kind(out, kind)
        }
    }
}

fn put_place(out: &mut Vec<u8>, pc: u32, queued: u32) -> Result<(), AllocError>
    ensures { OnOk result (out.new.items ≡ out.old.items ++ place_text pc queued) }
{
    out.extend_from_slice(b" pc 0x")?;
    put_hex(out, 5, pc)?;
    out.extend_from_slice(b" queued ")?;
    put_decimal(out, queued)?;
    out.push(b'\n')?;
    Ok(())
}

/// Writes the line of processor `p`.
fn put_line(
    out: &mut Vec<u8>,
    p: u8,
    status: Status,
    pc: u32,
    queued: u32,
) -> Result<(), AllocError>
    ensures text { OnOk result (out.new.items ≡ out.old.items ++ spe_line p status pc queued) }
    ensures short { OnOk result (length out.new.items ≤ length out.old.items + 63) }
{
    out.extend_from_slice(b"spe ")?;
    put_decimal(out, u32::from(p))?;
    out.push(b' ')?;
    put_status(out, status)?;
    put_place(out, pc, queued)
}

/// Writes the line of a processor that is there.
pub fn put_spe(out: &mut Vec<u8>, m: &Machine, p: u8) -> Result<(), AllocError>
    requires { p < length m.now.setup.entries }
    ensures text { OnOk result (IsSomeAnd (spe_of m.now p) (λ P. out.new.items ≡ out.old.items ++ spe_line p P.status P.pc (length (outstanding P)))) }
    ensures short { OnOk result (length out.new.items ≤ length out.old.items + 63) }
{
    put_line(out, p, m.status(p), m.pc(p), m.queued(p))
}

/// Writes the line of register `r`, which has these bytes.
pub fn put_register(out: &mut Vec<u8>, r: u8, quad: Quad) -> Result<(), AllocError>
    ensures text { OnOk result (out.new.items ≡ out.old.items ++ register_line r quad) }
    ensures short { OnOk result (length out.new.items ≤ length out.old.items + 38) }
{
    out.push(b'r')?;
    put_decimal(out, u32::from(r))?;
    out.push(b' ')?;
    put_hex_bytes(out, &quad.bytes())?;
    out.push(b'\n')?;
    Ok(())
}
