//! The text of a machine's last state.

ghost use Rattle.std.specs.Prelude.{◌≡◌, ◌<◌, ◌≤◌, ◌+◌, ◌*◌, ◌++◌, length, Option, OnOk, IfOk, IsSomeAnd};
ghost use Rattle.std.specs.List.{flat_map};
ghost use Rattle.std.specs.Fmt.{decimal};
ghost use Rattle.cell_machine.specs.declared.status.End.{End};
ghost use Rattle.cell_machine.specs.Run.{IsEnd, state_of, spe_of};
ghost use Rattle.cell_report.specs.States.{is_zero, nonzero_line, register_lines, spe_text, spes_text, states_of};

use crate::error::TextError;
use crate::host::put_host;
use crate::shows::put_shows;
use cell_base::Quad;
use cell_machine::Machine;
use state_lines::{put_end, put_register, put_spe};
use std::alloc::{AllocError, Global};

fn is_zero(bytes: &[u8]) -> bool
    ensures { result ≡ is_zero bytes.now }
{
    bytes.iter().all(|b| *b == 0)
}

/// Writes the line of a register, if it isn't zero.
fn put_nonzero(out: &mut Vec<u8>, r: u8, quad: Quad) -> Result<(), AllocError>
    ensures text { OnOk result (out.new.items ≡ out.old.items ++ nonzero_line r quad) }
    ensures short { OnOk result (length out.new.items ≤ length out.old.items + 38) }
{
    if is_zero(&quad.bytes()) {
        return Ok(());
    }
    put_register(out, r, quad)
}

fn put_registers(out: &mut Vec<u8>, registers: &[Quad]) -> Result<(), AllocError>
    requires { length registers.now ≤ 128 }
    ensures text { OnOk result (out.new.items ≡ out.old.items ++ register_lines 0 registers.now) }
    ensures short { OnOk result (length out.new.items ≤ length out.old.items + 38 * length registers.now) }
{
    let mut r = 0;
    for quad in registers {
        put_nonzero(out, r, *quad)?;
        r += 1;
    }
    Ok(())
}

/// Writes the lines of processor `p`, which is there.
fn put_lines(out: &mut Vec<u8>, m: &Machine, p: u8) -> Result<(), AllocError>
    requires { p < length m.now.setup.entries }
    ensures text { OnOk result (IsSomeAnd (spe_of m.now p) (λ P. out.new.items ≡ out.old.items ++ spe_text p P)) }
    ensures short { OnOk result (length out.new.items ≤ length out.old.items + 4927) }
{
    put_spe(out, m, p)?;
    put_registers(out, m.registers(p))
}

/// Writes the lines of all processors.
fn put_spes(out: &mut Vec<u8>, m: &Machine) -> Result<(), AllocError>
    ensures text { OnOk result (IsSomeAnd (state_of m.now) (λ M. out.new.items ≡ out.old.items ++ spes_text 0 M.spes)) }
    ensures short { OnOk result (length out.new.items ≤ length out.old.items + 78832) }
{
    for p in 0..m.setup().spes() {
        put_lines(out, m, p)?;
    }
    Ok(())
}

/// The states of a machine as text: its end word, its processors with each register that isn't zero, the host, and the ranges
/// that its setup shows; at most 700,000 bytes.
pub fn states_text(alloc: Global, m: &Machine) -> Result<Vec<u8>, TextError>
    ensures text { IfOk result (λ text. IsSomeAnd (state_of m.now) (λ M. (end : Option End) × IsEnd M m.now.setup.budget end × (text.items ≡ states_of M m.now.setup.shows end))) }
    ensures short { IfOk result (λ text. length text.items ≤ 700000) }
{
    let mut out = Vec::new(alloc);
    put_end(&mut out, m.end())?;
    put_spes(&mut out, m)?;
    put_host(&mut out, m)?;
    put_shows(&mut out, m)?;
    Ok(out)
}
