//! How far the host script has come.

ghost use Rattle.std.specs.Prelude.{◌≡◌, ◌<◌, ◌≤◌, ◌+◌, ◌*◌, ◌++◌, length, Some, OnOk};
ghost use Rattle.std.specs.List.{flat_map};
ghost use Rattle.cell_host.specs.Script.{ArePlaced};
ghost use Rattle.cell_machine.specs.State.{State};
ghost use Rattle.cell_machine.specs.Run.{state_of};
ghost use Rattle.cell_report.specs.States.{host_line, took_line, took_lines, host_text};

use cell_base::line_text::{put_decimal, put_hex};
use cell_machine::{Machine, Took};
use std::alloc::AllocError;

/// Writes how many actions are done, of how many.
fn put_progress(out: &mut Vec<u8>, done: u32, all: u32) -> Result<(), AllocError>
    ensures { OnOk result (out.new.items ≡ out.old.items ++ host_line done all) }
{
    out.extend_from_slice(b"host ")?;
    put_decimal(out, done)?;
    out.extend_from_slice(b" of ")?;
    put_decimal(out, all)?;
    out.push(b'\n')?;
    Ok(())
}

/// Writes a value that was taken, behind the number of the action that took it.
fn put_took(out: &mut Vec<u8>, took: Took) -> Result<(), AllocError>
    requires { took.action < 4096 }
    ensures text { OnOk result (out.new.items ≡ out.old.items ++ took_line took) }
    ensures short { OnOk result (length out.new.items ≤ length out.old.items + 21) }
{
    out.extend_from_slice(b"took ")?;
    put_decimal(out, took.action)?;
    out.extend_from_slice(b" 0x")?;
    put_hex(out, 8, took.value)?;
    out.push(b'\n')?;
    Ok(())
}

/// Writes the values that were taken, the earliest first.
pub(crate) fn put_all_took(out: &mut Vec<u8>, took: &[Took]) -> Result<(), AllocError>
    requires { ArePlaced 4096 took.now }
    ensures text { OnOk result (out.new.items ≡ out.old.items ++ took_lines took.now) }
    ensures short { OnOk result (length out.new.items ≤ length out.old.items + 21 * length took.now) }
{
    for value in took {
        put_took(out, *value)?;
    }
    Ok(())
}

/// Writes how far the host script has come, and what it took.
pub(crate) fn put_host(out: &mut Vec<u8>, m: &Machine) -> Result<(), AllocError>
    ensures text { OnOk result ((M : State) → state_of m.now ≡ Some M → out.new.items ≡ out.old.items ++ host_text M.host) }
    ensures short { OnOk result (length out.new.items ≤ length out.old.items + 86046) }
{
    let host = m.host();
    put_progress(out, host.place(), m.setup().actions().len() as u32)?;
    put_all_took(out, host.took())
}
