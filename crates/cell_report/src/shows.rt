//! The ranges that the states show.

ghost use Rattle.std.specs.Prelude.{◌≡◌, ◌+◌, ◌*◌, ◌<◌, ◌≤◌, ◌++◌, length, Some, OnOk};
ghost use Rattle.std.specs.List.{flat_map};
ghost use Rattle.cell_machine.specs.State.{State};
ghost use Rattle.cell_machine.specs.Run.{state_of};
ghost use Rattle.state_lines.specs.Lines.{show_line};

use cell_machine::Machine;
use state_lines::put_show;
use std::alloc::AllocError;

/// Writes the ranges that the setup shows.
pub(crate) fn put_shows(out: &mut Vec<u8>, m: &Machine) -> Result<(), AllocError>
    ensures text { OnOk result ((M : State) → state_of m.now ≡ Some M → out.new.items ≡ out.old.items ++ flat_map (show_line M) m.now.setup.shows) }
    ensures short { OnOk result (length out.new.items ≤ length out.old.items + 525824) }
{
    for show in m.setup().shows() {
        put_show(out, m, *show)?;
    }
    Ok(())
}
