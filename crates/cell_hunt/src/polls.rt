//! Polls of what nobody has written since.

ghost use Rattle.std.specs.Prelude.{◌≡◌};
ghost use Rattle.cell_hunt.specs.Polls.{is_get_line, is_poll};

use cell_base::Step;
use cell_machine::Machine;
use mfc_command::AtomicKind;

fn is_get_line(kind: AtomicKind) -> bool
    ensures { result ≡ is_get_line kind }
{
    match kind {
        AtomicKind::GetLine => true,
        AtomicKind::PutCond => false,
        AtomicKind::PutLine => false,
    }
}

/// Whether a step is a GETLLAR of the line that its processor reserved last, where no store has touched the line since.
pub fn is_poll(machine: &Machine, step: Step) -> bool
    ensures { result ≡ is_poll machine.now step }
{
    let Step::Atomic { spe } = step else {
        return false;
    };
    if spe >= machine.setup().spes() {
        return false;
    }
    let Some(command) = machine.channels(spe).slot() else {
        return false;
    };
    if !is_get_line(command.kind) {
        return false;
    }
    match machine.line_held(spe) {
        Some(line) => line == command.line,
        None => false,
    }
}
