//! The command that a step issues, and its processor.

ghost use Rattle.std.specs.Prelude.{◌≡◌};
ghost use Rattle.race_order.specs.Ordering.{issued_in, spe_in};

use cell_base::Step;
use cell_machine::Note;
use mfc_command::Command;

/// A command that is issued.
#[derive(Clone, Copy)]
pub(crate) struct Issued {
    pub(crate) spe: u8,
    pub(crate) cmd: u32,
    pub(crate) command: Command,
}

/// The command that the step issues.
pub(crate) fn find_issue(step: Step, note: Note) -> Option<Issued>
    ensures { result ≡ issued_in step note }
{
    match step {
        Step::Exec { spe } => match note {
            Note::Issue { cmd, command } => Some(Issued { spe, cmd, command }),
            _ => None,
        },
        _ => None,
    }
}

/// The processor of the step.
pub(crate) fn spe_of(step: Step) -> Option<u8>
    ensures { result ≡ spe_in step }
{
    match step {
        Step::Exec { spe } => Some(spe),
        Step::Piece { spe, .. } => Some(spe),
        Step::Elem { spe, .. } => Some(spe),
        Step::Retire { spe, .. } => Some(spe),
        Step::Atomic { spe } => Some(spe),
        Step::Host => None,
    }
}
