//! The place of the key by which a step is chosen.

ghost use Rattle.std.specs.Prelude.{◌≡◌};
ghost use Rattle.cell_hunt.specs.Keys.{place_of, queued_place};

use cell_base::Step;

/// The place of the first queued command.
pub const FIRST_QUEUED: u16 = 33;

/// The place of a queued command's key.
fn queued_place(spe: u8, cmd: u32) -> u16
    ensures { result ≡ queued_place spe cmd }
{
    FIRST_QUEUED + 16 * u16::from(spe) + (cmd % 16) as u16
}

/// The place of the key by which a step is chosen.
pub fn place_of(step: Step) -> u16
    ensures { result ≡ place_of step }
{
    match step {
        Step::Exec { spe } => u16::from(spe),
        Step::Atomic { spe } => 16 + u16::from(spe),
        Step::Host => 32,
        Step::Piece { spe, cmd, .. } => queued_place(spe, cmd),
        Step::Elem { spe, cmd } => queued_place(spe, cmd),
        Step::Retire { spe, cmd } => queued_place(spe, cmd),
    }
}
