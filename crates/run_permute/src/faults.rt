//! Whether processors have come to DMA faults.

ghost use Rattle.std.specs.Prelude.{◌≡◌, ℕ, ◌<◌, ◌↔◌, IsTrue, IsSomeAnd, Some, length, false};
ghost use Rattle.cell_machine.specs.Spe.{Spe, is_faulted};
ghost use Rattle.cell_machine.specs.Run.{spe_of};

use cell_machine::{Machine, Status};

/// Whether a processor that is there has come to a DMA fault.
fn is_faulted(m: &Machine, spe: u8) -> bool
    requires { spe < length m.now.setup.entries }
    ensures { IsSomeAnd (spe_of m.now spe) (λ P. is_faulted P.status ≡ result) }
{
    match m.status(spe) {
        Status::DmaFault { .. } => true,
        _ => false,
    }
}

/// Whether no processor has.
pub fn has_no_fault(m: &Machine) -> bool
    ensures { IsTrue result ↔ ((p : ℕ) (P : Spe) → spe_of m.now p ≡ Some P → is_faulted P.status ≡ false) }
{
    for spe in 0..m.setup().spes() {
        if is_faulted(m, spe) {
            return false;
        }
    }
    true
}
