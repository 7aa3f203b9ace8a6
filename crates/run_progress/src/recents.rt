//! The last instructions of all processors after the last change.

ghost use Rattle.std.specs.Prelude.{◌≡◌, [], ◌∷◌, ◌++◌, length, List, OnOk, IfOk};
ghost use Rattle.run_progress.specs.Made.{Made};
ghost use Rattle.run_progress.specs.Repeats.{IsOf};
ghost use Rattle.run_progress.specs.Tracks.{AreEmpty, AreRecent};

use crate::recent::Recent;
use crate::repeat::Repeated;
use cell_base::Step;
use std::alloc::{AllocError, Global};

/// That of each processor before the first step.
pub fn no_recent(alloc: Global, spes: u8) -> Result<Vec<Recent>, AllocError>
    ensures many { IfOk result (λ recent. length recent.items ≡ spes) }
    ensures recent { IfOk result (λ recent. AreRecent [] recent.items) }
{
    let mut recent = Vec::new(alloc);
    for _ in 0..spes {
        recent.push(Recent::new(alloc))?;
    }
    Ok(recent)
}

/// Forgets all of them.
fn forget(recent: &mut [Recent])
    ensures none { AreEmpty recent.new }
    ensures many { length recent.new ≡ length recent.old }
{
    for i in 0..recent.len() {
        recent[i].forget();
    }
}

/// Adds the next step of the run, if it is an instruction, or forgets the earlier ones if it is a change.
pub fn add_step(recent: &mut [Recent], repeated: &Repeated) -> Result<(), AllocError>
    ensures recent { OnOk result ((run : List Made) (made : Made) → IsOf made repeated.now → AreRecent run recent.old → AreRecent (run ++ made ∷ []) recent.new) }
    ensures many { length recent.new ≡ length recent.old }
{
    if repeated.changes {
        forget(recent);
        return Ok(());
    }
    if let Step::Exec { spe } = repeated.step {
        let index = usize::from(spe);
        if index < recent.len() {
            recent[index].add(repeated.effect.fetch.at)?;
        }
    }
    Ok(())
}
