//! What the MFCs read of main memory since the last change.

ghost use Rattle.std.specs.Prelude.{◌≡◌, [], ◌∷◌, ◌++◌, length, List, Option, Some, None, IfOk};
ghost use Rattle.run_progress.specs.Made.{Made};
ghost use Rattle.run_progress.specs.Repeats.{IsOf};
ghost use Rattle.run_progress.specs.Tracks.{AreReads, AreNone, copier};

use crate::changes::is_shared;
use crate::repeat::Repeated;
use cell_base::Step;
use cell_machine::Span;
use std::alloc::{AllocError, Global};

/// The processor whose MFC copies bytes in this step.
fn copier(step: Step) -> Option<u8>
    ensures { result ≡ copier step }
{
    match step {
        Step::Piece { spe, .. } => Some(spe),
        Step::Atomic { spe } => Some(spe),
        _ => None,
    }
}

/// That of each processor before the first step.
pub fn no_reads(alloc: Global, spes: u8) -> Result<Vec<Option<Span>>, AllocError>
    ensures many { IfOk result (λ reads. length reads.items ≡ spes) }
    ensures reads { IfOk result (λ reads. AreReads [] reads.items) }
{
    let mut reads = Vec::new(alloc);
    for _ in 0..spes {
        reads.push(None)?;
    }
    Ok(reads)
}

/// Forgets all of them.
fn forget(reads: &mut [Option<Span>])
    ensures none { AreNone reads.new }
    ensures many { length reads.new ≡ length reads.old }
{
    for i in 0..reads.len() {
        reads[i] = None;
    }
}

/// Adds the next step of the run, if it is a read of main memory, or forgets the earlier ones if it is a change.
pub fn add_step(reads: &mut [Option<Span>], repeated: &Repeated)
    ensures reads { (run : List Made) (made : Made) → IsOf made repeated.now → AreReads run reads.old → AreReads (run ++ made ∷ []) reads.new }
    ensures many { length reads.new ≡ length reads.old }
{
    if repeated.changes {
        forget(reads);
        return;
    }
    if !is_shared(repeated.effect.reads) {
        return;
    }
    if let Some(spe) = copier(repeated.step) {
        let index = usize::from(spe);
        if index < reads.len() {
            reads[index] = Some(repeated.effect.reads);
        }
    }
}
