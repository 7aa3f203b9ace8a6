//! The steps that wrote main memory.

ghost use Rattle.std.specs.Prelude.{◌≡◌, [], ◌∷◌, ◌++◌, length, List, OnOk};
ghost use Rattle.run_progress.specs.Progress.{overlap};
ghost use Rattle.run_progress.specs.Made.{Made};
ghost use Rattle.run_progress.specs.Repeats.{IsOf};
ghost use Rattle.run_progress.specs.Tracks.{AreWrites, last_write};

use crate::changes::is_shared;
use crate::repeat::Repeated;
use cell_machine::Span;
use std::alloc::AllocError;

/// A step that wrote bytes of main memory.
#[derive(Clone, Copy, Drop)]
pub struct Write {
    place: u32,
    span: Span,
}

/// Whether two spans of main memory have a byte in common.
fn overlap(x: Span, y: Span) -> bool
    ensures { result ≡ overlap x y }
{
    u64::from(x.at) < u64::from(y.at) + u64::from(y.len)
        && u64::from(y.at) < u64::from(x.at) + u64::from(x.len)
}

/// Adds the next step of the run, if it writes main memory.
pub fn add_step(writes: &mut Vec<Write>, place: u32, repeated: &Repeated) -> Result<(), AllocError>
    ensures { OnOk result ((run : List Made) (made : Made) → IsOf made repeated.now → place ≡ length run → AreWrites run writes.old.items → AreWrites (run ++ made ∷ []) writes.new.items) }
{
    if is_shared(repeated.effect.writes) {
        writes.push(Write {
            place,
            span: repeated.effect.writes,
        })?;
    }
    Ok(())
}

/// The place of the last step that wrote one of these bytes.
pub fn writer_of(writes: &[Write], read: Span) -> Option<u32>
    ensures { result ≡ last_write read writes.now }
{
    let mut left = writes.len();
    while 0 < left {
        let write = writes[left - 1];
        if overlap(write.span, read) {
            return Some(write.place);
        }
        left -= 1;
    }
    None
}
