//! The bytes that the machine file placed.

ghost use Rattle.std.specs.Prelude.{◌≡◌, ℕ, ◌+◌, ◌*◌, ◌<◌, ◌≤◌, length, IfOk};
ghost use Rattle.cell_machine.specs.Limits.{IsOpening};
ghost use Rattle.unwritten_reads.specs.ByMarks.{has};
ghost use Rattle.unwritten_reads.specs.Ranges.{range_in};
ghost use Rattle.unwritten_reads.specs.Reads.{is_placed};

use crate::known::Known;
use crate::range::{ByteRange, range_in};
use cell_machine::{PlacedBytes, Setup};
use std::alloc::{AllocError, Global};

/// The number of words of marks for one local store.
const STORE_WORDS: usize = 4096;

/// The numbers of placed bytes.
fn range_of_placed(placed: &PlacedBytes) -> ByteRange
    requires { placed.now.at + length placed.now.bytes.items ≤ 262144 }
    ensures { result ≡ range_in placed.now.spe placed.now.at (length placed.now.bytes.items) }
{
    range_in(placed.spe, placed.at, placed.bytes.len() as u32)
}

/// The set of the bytes that the machine file placed.
pub(crate) fn placed_bytes(alloc: Global, setup: &Setup) -> Result<Known, AllocError>
    ensures long { IfOk result (λ known. length known.marks ≡ 4096 * length setup.now.entries) }
    ensures placed { IfOk result (λ known. (p x : ℕ) → x < 262144 → has known p x ≡ is_placed setup.now p x) }
    ensures opening { IsOpening setup.now }
{
    let mut known = Known::new(alloc, STORE_WORDS * usize::from(setup.spes()));
    let pieces = setup.placed();
    for piece in pieces {
        known.add(range_of_placed(piece))?;
    }
    Ok(known)
}
