//! Ranges of bytes of the local stores.

ghost use Rattle.std.specs.Prelude.{◌≡◌, ◌*◌};
ghost use Rattle.unwritten_reads.specs.Ranges.{range_in as range_in_store, range_of as range_of_span};

use cell_machine::{Place, Span};
use local_store::STORE_BYTES;

/// Bytes of the local stores, numbered through all stores in their order.
#[derive(Clone, Copy)]
pub(crate) struct ByteRange {
    pub(crate) from: usize,
    /// One more than the number of the last byte.
    pub(crate) end: usize,
}

/// The number of the first byte of a processor's local store.
#[inline(always)]
pub(crate) fn start_of(spe: u8) -> usize
    ensures { result ≡ 262144 * spe }
{
    STORE_BYTES * usize::from(spe)
}

/// `len` bytes of a local store, from the address `at` on.
#[inline(always)]
pub(crate) fn range_in(spe: u8, at: u32, len: u32) -> ByteRange
    ensures { result ≡ range_in_store spe at len }
{
    let from = start_of(spe) + at as usize;
    ByteRange {
        from,
        end: from + len as usize,
    }
}

/// The bytes of a span; it is empty for a span of main memory.
#[inline(always)]
pub(crate) fn range_of(span: &Span) -> ByteRange
    ensures { result ≡ range_of_span span.now }
{
    match span.place {
        Place::Memory => ByteRange { from: 0, end: 0 },
        Place::Local(spe) => range_in(spe, span.at, span.len),
    }
}
