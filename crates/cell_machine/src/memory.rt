//! The main memory that all processors share, and the reservations of its lines.

ghost use Rattle.std.specs.Prelude.{◌≡◌, ◌+◌, ◌*◌, ◌<◌, ◌≤◌, List, Option, None, length, replicate, IfOk, All};
ghost use Rattle.cell_base.specs.Bytes.{zeros};
ghost use Rattle.lock_lines.specs.Stands.{line_count, HasSameSize};
ghost use Rattle.lock_lines.specs.Versions.{Reserved};
ghost use Rattle.cell_machine.specs.Memory.{MainMemory, stored};
ghost use Rattle.cell_machine.specs.Opening.{filled};
ghost use Rattle.cell_machine.specs.Limits.{shown_memory};

use crate::error::MachineError;
use crate::setup::MemoryBytes;
use lock_lines::LockLines;
use main_memory::{LINE_BYTES, Memory};
use std::alloc::Global;

/// Main memory, and which lines of it each processor holds.
#[derive(Drop)]
pub(crate) struct SharedMemory {
    pub(crate) bytes: Memory,
    pub(crate) locks: LockLines,
    ghost even: { length bytes ≡ 128 * line_count locks },
}

/// The bytes at the start.
fn opening_bytes(alloc: Global, lines: u32, pieces: &[MemoryBytes]) -> Result<Memory, MachineError>
    requires lines { (0 < lines) × (lines ≤ 524288) }
    requires fits { All (λ x. x.at + length x.bytes.items ≤ 128 * lines) pieces.now }
    ensures filled { IfOk result (λ memory. memory ≡ filled (zeros (128 * lines)) (shown_memory pieces.now)) }
    ensures long { IfOk result (λ memory. length memory ≡ 128 * lines) }
{
    let mut bytes = Memory::new(alloc, lines)?;
    for piece in pieces {
        bytes.copy_in(piece.at, &piece.bytes);
    }
    Ok(bytes)
}

impl SharedMemory {
    ghost use Rattle.cell_machine.specs.Shows.{ShowsMemory, HasSize, Loses};

    /// The memory at the start, of which no line is reserved.
    pub(crate) fn new(
        alloc: Global,
        lines: u32,
        spes: u8,
        pieces: &[MemoryBytes],
    ) -> Result<SharedMemory, MachineError>
        requires lines { (0 < lines) × (lines ≤ 524288) }
        requires spes { (0 < spes) × (spes ≤ 16) }
        requires fits { All (λ x. x.at + length x.bytes.items ≤ 128 * lines) pieces.now }
        ensures shows { IfOk result (λ c. ShowsMemory c (record { bytes = filled (zeros (128 * lines)) (shown_memory pieces.now); versions = replicate lines 0 }) (replicate spes None)) }
        ensures size { IfOk result (HasSize lines spes) }
    {
        let bytes = opening_bytes(alloc, lines, pieces)?;
        let locks = LockLines::new(alloc, lines, spes)?;
        Ok(SharedMemory { bytes, locks })
    }

    /// Stores one or more bytes, which lie in one line, and answers which processors held that. Each store but that of a PUTLLC is one of these.
    pub(crate) fn store(&mut self, at: u32, bytes: &[u8]) -> u16
        requires some { 0 < length bytes.now }
        requires there { at + length bytes.now ≤ length self.old.bytes }
        ensures shows { (m : MainMemory) (reserved : List (Option Reserved)) → ShowsMemory self.old m reserved → ShowsMemory self.new (stored m at bytes.now) reserved }
        ensures losers { (m : MainMemory) (reserved : List (Option Reserved)) → ShowsMemory self.old m reserved → Loses result m reserved (stored m at bytes.now) }
        ensures size { HasSameSize self.old.locks self.new.locks }
    {
        let line = at / LINE_BYTES;
        let losers = self.locks.holders(line);
        self.bytes.copy_in(at, bytes);
        self.locks.touched(line);
        losers
    }
}
