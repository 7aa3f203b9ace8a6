//! The atomic command of a processor.

ghost use Rattle.std.specs.Prelude.{◌≡◌, ◌+◌, ◌*◌, ◌<◌, ◌≤◌, List, Option, Some, None, length, IfNone, slice_get, slice_set, slice_range, if◌then◌else◌};
ghost use Rattle.lock_lines.specs.Stands.{line_count, HasSameSize};
ghost use Rattle.lock_lines.specs.Versions.{Reserved, version_of};
ghost use Rattle.mfc_command.specs.declared.command.Order.TheVariants.{Atomic};
ghost use Rattle.mfc_command.specs.Check.{OrderFits};
ghost use Rattle.cell_machine.specs.Spe.{Spe};
ghost use Rattle.cell_machine.specs.Memory.{MainMemory, stored};
ghost use Rattle.cell_machine.specs.Atomic.{may_atomic, atomic, holds, fate, status_of, reserved_after, line_part, moved};
ghost use Rattle.cell_machine.specs.Shows.{ShowsMemory, LosesOthers, Makes};
ghost use Rattle.cell_machine.specs.OwnEvents.{with_fixed};

use crate::memory::SharedMemory;
use crate::processor::Processor;
use crate::transfers::{get_part, put_part};
use local_store::LocalStore;
use lock_lines::Lock;
use main_memory::LINE_BYTES;
use mfc_command::{AtomicKind, AtomicOp, Part};

/// The statuses of a PUTLLC that stored its line and of one that lost it, of a PUTLLUC and of a GETLLAR.
const PUTLLC_STORED: u32 = 0;

const PUTLLC_LOST: u32 = 1;

const PUTLLUC_DONE: u32 = 2;

const GETLLAR_DONE: u32 = 4;

/// The line of an atomic command as a part.
pub(crate) fn line_part(a: AtomicOp) -> Part
    requires { a.line < 524288 }
    ensures { result ≡ line_part a }
{
    Part {
        ls: a.ls,
        ea: LINE_BYTES * a.line,
        len: LINE_BYTES,
    }
}

/// What an atomic command comes to: its status, and which other processors lose their reservation.
#[derive(Clone, Copy)]
pub(crate) struct Done {
    status: u32,
    losers: u16,
}

/// PUTLLC: stores the line where the processor holds it, and gives up its reservation.
fn put_conditional(store: &LocalStore, memory: &mut SharedMemory, spe: u8, a: AtomicOp) -> Done
    requires fits { OrderFits (line_count memory.old.locks) (Atomic a) }
    requires spe { spe < memory.old.locks.spes }
    requires small { length memory.old.bytes ≤ 67108864 }
    ensures status { (P : Spe) (m : MainMemory) (reserved : List (Option Reserved)) → ShowsMemory memory.old m reserved → slice_get reserved spe ≡ Some P.reserved → result.status ≡ (if holds m P a.line then 0 else 1) }
    ensures stores { (P : Spe) (m : MainMemory) (reserved : List (Option Reserved)) → ShowsMemory memory.old m reserved → slice_get reserved spe ≡ Some P.reserved → ShowsMemory memory.new (if holds m P a.line then stored m (128 * a.line) (slice_range store.now a.ls (a.ls + 128)) else m) (slice_set reserved spe None) }
    ensures losers { (P : Spe) (m : MainMemory) (reserved : List (Option Reserved)) → ShowsMemory memory.old m reserved → slice_get reserved spe ≡ Some P.reserved → LosesOthers spe result.losers m reserved (if holds m P a.line then stored m (128 * a.line) (slice_range store.now a.ls (a.ls + 128)) else m) }
    ensures size { HasSameSize memory.old.locks memory.new.locks }
{
    let losers = memory.locks.other_holders(spe, a.line);
    match memory.locks.putllc(spe, a.line) {
        Lock::Stored => {
            let mut bytes = [0; LINE_BYTES as usize];
            store.copy_out(a.ls, &mut bytes);
            memory.bytes.copy_in(LINE_BYTES * a.line, &bytes);
            Done {
                status: PUTLLC_STORED,
                losers,
            }
        }
        Lock::Lost => Done {
            status: PUTLLC_LOST,
            losers: 0,
        },
    }
}

/// Moves the line of an atomic command of processor `spe`.
fn move_line(store: &mut LocalStore, memory: &mut SharedMemory, spe: u8, a: AtomicOp) -> Done
    requires fits { OrderFits (line_count memory.old.locks) (Atomic a) }
    requires spe { spe < memory.old.locks.spes }
    requires small { length memory.old.bytes ≤ 67108864 }
    ensures status { (P : Spe) (m : MainMemory) (reserved : List (Option Reserved)) → ShowsMemory memory.old m reserved → slice_get reserved spe ≡ Some P.reserved → result.status ≡ status_of a.kind (holds m P a.line) }
    ensures store { (P Q : Spe) (m : MainMemory) (reserved : List (Option Reserved)) → ShowsMemory memory.old m reserved → slice_get reserved spe ≡ Some P.reserved → Q.store ≡ store.old → (moved m Q a (fate m P a)).spe ≡ record Q { store = store.new } }
    ensures memory { (P Q : Spe) (m : MainMemory) (reserved : List (Option Reserved)) → ShowsMemory memory.old m reserved → slice_get reserved spe ≡ Some P.reserved → Q.store ≡ store.old → ShowsMemory memory.new (moved m Q a (fate m P a)).memory (slice_set reserved spe (reserved_after a.kind (record { line = a.line; version = version_of m.versions a.line }) P.reserved)) }
    ensures losers { (P Q : Spe) (m : MainMemory) (reserved : List (Option Reserved)) → ShowsMemory memory.old m reserved → slice_get reserved spe ≡ Some P.reserved → Q.store ≡ store.old → LosesOthers spe result.losers m reserved (moved m Q a (fate m P a)).memory }
    ensures size { HasSameSize memory.old.locks memory.new.locks }
{
    match a.kind {
        AtomicKind::GetLine => {
            get_part(store, &memory.bytes, line_part(a));
            memory.locks.getllar(spe, a.line);
            Done {
                status: GETLLAR_DONE,
                losers: 0,
            }
        }
        AtomicKind::PutCond => put_conditional(store, memory, spe, a),
        AtomicKind::PutLine => {
            let losers = memory.locks.other_holders(spe, a.line);
            put_part(store, memory, line_part(a));
            Done {
                status: PUTLLUC_DONE,
                losers,
            }
        }
    }
}

impl Processor {
    ghost use Rattle.cell_machine.specs.Shows.{ShowsSpe, CanStep};

    /// Whether the atomic command in the slot, if there is one, may be done.
    pub(crate) fn may_atomic(&self) -> bool
        ensures { (P : Spe) → ShowsSpe self.now P → result ≡ may_atomic P }
    {
        !self.is_faulted() && self.channels.slot().is_some()
    }

    /// Does the atomic command in the slot of the processor, whose number is `spe`, if that is allowed. Answers which other processors
    /// lose their reservation.
    fn atomic(&mut self, memory: &mut SharedMemory, spe: u8) -> Option<u16>
        requires can { CanStep (line_count memory.old.locks) self.old }
        requires spe { spe < memory.old.locks.spes }
        requires small { length memory.old.bytes ≤ 67108864 }
        ensures made { (P : Spe) (m : MainMemory) (reserved : List (Option Reserved)) → ShowsSpe self.old P → ShowsMemory memory.old m reserved → slice_get reserved spe ≡ Some P.reserved → Makes result (atomic m P) (λ w x. ShowsSpe self.new x.spe × ShowsMemory memory.new x.memory (slice_set reserved spe x.spe.reserved) × LosesOthers spe w m reserved x.memory) }
        ensures refused { IfNone result ((self.new ≡ self.old) × (memory.new ≡ memory.old)) }
        ensures size { HasSameSize memory.old.locks memory.new.locks }
    {
        if self.is_faulted() {
            return None;
        }
        let Some(a) = self.channels.slot() else {
            return None;
        };
        let done = move_line(&mut self.store, memory, spe, a);
        self.channels.atomic_done(done.status);
        Some(done.losers)
    }

    /// Does the atomic command and ends the step, or leaves all as it is where that isn't allowed. Answers which other processors
    /// lose their reservation.
    pub(crate) fn atomic_step(&mut self, memory: &mut SharedMemory, spe: u8) -> Option<u16>
        requires can { CanStep (line_count memory.old.locks) self.old }
        requires spe { spe < memory.old.locks.spes }
        requires small { length memory.old.bytes ≤ 67108864 }
        ensures made { (P : Spe) (m : MainMemory) (reserved : List (Option Reserved)) → ShowsSpe self.old P → ShowsMemory memory.old m reserved → slice_get reserved spe ≡ Some P.reserved → Makes result (atomic m P) (λ w x. ShowsSpe self.new (with_fixed x.spe) × ShowsMemory memory.new x.memory (slice_set reserved spe x.spe.reserved) × LosesOthers spe w m reserved x.memory) }
        ensures refused { IfNone result ((self.new ≡ self.old) × (memory.new ≡ memory.old)) }
        ensures size { HasSameSize memory.old.locks memory.new.locks }
    {
        let Some(losers) = self.atomic(memory, spe) else {
            return None;
        };
        self.settle();
        Some(losers)
    }
}
