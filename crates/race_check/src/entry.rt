//! Ranges of bytes that steps touched.

ghost use Rattle.std.specs.Prelude.{◌≡◌, ℕ, ◌<◌, ◌≤◌, ◌↔◌, true, IsTrue};
ghost use Rattle.cell_machine.specs.declared.effect.Place.{Place};
ghost use Rattle.race_check.specs.Entries.{HasSameBytes, Holds, IsCut};

use crate::access::is_same;
use cell_machine::Place;

/// The bytes of a place from `from` to below `to`, which a step touched.
#[derive(Clone, Copy)]
pub struct Entry {
    pub place: Place,
    pub step: u32,
    pub from: u64,
    pub to: u64,
}

/// Whether the two share a byte. Entries of one line are mostly of one place, so the bytes are looked at first.
pub fn meet(e: &Entry, new: &Entry) -> bool
    ensures { IsTrue result ↔ ((p : Place) × (x : ℕ) × Holds e.now p x × Holds new.now p x) }
{
    e.from.max(new.from) < e.to.min(new.to) && is_same(e.place, new.place)
}

/// Whether the two have the same bytes.
pub fn has_same_bytes(e: &Entry, new: &Entry) -> bool
    ensures { result ≡ true → HasSameBytes e.now new.now }
{
    is_same(e.place, new.place) && e.from == new.from && e.to == new.to
}

/// What the entry has in front of `end`.
pub fn front(e: &Entry, end: u64) -> Option<Entry>
    ensures { IsCut (λ x. x < end) e.now result }
{
    if e.from < end {
        Some(Entry {
            to: end.min(e.to),
            ..*e
        })
    } else {
        None
    }
}

/// What the entry has from `start` on.
pub fn back(e: &Entry, start: u64) -> Option<Entry>
    ensures { IsCut (λ x. start ≤ x) e.now result }
{
    if start < e.to {
        Some(Entry {
            from: start.max(e.from),
            ..*e
        })
    } else {
        None
    }
}
