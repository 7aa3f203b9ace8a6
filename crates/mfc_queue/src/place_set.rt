// A set of places of a queue, as bits.
ghost use Rattle.std.specs.Prelude.{◌≡◌, ℕ, ◌<◌, ◌&&◌, ◌||◌, not, ◌==◌, false};
ghost use Rattle.std.specs.List.{list_any, range_with_len};
ghost use Rattle.cell_base.specs.Bits.{has_bit};

/// A set of places below 16: place k is the bit of value 2^k.
#[derive(Clone, Copy)]
pub(crate) struct PlaceSet {
    bits: u16,
}

impl PlaceSet {
    /// The set of no place.
    pub(crate) fn new() -> PlaceSet
        ensures { (k : ℕ) → has_bit result.bits k ≡ false }
    {
        PlaceSet { bits: 0 }
    }

    /// Puts the place into the set.
    pub(crate) fn insert(&mut self, place: u8)
        requires { place < 16 }
        ensures { (k : ℕ) → has_bit self.new.bits k ≡ (has_bit self.old.bits k || place == k) }
    {
        self.bits |= 1 << place;
    }

    /// Takes the place out of the set.
    pub(crate) fn remove(&mut self, place: u8)
        requires { place < 16 }
        ensures { (k : ℕ) → k < 16 → has_bit self.new.bits k ≡ (has_bit self.old.bits k && not (place == k)) }
    {
        self.bits &= !(1 << place);
    }

    /// Whether no place is in the set.
    pub(crate) fn is_empty(&self) -> bool
        ensures { result ≡ not (list_any (has_bit self.now.bits) (range_with_len 0 16)) }
    {
        self.bits == 0
    }
}
