//! Immediates, filled with their sign to the width of a lane.

ghost use Rattle.std.specs.Prelude.{◌≡◌, ◌<◌, ◌^◌};
ghost use Rattle.std.specs.Int.{w16, w32};
ghost use Rattle.cell_base.specs.Lanes.{extended};

/// A number of `bits` bits, with its sign at the width of a word.
#[inline(always)]
pub fn extended_word(n: u32, bits: u32) -> u32
    requires some { 0 < bits }
    requires few { bits < 32 }
    requires fits { n < 2 ^ bits }
    ensures { result ≡ extended bits w32 n }
{
    if n < 1 << (bits - 1) {
        n
    } else {
        n.wrapping_sub(1 << bits)
    }
}

/// A number of `bits` bits, with its sign at the width of a halfword.
#[inline(always)]
pub fn extended_half(x: u16, bits: u32) -> u16
    requires some { 0 < bits }
    requires few { bits < 16 }
    requires fits { x < 2 ^ bits }
    ensures { result ≡ extended bits w16 x }
{
    if x < 1 << (bits - 1) {
        x
    } else {
        x.wrapping_sub(1 << bits)
    }
}
