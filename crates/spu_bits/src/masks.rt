//! Masks formed from the bits of a word, and the low bits of lanes gathered into one.

ghost use Rattle.std.specs.Prelude.{◌≡◌};
ghost use Rattle.std.specs.Int.{w16, w32};
ghost use Rattle.cell_base.specs.Lanes.{truth};
ghost use Rattle.spu_bits.specs.Rows.{fsm_of, fsmb_of, fsmh_of, gb_of, gbb_of, gbh_of, low_bits};

use cell_base::{Quad, byte_mask, has_bit};

#[inline(always)]
fn truth_half(holds: bool) -> u16
    ensures { result ≡ truth w16 holds }
{
    if holds { u16::MAX } else { 0 }
}

#[inline(always)]
fn truth_word(holds: bool) -> u32
    ensures { result ≡ truth w32 holds }
{
    if holds { u32::MAX } else { 0 }
}

/// A mask of each byte: all ones where its bit of the rightmost 16 bits of word 0 is 1,
/// the first byte by the leftmost of these bits.
#[tactic(auto, unfolding(crate::specs::Rows::fsmb_of))]
#[inline(always)]
pub fn row_fsmb(a: Quad) -> Quad
    ensures { result ≡ fsmb_of a }
{
    byte_mask(a.word(0))
}

/// A mask of each halfword: all ones where its bit of the rightmost eight bits of word 0 is 1,
/// the first halfword by the leftmost of these bits.
#[tactic(auto, unfolding(crate::specs::Rows::fsmh_of))]
#[inline(always)]
pub fn row_fsmh(a: Quad) -> Quad
    ensures { result ≡ fsmh_of a }
{
    let bits = a.word(0);
    Quad::halves_from_fn(|k| truth_half(has_bit(8, bits, k)))
}

/// A mask of each word: all ones where its bit of the rightmost four bits of word 0 is 1,
/// the first word by the leftmost of these bits.
#[tactic(auto, unfolding(crate::specs::Rows::fsm_of))]
#[inline(always)]
pub fn row_fsm(a: Quad) -> Quad
    ensures { result ≡ fsm_of a }
{
    let bits = a.word(0);
    Quad::words_from_fn(|k| truth_word(has_bit(4, bits, k)))
}

// The low bits of these bytes, the first leftmost.
#[inline(always)]
fn low_bits_of_bytes(lanes: &[u8; 16]) -> u32
    ensures { result ≡ low_bits lanes.now }
{
    let mut bits = 0;
    for x in lanes {
        bits = bits << 1 | u32::from(*x & 1);
    }
    bits
}

// The low bits of these halfwords, the first leftmost.
#[inline(always)]
fn low_bits_of_halves(lanes: &[u16; 8]) -> u32
    ensures { result ≡ low_bits lanes.now }
{
    let mut bits = 0;
    for x in lanes {
        bits = bits << 1 | u32::from(*x & 1);
    }
    bits
}

// The low bits of these words, the first leftmost.
#[inline(always)]
fn low_bits_of_words(lanes: &[u32; 4]) -> u32
    ensures { result ≡ low_bits lanes.now }
{
    let mut bits = 0;
    for x in lanes {
        bits = bits << 1 | *x & 1;
    }
    bits
}

/// The low bits of the 16 bytes in the rightmost bits of word 0, the first leftmost,
/// and zeros elsewhere.
#[tactic(auto, unfolding(crate::specs::Rows::gbb_of))]
#[inline(always)]
pub fn row_gbb(a: Quad) -> Quad
    ensures { result ≡ gbb_of a }
{
    Quad::in_first_word(low_bits_of_bytes(&a.byte_lanes().to_array()))
}

/// The low bits of the eight halfwords in the rightmost bits of word 0, the first leftmost,
/// and zeros elsewhere.
#[tactic(auto, unfolding(crate::specs::Rows::gbh_of))]
#[inline(always)]
pub fn row_gbh(a: Quad) -> Quad
    ensures { result ≡ gbh_of a }
{
    Quad::in_first_word(low_bits_of_halves(&a.half_lanes().to_array()))
}

/// The low bits of the four words in the rightmost bits of word 0, the first leftmost,
/// and zeros elsewhere.
#[tactic(auto, unfolding(crate::specs::Rows::gb_of))]
#[inline(always)]
pub fn row_gb(a: Quad) -> Quad
    ensures { result ≡ gb_of a }
{
    Quad::in_first_word(low_bits_of_words(&a.word_lanes().to_array()))
}
