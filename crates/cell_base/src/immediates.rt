//! Immediates and masks in the lanes of a quadword.

ghost use Rattle.std.specs.Prelude.{◌≡◌, ◌<◌, ◌≤◌, ◌^◌, ◌==◌};
ghost use Rattle.std.specs.Int.{w8, w16, w32};
ghost use Rattle.cell_base.specs.Lanes.{ten_bits, low_byte, truth, bit_from_left, mask_from};

use crate::{Quad, extended_half, extended_word};

/// An immediate of ten bits, with its sign, in each word.
pub fn ten_bit_words(imm: u32) -> Quad
    requires { imm < 2 ^ 10 }
    ensures { result ≡ ten_bits w32 imm }
{
    Quad::splat_words(extended_word(imm, 10))
}

/// An immediate of ten bits, with its sign, in each halfword.
pub fn ten_bit_halves(imm: u32) -> Quad
    requires { imm < 2 ^ 10 }
    ensures { result ≡ ten_bits w16 imm }
{
    Quad::splat_halves(extended_half(imm as u16, 10))
}

/// The low eight bits of an immediate in each byte.
pub fn low_bytes(imm: u32) -> Quad
    ensures { result ≡ low_byte imm }
{
    Quad::splat_bytes((imm & 0xff) as u8)
}

/// Whether bit k, counted from the left, of the rightmost n bits is 1.
pub fn has_bit(n: u32, x: u32, k: u32) -> bool
    requires within { k < n }
    requires width { n ≤ 32 }
    ensures { result ≡ (bit_from_left n x k == 1) }
{
    x >> (n - 1 - k) & 1 == 1
}

fn truth_byte(holds: bool) -> u8
    ensures { result ≡ truth w8 holds }
{
    if holds { u8::MAX } else { 0 }
}

/// A byte of all ones for each of the rightmost 16 bits that is 1, and of all zeros for each that is 0, from the left.
pub fn byte_mask(bits: u32) -> Quad
    ensures { result ≡ mask_from w8 16 bits }
{
    Quad::bytes_from_fn(|k| truth_byte(has_bit(16, bits, k)))
}
