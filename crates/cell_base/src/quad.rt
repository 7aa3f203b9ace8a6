//! A quadword of 16 bytes.

ghost use Rattle.std.specs.Prelude.{◌≡◌, ◌<◌, ◌*◌, slice_index};
ghost use Rattle.std.specs.Int.{w8, w16, w32, w64, w128};
ghost use Rattle.cell_base.specs.Bytes.{number, spelled};
ghost use Rattle.cell_base.specs.Lanes.{lanes, of_lanes, splat, in_first_word};

use std::marker::Model;
use std::simd::prelude::*;

/// How many numbers a doubleword has.
const DOUBLE: u128 = 0x1_0000_0000_0000_0000;

/// A quadword: 16 bytes, of which the first is the most significant.
#[derive(Drop, Clone, Copy)]
pub struct Quad {
    packed: u8x16,
}

impl Model for Quad {
    ghost use Rattle.std.specs.Prelude.{List, ℕ};
    ghost use Rattle.cell_base.specs.Bytes.{IsQuad};

    ghost Value = { List ℕ };

    ghost view = { λ q. q.packed };

    ghost inverse = { λ bytes. record { packed = bytes } };

    ghost invariant = { λ q. IsQuad q.packed };
}

impl Quad {
    pub fn of_bytes(b: &[u8; 16]) -> Quad
        ensures { result ≡ b.now }
    {
        Quad::of_array(*b)
    }

    fn of_array(bytes: [u8; 16]) -> Quad
        ensures { result ≡ bytes }
    {
        Quad {
            packed: u8x16::from_array(bytes),
        }
    }

    pub fn bytes(self) -> [u8; 16]
        ensures { result ≡ self }
    {
        self.packed.to_array()
    }

    pub fn of_words(w: &[u32; 4]) -> Quad
        ensures { result ≡ of_lanes w32 w.now }
    {
        Quad::of_word_lanes(u32x4::from_array(*w))
    }

    pub fn word(self, k: u32) -> u32
        requires { k < 4 }
        ensures { result ≡ slice_index (lanes w32 self) k }
    {
        self.word_lanes().to_array()[k as usize]
    }

    pub fn byte_lanes(self) -> u8x16
        ensures { result ≡ lanes w8 self }
    {
        self.packed
    }

    pub fn of_byte_lanes(bytes: u8x16) -> Quad
        ensures { result ≡ of_lanes w8 bytes }
    {
        Quad { packed: bytes }
    }

    // `from_le_bytes` takes the bytes and gives the lanes from the last one on.
    pub fn half_lanes(self) -> u16x8
        ensures { result ≡ lanes w16 self }
    {
        u16x8::from_le_bytes(self.packed.reverse()).reverse()
    }

    pub fn of_half_lanes(halves: u16x8) -> Quad
        ensures { result ≡ of_lanes w16 halves }
    {
        Quad {
            packed: halves.reverse().to_le_bytes().reverse(),
        }
    }

    pub fn word_lanes(self) -> u32x4
        ensures { result ≡ lanes w32 self }
    {
        u32x4::from_le_bytes(self.packed.reverse()).reverse()
    }

    pub fn of_word_lanes(words: u32x4) -> Quad
        ensures { result ≡ of_lanes w32 words }
    {
        Quad {
            packed: words.reverse().to_le_bytes().reverse(),
        }
    }

    pub fn double_lanes(self) -> u64x2
        ensures { result ≡ lanes w64 self }
    {
        u64x2::from_le_bytes(self.packed.reverse()).reverse()
    }

    pub fn of_double_lanes(doubles: u64x2) -> Quad
        ensures { result ≡ of_lanes w64 doubles }
    {
        Quad {
            packed: doubles.reverse().to_le_bytes().reverse(),
        }
    }

    pub fn bits(self) -> u128
        ensures { result ≡ number self }
    {
        u128::from_be_bytes(self.packed.to_array())
    }

    pub fn of_bits(bits: u128) -> Quad
        ensures { result ≡ spelled 16 bits }
    {
        // Lanes become bytes by one shuffle, where `to_be_bytes` makes each byte by itself.
        let high = (bits / DOUBLE) as u64;
        let low = (bits % DOUBLE) as u64;
        Quad::of_double_lanes(u64x2::from_array([high, low]))
    }

    /// The quadword with this byte in each byte.
    pub fn splat_bytes(x: u8) -> Quad
        ensures { result ≡ splat w8 x }
    {
        Quad::of_byte_lanes(u8x16::from_array([x; 16]))
    }

    /// The quadword with this halfword in each halfword.
    pub fn splat_halves(x: u16) -> Quad
        ensures { result ≡ splat w16 x }
    {
        Quad::of_half_lanes(u16x8::from_array([x; 8]))
    }

    /// The quadword with this word in each word.
    pub fn splat_words(x: u32) -> Quad
        ensures { result ≡ splat w32 x }
    {
        Quad::of_words(&[x; 4])
    }

    /// The quadword with `x` in word 0, the preferred slot, and zeros after.
    pub fn in_first_word(x: u32) -> Quad
        ensures { result ≡ in_first_word x }
    {
        Quad::of_words(&[x, 0, 0, 0])
    }
}
