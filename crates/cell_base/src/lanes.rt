//! Functions of each lane of a quadword.
ghost use Rattle.std.specs.Prelude.{◌≡◌, ℕ, ◌<◌, ◌^◌};
ghost use Rattle.std.specs.Int.{w8, w16, w32, w64};
ghost use Rattle.cell_base.specs.Lanes.{map_lanes, zip_lanes, zip3_lanes, lanes_from};

use crate::Quad;
use std::simd::prelude::*;

// A clause speaks of each g that the calls of f compute.
impl Quad {
    pub fn map_bytes<F: Fn(u8) -> u8>(self, f: F) -> Quad
        requires { F.IsAlwaysCallable f }
        ensures { (g : ℕ → ℕ) → ((x r : ℕ) → x < 2 ^ 8 → F.post f x r → r ≡ g x) → result ≡ map_lanes w8 g self }
    {
        let x = self.byte_lanes().to_array();
        let mut lanes = [0; 16];
        for k in 0..16 {
            lanes[k] = f(x[k]);
        }
        Quad::of_byte_lanes(u8x16::from_array(lanes))
    }

    pub fn zip_bytes<F: Fn(u8, u8) -> u8>(self, other: Quad, f: F) -> Quad
        requires { F.IsAlwaysCallable f }
        ensures { (g : ℕ → ℕ → ℕ) → ((x y r : ℕ) → x < 2 ^ 8 → y < 2 ^ 8 → F.post f x y r → r ≡ g x y) → result ≡ zip_lanes w8 g self other }
    {
        let x = self.byte_lanes().to_array();
        let y = other.byte_lanes().to_array();
        let mut lanes = [0; 16];
        for k in 0..16 {
            lanes[k] = f(x[k], y[k]);
        }
        Quad::of_byte_lanes(u8x16::from_array(lanes))
    }

    pub fn map_halves<F: Fn(u16) -> u16>(self, f: F) -> Quad
        requires { F.IsAlwaysCallable f }
        ensures { (g : ℕ → ℕ) → ((x r : ℕ) → x < 2 ^ 16 → F.post f x r → r ≡ g x) → result ≡ map_lanes w16 g self }
    {
        let x = self.half_lanes().to_array();
        let mut lanes = [0; 8];
        for k in 0..8 {
            lanes[k] = f(x[k]);
        }
        Quad::of_half_lanes(u16x8::from_array(lanes))
    }

    pub fn zip_halves<F: Fn(u16, u16) -> u16>(self, other: Quad, f: F) -> Quad
        requires { F.IsAlwaysCallable f }
        ensures { (g : ℕ → ℕ → ℕ) → ((x y r : ℕ) → x < 2 ^ 16 → y < 2 ^ 16 → F.post f x y r → r ≡ g x y) → result ≡ zip_lanes w16 g self other }
    {
        let x = self.half_lanes().to_array();
        let y = other.half_lanes().to_array();
        let mut lanes = [0; 8];
        for k in 0..8 {
            lanes[k] = f(x[k], y[k]);
        }
        Quad::of_half_lanes(u16x8::from_array(lanes))
    }

    pub fn map_words<F: Fn(u32) -> u32>(self, f: F) -> Quad
        requires { F.IsAlwaysCallable f }
        ensures { (g : ℕ → ℕ) → ((x r : ℕ) → x < 2 ^ 32 → F.post f x r → r ≡ g x) → result ≡ map_lanes w32 g self }
    {
        let x = self.word_lanes().to_array();
        let mut lanes = [0; 4];
        for k in 0..4 {
            lanes[k] = f(x[k]);
        }
        Quad::of_word_lanes(u32x4::from_array(lanes))
    }

    pub fn zip_words<F: Fn(u32, u32) -> u32>(self, other: Quad, f: F) -> Quad
        requires { F.IsAlwaysCallable f }
        ensures { (g : ℕ → ℕ → ℕ) → ((x y r : ℕ) → x < 2 ^ 32 → y < 2 ^ 32 → F.post f x y r → r ≡ g x y) → result ≡ zip_lanes w32 g self other }
    {
        let x = self.word_lanes().to_array();
        let y = other.word_lanes().to_array();
        let mut lanes = [0; 4];
        for k in 0..4 {
            lanes[k] = f(x[k], y[k]);
        }
        Quad::of_word_lanes(u32x4::from_array(lanes))
    }

    pub fn zip3_words<F: Fn(u32, u32, u32) -> u32>(self, other: Quad, third: Quad, f: F) -> Quad
        requires { F.IsAlwaysCallable f }
        ensures { (g : ℕ → ℕ → ℕ → ℕ) → ((x y z r : ℕ) → x < 2 ^ 32 → y < 2 ^ 32 → z < 2 ^ 32 → F.post f x y z r → r ≡ g x y z) → result ≡ zip3_lanes w32 g self other third }
    {
        let x = self.word_lanes().to_array();
        let y = other.word_lanes().to_array();
        let z = third.word_lanes().to_array();
        let mut lanes = [0; 4];
        for k in 0..4 {
            lanes[k] = f(x[k], y[k], z[k]);
        }
        Quad::of_word_lanes(u32x4::from_array(lanes))
    }

    pub fn map_doubles<F: Fn(u64) -> u64>(self, f: F) -> Quad
        requires { F.IsAlwaysCallable f }
        ensures { (g : ℕ → ℕ) → ((x r : ℕ) → x < 2 ^ 64 → F.post f x r → r ≡ g x) → result ≡ map_lanes w64 g self }
    {
        let x = self.double_lanes().to_array();
        let mut lanes = [0; 2];
        for k in 0..2 {
            lanes[k] = f(x[k]);
        }
        Quad::of_double_lanes(u64x2::from_array(lanes))
    }

    // Each lane from its place, counted from the left.
    pub fn bytes_from_fn<F: Fn(u32) -> u8>(f: F) -> Quad
        requires { (k : ℕ) → k < 16 → F.pre f k }
        ensures { (g : ℕ → ℕ) → ((k r : ℕ) → k < 16 → F.post f k r → r ≡ g k) → result ≡ lanes_from w8 g }
    {
        let mut lanes = [0; 16];
        for k in 0..16u32 {
            lanes[k as usize] = f(k);
        }
        Quad::of_byte_lanes(u8x16::from_array(lanes))
    }

    // Each lane from its place, counted from the left.
    pub fn halves_from_fn<F: Fn(u32) -> u16>(f: F) -> Quad
        requires { (k : ℕ) → k < 8 → F.pre f k }
        ensures { (g : ℕ → ℕ) → ((k r : ℕ) → k < 8 → F.post f k r → r ≡ g k) → result ≡ lanes_from w16 g }
    {
        let mut lanes = [0; 8];
        for k in 0..8u32 {
            lanes[k as usize] = f(k);
        }
        Quad::of_half_lanes(u16x8::from_array(lanes))
    }

    // Each lane from its place, counted from the left.
    pub fn words_from_fn<F: Fn(u32) -> u32>(f: F) -> Quad
        requires { (k : ℕ) → k < 4 → F.pre f k }
        ensures { (g : ℕ → ℕ) → ((k r : ℕ) → k < 4 → F.post f k r → r ≡ g k) → result ≡ lanes_from w32 g }
    {
        let mut lanes = [0; 4];
        for k in 0..4u32 {
            lanes[k as usize] = f(k);
        }
        Quad::of_word_lanes(u32x4::from_array(lanes))
    }
}
