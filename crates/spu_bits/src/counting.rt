//! Rows that count, extend and combine within bytes.

ghost use Rattle.std.specs.Prelude.{◌≡◌, ◌+◌, ◌*◌, ◌/◌, ◌%◌, ◌^◌, count_ones};
ghost use Rattle.std.specs.Int.{w16, w32, w64, leading_zeros};
ghost use Rattle.cell_base.specs.Lanes.{extended};
ghost use Rattle.spu_bits.specs.Rows.{absdb_of, avgb_of, byte_sum, clz_of, cntb_of, sumb_of, xsbh_of, xshw_of, xswd_of};

use cell_base::{Quad, extended_half, extended_word};

#[inline(always)]
fn zeros_before_ones(x: u32) -> u32
    ensures { result ≡ leading_zeros w32 x }
{
    x.leading_zeros()
}

/// The number of leading zero bits of each word, 32 for zero.
#[tactic(auto, unfolding(crate::specs::Rows::clz_of))]
#[inline(always)]
pub fn row_clz(a: Quad) -> Quad
    ensures { result ≡ clz_of a }
{
    a.map_words(zeros_before_ones)
}

#[inline(always)]
fn ones_of_byte(x: u8) -> u8
    ensures { result ≡ count_ones x }
{
    x.count_ones() as u8
}

/// The number of ones of each byte.
#[tactic(auto, unfolding(crate::specs::Rows::cntb_of))]
#[inline(always)]
pub fn row_cntb(a: Quad) -> Quad
    ensures { result ≡ cntb_of a }
{
    a.map_bytes(ones_of_byte)
}

#[inline(always)]
fn extend_byte(x: u16) -> u16
    ensures { result ≡ extended 8 w16 (x % 2 ^ 8) }
{
    extended_half(x & 0xff, 8)
}

/// The right byte of each halfword, with its sign.
#[tactic(auto, unfolding(crate::specs::Rows::xsbh_of))]
#[inline(always)]
pub fn row_xsbh(a: Quad) -> Quad
    ensures { result ≡ xsbh_of a }
{
    a.map_halves(extend_byte)
}

#[inline(always)]
fn extend_half(x: u32) -> u32
    ensures { result ≡ extended 16 w32 (x % 2 ^ 16) }
{
    extended_word(x & 0xffff, 16)
}

/// The right halfword of each word, with its sign.
#[tactic(auto, unfolding(crate::specs::Rows::xshw_of))]
#[inline(always)]
pub fn row_xshw(a: Quad) -> Quad
    ensures { result ≡ xshw_of a }
{
    a.map_words(extend_half)
}

#[inline(always)]
fn extend_word(x: u64) -> u64
    ensures { result ≡ extended 32 w64 (x % 2 ^ 32) }
{
    let right = x & 0xffff_ffff;
    if right < 0x8000_0000 {
        right
    } else {
        right | 0xffff_ffff_0000_0000
    }
}

/// The right word of each doubleword, with its sign.
#[tactic(auto, unfolding(crate::specs::Rows::xswd_of))]
#[inline(always)]
pub fn row_xswd(a: Quad) -> Quad
    ensures { result ≡ xswd_of a }
{
    a.map_doubles(extend_word)
}

// The sum has nine bits before it is halved.
#[inline(always)]
fn average_bytes(x: u8, y: u8) -> u8
    ensures { result ≡ (x + y + 1) / 2 }
{
    ((u16::from(x) + u16::from(y) + 1) / 2) as u8
}

/// The average of the bytes of `a` and `b`, a half rounded up.
#[tactic(auto, unfolding(crate::specs::Rows::avgb_of))]
#[inline(always)]
pub fn row_avgb(a: Quad, b: Quad) -> Quad
    ensures { result ≡ avgb_of a b }
{
    a.zip_bytes(b, average_bytes)
}

/// The absolute difference of the bytes of `a` and `b`, read as unsigned.
#[tactic(auto, unfolding(crate::specs::Rows::absdb_of))]
#[inline(always)]
pub fn row_absdb(a: Quad, b: Quad) -> Quad
    ensures { result ≡ absdb_of a b }
{
    a.zip_bytes(b, u8::abs_diff)
}

#[inline(always)]
fn sum_of_bytes(x: u32) -> u32
    ensures { result ≡ byte_sum x }
{
    (x >> 24) + (x >> 16 & 0xff) + (x >> 8 & 0xff) + (x & 0xff)
}

#[inline(always)]
fn sums_of_bytes(x: u32, y: u32) -> u32
    ensures { result ≡ byte_sum y * 2 ^ 16 + byte_sum x }
{
    sum_of_bytes(y) << 16 | sum_of_bytes(x)
}

/// The sum of the four bytes of each word: that of `b` in the left halfword,
/// that of `a` in the right one.
#[tactic(auto, unfolding(crate::specs::Rows::sumb_of))]
#[inline(always)]
pub fn row_sumb(a: Quad, b: Quad) -> Quad
    ensures { result ≡ sumb_of a b }
{
    a.zip_words(b, sums_of_bytes)
}
