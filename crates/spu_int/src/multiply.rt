//! Products of halfwords, each in a word.

ghost use Rattle.std.specs.Prelude.{◌≡◌, ◌<◌, ◌^◌, ◌*◌, ◌%◌};
ghost use Rattle.std.specs.Int.{w16, w32};
ghost use Rattle.cell_base.specs.Lanes.{hi, lo, extended};
ghost use Rattle.spu_int.specs.Rows.{sum, signed_product, mpy_of, mpyu_of, mpyi_of, mpyui_of, mpya_of, mpyh_of, mpys_of, mpyhh_of, mpyhha_of, mpyhhu_of, mpyhhau_of};

use cell_base::{Quad, extended_half, extended_word};

// The right halfword of a word.
#[inline(always)]
fn right(x: u32) -> u16
    ensures { result ≡ lo x }
{
    (x & 0xffff) as u16
}

// The left halfword of a word.
#[inline(always)]
fn left(x: u32) -> u16
    ensures { result ≡ hi x }
{
    (x >> 16) as u16
}

// The product of two halfwords read as signed.
#[inline(always)]
fn signed_multiply(x: u16, y: u16) -> u32
    ensures { result ≡ signed_product x y }
{
    (i32::from(x.cast_signed()) * i32::from(y.cast_signed())).cast_unsigned()
}

// The product of two halfwords read as unsigned.
#[inline(always)]
fn multiply(x: u16, y: u16) -> u32
    ensures { result ≡ x * y }
{
    u32::from(x) * u32::from(y)
}

#[inline(always)]
fn multiply_right(x: u32, y: u32) -> u32
    ensures { result ≡ signed_product (lo x) (lo y) }
{
    signed_multiply(right(x), right(y))
}

/// The products of the right halfwords, read as signed.
#[tactic(auto, unfolding(crate::specs::Rows::mpy_of))]
#[inline(always)]
pub fn row_mpy(a: Quad, b: Quad) -> Quad
    ensures { result ≡ mpy_of a b }
{
    a.zip_words(b, multiply_right)
}

#[inline(always)]
fn multiply_right_unsigned(x: u32, y: u32) -> u32
    ensures { result ≡ lo x * lo y }
{
    multiply(right(x), right(y))
}

/// The products of the right halfwords, read as unsigned.
#[tactic(auto, unfolding(crate::specs::Rows::mpyu_of))]
#[inline(always)]
pub fn row_mpyu(a: Quad, b: Quad) -> Quad
    ensures { result ≡ mpyu_of a b }
{
    a.zip_words(b, multiply_right_unsigned)
}

/// The products of the right halfwords and the immediate, read as signed.
#[tactic(auto, unfolding(crate::specs::Rows::mpyi_of))]
#[inline(always)]
pub fn row_mpyi(a: Quad, imm: u32) -> Quad
    requires { imm < 2 ^ 10 }
    ensures { result ≡ mpyi_of a imm }
{
    let i = extended_half(imm as u16, 10);
    a.map_words(|x| signed_multiply(right(x), i))
}

/// The products of the right halfwords and the immediate, which gets its sign at a halfword and is then read as unsigned.
#[tactic(auto, unfolding(crate::specs::Rows::mpyui_of))]
#[inline(always)]
pub fn row_mpyui(a: Quad, imm: u32) -> Quad
    requires { imm < 2 ^ 10 }
    ensures { result ≡ mpyui_of a imm }
{
    let i = extended_half(imm as u16, 10);
    a.map_words(|x| multiply(right(x), i))
}

#[inline(always)]
fn multiply_right_add(x: u32, y: u32, z: u32) -> u32
    ensures { result ≡ sum w32 (signed_product (lo x) (lo y)) z }
{
    multiply_right(x, y).wrapping_add(z)
}

/// The products of the right halfwords of `a` and `b`, read as signed, plus the words of `c`.
#[tactic(auto, unfolding(crate::specs::Rows::mpya_of))]
#[inline(always)]
pub fn row_mpya(a: Quad, b: Quad, c: Quad) -> Quad
    ensures { result ≡ mpya_of a b c }
{
    a.zip3_words(b, c, multiply_right_add)
}

#[inline(always)]
fn multiply_across(x: u32, y: u32) -> u32
    ensures { result ≡ hi x * lo y * 2 ^ 16 % 2 ^ 32 }
{
    multiply(left(x), right(y)) << 16
}

/// The products of the left halfwords of `a` and the right ones of `b`, shifted left by a halfword.
#[tactic(auto, unfolding(crate::specs::Rows::mpyh_of))]
#[inline(always)]
pub fn row_mpyh(a: Quad, b: Quad) -> Quad
    ensures { result ≡ mpyh_of a b }
{
    a.zip_words(b, multiply_across)
}

#[inline(always)]
fn multiply_and_shift(x: u32, y: u32) -> u32
    ensures { result ≡ extended 16 w32 (hi (signed_product (lo x) (lo y))) }
{
    extended_word(multiply_right(x, y) >> 16, 16)
}

/// The left halfwords of the products that `row_mpy` gives, each with its sign.
#[tactic(auto, unfolding(crate::specs::Rows::mpys_of))]
#[inline(always)]
pub fn row_mpys(a: Quad, b: Quad) -> Quad
    ensures { result ≡ mpys_of a b }
{
    a.zip_words(b, multiply_and_shift)
}

#[inline(always)]
fn multiply_left(x: u32, y: u32) -> u32
    ensures { result ≡ signed_product (hi x) (hi y) }
{
    signed_multiply(left(x), left(y))
}

/// The products of the left halfwords, read as signed.
#[tactic(auto, unfolding(crate::specs::Rows::mpyhh_of))]
#[inline(always)]
pub fn row_mpyhh(a: Quad, b: Quad) -> Quad
    ensures { result ≡ mpyhh_of a b }
{
    a.zip_words(b, multiply_left)
}

#[inline(always)]
fn multiply_left_add(x: u32, y: u32, z: u32) -> u32
    ensures { result ≡ sum w32 (signed_product (hi x) (hi y)) z }
{
    multiply_left(x, y).wrapping_add(z)
}

/// The products of the left halfwords, read as signed, plus the old target.
#[tactic(auto, unfolding(crate::specs::Rows::mpyhha_of))]
#[inline(always)]
pub fn row_mpyhha(a: Quad, b: Quad, t: Quad) -> Quad
    ensures { result ≡ mpyhha_of a b t }
{
    a.zip3_words(b, t, multiply_left_add)
}

#[inline(always)]
fn multiply_left_unsigned(x: u32, y: u32) -> u32
    ensures { result ≡ hi x * hi y }
{
    multiply(left(x), left(y))
}

/// The products of the left halfwords, read as unsigned.
#[tactic(auto, unfolding(crate::specs::Rows::mpyhhu_of))]
#[inline(always)]
pub fn row_mpyhhu(a: Quad, b: Quad) -> Quad
    ensures { result ≡ mpyhhu_of a b }
{
    a.zip_words(b, multiply_left_unsigned)
}

#[inline(always)]
fn multiply_left_add_unsigned(x: u32, y: u32, z: u32) -> u32
    ensures { result ≡ sum w32 (hi x * hi y) z }
{
    multiply_left_unsigned(x, y).wrapping_add(z)
}

/// The products of the left halfwords, read as unsigned, plus the old target.
#[tactic(auto, unfolding(crate::specs::Rows::mpyhhau_of))]
#[inline(always)]
pub fn row_mpyhhau(a: Quad, b: Quad, t: Quad) -> Quad
    ensures { result ≡ mpyhhau_of a b t }
{
    a.zip3_words(b, t, multiply_left_add_unsigned)
}
