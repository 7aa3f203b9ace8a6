//! Compares: each lane of the result is all ones where it holds, else all zeros.

ghost use Rattle.std.specs.Prelude.{◌≡◌, ◌<◌, ◌^◌};
ghost use Rattle.std.specs.Int.{w8, w16, w32};
ghost use Rattle.spu_int.specs.Rows.{where_equal, where_signed_above, where_above, ceqb_of, ceqh_of, ceq_of, cgtb_of, cgth_of, cgt_of, clgtb_of, clgth_of, clgt_of, ceqbi_of, ceqhi_of, ceqi_of, cgtbi_of, cgthi_of, cgti_of, clgtbi_of, clgthi_of, clgti_of};

use cell_base::{Quad, low_bytes, ten_bit_halves, ten_bit_words};

#[inline(always)]
fn equal_byte(x: u8, y: u8) -> u8
    ensures { result ≡ where_equal w8 x y }
{
    if x == y { u8::MAX } else { 0 }
}

/// Where the bytes are equal.
#[tactic(auto, unfolding(crate::specs::Rows::ceqb_of))]
#[inline(always)]
pub fn row_ceqb(a: Quad, b: Quad) -> Quad
    ensures { result ≡ ceqb_of a b }
{
    a.zip_bytes(b, equal_byte)
}

/// Where the bytes equal the low eight bits of the immediate.
#[tactic(auto, unfolding(crate::specs::Rows::ceqbi_of))]
#[inline(always)]
pub fn row_ceqbi(a: Quad, imm: u32) -> Quad
    requires { imm < 2 ^ 10 }
    ensures { result ≡ ceqbi_of a imm }
{
    row_ceqb(a, low_bytes(imm))
}

#[inline(always)]
fn equal_half(x: u16, y: u16) -> u16
    ensures { result ≡ where_equal w16 x y }
{
    if x == y { u16::MAX } else { 0 }
}

/// Where the halfwords are equal.
#[tactic(auto, unfolding(crate::specs::Rows::ceqh_of))]
#[inline(always)]
pub fn row_ceqh(a: Quad, b: Quad) -> Quad
    ensures { result ≡ ceqh_of a b }
{
    a.zip_halves(b, equal_half)
}

/// Where the halfwords equal the immediate.
#[tactic(auto, unfolding(crate::specs::Rows::ceqhi_of))]
#[inline(always)]
pub fn row_ceqhi(a: Quad, imm: u32) -> Quad
    requires { imm < 2 ^ 10 }
    ensures { result ≡ ceqhi_of a imm }
{
    row_ceqh(a, ten_bit_halves(imm))
}

#[inline(always)]
fn equal_word(x: u32, y: u32) -> u32
    ensures { result ≡ where_equal w32 x y }
{
    if x == y { u32::MAX } else { 0 }
}

/// Where the words are equal.
#[tactic(auto, unfolding(crate::specs::Rows::ceq_of))]
#[inline(always)]
pub fn row_ceq(a: Quad, b: Quad) -> Quad
    ensures { result ≡ ceq_of a b }
{
    a.zip_words(b, equal_word)
}

/// Where the words equal the immediate.
#[tactic(auto, unfolding(crate::specs::Rows::ceqi_of))]
#[inline(always)]
pub fn row_ceqi(a: Quad, imm: u32) -> Quad
    requires { imm < 2 ^ 10 }
    ensures { result ≡ ceqi_of a imm }
{
    row_ceq(a, ten_bit_words(imm))
}

#[inline(always)]
fn signed_above_byte(x: u8, y: u8) -> u8
    ensures { result ≡ where_signed_above w8 x y }
{
    if x.cast_signed() > y.cast_signed() {
        u8::MAX
    } else {
        0
    }
}

/// Where the bytes of `a`, read as signed, are above those of `b`.
#[tactic(auto, unfolding(crate::specs::Rows::cgtb_of))]
#[inline(always)]
pub fn row_cgtb(a: Quad, b: Quad) -> Quad
    ensures { result ≡ cgtb_of a b }
{
    a.zip_bytes(b, signed_above_byte)
}

/// Where the bytes, read as signed, are above the low eight bits of the immediate.
#[tactic(auto, unfolding(crate::specs::Rows::cgtbi_of))]
#[inline(always)]
pub fn row_cgtbi(a: Quad, imm: u32) -> Quad
    requires { imm < 2 ^ 10 }
    ensures { result ≡ cgtbi_of a imm }
{
    row_cgtb(a, low_bytes(imm))
}

#[inline(always)]
fn signed_above_half(x: u16, y: u16) -> u16
    ensures { result ≡ where_signed_above w16 x y }
{
    if x.cast_signed() > y.cast_signed() {
        u16::MAX
    } else {
        0
    }
}

/// Where the halfwords of `a`, read as signed, are above those of `b`.
#[tactic(auto, unfolding(crate::specs::Rows::cgth_of))]
#[inline(always)]
pub fn row_cgth(a: Quad, b: Quad) -> Quad
    ensures { result ≡ cgth_of a b }
{
    a.zip_halves(b, signed_above_half)
}

/// Where the halfwords, read as signed, are above the immediate.
#[tactic(auto, unfolding(crate::specs::Rows::cgthi_of))]
#[inline(always)]
pub fn row_cgthi(a: Quad, imm: u32) -> Quad
    requires { imm < 2 ^ 10 }
    ensures { result ≡ cgthi_of a imm }
{
    row_cgth(a, ten_bit_halves(imm))
}

#[inline(always)]
fn signed_above_word(x: u32, y: u32) -> u32
    ensures { result ≡ where_signed_above w32 x y }
{
    if x.cast_signed() > y.cast_signed() {
        u32::MAX
    } else {
        0
    }
}

/// Where the words of `a`, read as signed, are above those of `b`.
#[tactic(auto, unfolding(crate::specs::Rows::cgt_of))]
#[inline(always)]
pub fn row_cgt(a: Quad, b: Quad) -> Quad
    ensures { result ≡ cgt_of a b }
{
    a.zip_words(b, signed_above_word)
}

/// Where the words, read as signed, are above the immediate.
#[tactic(auto, unfolding(crate::specs::Rows::cgti_of))]
#[inline(always)]
pub fn row_cgti(a: Quad, imm: u32) -> Quad
    requires { imm < 2 ^ 10 }
    ensures { result ≡ cgti_of a imm }
{
    row_cgt(a, ten_bit_words(imm))
}

#[inline(always)]
fn above_byte(x: u8, y: u8) -> u8
    ensures { result ≡ where_above w8 x y }
{
    if x > y { u8::MAX } else { 0 }
}

/// Where the bytes of `a`, read as unsigned, are above those of `b`.
#[tactic(auto, unfolding(crate::specs::Rows::clgtb_of))]
#[inline(always)]
pub fn row_clgtb(a: Quad, b: Quad) -> Quad
    ensures { result ≡ clgtb_of a b }
{
    a.zip_bytes(b, above_byte)
}

/// Where the bytes, read as unsigned, are above the low eight bits of the immediate.
#[tactic(auto, unfolding(crate::specs::Rows::clgtbi_of))]
#[inline(always)]
pub fn row_clgtbi(a: Quad, imm: u32) -> Quad
    requires { imm < 2 ^ 10 }
    ensures { result ≡ clgtbi_of a imm }
{
    row_clgtb(a, low_bytes(imm))
}

#[inline(always)]
fn above_half(x: u16, y: u16) -> u16
    ensures { result ≡ where_above w16 x y }
{
    if x > y { u16::MAX } else { 0 }
}

/// Where the halfwords of `a`, read as unsigned, are above those of `b`.
#[tactic(auto, unfolding(crate::specs::Rows::clgth_of))]
#[inline(always)]
pub fn row_clgth(a: Quad, b: Quad) -> Quad
    ensures { result ≡ clgth_of a b }
{
    a.zip_halves(b, above_half)
}

/// Where the halfwords, read as unsigned, are above the immediate, which gets its sign and is then read as unsigned.
#[tactic(auto, unfolding(crate::specs::Rows::clgthi_of))]
#[inline(always)]
pub fn row_clgthi(a: Quad, imm: u32) -> Quad
    requires { imm < 2 ^ 10 }
    ensures { result ≡ clgthi_of a imm }
{
    row_clgth(a, ten_bit_halves(imm))
}

#[inline(always)]
fn above_word(x: u32, y: u32) -> u32
    ensures { result ≡ where_above w32 x y }
{
    if x > y { u32::MAX } else { 0 }
}

/// Where the words of `a`, read as unsigned, are above those of `b`.
#[tactic(auto, unfolding(crate::specs::Rows::clgt_of))]
#[inline(always)]
pub fn row_clgt(a: Quad, b: Quad) -> Quad
    ensures { result ≡ clgt_of a b }
{
    a.zip_words(b, above_word)
}

/// Where the words, read as unsigned, are above the immediate, which gets its sign and is then read as unsigned.
#[tactic(auto, unfolding(crate::specs::Rows::clgti_of))]
#[inline(always)]
pub fn row_clgti(a: Quad, imm: u32) -> Quad
    requires { imm < 2 ^ 10 }
    ensures { result ≡ clgti_of a imm }
{
    row_clgt(a, ten_bit_words(imm))
}
