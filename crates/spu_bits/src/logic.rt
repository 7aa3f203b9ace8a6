//! Logic on all bits of quadwords, with registers and with immediates.

ghost use Rattle.std.specs.Prelude.{◌≡◌, ◌<◌, ◌^◌};
ghost use Rattle.spu_bits.specs.Rows.{and_of, andbi_of, andc_of, andhi_of, andi_of, eqv_of, nand_of, nor_of, or_of, orbi_of, orc_of, orhi_of, ori_of, orx_of, selb_of, xor_of, xorbi_of, xorhi_of, xori_of};

use cell_base::{Quad, low_bytes, ten_bit_halves, ten_bit_words};

/// `a` and `b`, bit by bit.
#[tactic(auto, unfolding(crate::specs::Rows::and_of))]
#[inline(always)]
pub fn row_and(a: Quad, b: Quad) -> Quad
    ensures { result ≡ and_of a b }
{
    Quad::of_bits(a.bits() & b.bits())
}

/// `a` and not `b`, bit by bit.
#[tactic(auto, unfolding(crate::specs::Rows::andc_of))]
#[inline(always)]
pub fn row_andc(a: Quad, b: Quad) -> Quad
    ensures { result ≡ andc_of a b }
{
    Quad::of_bits(a.bits() & !b.bits())
}

/// `a` or `b`, bit by bit.
#[tactic(auto, unfolding(crate::specs::Rows::or_of))]
#[inline(always)]
pub fn row_or(a: Quad, b: Quad) -> Quad
    ensures { result ≡ or_of a b }
{
    Quad::of_bits(a.bits() | b.bits())
}

/// `a` or not `b`, bit by bit.
#[tactic(auto, unfolding(crate::specs::Rows::orc_of))]
#[inline(always)]
pub fn row_orc(a: Quad, b: Quad) -> Quad
    ensures { result ≡ orc_of a b }
{
    Quad::of_bits(a.bits() | !b.bits())
}

/// `a` exclusive or `b`, bit by bit.
#[tactic(auto, unfolding(crate::specs::Rows::xor_of))]
#[inline(always)]
pub fn row_xor(a: Quad, b: Quad) -> Quad
    ensures { result ≡ xor_of a b }
{
    Quad::of_bits(a.bits() ^ b.bits())
}

/// Not (`a` and `b`), bit by bit.
#[tactic(auto, unfolding(crate::specs::Rows::nand_of))]
#[inline(always)]
pub fn row_nand(a: Quad, b: Quad) -> Quad
    ensures { result ≡ nand_of a b }
{
    Quad::of_bits(!(a.bits() & b.bits()))
}

/// Not (`a` or `b`), bit by bit.
#[tactic(auto, unfolding(crate::specs::Rows::nor_of))]
#[inline(always)]
pub fn row_nor(a: Quad, b: Quad) -> Quad
    ensures { result ≡ nor_of a b }
{
    Quad::of_bits(!(a.bits() | b.bits()))
}

/// Not (`a` exclusive or `b`), bit by bit.
#[tactic(auto, unfolding(crate::specs::Rows::eqv_of))]
#[inline(always)]
pub fn row_eqv(a: Quad, b: Quad) -> Quad
    ensures { result ≡ eqv_of a b }
{
    Quad::of_bits(!(a.bits() ^ b.bits()))
}

/// The bit of `b` where the bit of `c` is 1, else that of `a`.
#[tactic(auto, unfolding(crate::specs::Rows::selb_of))]
#[inline(always)]
pub fn row_selb(a: Quad, b: Quad, c: Quad) -> Quad
    ensures { result ≡ selb_of a b c }
{
    let mask = c.bits();
    Quad::of_bits(b.bits() & mask | a.bits() & !mask)
}

/// Each byte of `a` and the low eight bits of the immediate.
#[tactic(auto, unfolding(crate::specs::Rows::andbi_of))]
#[inline(always)]
pub fn row_andbi(a: Quad, imm: u32) -> Quad
    requires { imm < 2 ^ 10 }
    ensures { result ≡ andbi_of a imm }
{
    row_and(a, low_bytes(imm))
}

/// Each halfword of `a` and the immediate with its sign.
#[tactic(auto, unfolding(crate::specs::Rows::andhi_of))]
#[inline(always)]
pub fn row_andhi(a: Quad, imm: u32) -> Quad
    requires { imm < 2 ^ 10 }
    ensures { result ≡ andhi_of a imm }
{
    row_and(a, ten_bit_halves(imm))
}

/// Each word of `a` and the immediate with its sign.
#[tactic(auto, unfolding(crate::specs::Rows::andi_of))]
#[inline(always)]
pub fn row_andi(a: Quad, imm: u32) -> Quad
    requires { imm < 2 ^ 10 }
    ensures { result ≡ andi_of a imm }
{
    row_and(a, ten_bit_words(imm))
}

/// Each byte of `a` or the low eight bits of the immediate.
#[tactic(auto, unfolding(crate::specs::Rows::orbi_of))]
#[inline(always)]
pub fn row_orbi(a: Quad, imm: u32) -> Quad
    requires { imm < 2 ^ 10 }
    ensures { result ≡ orbi_of a imm }
{
    row_or(a, low_bytes(imm))
}

/// Each halfword of `a` or the immediate with its sign.
#[tactic(auto, unfolding(crate::specs::Rows::orhi_of))]
#[inline(always)]
pub fn row_orhi(a: Quad, imm: u32) -> Quad
    requires { imm < 2 ^ 10 }
    ensures { result ≡ orhi_of a imm }
{
    row_or(a, ten_bit_halves(imm))
}

/// Each word of `a` or the immediate with its sign.
#[tactic(auto, unfolding(crate::specs::Rows::ori_of))]
#[inline(always)]
pub fn row_ori(a: Quad, imm: u32) -> Quad
    requires { imm < 2 ^ 10 }
    ensures { result ≡ ori_of a imm }
{
    row_or(a, ten_bit_words(imm))
}

/// Each byte of `a` exclusive or the low eight bits of the immediate.
#[tactic(auto, unfolding(crate::specs::Rows::xorbi_of))]
#[inline(always)]
pub fn row_xorbi(a: Quad, imm: u32) -> Quad
    requires { imm < 2 ^ 10 }
    ensures { result ≡ xorbi_of a imm }
{
    row_xor(a, low_bytes(imm))
}

/// Each halfword of `a` exclusive or the immediate with its sign.
#[tactic(auto, unfolding(crate::specs::Rows::xorhi_of))]
#[inline(always)]
pub fn row_xorhi(a: Quad, imm: u32) -> Quad
    requires { imm < 2 ^ 10 }
    ensures { result ≡ xorhi_of a imm }
{
    row_xor(a, ten_bit_halves(imm))
}

/// Each word of `a` exclusive or the immediate with its sign.
#[tactic(auto, unfolding(crate::specs::Rows::xori_of))]
#[inline(always)]
pub fn row_xori(a: Quad, imm: u32) -> Quad
    requires { imm < 2 ^ 10 }
    ensures { result ≡ xori_of a imm }
{
    row_xor(a, ten_bit_words(imm))
}

/// The or of the four words in word 0, and zeros after.
#[tactic(auto, unfolding(crate::specs::Rows::orx_of))]
#[inline(always)]
pub fn row_orx(a: Quad) -> Quad
    ensures { result ≡ orx_of a }
{
    Quad::in_first_word(a.word(0) | a.word(1) | a.word(2) | a.word(3))
}
