//! Constants, from an immediate.

ghost use Rattle.std.specs.Prelude.{◌≡◌, ◌<◌, ◌^◌};
ghost use Rattle.spu_int.specs.Rows.{il_of, ilh_of, ilhu_of, ila_of, iohl_of, fsmbi_of};

use cell_base::{Quad, byte_mask, extended_word};

/// The immediate, with its sign, in each word.
#[tactic(auto, unfolding(crate::specs::Rows::il_of))]
#[inline(always)]
pub fn row_il(imm: u32) -> Quad
    requires { imm < 2 ^ 16 }
    ensures { result ≡ il_of imm }
{
    Quad::splat_words(extended_word(imm, 16))
}

/// The immediate in each halfword.
#[tactic(auto, unfolding(crate::specs::Rows::ilh_of))]
#[inline(always)]
pub fn row_ilh(imm: u32) -> Quad
    requires { imm < 2 ^ 16 }
    ensures { result ≡ ilh_of imm }
{
    Quad::splat_halves(imm as u16)
}

/// The immediate in the left halfword of each word, with zeros after it.
#[tactic(auto, unfolding(crate::specs::Rows::ilhu_of))]
#[inline(always)]
pub fn row_ilhu(imm: u32) -> Quad
    requires { imm < 2 ^ 16 }
    ensures { result ≡ ilhu_of imm }
{
    Quad::splat_words(imm << 16)
}

/// The immediate, with zeros before it, in each word.
#[tactic(auto, unfolding(crate::specs::Rows::ila_of))]
#[inline(always)]
pub fn row_ila(imm: u32) -> Quad
    requires { imm < 2 ^ 18 }
    ensures { result ≡ ila_of imm }
{
    Quad::splat_words(imm)
}

/// The old target, with the bits of the immediate set in each word.
#[tactic(auto, unfolding(crate::specs::Rows::iohl_of))]
#[inline(always)]
pub fn row_iohl(imm: u32, t: Quad) -> Quad
    requires { imm < 2 ^ 16 }
    ensures { result ≡ iohl_of imm t }
{
    t.map_words(|x| x | imm)
}

/// A byte of all ones for each bit of the immediate that is 1, and of all zeros for each that is 0.
#[tactic(auto, unfolding(crate::specs::Rows::fsmbi_of))]
#[inline(always)]
pub fn row_fsmbi(imm: u32) -> Quad
    requires { imm < 2 ^ 16 }
    ensures { result ≡ fsmbi_of imm }
{
    byte_mask(imm)
}
