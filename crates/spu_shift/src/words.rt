//! Shifts and rotates of each word, by the word of `b` or by an immediate.

ghost use Rattle.std.specs.Prelude.{◌≡◌, ◌<◌, ◌^◌, ◌%◌};
ghost use Rattle.std.specs.Int.{w32, rotate_left};
ghost use Rattle.spu_shift.specs.Rows.{left_shift, right_shift, signed_right_shift, negative, shl_of, shli_of, rot_of, roti_of, rotm_of, rotmi_of, rotma_of, rotmai_of};

use cell_base::Quad;

#[inline(always)]
fn shift_left(x: u32, n: u32) -> u32
    ensures { result ≡ left_shift w32 x (n % 64) }
{
    x.unbounded_shl(n & 0x3f)
}

/// Each word shifted left by the low six bits of the count.
#[tactic(auto, unfolding(crate::specs::Rows::shl_of))]
#[inline(always)]
pub fn row_shl(a: Quad, b: Quad) -> Quad
    ensures { result ≡ shl_of a b }
{
    a.zip_words(b, shift_left)
}

/// Each word shifted left by the low six bits of the immediate.
#[tactic(auto, unfolding(crate::specs::Rows::shli_of))]
#[inline(always)]
pub fn row_shli(a: Quad, imm: u32) -> Quad
    requires { imm < 2 ^ 7 }
    ensures { result ≡ shli_of a imm }
{
    row_shl(a, Quad::splat_words(imm))
}

#[inline(always)]
fn rotate(x: u32, n: u32) -> u32
    ensures { result ≡ rotate_left w32 x (n % 32) }
{
    x.rotate_left(n & 0x1f)
}

/// Each word rotated left by the low five bits of the count.
#[tactic(auto, unfolding(crate::specs::Rows::rot_of))]
#[inline(always)]
pub fn row_rot(a: Quad, b: Quad) -> Quad
    ensures { result ≡ rot_of a b }
{
    a.zip_words(b, rotate)
}

/// Each word rotated left by the low five bits of the immediate.
#[tactic(auto, unfolding(crate::specs::Rows::roti_of))]
#[inline(always)]
pub fn row_roti(a: Quad, imm: u32) -> Quad
    requires { imm < 2 ^ 7 }
    ensures { result ≡ roti_of a imm }
{
    row_rot(a, Quad::splat_words(imm))
}

#[inline(always)]
fn shift_right(x: u32, n: u32) -> u32
    ensures { result ≡ right_shift w32 x (negative w32 n % 64) }
{
    x.unbounded_shr(n.wrapping_neg() & 0x3f)
}

/// Each word shifted right by the low six bits of the negative of the count.
#[tactic(auto, unfolding(crate::specs::Rows::rotm_of))]
#[inline(always)]
pub fn row_rotm(a: Quad, b: Quad) -> Quad
    ensures { result ≡ rotm_of a b }
{
    a.zip_words(b, shift_right)
}

/// Each word shifted right by the low six bits of the negative of the immediate.
#[tactic(auto, unfolding(crate::specs::Rows::rotmi_of))]
#[inline(always)]
pub fn row_rotmi(a: Quad, imm: u32) -> Quad
    requires { imm < 2 ^ 7 }
    ensures { result ≡ rotmi_of a imm }
{
    row_rotm(a, Quad::splat_words(imm))
}

#[inline(always)]
fn shift_right_signed(x: u32, n: u32) -> u32
    ensures { result ≡ signed_right_shift w32 x (negative w32 n % 64) }
{
    let count = n.wrapping_neg() & 0x3f;
    x.cast_signed().unbounded_shr(count).cast_unsigned()
}

/// As `row_rotm`, filled with the sign.
#[tactic(auto, unfolding(crate::specs::Rows::rotma_of))]
#[inline(always)]
pub fn row_rotma(a: Quad, b: Quad) -> Quad
    ensures { result ≡ rotma_of a b }
{
    a.zip_words(b, shift_right_signed)
}

/// As `row_rotmi`, filled with the sign.
#[tactic(auto, unfolding(crate::specs::Rows::rotmai_of))]
#[inline(always)]
pub fn row_rotmai(a: Quad, imm: u32) -> Quad
    requires { imm < 2 ^ 7 }
    ensures { result ≡ rotmai_of a imm }
{
    row_rotma(a, Quad::splat_words(imm))
}
