//! Shifts and rotates of each halfword, by the halfword of `b` or by an immediate.

ghost use Rattle.std.specs.Prelude.{◌≡◌, ◌<◌, ◌^◌, ◌%◌};
ghost use Rattle.std.specs.Int.{w16, rotate_left};
ghost use Rattle.spu_shift.specs.Rows.{left_shift, right_shift, signed_right_shift, negative, shlh_of, shlhi_of, roth_of, rothi_of, rothm_of, rothmi_of, rotmah_of, rotmahi_of};

use cell_base::Quad;

#[inline(always)]
fn shift_left(x: u16, n: u16) -> u16
    ensures { result ≡ left_shift w16 x (n % 32) }
{
    x.unbounded_shl(u32::from(n & 0x1f))
}

/// Each halfword shifted left by the low five bits of the count.
#[tactic(auto, unfolding(crate::specs::Rows::shlh_of))]
#[inline(always)]
pub fn row_shlh(a: Quad, b: Quad) -> Quad
    ensures { result ≡ shlh_of a b }
{
    a.zip_halves(b, shift_left)
}

/// Each halfword shifted left by the low five bits of the immediate.
#[tactic(auto, unfolding(crate::specs::Rows::shlhi_of))]
#[inline(always)]
pub fn row_shlhi(a: Quad, imm: u32) -> Quad
    requires { imm < 2 ^ 7 }
    ensures { result ≡ shlhi_of a imm }
{
    row_shlh(a, Quad::splat_halves(imm as u16))
}

#[inline(always)]
fn rotate(x: u16, n: u16) -> u16
    ensures { result ≡ rotate_left w16 x (n % 16) }
{
    x.rotate_left(u32::from(n & 0xf))
}

/// Each halfword rotated left by the low four bits of the count.
#[tactic(auto, unfolding(crate::specs::Rows::roth_of))]
#[inline(always)]
pub fn row_roth(a: Quad, b: Quad) -> Quad
    ensures { result ≡ roth_of a b }
{
    a.zip_halves(b, rotate)
}

/// Each halfword rotated left by the low four bits of the immediate.
#[tactic(auto, unfolding(crate::specs::Rows::rothi_of))]
#[inline(always)]
pub fn row_rothi(a: Quad, imm: u32) -> Quad
    requires { imm < 2 ^ 7 }
    ensures { result ≡ rothi_of a imm }
{
    row_roth(a, Quad::splat_halves(imm as u16))
}

#[inline(always)]
fn shift_right(x: u16, n: u16) -> u16
    ensures { result ≡ right_shift w16 x (negative w16 n % 32) }
{
    x.unbounded_shr(u32::from(n.wrapping_neg() & 0x1f))
}

/// Each halfword shifted right by the low five bits of the negative of the count.
#[tactic(auto, unfolding(crate::specs::Rows::rothm_of))]
#[inline(always)]
pub fn row_rothm(a: Quad, b: Quad) -> Quad
    ensures { result ≡ rothm_of a b }
{
    a.zip_halves(b, shift_right)
}

/// Each halfword shifted right by the low five bits of the negative of the immediate.
#[tactic(auto, unfolding(crate::specs::Rows::rothmi_of))]
#[inline(always)]
pub fn row_rothmi(a: Quad, imm: u32) -> Quad
    requires { imm < 2 ^ 7 }
    ensures { result ≡ rothmi_of a imm }
{
    row_rothm(a, Quad::splat_halves(imm as u16))
}

#[inline(always)]
fn shift_right_signed(x: u16, n: u16) -> u16
    ensures { result ≡ signed_right_shift w16 x (negative w16 n % 32) }
{
    let count = u32::from(n.wrapping_neg() & 0x1f);
    x.cast_signed().unbounded_shr(count).cast_unsigned()
}

/// As `row_rothm`, filled with the sign.
#[tactic(auto, unfolding(crate::specs::Rows::rotmah_of))]
#[inline(always)]
pub fn row_rotmah(a: Quad, b: Quad) -> Quad
    ensures { result ≡ rotmah_of a b }
{
    a.zip_halves(b, shift_right_signed)
}

/// As `row_rothmi`, filled with the sign.
#[tactic(auto, unfolding(crate::specs::Rows::rotmahi_of))]
#[inline(always)]
pub fn row_rotmahi(a: Quad, imm: u32) -> Quad
    requires { imm < 2 ^ 7 }
    ensures { result ≡ rotmahi_of a imm }
{
    row_rotmah(a, Quad::splat_halves(imm as u16))
}
