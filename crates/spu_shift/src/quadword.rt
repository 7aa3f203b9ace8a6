//! Shifts and rotates of the whole quadword, by word 0 of `b` or by an immediate.

ghost use Rattle.std.specs.Prelude.{◌≡◌, ◌<◌, ◌≤◌, ◌^◌, ◌*◌, ◌%◌};
ghost use Rattle.std.specs.Int.{w32};
ghost use Rattle.spu_shift.specs.Rows.{quad_left_shift, quad_right_shift, quad_rotation, negative, shlqbi_of, shlqbii_of, shlqby_of, shlqbyi_of, shlqbybi_of, rotqby_of, rotqbyi_of, rotqbybi_of, rotqbi_of, rotqbii_of, rotqmby_of, rotqmbyi_of, rotqmbybi_of, rotqmbi_of, rotqmbii_of};

use cell_base::Quad;

#[inline(always)]
fn left_by_bits(a: Quad, k: u32) -> Quad
    ensures { result ≡ quad_left_shift a k }
{
    Quad::of_bits(a.bits().unbounded_shl(k))
}

#[inline(always)]
fn right_by_bits(a: Quad, k: u32) -> Quad
    ensures { result ≡ quad_right_shift a k }
{
    Quad::of_bits(a.bits().unbounded_shr(k))
}

#[inline(always)]
fn rotated_by_bits(a: Quad, k: u32) -> Quad
    ensures { result ≡ quad_rotation a k }
{
    Quad::of_bits(a.bits().rotate_left(k))
}

/// Shifted left by 0 to 7 bits, the low three bits of the count.
#[tactic(auto, unfolding(crate::specs::Rows::shlqbi_of))]
#[inline(always)]
pub fn row_shlqbi(a: Quad, b: Quad) -> Quad
    ensures { result ≡ shlqbi_of a b }
{
    left_by_bits(a, b.word(0) & 7)
}

/// Shifted left by 0 to 7 bits, the low three bits of the immediate.
#[tactic(auto, unfolding(crate::specs::Rows::shlqbii_of))]
#[inline(always)]
pub fn row_shlqbii(a: Quad, imm: u32) -> Quad
    requires { imm < 2 ^ 7 }
    ensures { result ≡ shlqbii_of a imm }
{
    left_by_bits(a, imm & 7)
}

/// Shifted left by 0 to 31 bytes, the low five bits of the count.
#[tactic(auto, unfolding(crate::specs::Rows::shlqby_of))]
#[inline(always)]
pub fn row_shlqby(a: Quad, b: Quad) -> Quad
    ensures { result ≡ shlqby_of a b }
{
    left_by_bits(a, 8 * (b.word(0) & 0x1f))
}

/// Shifted left by 0 to 31 bytes, the low five bits of the immediate.
#[tactic(auto, unfolding(crate::specs::Rows::shlqbyi_of))]
#[inline(always)]
pub fn row_shlqbyi(a: Quad, imm: u32) -> Quad
    requires { imm < 2 ^ 7 }
    ensures { result ≡ shlqbyi_of a imm }
{
    left_by_bits(a, 8 * (imm & 0x1f))
}

/// Shifted left by the whole bytes of a count of bits, 0 to 31.
#[tactic(auto, unfolding(crate::specs::Rows::shlqbybi_of))]
#[inline(always)]
pub fn row_shlqbybi(a: Quad, b: Quad) -> Quad
    ensures { result ≡ shlqbybi_of a b }
{
    left_by_bits(a, 8 * (b.word(0) >> 3 & 0x1f))
}

/// Rotated left by 0 to 15 bytes, the low four bits of the count.
#[tactic(auto, unfolding(crate::specs::Rows::rotqby_of))]
#[inline(always)]
pub fn row_rotqby(a: Quad, b: Quad) -> Quad
    ensures { result ≡ rotqby_of a b }
{
    rotated_by_bits(a, 8 * (b.word(0) & 0xf))
}

/// Rotated left by 0 to 15 bytes, the low four bits of the immediate.
#[tactic(auto, unfolding(crate::specs::Rows::rotqbyi_of))]
#[inline(always)]
pub fn row_rotqbyi(a: Quad, imm: u32) -> Quad
    requires { imm < 2 ^ 7 }
    ensures { result ≡ rotqbyi_of a imm }
{
    rotated_by_bits(a, 8 * (imm & 0xf))
}

/// Rotated left by the whole bytes of a count of bits, 0 to 15.
#[tactic(auto, unfolding(crate::specs::Rows::rotqbybi_of))]
#[inline(always)]
pub fn row_rotqbybi(a: Quad, b: Quad) -> Quad
    ensures { result ≡ rotqbybi_of a b }
{
    rotated_by_bits(a, 8 * (b.word(0) >> 3 & 0xf))
}

/// Rotated left by 0 to 7 bits, the low three bits of the count.
#[tactic(auto, unfolding(crate::specs::Rows::rotqbi_of))]
#[inline(always)]
pub fn row_rotqbi(a: Quad, b: Quad) -> Quad
    ensures { result ≡ rotqbi_of a b }
{
    rotated_by_bits(a, b.word(0) & 7)
}

/// Rotated left by 0 to 7 bits, the low three bits of the immediate.
#[tactic(auto, unfolding(crate::specs::Rows::rotqbii_of))]
#[inline(always)]
pub fn row_rotqbii(a: Quad, imm: u32) -> Quad
    requires { imm < 2 ^ 7 }
    ensures { result ≡ rotqbii_of a imm }
{
    rotated_by_bits(a, imm & 7)
}

/// Shifted right by 0 to 31 bytes, the low five bits of the negative of the count.
#[tactic(auto, unfolding(crate::specs::Rows::rotqmby_of))]
#[inline(always)]
pub fn row_rotqmby(a: Quad, b: Quad) -> Quad
    ensures { result ≡ rotqmby_of a b }
{
    right_by_bits(a, 8 * (b.word(0).wrapping_neg() & 0x1f))
}

/// Shifted right by 0 to 31 bytes, the low five bits of the negative of the immediate.
#[tactic(auto, unfolding(crate::specs::Rows::rotqmbyi_of))]
#[inline(always)]
pub fn row_rotqmbyi(a: Quad, imm: u32) -> Quad
    requires { imm < 2 ^ 7 }
    ensures { result ≡ rotqmbyi_of a imm }
{
    right_by_bits(a, 8 * (imm.wrapping_neg() & 0x1f))
}

/// Shifted right by 0 to 31 bytes, the low five bits of the negative of the whole bytes of a count of bits.
#[tactic(auto, unfolding(crate::specs::Rows::rotqmbybi_of))]
#[inline(always)]
pub fn row_rotqmbybi(a: Quad, b: Quad) -> Quad
    ensures { result ≡ rotqmbybi_of a b }
{
    right_by_bits(a, 8 * ((b.word(0) >> 3).wrapping_neg() & 0x1f))
}

/// Shifted right by 0 to 7 bits, the low three bits of the negative of the count.
#[tactic(auto, unfolding(crate::specs::Rows::rotqmbi_of))]
#[inline(always)]
pub fn row_rotqmbi(a: Quad, b: Quad) -> Quad
    ensures { result ≡ rotqmbi_of a b }
{
    right_by_bits(a, b.word(0).wrapping_neg() & 7)
}

/// Shifted right by 0 to 7 bits, the low three bits of the negative of the immediate.
#[tactic(auto, unfolding(crate::specs::Rows::rotqmbii_of))]
#[inline(always)]
pub fn row_rotqmbii(a: Quad, imm: u32) -> Quad
    requires { imm < 2 ^ 7 }
    ensures { result ≡ rotqmbii_of a imm }
{
    right_by_bits(a, imm.wrapping_neg() & 7)
}
