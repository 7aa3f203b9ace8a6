//! Sums, differences, carries and borrows.

ghost use Rattle.std.specs.Prelude.{◌≡◌, ◌<◌, ◌^◌, ◌+◌, ◌-◌, ◌%◌, ◌==◌, nat_le, nat_lt, if◌then◌else◌};
ghost use Rattle.std.specs.Int.{w16, w32};
ghost use Rattle.spu_int.specs.Rows.{sum, difference, sum_with_carry, carry, one_where, ah_of, a_of, ahi_of, ai_of, sfh_of, sf_of, sfhi_of, sfi_of, addx_of, sfx_of, cg_of, cgx_of, bg_of, bgx_of};

use cell_base::{Quad, ten_bit_halves, ten_bit_words};

#[inline(always)]
fn add_halves(x: u16, y: u16) -> u16
    ensures { result ≡ sum w16 x y }
{
    x.wrapping_add(y)
}

/// The sums of the halfwords.
#[tactic(auto, unfolding(crate::specs::Rows::ah_of))]
#[inline(always)]
pub fn row_ah(a: Quad, b: Quad) -> Quad
    ensures { result ≡ ah_of a b }
{
    a.zip_halves(b, add_halves)
}

/// The sums of the halfwords and the immediate.
#[tactic(auto, unfolding(crate::specs::Rows::ahi_of))]
#[inline(always)]
pub fn row_ahi(a: Quad, imm: u32) -> Quad
    requires { imm < 2 ^ 10 }
    ensures { result ≡ ahi_of a imm }
{
    row_ah(a, ten_bit_halves(imm))
}

#[inline(always)]
fn add_words(x: u32, y: u32) -> u32
    ensures { result ≡ sum w32 x y }
{
    x.wrapping_add(y)
}

/// The sums of the words.
#[tactic(auto, unfolding(crate::specs::Rows::a_of))]
#[inline(always)]
pub fn row_a(a: Quad, b: Quad) -> Quad
    ensures { result ≡ a_of a b }
{
    a.zip_words(b, add_words)
}

/// The sums of the words and the immediate.
#[tactic(auto, unfolding(crate::specs::Rows::ai_of))]
#[inline(always)]
pub fn row_ai(a: Quad, imm: u32) -> Quad
    requires { imm < 2 ^ 10 }
    ensures { result ≡ ai_of a imm }
{
    row_a(a, ten_bit_words(imm))
}

#[inline(always)]
fn subtract_halves(x: u16, y: u16) -> u16
    ensures { result ≡ difference w16 x y }
{
    x.wrapping_sub(y)
}

/// The halfwords of `b` minus those of `a`.
#[tactic(auto, unfolding(crate::specs::Rows::sfh_of))]
#[inline(always)]
pub fn row_sfh(a: Quad, b: Quad) -> Quad
    ensures { result ≡ sfh_of a b }
{
    b.zip_halves(a, subtract_halves)
}

/// The immediate minus each halfword.
#[tactic(auto, unfolding(crate::specs::Rows::sfhi_of))]
#[inline(always)]
pub fn row_sfhi(a: Quad, imm: u32) -> Quad
    requires { imm < 2 ^ 10 }
    ensures { result ≡ sfhi_of a imm }
{
    row_sfh(a, ten_bit_halves(imm))
}

#[inline(always)]
fn subtract_words(x: u32, y: u32) -> u32
    ensures { result ≡ difference w32 x y }
{
    x.wrapping_sub(y)
}

/// The words of `b` minus those of `a`.
#[tactic(auto, unfolding(crate::specs::Rows::sf_of))]
#[inline(always)]
pub fn row_sf(a: Quad, b: Quad) -> Quad
    ensures { result ≡ sf_of a b }
{
    b.zip_words(a, subtract_words)
}

/// The immediate minus each word.
#[tactic(auto, unfolding(crate::specs::Rows::sfi_of))]
#[inline(always)]
pub fn row_sfi(a: Quad, imm: u32) -> Quad
    requires { imm < 2 ^ 10 }
    ensures { result ≡ sfi_of a imm }
{
    row_sf(a, ten_bit_words(imm))
}

#[inline(always)]
fn add_with_carry(x: u32, y: u32, t: u32) -> u32
    ensures { result ≡ sum_with_carry x y t }
{
    x.wrapping_add(y).wrapping_add(t & 1)
}

/// The sums of the words and the lowest bit of the old target.
#[tactic(auto, unfolding(crate::specs::Rows::addx_of))]
#[inline(always)]
pub fn row_addx(a: Quad, b: Quad, t: Quad) -> Quad
    ensures { result ≡ addx_of a b t }
{
    a.zip3_words(b, t, add_with_carry)
}

#[inline(always)]
fn take_with_borrow(x: u32, y: u32, t: u32) -> u32
    ensures { result ≡ sum_with_carry (2 ^ 32 - 1 - x) y t }
{
    add_with_carry(!x, y, t)
}

/// The words of `b`, plus the complements of those of `a`, plus the lowest bit of the old target.
#[tactic(auto, unfolding(crate::specs::Rows::sfx_of))]
#[inline(always)]
pub fn row_sfx(a: Quad, b: Quad, t: Quad) -> Quad
    ensures { result ≡ sfx_of a b t }
{
    a.zip3_words(b, t, take_with_borrow)
}

#[inline(always)]
fn carry_of(x: u32, y: u32) -> u32
    ensures { result ≡ carry (x + y) }
{
    u32::from(x.checked_add(y).is_none())
}

/// 1 where the sum of two words needs more than a word, else 0.
#[tactic(auto, unfolding(crate::specs::Rows::cg_of))]
#[inline(always)]
pub fn row_cg(a: Quad, b: Quad) -> Quad
    ensures { result ≡ cg_of a b }
{
    a.zip_words(b, carry_of)
}

#[inline(always)]
fn carry_with(x: u32, y: u32, t: u32) -> u32
    ensures { result ≡ carry (x + y + t % 2) }
{
    let total = u64::from(x) + u64::from(y) + u64::from(t & 1);
    u32::from(total > u64::from(u32::MAX))
}

/// 1 where the sum of two words and the lowest bit of the old target needs more than a word, else 0.
#[tactic(auto, unfolding(crate::specs::Rows::cgx_of))]
#[inline(always)]
pub fn row_cgx(a: Quad, b: Quad, t: Quad) -> Quad
    ensures { result ≡ cgx_of a b t }
{
    a.zip3_words(b, t, carry_with)
}

#[inline(always)]
fn no_borrow(x: u32, y: u32) -> u32
    ensures { result ≡ one_where (nat_le x y) }
{
    u32::from(y >= x)
}

/// 1 where the word of `a` can be taken from that of `b` with no borrow, else 0.
#[tactic(auto, unfolding(crate::specs::Rows::bg_of))]
#[inline(always)]
pub fn row_bg(a: Quad, b: Quad) -> Quad
    ensures { result ≡ bg_of a b }
{
    a.zip_words(b, no_borrow)
}

#[inline(always)]
fn no_borrow_with(x: u32, y: u32, t: u32) -> u32
    ensures { result ≡ one_where (if t % 2 == 1 then nat_le x y else nat_lt x y) }
{
    u32::from(if t & 1 == 1 { y >= x } else { y > x })
}

/// As `row_bg`; where the lowest bit of the old target is 0, a borrow stands before, and the word of `b` has to be above.
#[tactic(auto, unfolding(crate::specs::Rows::bgx_of))]
#[inline(always)]
pub fn row_bgx(a: Quad, b: Quad, t: Quad) -> Quad
    ensures { result ≡ bgx_of a b t }
{
    a.zip3_words(b, t, no_borrow_with)
}
