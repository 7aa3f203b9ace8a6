//! The shuffle of bytes, and the controls with which it inserts into a quadword.

ghost use Rattle.std.specs.Prelude.{◌≡◌, ◌<◌, ◌≤◌, ◌+◌, ◌^◌};
ghost use Rattle.std.specs.Int.{w8};
ghost use Rattle.cell_base.specs.Lanes.{lanes_from};
ghost use Rattle.spu_bits.specs.Rows.{address_by_immediate, address_by_index, cbd_of, cbx_of, cdd_of, cdx_of, chd_of, chx_of, control_byte, cwd_of, cwx_of, picked, shufb_of};

use cell_base::{Quad, extended_word};

// The byte that a control byte picks.
#[inline(always)]
fn pick(a: &[u8; 16], b: &[u8; 16], control: u8) -> u8
    ensures { result ≡ picked a.now b.now control }
{
    if control < 0x80 {
        let k = (control & 0x1f) as usize;
        if k < 16 { a[k] } else { b[k - 16] }
    } else if control < 0xc0 {
        0
    } else if control < 0xe0 {
        0xff
    } else {
        0x80
    }
}

/// Each byte by the control byte of `c`: 0x00 where that begins with the bits 10, 0xFF where with 110,
/// 0x80 where with 111, else the byte of `a` followed by `b` at its low five bits.
#[tactic(auto, unfolding(crate::specs::Rows::shufb_of))]
#[inline(always)]
pub fn row_shufb(a: Quad, b: Quad, c: Quad) -> Quad
    ensures { result ≡ shufb_of a b c }
{
    let left = a.bytes();
    let right = b.bytes();
    c.map_bytes(|x| pick(&left, &right, x))
}

// Byte k of `insertion`.
#[inline(always)]
fn inserted_byte(length: u32, first: u32, at: u32, k: u32) -> u8
    requires short { length ≤ 8 }
    requires small { first ≤ 3 }
    requires inside { at + length ≤ 16 }
    requires place { k < 16 }
    ensures { result ≡ control_byte length first at k }
{
    let byte = if at <= k && k < at + length {
        first + (k - at)
    } else {
        16 + k
    };
    byte as u8
}

// The bytes 0x10, 0x11, .., 0x1F, with `length` bytes from `first` on in place of those from `at` on.
#[inline(always)]
fn insertion(length: u32, first: u32, at: u32) -> Quad
    requires short { length ≤ 8 }
    requires small { first ≤ 3 }
    requires inside { at + length ≤ 16 }
    ensures { result ≡ lanes_from w8 (control_byte length first at) }
{
    Quad::bytes_from_fn(|k| inserted_byte(length, first, at, k))
}

// The address in word 0 with an immediate of seven bits added, with its sign.
#[inline(always)]
fn displaced(a: Quad, imm: u32) -> u32
    requires { imm < 2 ^ 7 }
    ensures { result ≡ address_by_immediate a imm }
{
    a.word(0).wrapping_add(extended_word(imm, 7))
}

// The address in word 0 with that of the second quadword added.
#[inline(always)]
fn indexed(a: Quad, b: Quad) -> u32
    ensures { result ≡ address_by_index a b }
{
    a.word(0).wrapping_add(b.word(0))
}

/// The control that inserts a byte at the address in word 0 of `a` plus the signed immediate.
#[tactic(auto, unfolding(crate::specs::Rows::cbd_of))]
#[inline(always)]
pub fn row_cbd(a: Quad, imm: u32) -> Quad
    requires { imm < 2 ^ 7 }
    ensures { result ≡ cbd_of a imm }
{
    insertion(1, 3, displaced(a, imm) & 0xf)
}

/// The control that inserts a halfword at the address in word 0 of `a` plus the signed immediate.
#[tactic(auto, unfolding(crate::specs::Rows::chd_of))]
#[inline(always)]
pub fn row_chd(a: Quad, imm: u32) -> Quad
    requires { imm < 2 ^ 7 }
    ensures { result ≡ chd_of a imm }
{
    insertion(2, 2, displaced(a, imm) & 0xe)
}

/// The control that inserts a word at the address in word 0 of `a` plus the signed immediate.
#[tactic(auto, unfolding(crate::specs::Rows::cwd_of))]
#[inline(always)]
pub fn row_cwd(a: Quad, imm: u32) -> Quad
    requires { imm < 2 ^ 7 }
    ensures { result ≡ cwd_of a imm }
{
    insertion(4, 0, displaced(a, imm) & 0xc)
}

/// The control that inserts a doubleword at the address in word 0 of `a` plus the signed immediate.
#[tactic(auto, unfolding(crate::specs::Rows::cdd_of))]
#[inline(always)]
pub fn row_cdd(a: Quad, imm: u32) -> Quad
    requires { imm < 2 ^ 7 }
    ensures { result ≡ cdd_of a imm }
{
    insertion(8, 0, displaced(a, imm) & 0x8)
}

/// The control that inserts a byte at the sum of the addresses in word 0 of `a` and `b`.
#[tactic(auto, unfolding(crate::specs::Rows::cbx_of))]
#[inline(always)]
pub fn row_cbx(a: Quad, b: Quad) -> Quad
    ensures { result ≡ cbx_of a b }
{
    insertion(1, 3, indexed(a, b) & 0xf)
}

/// The control that inserts a halfword at the sum of the addresses in word 0 of `a` and `b`.
#[tactic(auto, unfolding(crate::specs::Rows::chx_of))]
#[inline(always)]
pub fn row_chx(a: Quad, b: Quad) -> Quad
    ensures { result ≡ chx_of a b }
{
    insertion(2, 2, indexed(a, b) & 0xe)
}

/// The control that inserts a word at the sum of the addresses in word 0 of `a` and `b`.
#[tactic(auto, unfolding(crate::specs::Rows::cwx_of))]
#[inline(always)]
pub fn row_cwx(a: Quad, b: Quad) -> Quad
    ensures { result ≡ cwx_of a b }
{
    insertion(4, 0, indexed(a, b) & 0xc)
}

/// The control that inserts a doubleword at the sum of the addresses in word 0 of `a` and `b`.
#[tactic(auto, unfolding(crate::specs::Rows::cdx_of))]
#[inline(always)]
pub fn row_cdx(a: Quad, b: Quad) -> Quad
    ensures { result ≡ cdx_of a b }
{
    insertion(8, 0, indexed(a, b) & 0x8)
}
