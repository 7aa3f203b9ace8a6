//! Addresses of loads, stores and branches.

ghost use Rattle.std.specs.Prelude.{◌≡◌, ◌<◌, ◌^◌};
ghost use Rattle.spu_exec.specs.Meaning.{absolute, direct, displaced, indexed, indirect, relative};
ghost use Rattle.spu_exec.specs.Places.{next_pc};

use cell_base::{Quad, extended_word};

/// The displacement counts quadwords from the address in RA.
#[inline(always)]
pub(crate) fn displaced(imm: u32, a: Quad) -> u32
    requires { imm < 2 ^ 10 }
    ensures { result ≡ displaced imm a }
{
    a.word(0)
        .wrapping_add(extended_word(imm, 10).wrapping_mul(16))
}

#[inline(always)]
pub(crate) fn indexed(a: Quad, b: Quad) -> u32
    ensures { result ≡ indexed a b }
{
    a.word(0).wrapping_add(b.word(0))
}

/// The immediate counts words from address 0.
#[inline(always)]
pub(crate) fn absolute(imm: u32) -> u32
    requires { imm < 2 ^ 16 }
    ensures { result ≡ absolute imm }
{
    extended_word(imm, 16).wrapping_mul(4)
}

/// The immediate counts words from the instruction.
#[inline(always)]
pub(crate) fn relative(imm: u32, pc: u32) -> u32
    requires { imm < 2 ^ 16 }
    ensures { result ≡ relative imm pc }
{
    pc.wrapping_add(extended_word(imm, 16).wrapping_mul(4))
}

/// The target of a direct branch.
#[inline(always)]
pub(crate) fn direct(at: u32) -> u32
    ensures { result ≡ direct at }
{
    at % 0x4_0000
}

/// The target of an indirect branch.
#[inline(always)]
pub(crate) fn indirect(a: Quad) -> u32
    ensures { result ≡ indirect a }
{
    a.word(0) / 4 % 0x1_0000 * 4
}

/// The address after an instruction at `pc`, which is below 262,144; after the last one comes 0.
#[inline(always)]
pub fn next_pc(pc: u32) -> u32
    requires { pc < 262144 }
    ensures { result ≡ next_pc pc }
{
    (pc + 4) % 0x4_0000
}
