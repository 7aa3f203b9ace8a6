//! What RT becomes, and where it is stored.

ghost use Rattle.std.specs.Prelude.{◌≡◌, ◌<◌, ◌^◌};
ghost use Rattle.spu_decode.specs.Spelling.{FieldsFit};
ghost use Rattle.spu_exec.specs.Meaning.{loaded_at, stored_at, value_of};

use crate::address::{absolute, displaced, indexed, next_pc, relative};
use crate::compute::computed;
use cell_base::Quad;
use local_store::LocalStore;
use spu_decode::{Instr, Row};

/// What RT becomes, if the row sets it: by a load, by a link, or by a computation.
#[inline(always)]
#[tactic(auto, unfolding(spu_decode::specs::Table::entry_of))]
pub(crate) fn value_of(
    i: Instr,
    pc: u32,
    a: Quad,
    b: Quad,
    c: Quad,
    t: Quad,
    ls: &LocalStore,
) -> Option<Quad>
    requires fits { FieldsFit i }
    requires here { pc < 262144 }
    ensures { result ≡ value_of i.row i.imm pc a b c t ls.now }
{
    match i.row {
        Row::Lqd => Some(ls.quad(displaced(i.imm, a))),
        Row::Lqx => Some(ls.quad(indexed(a, b))),
        Row::Lqa => Some(ls.quad(absolute(i.imm))),
        Row::Lqr => Some(ls.quad(relative(i.imm, pc))),
        Row::Brsl => Some(Quad::in_first_word(next_pc(pc))),
        Row::Brasl => Some(Quad::in_first_word(next_pc(pc))),
        Row::Bisl => Some(Quad::in_first_word(next_pc(pc))),
        row => computed(row, i.imm, a, b, c, t),
    }
}

/// The address at which a quadword is loaded, if the row loads one.
#[inline(always)]
#[tactic(auto, unfolding(spu_decode::specs::Table::entry_of))]
pub(crate) fn loaded_at(i: Instr, pc: u32, a: Quad, b: Quad) -> Option<u32>
    requires { FieldsFit i }
    ensures { result ≡ loaded_at i.row i.imm pc a b }
{
    match i.row {
        Row::Lqd => Some(displaced(i.imm, a)),
        Row::Lqx => Some(indexed(a, b)),
        Row::Lqa => Some(absolute(i.imm)),
        Row::Lqr => Some(relative(i.imm, pc)),
        _ => None,
    }
}

/// The address at which RT is stored, if the row stores it.
#[inline(always)]
#[tactic(auto, unfolding(spu_decode::specs::Table::entry_of))]
pub(crate) fn stored_at(i: Instr, pc: u32, a: Quad, b: Quad) -> Option<u32>
    requires { FieldsFit i }
    ensures { result ≡ stored_at i.row i.imm pc a b }
{
    match i.row {
        Row::Stqd => Some(displaced(i.imm, a)),
        Row::Stqx => Some(indexed(a, b)),
        Row::Stqa => Some(absolute(i.imm)),
        Row::Stqr => Some(relative(i.imm, pc)),
        _ => None,
    }
}
