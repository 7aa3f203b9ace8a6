//! What comes after an instruction.

ghost use Rattle.std.specs.Prelude.{◌≡◌, ◌<◌, ◌^◌};
ghost use Rattle.spu_decode.specs.Spelling.{FieldsFit};
ghost use Rattle.spu_exec.specs.Meaning.{branch_if, flow_of, halt_if, is_half_zero, is_zero, signed_above};

use crate::address::{absolute, direct, indirect, next_pc, relative};
use crate::flow::Flow;
use cell_base::{ChannelOp, Quad, extended_word};
use spu_decode::{Instr, Row};

/// What comes after an instruction at `pc`; `a`, `b` and `t` are the quadwords of RA, RB and RT before it.
#[inline(always)]
#[tactic(auto, unfolding(spu_decode::specs::Table::entry_of))]
pub(crate) fn flow_of(i: Instr, pc: u32, a: Quad, b: Quad, t: Quad) -> Flow
    requires fits { FieldsFit i }
    requires here { pc < 262144 }
    ensures { result ≡ flow_of i i.row pc a b t }
{
    match i.row {
        Row::Br => Flow::Next(direct(relative(i.imm, pc))),
        Row::Bra => Flow::Next(direct(absolute(i.imm))),
        Row::Brsl => Flow::Next(direct(relative(i.imm, pc))),
        Row::Brasl => Flow::Next(direct(absolute(i.imm))),
        Row::Bi => Flow::Next(indirect(a)),
        Row::Bisl => Flow::Next(indirect(a)),
        Row::Brnz => branch_if(!is_zero(t), direct(relative(i.imm, pc)), pc),
        Row::Brz => branch_if(is_zero(t), direct(relative(i.imm, pc)), pc),
        Row::Brhnz => branch_if(!is_half_zero(t), direct(relative(i.imm, pc)), pc),
        Row::Brhz => branch_if(is_half_zero(t), direct(relative(i.imm, pc)), pc),
        Row::Binz => branch_if(!is_zero(t), indirect(a), pc),
        Row::Biz => branch_if(is_zero(t), indirect(a), pc),
        Row::Bihnz => branch_if(!is_half_zero(t), indirect(a), pc),
        Row::Bihz => branch_if(is_half_zero(t), indirect(a), pc),
        Row::Heq => halt_if(a.word(0) == b.word(0), pc),
        Row::Heqi => halt_if(a.word(0) == extended_word(i.imm, 10), pc),
        Row::Hgt => halt_if(signed_above(a.word(0), b.word(0)), pc),
        Row::Hgti => halt_if(signed_above(a.word(0), extended_word(i.imm, 10)), pc),
        Row::Hlgt => halt_if(a.word(0) > b.word(0), pc),
        Row::Hlgti => halt_if(a.word(0) > extended_word(i.imm, 10), pc),
        Row::Stop => Flow::Stop {
            code: i.imm as u16,
            next: next_pc(pc),
        },
        Row::Rdch => Flow::Channel(ChannelOp::Read { rt: i.rt, ch: i.ra }),
        Row::Rchcnt => Flow::Channel(ChannelOp::Count { rt: i.rt, ch: i.ra }),
        Row::Wrch => Flow::Channel(ChannelOp::Write {
            ch: i.ra,
            value: t.word(0),
        }),
        _ => Flow::Next(next_pc(pc)),
    }
}

/// The target where the branch is taken, else the next instruction.
#[inline(always)]
fn branch_if(taken: bool, target: u32, pc: u32) -> Flow
    requires { pc < 262144 }
    ensures { result ≡ branch_if taken target pc }
{
    if taken {
        Flow::Next(target)
    } else {
        Flow::Next(next_pc(pc))
    }
}

/// A halt where it holds, else the next instruction.
#[inline(always)]
fn halt_if(holds: bool, pc: u32) -> Flow
    requires { pc < 262144 }
    ensures { result ≡ halt_if holds pc }
{
    let next = next_pc(pc);
    if holds {
        Flow::Halt { next }
    } else {
        Flow::Next(next)
    }
}

/// Whether word 0 is zero.
#[inline(always)]
fn is_zero(t: Quad) -> bool
    ensures { result ≡ is_zero t }
{
    t.word(0) == 0
}

/// Whether the right halfword of word 0 is zero.
#[inline(always)]
fn is_half_zero(t: Quad) -> bool
    ensures { result ≡ is_half_zero t }
{
    t.word(0) % 0x1_0000 == 0
}

/// Whether `x` is above `y`, both read as signed.
#[inline(always)]
fn signed_above(x: u32, y: u32) -> bool
    ensures { result ≡ signed_above x y }
{
    x.cast_signed() > y.cast_signed()
}
