//! The program of a processor.

ghost use Rattle.std.specs.Prelude.{◌≡◌, ◌-◌, ◌*◌, ◌^◌, ◌<◌, ◌≤◌, IfOk, vec_len};
ghost use Rattle.cell_gen.specs.Program.{minus, back, instr, ila, il, brz, brnz, br, wrch, rdch, ori, ai, lqd, stqd, stop, program, code};

use spu_decode::{Instr, Row, encode};
use std::alloc::{AllocError, Global};

/// How many bytes of main memory a processor works on.
pub(crate) const BLOCK_BYTES: u32 = 2048;

/// Where they lie in its store.
const BUFFER: u32 = 0x1000;

/// `-k` as an immediate of ten bits.
fn minus(k: u32) -> u32
    requires { k ≤ 1024 }
    ensures { result ≡ minus k }
{
    1024 - k
}

/// So many instructions back, as an immediate of sixteen bits.
fn back(k: u32) -> u32
    requires { k ≤ 65536 }
    ensures { result ≡ back k }
{
    65536 - k
}

/// An instruction by its fields, with RB and RC 0.
fn instr(row: Row, rt: u8, ra: u8, imm: u32) -> Instr
    ensures { result ≡ instr row rt ra imm }
{
    Instr {
        row,
        rt,
        ra,
        rb: 0,
        rc: 0,
        imm,
    }
}

fn ila(rt: u8, imm: u32) -> Instr
    ensures { result ≡ ila rt imm }
{
    instr(Row::Ila, rt, 0, imm)
}

fn il(rt: u8, imm: u32) -> Instr
    ensures { result ≡ il rt imm }
{
    instr(Row::Il, rt, 0, imm)
}

fn brz(rt: u8, distance: u32) -> Instr
    ensures { result ≡ brz rt distance }
{
    instr(Row::Brz, rt, 0, distance)
}

fn brnz(rt: u8, distance: u32) -> Instr
    ensures { result ≡ brnz rt distance }
{
    instr(Row::Brnz, rt, 0, distance)
}

fn br(distance: u32) -> Instr
    ensures { result ≡ br distance }
{
    instr(Row::Br, 0, 0, distance)
}

fn wrch(channel: u8, rt: u8) -> Instr
    ensures { result ≡ wrch channel rt }
{
    instr(Row::Wrch, rt, channel, 0)
}

fn rdch(rt: u8, channel: u8) -> Instr
    ensures { result ≡ rdch rt channel }
{
    instr(Row::Rdch, rt, channel, 0)
}

fn ori(rt: u8, ra: u8, imm: u32) -> Instr
    ensures { result ≡ ori rt ra imm }
{
    instr(Row::Ori, rt, ra, imm)
}

fn ai(rt: u8, ra: u8, imm: u32) -> Instr
    ensures { result ≡ ai rt ra imm }
{
    instr(Row::Ai, rt, ra, imm)
}

fn lqd(rt: u8, displacement: u32, ra: u8) -> Instr
    ensures { result ≡ lqd rt displacement ra }
{
    instr(Row::Lqd, rt, ra, displacement)
}

fn stqd(rt: u8, displacement: u32, ra: u8) -> Instr
    ensures { result ≡ stqd rt displacement ra }
{
    instr(Row::Stqd, rt, ra, displacement)
}

fn stop(code: u32) -> Instr
    ensures { result ≡ stop code }
{
    instr(Row::Stop, 0, 0, code)
}

/// So many rounds over the block of main memory from `base` on.
#[rattlefmt::skip]
#[tactic(auto, unfolding(crate::specs::Program::program))]
fn program(base: u32, n: u32) -> [Instr; 31]
    ensures { result ≡ program base n }
{
    [
        ila(3, BUFFER),
        ila(4, base),
        il(5, BLOCK_BYTES),
        il(7, n),
        // round:
        brz(7, 26), // to done
        wrch(16, 3),
        wrch(18, 4),
        wrch(19, 5),
        il(8, 0x40), // GET
        wrch(21, 8),
        il(8, 1),
        wrch(22, 8),
        il(8, 2),
        wrch(23, 8),
        rdch(9, 24),
        il(10, 128),
        ori(11, 3, 0),
        // add:
        lqd(12, 0, 11),
        ai(12, 12, 1),
        stqd(12, 0, 11),
        ai(11, 11, 16),
        ai(10, 10, minus(1)),
        brnz(10, back(5)), // to add
        il(8, 0x20), // PUT
        wrch(21, 8),
        il(8, 2),
        wrch(23, 8),
        rdch(9, 24),
        ai(7, 7, minus(1)),
        br(back(25)), // to round
        // done:
        stop(0),
    ]
}

/// The bytes of the program's words.
#[tactic(auto, unfolding(crate::specs::Program::code))]
pub(crate) fn code(alloc: Global, base: u32, n: u32) -> Result<Vec<u8>, AllocError>
    requires base { base < 2 ^ 18 }
    requires rounds { n < 2 ^ 16 }
    ensures bytes { IfOk result (λ v. v.items ≡ code base n) }
    ensures long { IfOk result (λ v. vec_len v ≡ 124) }
{
    let instructions = program(base, n);
    let mut bytes = Vec::new(alloc);
    for i in instructions.iter() {
        bytes.extend_from_slice(&encode(*i).to_be_bytes())?;
    }
    Ok(bytes)
}
