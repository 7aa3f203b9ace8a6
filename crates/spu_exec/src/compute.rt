//! What RT becomes at the rows that compute it from registers and the immediate alone.
//! The groups are looked through one after another.

ghost use Rattle.std.specs.Prelude.{◌≡◌, ◌<◌, ◌^◌};
ghost use Rattle.spu_decode.specs.Spelling.{immediate_bits, shape_of};
ghost use Rattle.spu_exec.specs.Computed.{arithmetic, bytes, computed, logic, products, shifts};

use cell_base::Quad;
use spu_decode::Row;

/// What RT becomes: `a`, `b`, `c` and `t` are the quadwords of RA, RB, RC and RT before the instruction.
#[inline(always)]
pub(crate) fn computed(row: Row, imm: u32, a: Quad, b: Quad, c: Quad, t: Quad) -> Option<Quad>
    requires { imm < 2 ^ immediate_bits (shape_of row).format }
    ensures { result ≡ computed row imm a b c t }
{
    arithmetic(row, imm, a, b, c, t)
}

/// Constants and arithmetic.
#[inline(always)]
#[tactic(auto, unfolding(spu_decode::specs::Table::entry_of))]
fn arithmetic(row: Row, imm: u32, a: Quad, b: Quad, c: Quad, t: Quad) -> Option<Quad>
    requires { imm < 2 ^ immediate_bits (shape_of row).format }
    ensures { result ≡ arithmetic row imm a b c t }
{
    match row {
        Row::Il => Some(spu_int::row_il(imm)),
        Row::Ilh => Some(spu_int::row_ilh(imm)),
        Row::Ilhu => Some(spu_int::row_ilhu(imm)),
        Row::Ila => Some(spu_int::row_ila(imm)),
        Row::Iohl => Some(spu_int::row_iohl(imm, t)),
        Row::Fsmbi => Some(spu_int::row_fsmbi(imm)),
        Row::Ah => Some(spu_int::row_ah(a, b)),
        Row::A => Some(spu_int::row_a(a, b)),
        Row::Ahi => Some(spu_int::row_ahi(a, imm)),
        Row::Ai => Some(spu_int::row_ai(a, imm)),
        Row::Sfh => Some(spu_int::row_sfh(a, b)),
        Row::Sf => Some(spu_int::row_sf(a, b)),
        Row::Sfhi => Some(spu_int::row_sfhi(a, imm)),
        Row::Sfi => Some(spu_int::row_sfi(a, imm)),
        Row::Addx => Some(spu_int::row_addx(a, b, t)),
        Row::Sfx => Some(spu_int::row_sfx(a, b, t)),
        Row::Cg => Some(spu_int::row_cg(a, b)),
        Row::Cgx => Some(spu_int::row_cgx(a, b, t)),
        Row::Bg => Some(spu_int::row_bg(a, b)),
        Row::Bgx => Some(spu_int::row_bgx(a, b, t)),
        _ => products(row, imm, a, b, c, t),
    }
}

/// Multiplies and compares.
#[inline(always)]
#[tactic(auto, unfolding(spu_decode::specs::Table::entry_of))]
fn products(row: Row, imm: u32, a: Quad, b: Quad, c: Quad, t: Quad) -> Option<Quad>
    requires { imm < 2 ^ immediate_bits (shape_of row).format }
    ensures { result ≡ products row imm a b c t }
{
    match row {
        Row::Mpy => Some(spu_int::row_mpy(a, b)),
        Row::Mpyu => Some(spu_int::row_mpyu(a, b)),
        Row::Mpyi => Some(spu_int::row_mpyi(a, imm)),
        Row::Mpyui => Some(spu_int::row_mpyui(a, imm)),
        Row::Mpya => Some(spu_int::row_mpya(a, b, c)),
        Row::Mpyh => Some(spu_int::row_mpyh(a, b)),
        Row::Mpys => Some(spu_int::row_mpys(a, b)),
        Row::Mpyhh => Some(spu_int::row_mpyhh(a, b)),
        Row::Mpyhha => Some(spu_int::row_mpyhha(a, b, t)),
        Row::Mpyhhu => Some(spu_int::row_mpyhhu(a, b)),
        Row::Mpyhhau => Some(spu_int::row_mpyhhau(a, b, t)),
        Row::Ceqb => Some(spu_int::row_ceqb(a, b)),
        Row::Ceqbi => Some(spu_int::row_ceqbi(a, imm)),
        Row::Ceqh => Some(spu_int::row_ceqh(a, b)),
        Row::Ceqhi => Some(spu_int::row_ceqhi(a, imm)),
        Row::Ceq => Some(spu_int::row_ceq(a, b)),
        Row::Ceqi => Some(spu_int::row_ceqi(a, imm)),
        Row::Cgtb => Some(spu_int::row_cgtb(a, b)),
        Row::Cgtbi => Some(spu_int::row_cgtbi(a, imm)),
        Row::Cgth => Some(spu_int::row_cgth(a, b)),
        Row::Cgthi => Some(spu_int::row_cgthi(a, imm)),
        Row::Cgt => Some(spu_int::row_cgt(a, b)),
        Row::Cgti => Some(spu_int::row_cgti(a, imm)),
        Row::Clgtb => Some(spu_int::row_clgtb(a, b)),
        Row::Clgtbi => Some(spu_int::row_clgtbi(a, imm)),
        Row::Clgth => Some(spu_int::row_clgth(a, b)),
        Row::Clgthi => Some(spu_int::row_clgthi(a, imm)),
        Row::Clgt => Some(spu_int::row_clgt(a, b)),
        Row::Clgti => Some(spu_int::row_clgti(a, imm)),
        _ => bytes(row, imm, a, b, c, t),
    }
}

/// Counting, bytes, masks, shuffles and insertion controls.
#[inline(always)]
#[tactic(auto, unfolding(spu_decode::specs::Table::entry_of))]
fn bytes(row: Row, imm: u32, a: Quad, b: Quad, c: Quad, t: Quad) -> Option<Quad>
    requires { imm < 2 ^ immediate_bits (shape_of row).format }
    ensures { result ≡ bytes row imm a b c t }
{
    match row {
        Row::Cbd => Some(spu_bits::row_cbd(a, imm)),
        Row::Chd => Some(spu_bits::row_chd(a, imm)),
        Row::Cwd => Some(spu_bits::row_cwd(a, imm)),
        Row::Cdd => Some(spu_bits::row_cdd(a, imm)),
        Row::Cbx => Some(spu_bits::row_cbx(a, b)),
        Row::Chx => Some(spu_bits::row_chx(a, b)),
        Row::Cwx => Some(spu_bits::row_cwx(a, b)),
        Row::Cdx => Some(spu_bits::row_cdx(a, b)),
        Row::Clz => Some(spu_bits::row_clz(a)),
        Row::Cntb => Some(spu_bits::row_cntb(a)),
        Row::Fsmb => Some(spu_bits::row_fsmb(a)),
        Row::Fsmh => Some(spu_bits::row_fsmh(a)),
        Row::Fsm => Some(spu_bits::row_fsm(a)),
        Row::Gbb => Some(spu_bits::row_gbb(a)),
        Row::Gbh => Some(spu_bits::row_gbh(a)),
        Row::Gb => Some(spu_bits::row_gb(a)),
        Row::Xsbh => Some(spu_bits::row_xsbh(a)),
        Row::Xshw => Some(spu_bits::row_xshw(a)),
        Row::Xswd => Some(spu_bits::row_xswd(a)),
        Row::Avgb => Some(spu_bits::row_avgb(a, b)),
        Row::Absdb => Some(spu_bits::row_absdb(a, b)),
        Row::Sumb => Some(spu_bits::row_sumb(a, b)),
        Row::Shufb => Some(spu_bits::row_shufb(a, b, c)),
        _ => logic(row, imm, a, b, c, t),
    }
}

/// Logic.
#[inline(always)]
#[tactic(auto, unfolding(spu_decode::specs::Table::entry_of))]
fn logic(row: Row, imm: u32, a: Quad, b: Quad, c: Quad, t: Quad) -> Option<Quad>
    requires { imm < 2 ^ immediate_bits (shape_of row).format }
    ensures { result ≡ logic row imm a b c t }
{
    match row {
        Row::And => Some(spu_bits::row_and(a, b)),
        Row::Andc => Some(spu_bits::row_andc(a, b)),
        Row::Or => Some(spu_bits::row_or(a, b)),
        Row::Orc => Some(spu_bits::row_orc(a, b)),
        Row::Xor => Some(spu_bits::row_xor(a, b)),
        Row::Nand => Some(spu_bits::row_nand(a, b)),
        Row::Nor => Some(spu_bits::row_nor(a, b)),
        Row::Eqv => Some(spu_bits::row_eqv(a, b)),
        Row::Andbi => Some(spu_bits::row_andbi(a, imm)),
        Row::Andhi => Some(spu_bits::row_andhi(a, imm)),
        Row::Andi => Some(spu_bits::row_andi(a, imm)),
        Row::Orbi => Some(spu_bits::row_orbi(a, imm)),
        Row::Orhi => Some(spu_bits::row_orhi(a, imm)),
        Row::Ori => Some(spu_bits::row_ori(a, imm)),
        Row::Xorbi => Some(spu_bits::row_xorbi(a, imm)),
        Row::Xorhi => Some(spu_bits::row_xorhi(a, imm)),
        Row::Xori => Some(spu_bits::row_xori(a, imm)),
        Row::Orx => Some(spu_bits::row_orx(a)),
        Row::Selb => Some(spu_bits::row_selb(a, b, c)),
        _ => shifts(row, imm, a, b, c, t),
    }
}

/// Shifts and rotates.
#[inline(always)]
#[tactic(auto, unfolding(spu_decode::specs::Table::entry_of))]
fn shifts(row: Row, imm: u32, a: Quad, b: Quad, c: Quad, t: Quad) -> Option<Quad>
    requires { imm < 2 ^ immediate_bits (shape_of row).format }
    ensures { result ≡ shifts row imm a b c t }
{
    match row {
        Row::Shlh => Some(spu_shift::row_shlh(a, b)),
        Row::Shlhi => Some(spu_shift::row_shlhi(a, imm)),
        Row::Shl => Some(spu_shift::row_shl(a, b)),
        Row::Shli => Some(spu_shift::row_shli(a, imm)),
        Row::Shlqbi => Some(spu_shift::row_shlqbi(a, b)),
        Row::Shlqbii => Some(spu_shift::row_shlqbii(a, imm)),
        Row::Shlqby => Some(spu_shift::row_shlqby(a, b)),
        Row::Shlqbyi => Some(spu_shift::row_shlqbyi(a, imm)),
        Row::Shlqbybi => Some(spu_shift::row_shlqbybi(a, b)),
        Row::Roth => Some(spu_shift::row_roth(a, b)),
        Row::Rothi => Some(spu_shift::row_rothi(a, imm)),
        Row::Rot => Some(spu_shift::row_rot(a, b)),
        Row::Roti => Some(spu_shift::row_roti(a, imm)),
        Row::Rotqby => Some(spu_shift::row_rotqby(a, b)),
        Row::Rotqbyi => Some(spu_shift::row_rotqbyi(a, imm)),
        Row::Rotqbybi => Some(spu_shift::row_rotqbybi(a, b)),
        Row::Rotqbi => Some(spu_shift::row_rotqbi(a, b)),
        Row::Rotqbii => Some(spu_shift::row_rotqbii(a, imm)),
        Row::Rothm => Some(spu_shift::row_rothm(a, b)),
        Row::Rothmi => Some(spu_shift::row_rothmi(a, imm)),
        Row::Rotm => Some(spu_shift::row_rotm(a, b)),
        Row::Rotmi => Some(spu_shift::row_rotmi(a, imm)),
        Row::Rotqmby => Some(spu_shift::row_rotqmby(a, b)),
        Row::Rotqmbyi => Some(spu_shift::row_rotqmbyi(a, imm)),
        Row::Rotqmbybi => Some(spu_shift::row_rotqmbybi(a, b)),
        Row::Rotqmbi => Some(spu_shift::row_rotqmbi(a, b)),
        Row::Rotqmbii => Some(spu_shift::row_rotqmbii(a, imm)),
        Row::Rotmah => Some(spu_shift::row_rotmah(a, b)),
        Row::Rotmahi => Some(spu_shift::row_rotmahi(a, imm)),
        Row::Rotma => Some(spu_shift::row_rotma(a, b)),
        Row::Rotmai => Some(spu_shift::row_rotmai(a, imm)),
        _ => None,
    }
}
