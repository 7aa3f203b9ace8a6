//! Rows of the instruction table that compute with integers: constants, arithmetic, multiplies and compares.
//!
//! Each row is a function of quadwords, named by its mnemonic; `imm` is the raw field of the instruction,
//! and `t` the old value of the target register.
#![tactic(auto)]

mod arithmetic;
mod compare;
mod constants;
mod multiply;

pub use arithmetic::{
    row_a, row_addx, row_ah, row_ahi, row_ai, row_bg, row_bgx, row_cg, row_cgx, row_sf, row_sfh,
    row_sfhi, row_sfi, row_sfx,
};
pub use compare::{
    row_ceq, row_ceqb, row_ceqbi, row_ceqh, row_ceqhi, row_ceqi, row_cgt, row_cgtb, row_cgtbi,
    row_cgth, row_cgthi, row_cgti, row_clgt, row_clgtb, row_clgtbi, row_clgth, row_clgthi,
    row_clgti,
};
pub use constants::{row_fsmbi, row_il, row_ila, row_ilh, row_ilhu, row_iohl};
pub use multiply::{
    row_mpy, row_mpya, row_mpyh, row_mpyhh, row_mpyhha, row_mpyhhau, row_mpyhhu, row_mpyi,
    row_mpys, row_mpyu, row_mpyui,
};
