//! Rows of the instruction table that work on single bits and bytes: counting, masks, logic, shuffles and insertion controls.
#![tactic(auto)]

mod counting;
mod insertion;
mod logic;
mod masks;

pub use counting::{
    row_absdb, row_avgb, row_clz, row_cntb, row_sumb, row_xsbh, row_xshw, row_xswd,
};
pub use insertion::{
    row_cbd, row_cbx, row_cdd, row_cdx, row_chd, row_chx, row_cwd, row_cwx, row_shufb,
};
pub use logic::{
    row_and, row_andbi, row_andc, row_andhi, row_andi, row_eqv, row_nand, row_nor, row_or,
    row_orbi, row_orc, row_orhi, row_ori, row_orx, row_selb, row_xor, row_xorbi, row_xorhi,
    row_xori,
};
pub use masks::{row_fsm, row_fsmb, row_fsmh, row_gb, row_gbb, row_gbh};
