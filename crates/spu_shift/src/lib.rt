//! Rows of the instruction table that shift and rotate.
//!
//! Each row is a function of quadwords, named by its mnemonic; `imm` is the raw field of the instruction.
//! Shifts fill with zeros unless said otherwise, and a count at or above the width leaves only fill.
#![tactic(auto)]

mod halves;
mod quadword;
mod words;

pub use halves::{
    row_roth, row_rothi, row_rothm, row_rothmi, row_rotmah, row_rotmahi, row_shlh, row_shlhi,
};
pub use quadword::{
    row_rotqbi, row_rotqbii, row_rotqby, row_rotqbybi, row_rotqbyi, row_rotqmbi, row_rotqmbii,
    row_rotqmby, row_rotqmbybi, row_rotqmbyi, row_shlqbi, row_shlqbii, row_shlqby, row_shlqbybi,
    row_shlqbyi,
};
pub use words::{row_rot, row_roti, row_rotm, row_rotma, row_rotmai, row_rotmi, row_shl, row_shli};
