ghost use Rattle.std.specs.Prelude.{◌≡◌, map};
ghost use Rattle.std.specs.List.{find};
ghost use Rattle.std.specs.Str.{bytes_eq};
ghost use Rattle.spu_decode.specs.Names.{row_named};
ghost use Rattle.spu_decode.specs.Spelling.{mnemonic_of};

use crate::index_of;
use crate::row::Row;
use crate::table::{MNEMONICS, ROWS};

/// The mnemonic of a row.
pub fn mnemonic(row: Row) -> &'static str
    ensures { result.now ≡ mnemonic_of row }
{
    mnemonics()[index_of(row)]
}

fn mnemonics() -> &'static [&'static str]
    ensures { map (λ text. text.now) result.now ≡ map mnemonic_of ROWS }
{
    &MNEMONICS
}

/// The row with a mnemonic, if there is one.
#[tactic(auto, unfolding(crate::specs::Names::row_named))]
pub fn row_named(name: &[u8]) -> Option<Row>
    ensures { result ≡ row_named name.now }
{
    named_in(&ROWS, name)
}

fn named_in(rows: &[Row], name: &[u8]) -> Option<Row>
    ensures { result ≡ find (λ row. bytes_eq (mnemonic_of row) name.now) rows.now }
{
    rows.iter()
        .copied()
        .find(|row| mnemonic(*row).as_bytes() == name)
}
