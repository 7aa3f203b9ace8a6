//! The tellings of a report.

ghost use Rattle.std.specs.Prelude.{◌≡◌, [], ◌∷◌, ◌++◌, map, IfOk};
ghost use Rattle.cell_base.specs.Records.{line_feed};
ghost use Rattle.hunt_tally.specs.Reports.{line_told};

use crate::telling::Telling;
use std::alloc::{AllocError, Global};

/// An ending.
pub fn ending_told(alloc: Global, ending: &[u8]) -> Result<Vec<Telling>, AllocError>
    ensures { IfOk result (λ v. v.items ≡ record { key = ending.now; shown = [] } ∷ []) }
{
    let key = Vec::from_slice(alloc, ending)?;
    let shown = Vec::new(alloc);
    let mut tellings = Vec::new(alloc);
    tellings.push(Telling { key, shown })?;
    Ok(tellings)
}

/// A result, which is one within its ending.
pub fn result_told(
    alloc: Global,
    ending: Vec<u8>,
    result_bytes: &[u8],
) -> Result<Vec<Telling>, AllocError>
    ensures { IfOk result (λ v. v.items ≡ record { key = ending.items ++ line_feed ++ result_bytes.now; shown = ending.items } ∷ []) }
{
    let mut key = Vec::from_slice(alloc, ending.as_slice())?;
    key.push(b'\n')?;
    key.extend_from_slice(result_bytes)?;
    let mut tellings = Vec::new(alloc);
    tellings.push(Telling { key, shown: ending })?;
    Ok(tellings)
}

/// The expected lines that aren't there.
pub fn missed_told(alloc: Global, missed: Vec<Vec<u8>>) -> Result<Vec<Telling>, AllocError>
    ensures { IfOk result (λ v. v.items ≡ map line_told (map (λ line. line.items) missed.items)) }
{
    let mut tellings = Vec::new(alloc);
    for key in missed {
        let shown = Vec::new(alloc);
        tellings.push(Telling { key, shown })?;
    }
    Ok(tellings)
}
