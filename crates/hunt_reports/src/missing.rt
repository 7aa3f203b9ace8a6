//! Expected lines that a text doesn't have.

ghost use Rattle.std.specs.Prelude.{◌≡◌, OnOk, IfOk};
ghost use Rattle.hunt_reports.specs.Missing.{has_line, missed_in, with_line};
ghost use Rattle.hunt_reports.specs.Lists.{bytes_in};

use cell_base::line_text::first_line;
use std::alloc::{AllocError, Global};

/// Whether a text has a line.
fn has_line(text: &[u8], line: &[u8]) -> bool
    ensures { result ≡ has_line text.now line.now }
{
    let mut rest = text;
    while !rest.is_empty() {
        let (first, after) = first_line(rest);
        if line == first {
            return true;
        }
        rest = after;
    }
    false
}

/// Takes in an expected line, if a text doesn't have it.
fn take_line(
    alloc: Global,
    missed: &mut Vec<Vec<u8>>,
    text: &[u8],
    line: &[u8],
) -> Result<(), AllocError>
    ensures { OnOk result (bytes_in missed.new.items ≡ with_line text.now line.now (bytes_in missed.old.items)) }
{
    if has_line(text, line) {
        return Ok(());
    }
    missed.push(Vec::from_slice(alloc, line)?)?;
    Ok(())
}

/// The expected lines that a text doesn't have.
pub fn missed_in(
    alloc: Global,
    text: &[u8],
    expected: &[Vec<u8>],
) -> Result<Vec<Vec<u8>>, AllocError>
    ensures { IfOk result (λ v. bytes_in v.items ≡ missed_in text.now (bytes_in expected.now)) }
{
    let mut missed = Vec::new(alloc);
    for line in expected {
        take_line(alloc, &mut missed, text, line.as_slice())?;
    }
    Ok(missed)
}
