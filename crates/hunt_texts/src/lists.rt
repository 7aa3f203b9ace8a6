//! Texts one after the other.

ghost use Rattle.std.specs.Prelude.{◌≡◌, ◌++◌, OnOk};
ghost use Rattle.hunt_texts.specs.Lists.{separator, gap_text};

use std::alloc::AllocError;

/// Writes what separates the element at a place from those before it.
pub fn put_separator(out: &mut Vec<u8>, place: usize) -> Result<(), AllocError>
    ensures { OnOk result (out.new.items ≡ out.old.items ++ separator place) }
{
    if place == 0 {
        return Ok(());
    }
    out.extend_from_slice(b", ")
}

/// Writes what separates an item from those before it, if there are any.
pub fn put_gap(out: &mut Vec<u8>, begun: bool) -> Result<(), AllocError>
    ensures { OnOk result (out.new.items ≡ out.old.items ++ gap_text begun) }
{
    if begun {
        return out.extend_from_slice(b", ");
    }
    Ok(())
}
