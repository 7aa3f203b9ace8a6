//! Numbers and bytes in hexadecimal.

ghost use Rattle.std.specs.Prelude.{◌≡◌, ◌<◌, ◌++◌, OnOk};
ghost use Rattle.std.specs.List.{flat_map};
ghost use Rattle.cell_base.specs.Hex.{hex, hex_glyph, byte_hex};

use std::alloc::AllocError;

fn hex_glyph(digit: u8) -> u8
    requires { digit < 16 }
    ensures { result ≡ hex_glyph digit }
{
    if digit < 10 {
        b'0' + digit
    } else {
        b'a' - 10 + digit
    }
}

/// Writes the last `width` hexadecimal digits of a number at the end.
pub fn put_hex(out: &mut Vec<u8>, width: u32, n: u32) -> Result<(), AllocError>
    ensures { OnOk result (out.new.items ≡ out.old.items ++ hex width n) }
{
    if width == 0 {
        return Ok(());
    }
    put_hex(out, width - 1, n / 16)?;
    out.push(hex_glyph((n % 16) as u8))?;
    Ok(())
}

/// Writes bytes at the end, each as two hexadecimal digits.
pub fn put_hex_bytes(out: &mut Vec<u8>, bytes: &[u8]) -> Result<(), AllocError>
    ensures { OnOk result (out.new.items ≡ out.old.items ++ flat_map byte_hex bytes.now) }
{
    for b in bytes {
        out.push(hex_glyph(*b / 16))?;
        out.push(hex_glyph(*b % 16))?;
    }
    Ok(())
}
