// What the lines of a script print.

ghost use Rattle.std.specs.Prelude.{◌≡◌, ◌<◌, ◌≤◌, ◌+◌, ◌*◌, ◌%◌, ◌++◌, List, ℕ, length, OnOk, IsSomeAnd};
ghost use Rattle.local_store.specs.Store.{word_at};
ghost use Rattle.spu_regs.specs.Registers.{register};
ghost use Rattle.cell_machine.specs.Run.{spe_of, state_of};
ghost use Rattle.state_lines.specs.Ends.{end_of};
ghost use Rattle.state_lines.specs.Lines.{end_line, register_line};
ghost use Rattle.cell_debug.specs.Debug.{word_line, word_lines};

use crate::error::DebugError;
use cell_base::line_text::put_hex;
use cell_machine::Machine;
use local_store::LocalStore;
use spu_dis::disassemble;
use state_lines::{put_end, put_register};
use std::alloc::{AllocError, Global};

/// Writes a word with its address, and the instruction that it is.
fn put_word(alloc: Global, out: &mut Vec<u8>, at: u32, word: u32) -> Result<(), DebugError>
    requires aligned { at % 4 ≡ 0 }
    requires within { at < 262144 }
    ensures { OnOk result (out.new.items ≡ out.old.items ++ word_line at word) }
{
    out.extend_from_slice(b"0x")?;
    put_hex(out, 5, at)?;
    out.extend_from_slice(b" 0x")?;
    put_hex(out, 8, word)?;
    out.push(b' ')?;
    let instruction = disassemble(alloc, at, word)?;
    out.extend_from_slice(instruction.as_slice())?;
    out.push(b'\n')?;
    Ok(())
}

/// Writes words of a store from an address on.
pub(crate) fn put_words(
    alloc: Global,
    out: &mut Vec<u8>,
    store: &LocalStore,
    at: u32,
    count: u32,
) -> Result<(), DebugError>
    requires aligned { at % 4 ≡ 0 }
    requires within { at + 4 * count ≤ 262144 }
    ensures { OnOk result (out.new.items ≡ out.old.items ++ word_lines store.now at count) }
{
    for k in 0..count {
        let place = at + 4 * k;
        put_word(alloc, out, place, store.word(place))?;
    }
    Ok(())
}

/// Writes the line of a register, zero or not.
pub(crate) fn put_register_of(
    out: &mut Vec<u8>,
    m: &Machine,
    spe: u8,
    r: u8,
) -> Result<(), AllocError>
    requires spe { spe < length m.now.setup.entries }
    requires register { r < 128 }
    ensures { OnOk result (IsSomeAnd (spe_of m.now spe) (λ P. out.new.items ≡ out.old.items ++ register_line r (register P.registers r))) }
{
    put_register(out, r, m.register(spe, r))
}

/// Writes the line of the end word.
pub(crate) fn put_end_of(out: &mut Vec<u8>, m: &Machine) -> Result<(), AllocError>
    ensures { OnOk result (IsSomeAnd (state_of m.now) (λ M. out.new.items ≡ out.old.items ++ end_line (end_of M m.now.setup.budget))) }
{
    put_end(out, m.end())
}
