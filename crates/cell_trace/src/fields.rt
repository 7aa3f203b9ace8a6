//! Fields behind bars, each of a name and words.

ghost use Rattle.std.specs.Prelude.{◌≡◌, ◌++◌, [], ◌∷◌, length, OnOk};
ghost use Rattle.std.specs.List.{flat_map};
ghost use Rattle.std.specs.Option.{option_map_or};
ghost use Rattle.cell_base.specs.Records.{field};
ghost use Rattle.cell_trace.specs.Fields.{word, numbers, named, kind_name, mark_name, atomic_name, command_words, atomic_field, status_field};

use cell_base::line_text::put_decimal;
use mfc_command::{AtomicKind, AtomicOp, Command, Kind, Mark};
use std::alloc::AllocError;

/// Writes a number behind a blank.
pub fn put_number(out: &mut Vec<u8>, n: u32) -> Result<(), AllocError>
    ensures { OnOk result (out.new.items ≡ out.old.items ++ field n) }
{
    out.push(b' ')?;
    put_decimal(out, n)
}

/// Writes numbers, each behind a blank.
pub fn put_numbers(out: &mut Vec<u8>, ns: &[u32]) -> Result<(), AllocError>
    ensures { OnOk result (out.new.items ≡ out.old.items ++ numbers ns.now) }
{
    for n in ns {
        put_number(out, *n)?;
    }
    Ok(())
}

/// Writes a word behind a blank.
pub fn put_word(out: &mut Vec<u8>, name: &[u8]) -> Result<(), AllocError>
    ensures { OnOk result (out.new.items ≡ out.old.items ++ word name.now) }
{
    out.extend_from_slice(b" ")?;
    out.extend_from_slice(name)
}

/// Writes a field of a name and numbers.
pub fn put_named(out: &mut Vec<u8>, name: &[u8], ns: &[u32]) -> Result<(), AllocError>
    ensures { OnOk result (out.new.items ≡ out.old.items ++ named name.now ns.now) }
{
    out.extend_from_slice(b" | ")?;
    out.extend_from_slice(name)?;
    put_numbers(out, ns)
}

fn put_kind(out: &mut Vec<u8>, kind: Kind) -> Result<(), AllocError>
    ensures { OnOk result (out.new.items ≡ out.old.items ++ word (kind_name kind)) }
{
    match kind {
        Kind::Put => put_word(out, b"put"),
        Kind::Get => put_word(out, b"get"),
        Kind::PutList => put_word(out, b"putl"),
        Kind::GetList => put_word(out, b"getl"),
        Kind::Barrier => put_word(out, b"barrier"),
        Kind::PutQueued => put_word(out, b"putqlluc"),
        Kind::Signal => put_word(out, b"sndsig"),
    }
}

fn put_mark(out: &mut Vec<u8>, mark: Mark) -> Result<(), AllocError>
    ensures { OnOk result (out.new.items ≡ out.old.items ++ word (mark_name mark)) }
{
    match mark {
        Mark::Plain => put_word(out, b"-"),
        Mark::Fenced => put_word(out, b"fence"),
        Mark::Barred => put_word(out, b"barrier"),
    }
}

fn put_atomic_kind(out: &mut Vec<u8>, kind: AtomicKind) -> Result<(), AllocError>
    ensures { OnOk result (out.new.items ≡ out.old.items ++ word (atomic_name kind)) }
{
    match kind {
        AtomicKind::GetLine => put_word(out, b"getllar"),
        AtomicKind::PutCond => put_word(out, b"putllc"),
        AtomicKind::PutLine => put_word(out, b"putlluc"),
    }
}

/// Writes a command: its number, kind, mark, tag, addresses and size.
pub fn put_command(out: &mut Vec<u8>, number: u32, command: Command) -> Result<(), AllocError>
    ensures { OnOk result (out.new.items ≡ out.old.items ++ command_words number command) }
{
    put_number(out, number)?;
    put_kind(out, command.kind)?;
    put_mark(out, command.mark)?;
    let tag = u32::from(command.tag);
    put_numbers(out, &[tag, command.ls, 0, command.ea, command.size])
}

/// Writes the field of an atomic command.
pub fn put_atomic(out: &mut Vec<u8>, atomic: AtomicOp) -> Result<(), AllocError>
    ensures { OnOk result (out.new.items ≡ out.old.items ++ atomic_field atomic) }
{
    put_named(out, b"atomic", &[])?;
    put_atomic_kind(out, atomic.kind)?;
    put_numbers(out, &[atomic.ls, atomic.line])
}

/// The same, if there is one.
pub fn put_slot(out: &mut Vec<u8>, slot: Option<AtomicOp>) -> Result<(), AllocError>
    ensures { OnOk result (out.new.items ≡ out.old.items ++ option_map_or atomic_field slot []) }
{
    match slot {
        Some(atomic) => put_atomic(out, atomic),
        None => Ok(()),
    }
}

/// Writes the field of an unread status, if there is one.
pub fn put_status(out: &mut Vec<u8>, status: Option<u32>) -> Result<(), AllocError>
    ensures { OnOk result (out.new.items ≡ out.old.items ++ option_map_or status_field status []) }
{
    match status {
        Some(status) => put_named(out, b"status", &[status]),
        None => Ok(()),
    }
}
