//! How many classes of equivalent runs there are.

ghost use Rattle.std.specs.Prelude.{◌≡◌, ◌++◌, OnOk};
ghost use Rattle.std.specs.Fmt.{decimal};
ghost use Rattle.hunt_texts.specs.Coverage.{percent, share_text, once_text, seen_text, classes_line, coverage_line};

use crate::numbers::{put_units, put_word};
use hunt_tally::Kinds;
use std::alloc::AllocError;

/// How many of 100 further runs would be of a new class.
fn percent(once: u64, runs: u32) -> u128
    ensures { result ≡ percent once runs }
{
    if runs == 0 {
        return 0;
    }
    (100 * u128::from(once) + u128::from(runs / 2)) / u128::from(runs)
}

/// Writes a number in decimal.
fn put_percent(out: &mut Vec<u8>, n: u128) -> Result<(), AllocError>
    ensures { OnOk result (out.new.items ≡ out.old.items ++ decimal n) }
{
    let alloc = *out.allocator();
    let text = format!(in alloc; "{n}")?;
    out.extend_from_slice(text.as_bytes())
}

/// Writes the share of further runs that would be of a new class.
#[tactic(auto, unfolding(crate::specs::Coverage::share_text))]
fn put_share(out: &mut Vec<u8>, once: u64, runs: u32) -> Result<(), AllocError>
    ensures { OnOk result (out.new.items ≡ out.old.items ++ share_text once runs) }
{
    if 200 * u128::from(once) < u128::from(runs) {
        return out.extend_from_slice(b"fewer than 1%");
    }
    out.extend_from_slice(b"about ")?;
    put_percent(out, percent(once, runs))?;
    out.push(b'%')?;
    Ok(())
}

#[tactic(auto, unfolding(crate::specs::Coverage::once_text))]
fn put_once(out: &mut Vec<u8>, once: u64, runs: u32) -> Result<(), AllocError>
    ensures { OnOk result (out.new.items ≡ out.old.items ++ once_text once runs) }
{
    out.extend_from_slice(b", ")?;
    put_word(out, once, b" seen only once; ")?;
    put_share(out, once, runs)?;
    out.extend_from_slice(b" of further runs would be new")
}

/// Writes how many classes one run alone is in.
fn put_seen(out: &mut Vec<u8>, once: u64, runs: u32) -> Result<(), AllocError>
    ensures { OnOk result (out.new.items ≡ out.old.items ++ seen_text once runs) }
{
    if once == 0 {
        return out.extend_from_slice(b", each seen more than once");
    }
    put_once(out, once, runs)
}

#[tactic(auto, unfolding(crate::specs::Coverage::classes_line))]
fn put_classes(out: &mut Vec<u8>, classes: u64, once: u64, runs: u32) -> Result<(), AllocError>
    ensures { OnOk result (out.new.items ≡ out.old.items ++ classes_line classes once runs) }
{
    out.extend_from_slice(b"coverage: ")?;
    put_units(
        out,
        classes,
        b"1 class of equivalent runs",
        b" classes of equivalent runs",
    )?;
    put_seen(out, once, runs)?;
    out.push(b'\n')?;
    Ok(())
}

/// Writes the line of the coverage.
pub fn put_coverage(out: &mut Vec<u8>, kinds: &Kinds, runs: u32) -> Result<(), AllocError>
    ensures { OnOk result (out.new.items ≡ out.old.items ++ coverage_line kinds.now runs) }
{
    put_classes(out, kinds.len() as u64, kinds.seen_once() as u64, runs)
}
