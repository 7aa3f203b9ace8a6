//! Counts of runs as text.

ghost use Rattle.std.specs.Prelude.{◌≡◌, ◌+◌, ◌++◌, OnOk};
ghost use Rattle.std.specs.Fmt.{decimal};
ghost use Rattle.hunt_texts.specs.Numbers.{word_text, units_text, runs_text, first_text, counted_text};

use std::alloc::AllocError;

/// Writes a number in decimal at the end.
pub fn put_number(out: &mut Vec<u8>, n: u64) -> Result<(), AllocError>
    ensures { OnOk result (out.new.items ≡ out.old.items ++ decimal n) }
{
    let alloc = *out.allocator();
    let text = format!(in alloc; "{n}")?;
    out.extend_from_slice(text.as_bytes())
}

/// Writes a number, and the text after it.
#[tactic(auto, unfolding(crate::specs::Numbers::word_text))]
pub fn put_word(out: &mut Vec<u8>, n: u64, word: &[u8]) -> Result<(), AllocError>
    ensures { OnOk result (out.new.items ≡ out.old.items ++ word_text n word.now) }
{
    put_number(out, n)?;
    out.extend_from_slice(word)
}

/// Writes `one` for one thing, otherwise a number of them.
pub fn put_units(out: &mut Vec<u8>, n: u64, one: &[u8], many: &[u8]) -> Result<(), AllocError>
    ensures { OnOk result (out.new.items ≡ out.old.items ++ units_text n one.now many.now) }
{
    if n == 1 {
        return out.extend_from_slice(one);
    }
    put_word(out, n, many)
}

/// Writes a number of runs.
pub fn put_runs(out: &mut Vec<u8>, runs: u32) -> Result<(), AllocError>
    ensures { OnOk result (out.new.items ≡ out.old.items ++ runs_text runs) }
{
    put_units(out, u64::from(runs), b"1 run", b" runs")
}

/// Writes the number of the first run of several.
#[tactic(auto, unfolding(crate::specs::Numbers::first_text))]
pub fn put_first_run(out: &mut Vec<u8>, run: u64) -> Result<(), AllocError>
    ensures { OnOk result (out.new.items ≡ out.old.items ++ first_text run) }
{
    out.extend_from_slice(b" (first: run ")?;
    put_word(out, run, b")")?;
    Ok(())
}

/// Writes the number of runs, and the first of them, which counts from the hunt's first run.
#[tactic(auto, unfolding(crate::specs::Numbers::counted_text))]
pub fn put_counted(out: &mut Vec<u8>, from: u32, runs: u32, first: u32) -> Result<(), AllocError>
    ensures { OnOk result (out.new.items ≡ out.old.items ++ counted_text from runs first) }
{
    put_runs(out, runs)?;
    put_first_run(out, u64::from(from) + u64::from(first))
}
