//! The lines of a tally as JSON.

ghost use Rattle.std.specs.Prelude.{◌≡◌, ◌++◌, OnOk};
ghost use Rattle.std.specs.List.{flat_map};
ghost use Rattle.hunt_tally.specs.Tallies.{told_in};
ghost use Rattle.hunt_tally.specs.Lines.{told_by};
ghost use Rattle.hunt_tally.specs.Reports.{result_in};
ghost use Rattle.hunt_texts.specs.Jsons.{byte_json, string_json, runs_json, race_json, ending_json, result_json, missed_json, found_json};
ghost use Rattle.hunt_texts.specs.Rows.{row_json};

use crate::finding::key_word;
use crate::jsons::put_field_json;
use cell_base::line_text::put_hex;
use hunt_tally::{Line, Tally};
use std::alloc::AllocError;

/// What a line of a tally is printed as.
#[derive(Clone, Copy)]
pub enum Row {
    Race,
    Ending,
    Result,
    Missed,
    Finding,
    Warning,
}

/// The result of a line of results, which follows its ending and a line feed.
pub fn result_of<'a>(line: Line<'a>) -> &'a [u8]
    ensures { result.now ≡ result_in (told_by line.entry) }
{
    let start = line.shown.len() + 1;
    if start > line.key.len() {
        return &[];
    }
    &line.key[start..]
}

#[tactic(auto, unfolding(crate::specs::Jsons::byte_json))]
fn put_byte_json(out: &mut Vec<u8>, b: u8) -> Result<(), AllocError>
    ensures { OnOk result (out.new.items ≡ out.old.items ++ byte_json b) }
{
    if b == b'"' || b == b'\\' || b < 32 || b > 126 {
        out.extend_from_slice(b"\\u00")?;
        return put_hex(out, 2, u32::from(b));
    }
    out.push(b)?;
    Ok(())
}

/// Writes a string.
#[tactic(auto, unfolding(crate::specs::Jsons::string_json))]
pub fn put_string_json(out: &mut Vec<u8>, bytes: &[u8]) -> Result<(), AllocError>
    ensures { OnOk result (out.new.items ≡ out.old.items ++ string_json bytes.now) }
{
    out.push(b'"')?;
    for b in bytes {
        put_byte_json(out, *b)?;
    }
    out.push(b'"')?;
    Ok(())
}

/// Writes the end of an object.
#[tactic(auto, unfolding(crate::specs::Jsons::runs_json))]
fn put_runs_json(out: &mut Vec<u8>, from: u32, runs: u32, first: u32) -> Result<(), AllocError>
    ensures { OnOk result (out.new.items ≡ out.old.items ++ runs_json from runs first) }
{
    put_field_json(out, b",\"runs\":", u64::from(runs))?;
    put_field_json(out, b",\"first\":", u64::from(from) + u64::from(first))?;
    out.extend_from_slice(b"}\n")
}

fn put_race_json(out: &mut Vec<u8>, from: u32, line: Line<'_>) -> Result<(), AllocError>
    ensures { OnOk result (out.new.items ≡ out.old.items ++ race_json from (told_by line.entry)) }
{
    out.extend_from_slice(b"{\"race\":")?;
    put_string_json(out, line.shown)?;
    out.extend_from_slice(b",\"key\":")?;
    put_string_json(out, line.key)?;
    put_runs_json(out, from, line.runs, line.first)
}

fn put_ending_json(out: &mut Vec<u8>, from: u32, line: Line<'_>) -> Result<(), AllocError>
    ensures { OnOk result (out.new.items ≡ out.old.items ++ ending_json from (told_by line.entry)) }
{
    out.extend_from_slice(b"{\"end\":")?;
    put_string_json(out, line.key)?;
    put_runs_json(out, from, line.runs, line.first)
}

fn put_result_json(out: &mut Vec<u8>, from: u32, line: Line<'_>) -> Result<(), AllocError>
    ensures { OnOk result (out.new.items ≡ out.old.items ++ result_json from (told_by line.entry)) }
{
    out.extend_from_slice(b"{\"result\":")?;
    put_string_json(out, result_of(line))?;
    out.extend_from_slice(b",\"end\":")?;
    put_string_json(out, line.shown)?;
    put_runs_json(out, from, line.runs, line.first)
}

fn put_missed_json(out: &mut Vec<u8>, from: u32, line: Line<'_>) -> Result<(), AllocError>
    ensures { OnOk result (out.new.items ≡ out.old.items ++ missed_json from (told_by line.entry)) }
{
    out.extend_from_slice(b"{\"missed\":")?;
    put_string_json(out, line.key)?;
    put_runs_json(out, from, line.runs, line.first)
}

/// Writes a failure or a warning, with its kind after `name`.
fn put_found_json(
    out: &mut Vec<u8>,
    name: &[u8],
    from: u32,
    line: Line<'_>,
) -> Result<(), AllocError>
    ensures { OnOk result (out.new.items ≡ out.old.items ++ found_json name.now from (told_by line.entry)) }
{
    out.extend_from_slice(name)?;
    put_string_json(out, key_word(line.key))?;
    out.extend_from_slice(b",\"key\":")?;
    put_string_json(out, line.key)?;
    out.extend_from_slice(b",\"shown\":")?;
    put_string_json(out, line.shown)?;
    put_runs_json(out, from, line.runs, line.first)?;
    Ok(())
}

fn put_row(out: &mut Vec<u8>, row: Row, from: u32, line: Line<'_>) -> Result<(), AllocError>
    ensures { OnOk result (out.new.items ≡ out.old.items ++ row_json row from (told_by line.entry)) }
{
    match row {
        Row::Race => put_race_json(out, from, line),
        Row::Ending => put_ending_json(out, from, line),
        Row::Result => put_result_json(out, from, line),
        Row::Missed => put_missed_json(out, from, line),
        Row::Finding => put_found_json(out, b"{\"finding\":", from, line),
        Row::Warning => put_found_json(out, b"{\"warning\":", from, line),
    }
}

/// Writes all lines of a tally.
pub fn put_rows(out: &mut Vec<u8>, row: Row, from: u32, tally: &Tally) -> Result<(), AllocError>
    ensures { OnOk result (out.new.items ≡ out.old.items ++ flat_map (row_json row from) (told_in tally.now)) }
{
    for place in 0..tally.len() {
        put_row(out, row, from, tally.get(place))?;
    }
    Ok(())
}
