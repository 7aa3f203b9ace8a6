//! The lines of the sources as JSON.

ghost use Rattle.std.specs.Prelude.{◌≡◌, ◌++◌, flat_map, OnOk};
ghost use Rattle.hunt_texts.specs.Lists.{from_place};
ghost use Rattle.hunt_texts.specs.Jsons.{executed_json, line_json, line_at, source_json};

use crate::kinds::put_comma_json;
use crate::numbers::put_number;
use crate::rows::put_string_json;
use hunt_tally::{LineCoverage, SourceCoverage};
use std::alloc::AllocError;

fn put_executed(out: &mut Vec<u8>, executed: bool) -> Result<(), AllocError>
    ensures { OnOk result (out.new.items ≡ out.old.items ++ executed_json executed) }
{
    if executed {
        return out.extend_from_slice(b",1]");
    }
    out.extend_from_slice(b",0]")
}

#[tactic(auto, unfolding(crate::specs::Jsons::line_json))]
fn put_line(out: &mut Vec<u8>, line: LineCoverage) -> Result<(), AllocError>
    ensures { OnOk result (out.new.items ≡ out.old.items ++ line_json line) }
{
    out.extend_from_slice(b"[")?;
    put_number(out, u64::from(line.number))?;
    put_executed(out, line.executed)
}

fn put_line_at(out: &mut Vec<u8>, place: usize, line: LineCoverage) -> Result<(), AllocError>
    ensures { OnOk result (out.new.items ≡ out.old.items ++ line_at place line) }
{
    put_comma_json(out, place)?;
    put_line(out, line)
}

fn put_lines(out: &mut Vec<u8>, lines: &[LineCoverage]) -> Result<(), AllocError>
    ensures { OnOk result (out.new.items ≡ out.old.items ++ from_place line_at 0 lines.now) }
{
    for place in 0..lines.len() {
        put_line_at(out, place, lines[place])?;
    }
    Ok(())
}

#[tactic(auto, unfolding(crate::specs::Jsons::source_json))]
fn put_source(out: &mut Vec<u8>, source: &SourceCoverage) -> Result<(), AllocError>
    ensures { OnOk result (out.new.items ≡ out.old.items ++ source_json source.now) }
{
    out.extend_from_slice(b"{\"source\":")?;
    put_string_json(out, source.name.as_slice())?;
    out.extend_from_slice(b",\"lines\":[")?;
    put_lines(out, source.lines.as_slice())?;
    out.extend_from_slice(b"]}\n")
}

/// Writes an object for each source.
pub fn put_sources_json(out: &mut Vec<u8>, coverage: &[SourceCoverage]) -> Result<(), AllocError>
    ensures { OnOk result (out.new.items ≡ out.old.items ++ flat_map source_json coverage.now) }
{
    for source in coverage {
        put_source(out, source)?;
    }
    Ok(())
}
