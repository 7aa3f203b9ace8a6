//! The results of the runs that end alike, if they differ.

ghost use Rattle.std.specs.Prelude.{◌≡◌, ◌++◌, ◌+◌, ◌<◌, take, length, map, OnOk};
ghost use Rattle.cell_base.specs.Words.{lines_of};
ghost use Rattle.hunt_tally.specs.Lines.{told_by};
ghost use Rattle.hunt_texts.specs.Lists.{from_place};
ghost use Rattle.hunt_texts.specs.About.{facts};
ghost use Rattle.hunt_texts.specs.Results.{results_head, result_text, more_results, counts_line, apart, next_line, run_line, writer_line, lines_apart, pair_lines, second_lines, group_lines, results_lines};

use crate::about::About;
use crate::commands::put_command;
use crate::ends::PRINTED;
use crate::lists::put_separator;
use crate::numbers::{put_counted, put_number, put_word};
use crate::rows::result_of;
use crate::watches::put_watch;
use cell_base::line_text::first_line;
use hunt_tally::Line;
use std::alloc::AllocError;

/// Writes how many results there are, and how the runs end.
#[tactic(auto, unfolding(crate::specs::Results::results_head))]
fn put_head(out: &mut Vec<u8>, results: usize, ending: &[u8]) -> Result<(), AllocError>
    ensures { OnOk result (out.new.items ≡ out.old.items ++ results_head results ending.now) }
{
    out.extend_from_slice(b"results: ")?;
    put_word(
        out,
        results as u64,
        b" different ones in the runs that end ",
    )?;
    out.extend_from_slice(ending)?;
    out.push(b'\n')?;
    Ok(())
}

fn put_result(out: &mut Vec<u8>, from: u32, place: usize, line: Line<'_>) -> Result<(), AllocError>
    ensures { OnOk result (out.new.items ≡ out.old.items ++ result_text from place (told_by line.entry)) }
{
    put_separator(out, place)?;
    put_counted(out, from, line.runs, line.first)
}

/// The results that are printed.
fn printed<'a, 'b>(results: &'b [Line<'a>]) -> &'b [Line<'a>]
    ensures { map told_by result.now ≡ take 8 (map told_by results.now) }
{
    &results[..results.len().min(PRINTED)]
}

/// Writes the number of runs of each result, and the first of them.
fn put_results_of(out: &mut Vec<u8>, from: u32, results: &[Line<'_>]) -> Result<(), AllocError>
    ensures { OnOk result (out.new.items ≡ out.old.items ++ from_place (result_text from) 0 (map told_by results.now)) }
{
    for place in 0..results.len() {
        put_result(out, from, place, results[place])?;
    }
    Ok(())
}

/// Writes how many results are not printed, if there are any.
#[tactic(auto, unfolding(crate::specs::Results::more_results))]
fn put_more(out: &mut Vec<u8>, results: usize) -> Result<(), AllocError>
    ensures { OnOk result (out.new.items ≡ out.old.items ++ more_results results) }
{
    if results <= PRINTED {
        return Ok(());
    }
    out.extend_from_slice(b", and ")?;
    put_word(out, (results - PRINTED) as u64, b" more")
}

#[tactic(auto, unfolding(crate::specs::Results::counts_line))]
fn put_counts(out: &mut Vec<u8>, from: u32, results: &[Line<'_>]) -> Result<(), AllocError>
    ensures { OnOk result (out.new.items ≡ out.old.items ++ counts_line from (map told_by results.now)) }
{
    out.extend_from_slice(b"  ")?;
    put_results_of(out, from, printed(results))?;
    put_more(out, results.len())?;
    out.push(b'\n')?;
    Ok(())
}

/// The first line of a rest, if it has one.
fn next_line(rest: &[u8]) -> &[u8]
    ensures { result.now ≡ next_line (lines_of rest.now) }
{
    if rest.is_empty() {
        return b"nothing more";
    }
    first_line(rest).0
}

/// Two texts from the first line on in which they differ.
#[derive(Clone, Copy)]
struct Apart<'a> {
    rest: &'a [u8],
    other: &'a [u8],
}

#[tactic(auto, using(crate::proofs::LineLemmas::first_ends, crate::proofs::LineLemmas::second_ends, crate::proofs::LineLemmas::differ_here, crate::proofs::LineLemmas::differ_later))]
fn differing<'a>(text: &'a [u8], other_text: &'a [u8]) -> Apart<'a>
    ensures { apart (lines_of text.now) (lines_of other_text.now) ≡ (lines_of result.rest.now, lines_of result.other.now) }
{
    let mut rest = text;
    let mut other = other_text;
    while !rest.is_empty() {
        if other.is_empty() {
            return Apart { rest, other };
        }
        let (line, after) = first_line(rest);
        let (other_line, other_after) = first_line(other);
        if line != other_line {
            return Apart { rest, other };
        }
        rest = after;
        other = other_after;
    }
    Apart { rest, other }
}

/// Writes the line of a run in which its result differs.
#[tactic(auto, unfolding(crate::specs::Results::run_line))]
fn put_run_line(out: &mut Vec<u8>, run: u64, line: &[u8]) -> Result<(), AllocError>
    ensures { OnOk result (out.new.items ≡ out.old.items ++ run_line run line.now) }
{
    out.extend_from_slice(b"  run ")?;
    put_number(out, run)?;
    out.extend_from_slice(b": ")?;
    out.extend_from_slice(line)?;
    out.push(b'\n')?;
    Ok(())
}

/// Writes how to find the step that wrote the byte in which two lines differ.
#[tactic(auto, unfolding(crate::specs::Results::writer_line))]
fn put_writer(
    out: &mut Vec<u8>,
    about: &About,
    run: u64,
    line: &[u8],
    other: &[u8],
) -> Result<(), AllocError>
    ensures { OnOk result (out.new.items ≡ out.old.items ++ writer_line (facts about.now) run line.now other.now) }
{
    out.extend_from_slice(b"  who wrote it: ")?;
    put_command(out, about, b"debug", run)?;
    put_watch(out, line, other)?;
    out.push(b'\n')?;
    Ok(())
}

/// Writes two lines that differ, each of a run, and how to find who wrote the first.
#[tactic(auto, unfolding(crate::specs::Results::lines_apart))]
fn put_lines_apart(
    out: &mut Vec<u8>,
    about: &About,
    first: u64,
    second: u64,
    line: &[u8],
    other: &[u8],
) -> Result<(), AllocError>
    ensures { OnOk result (out.new.items ≡ out.old.items ++ lines_apart (facts about.now) first second line.now other.now) }
{
    put_run_line(out, first, line)?;
    put_run_line(out, second, other)?;
    put_writer(out, about, first, line, other)
}

/// Writes how two results differ.
#[tactic(auto, unfolding(crate::specs::Results::pair_lines))]
fn put_pair(
    out: &mut Vec<u8>,
    about: &About,
    one: Line<'_>,
    other: Line<'_>,
) -> Result<(), AllocError>
    ensures { OnOk result (out.new.items ≡ out.old.items ++ pair_lines (facts about.now) (told_by one.entry) (told_by other.entry)) }
{
    let first = u64::from(about.from) + u64::from(one.first);
    let second = u64::from(about.from) + u64::from(other.first);
    let differ = differing(result_of(one), result_of(other));
    put_lines_apart(
        out,
        about,
        first,
        second,
        next_line(differ.rest),
        next_line(differ.other),
    )
}

/// Writes how the second result differs from the first.
fn put_second(out: &mut Vec<u8>, about: &About, results: &[Line<'_>]) -> Result<(), AllocError>
    requires { 1 < length results.now }
    ensures { OnOk result (out.new.items ≡ out.old.items ++ second_lines (facts about.now) (map told_by results.now)) }
{
    put_pair(out, about, results[0], results[1])
}

#[tactic(auto, unfolding(crate::specs::Results::group_lines))]
fn put_group(
    out: &mut Vec<u8>,
    about: &About,
    ending: &[u8],
    results: &[Line<'_>],
) -> Result<(), AllocError>
    requires { 1 < length results.now }
    ensures { OnOk result (out.new.items ≡ out.old.items ++ group_lines (facts about.now) ending.now (map told_by results.now)) }
{
    put_head(out, results.len(), ending)?;
    put_counts(out, about.from, results)?;
    put_second(out, about, results)
}

/// Writes the results of an ending, if there is more than one.
pub fn put_results(
    out: &mut Vec<u8>,
    about: &About,
    ending: &[u8],
    results: &[Line<'_>],
) -> Result<(), AllocError>
    ensures { OnOk result (out.new.items ≡ out.old.items ++ results_lines (facts about.now) ending.now (map told_by results.now)) }
{
    if results.len() < 2 {
        return Ok(());
    }
    put_group(out, about, ending, results)
}
