//! Reading a record.

ghost use Rattle.std.specs.Prelude.{◌≡◌, ℕ, ◌+◌, ◌-◌, ◌≤◌, ◌<◌, ◌++◌, ◌∷◌, [], List, None, Ok, Err, codes, length, replicate, IfSome, IfOk, OnOk, IsErrOf};
ghost use Rattle.cell_base.specs.Numbers.{Reads};
ghost use Rattle.cell_base.specs.declared.format.Format.{Format};
ghost use Rattle.cell_base.specs.Records.{spelling, AreSteps};
ghost use Rattle.cell_base.specs.declared.steps.Step.{Step};
ghost use Rattle.run_record.specs.Form.{BeginsWith, HasOneRecord, IsFault, IsOrMemory};
ghost use Rattle.run_record.specs.Reading.{after, field_at, end_at, exec_at, piece_at, elem_at, retire_at, atomic_at, host_at, step_at, stretch_at, alone, line_at, count_at, lines_at, record_at, Gives};
ghost use Rattle.run_record.specs.declared.error.RecordError.TheVariants.{BadLine};

use crate::error::RecordError;
use crate::recorded::Recorded;
use cell_base::line_text::number_at;
use cell_base::{Format, Step};
use std::alloc::{AllocError, Global};

/// How many steps a record may have, and the greatest number in each field of a step's line.
const MOST_STEPS: u32 = 1_000_000;

const LAST_SPE: u32 = 15;

const LAST_COMMAND: u32 = 999_999;

const LAST_ELEMENT: u32 = 2047;

const LAST_PART: u32 = 128;

/// A space and a number, and the bytes after them.
#[tactic(auto, unfolding(crate::specs::Reading::field_at))]
fn field_at(bytes: &[u8], limit: u32) -> Option<(u32, &[u8])>
    ensures value { Reads (λ x. (x.0, x.1.now)) result (field_at limit bytes.now) }
    ensures bound { IfSome result (λ x. x.0 ≤ limit) }
{
    match bytes {
        [b' ', rest @ ..] => number_at(rest, limit),
        _ => None,
    }
}

/// The bytes after a line feed.
#[tactic(auto, unfolding(crate::specs::Reading::end_at))]
fn end_at(bytes: &[u8]) -> Option<&[u8]>
    ensures { Reads (λ x. x.now) result (end_at bytes.now) }
{
    match bytes {
        [b'\n', rest @ ..] => Some(rest),
        _ => None,
    }
}

/// The rest of a line `x P`, and the bytes after it; likewise below.
#[tactic(auto, unfolding(crate::specs::Reading::exec_at))]
fn exec_at(bytes: &[u8]) -> Option<(Step, &[u8])>
    ensures { Reads (λ x. (x.0, x.1.now)) result (exec_at bytes.now) }
{
    let (spe, rest) = field_at(bytes, LAST_SPE)?;
    let rest = end_at(rest)?;
    Some((Step::Exec { spe: spe as u8 }, rest))
}

#[tactic(auto, unfolding(crate::specs::Reading::atomic_at))]
fn atomic_at(bytes: &[u8]) -> Option<(Step, &[u8])>
    ensures { Reads (λ x. (x.0, x.1.now)) result (atomic_at bytes.now) }
{
    let (spe, rest) = field_at(bytes, LAST_SPE)?;
    let rest = end_at(rest)?;
    Some((Step::Atomic { spe: spe as u8 }, rest))
}

#[tactic(auto, unfolding(crate::specs::Reading::elem_at))]
fn elem_at(bytes: &[u8]) -> Option<(Step, &[u8])>
    ensures { Reads (λ x. (x.0, x.1.now)) result (elem_at bytes.now) }
{
    let (spe, rest) = field_at(bytes, LAST_SPE)?;
    let (cmd, rest) = field_at(rest, LAST_COMMAND)?;
    let rest = end_at(rest)?;
    Some((
        Step::Elem {
            spe: spe as u8,
            cmd,
        },
        rest,
    ))
}

#[tactic(auto, unfolding(crate::specs::Reading::retire_at))]
fn retire_at(bytes: &[u8]) -> Option<(Step, &[u8])>
    ensures { Reads (λ x. (x.0, x.1.now)) result (retire_at bytes.now) }
{
    let (spe, rest) = field_at(bytes, LAST_SPE)?;
    let (cmd, rest) = field_at(rest, LAST_COMMAND)?;
    let rest = end_at(rest)?;
    Some((
        Step::Retire {
            spe: spe as u8,
            cmd,
        },
        rest,
    ))
}

#[tactic(auto, unfolding(crate::specs::Reading::piece_at))]
fn piece_at(bytes: &[u8]) -> Option<(Step, &[u8])>
    ensures { Reads (λ x. (x.0, x.1.now)) result (piece_at bytes.now) }
{
    let (spe, rest) = field_at(bytes, LAST_SPE)?;
    let (cmd, rest) = field_at(rest, LAST_COMMAND)?;
    let (elem, rest) = field_at(rest, LAST_ELEMENT)?;
    let (part, rest) = field_at(rest, LAST_PART)?;
    let rest = end_at(rest)?;
    Some((
        Step::Piece {
            spe: spe as u8,
            cmd,
            elem: elem as u16,
            part: part as u16,
        },
        rest,
    ))
}

#[tactic(auto, unfolding(crate::specs::Reading::host_at))]
fn host_at(bytes: &[u8]) -> Option<(Step, &[u8])>
    ensures { Reads (λ x. (x.0, x.1.now)) result (host_at bytes.now) }
{
    let rest = end_at(bytes)?;
    Some((Step::Host, rest))
}

/// The line of a step, and the bytes after it.
#[tactic(auto, unfolding(crate::specs::Reading::step_at))]
fn step_at(bytes: &[u8]) -> Option<(Step, &[u8])>
    ensures { Reads (λ x. (x.0, x.1.now)) result (step_at bytes.now) }
{
    match bytes {
        [b'x', rest @ ..] => exec_at(rest),
        [b'p', rest @ ..] => piece_at(rest),
        [b'e', rest @ ..] => elem_at(rest),
        [b'r', rest @ ..] => retire_at(rest),
        [b'a', rest @ ..] => atomic_at(rest),
        [b'h', rest @ ..] => host_at(rest),
        _ => None,
    }
}

/// The rest of a line `x P N` of format 2, and the bytes after it.
#[tactic(auto, unfolding(crate::specs::Reading::stretch_at))]
fn stretch_at(bytes: &[u8], room: u32, last: Option<Step>) -> Option<((Step, u32), &[u8])>
    ensures { Reads (λ x. (x.0, x.1.now)) result (stretch_at room last bytes.now) }
{
    let (spe, rest) = field_at(bytes, LAST_SPE)?;
    let (count, rest) = field_at(rest, room)?;
    let rest = end_at(rest)?;
    let step = Step::Exec { spe: spe as u8 };
    if count == 0 || last == Some(step) {
        return None;
    }
    Some(((step, count), rest))
}

/// The line of a step, which is made once, where there is room for so many steps more.
fn alone(bytes: &[u8], room: u32) -> Option<((Step, u32), &[u8])>
    ensures { Reads (λ x. (x.0, x.1.now)) result (alone room (step_at bytes.now)) }
{
    let (step, rest) = step_at(bytes)?;
    if room > 0 {
        Some(((step, 1), rest))
    } else {
        None
    }
}

/// The next line of a record: a step, how many times it is made, and the bytes after the line. There is room for so many steps more, and
/// this is the last of those before.
#[tactic(auto, unfolding(crate::specs::Reading::line_at, crate::specs::Reading::step_at))]
fn line_at(
    format: Format,
    bytes: &[u8],
    room: u32,
    last: Option<Step>,
) -> Option<((Step, u32), &[u8])>
    ensures { Reads (λ x. (x.0, x.1.now)) result (line_at format room last bytes.now) }
{
    match (format, bytes) {
        (Format::Two, [b'x', rest @ ..]) => stretch_at(rest, room, last),
        _ => alone(bytes, room),
    }
}

/// The bytes after this text.
fn after<'a>(text: &[u8], bytes: &'a [u8]) -> Option<&'a [u8]>
    ensures { Reads (λ x. x.now) result (after text.now bytes.now) }
{
    bytes.strip_prefix(text)
}

/// The bytes after the line `steps n`.
#[tactic(auto, unfolding(crate::specs::Reading::count_at))]
fn count_at(bytes: &[u8], n: u32) -> Option<&[u8]>
    ensures { Reads (λ x. x.now) result (count_at n bytes.now) }
{
    let rest = after(b"steps", bytes)?;
    let (count, rest) = field_at(rest, MOST_STEPS)?;
    if count != n {
        return None;
    }
    end_at(rest)
}

/// Puts a step at the end so many times.
fn push_all(steps: &mut Vec<Step>, step: Step, count: u32) -> Result<(), AllocError>
    ensures { OnOk result (steps.new.items ≡ steps.old.items ++ replicate count step) }
{
    for _ in 0..count {
        steps.push(step)?;
    }
    Ok(())
}

/// The steps whose lines stand here, and the bytes after the line with their number.
fn steps_of(alloc: Global, format: Format, bytes: &[u8]) -> Result<(Vec<Step>, &[u8]), RecordError>
    ensures { Gives (λ x. (x.0.items, x.1.now)) result (lines_at format 1000000 0 0 None bytes.now) }
{
    let mut steps = Vec::new(alloc);
    let mut rest = bytes;
    let mut lines: u32 = 0;
    let mut room = MOST_STEPS;
    let mut last = None;
    while let Some(((step, count), after)) = line_at(format, rest, room, last) {
        push_all(&mut steps, step, count)?;
        rest = after;
        lines += 1;
        room -= count;
        last = Some(step);
    }
    match count_at(rest, MOST_STEPS - room) {
        Some(after) => Ok((steps, after)),
        None => Err(RecordError::BadLine { line: lines + 2 }),
    }
}

/// The steps of the record at the front, and the bytes after it.
#[tactic(auto, unfolding(crate::specs::Reading::record_at))]
fn record_of(alloc: Global, text: &[u8]) -> Result<(Vec<Step>, &[u8]), RecordError>
    ensures { Gives (λ x. (x.0.items, x.1.now)) result (record_at text.now) }
{
    if let Some(rest) = after(b"cell-record 1\n", text) {
        return steps_of(alloc, Format::One, rest);
    }
    match after(b"cell-record 2\n", text) {
        Some(rest) => steps_of(alloc, Format::Two, rest),
        None => Err(RecordError::BadLine { line: 1 }),
    }
}

/// The record, of format 1 or 2, that stands at the front of a text, whatever follows it: the record ends with its line `steps N`.
/// `BadLine` where none does.
pub fn read_record(alloc: Global, text: &[u8]) -> Result<Recorded, RecordError>
    // What is read stands there.
    ensures found { IfOk result (BeginsWith text.now) }
    // What stands there is read: a record of either format is read back as its own steps, whatever follows.
    ensures read { (format : Format) (steps : List Step) (rest : List ℕ) → AreSteps steps → text.now ≡ spelling format steps ++ rest → IsOrMemory result (Ok (record { steps = steps; end = length (spelling format steps) })) }
    // No other record stands there.
    ensures one { HasOneRecord text.now }
    // The line is the first one outside the form.
    ensures bad_line { (line : ℕ) → IsErrOf result (BadLine line) → IsFault text.now line }
    // The first line outside the form is told.
    ensures fault { (line : ℕ) → IsFault text.now line → IsOrMemory result (Err (BadLine line)) }
{
    let (steps, rest) = record_of(alloc, text)?;
    Ok(Recorded {
        steps,
        end: text.len() - rest.len(),
    })
}
