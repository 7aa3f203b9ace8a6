//! Places that are marked, as ranges in their order, which don't touch.

ghost use Rattle.std.specs.Prelude.{◌≡◌, ◌<◌, ◌^◌, ◌++◌, length, IfOk, OnOk};
ghost use Rattle.trace_commands.specs.Ranges.{begin_of, end_of, mark_last, mark_text, ranges};

use cell_base::line_text::put_decimal;
use std::alloc::AllocError;

/// How ranges are written: what stands before the first place of each, and behind the last.
#[derive(Clone, Copy)]
pub enum Layout {
    /// A line each.
    Lines,
    /// Behind bars in one line.
    Bars,
}

/// Begins a range by its first place.
fn begin_range(out: &mut Vec<u8>, layout: Layout, first: u32) -> Result<(), AllocError>
    ensures { OnOk result (out.new.items ≡ out.old.items ++ begin_of layout first) }
{
    if let Layout::Bars = layout {
        out.extend_from_slice(b" | ")?;
    }
    put_decimal(out, first)
}

/// Ends a range by its last place, if one has begun.
fn end_range(out: &mut Vec<u8>, layout: Layout, last: Option<u32>) -> Result<(), AllocError>
    ensures { OnOk result (out.new.items ≡ out.old.items ++ end_of layout last) }
{
    let Some(last) = last else {
        return Ok(());
    };
    out.push(b' ')?;
    put_decimal(out, last)?;
    if let Layout::Lines = layout {
        out.push(b'\n')?;
    }
    Ok(())
}

/// Writes what a place begins or ends, where the range that has begun goes on to `last`, and answers to where one goes on behind it.
fn put_mark(
    out: &mut Vec<u8>,
    layout: Layout,
    last: Option<u32>,
    place: u32,
    is_marked: bool,
) -> Result<Option<u32>, AllocError>
    ensures text { OnOk result (out.new.items ≡ out.old.items ++ mark_text layout last place is_marked) }
    ensures last { IfOk result (λ next. next ≡ mark_last place is_marked) }
{
    if !is_marked {
        end_range(out, layout, last)?;
        return Ok(None);
    }
    if last.is_none() {
        begin_range(out, layout, place)?;
    }
    Ok(Some(place))
}

/// Writes the ranges of the places that are marked.
pub fn put_ranges(out: &mut Vec<u8>, layout: Layout, marks: &[bool]) -> Result<(), AllocError>
    requires { length marks.now < 2 ^ 32 }
    ensures { OnOk result (out.new.items ≡ out.old.items ++ ranges layout marks.now) }
{
    let mut last = None;
    let mut place: u32 = 0;
    for is_marked in marks {
        last = put_mark(out, layout, last, place, *is_marked)?;
        place += 1;
    }
    end_range(out, layout, last)
}
