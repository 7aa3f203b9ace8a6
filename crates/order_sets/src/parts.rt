//! The first elements of commands.

ghost use Rattle.std.specs.Prelude.{◌≡◌, ℕ, ◌||◌, true, IsTrue, ◌↔◌, ◌<◌, ◌≤◌, ◌+◌, vec_len, vec_capacity, IsOk, OnOk, OnErr};
ghost use Rattle.std.specs.List.{list_any};
ghost use Rattle.order_sets.specs.declared.facts.At.{At};
ghost use Rattle.order_sets.specs.declared.facts.Fact.TheVariants.{Elements};
ghost use Rattle.order_sets.specs.Facts.{covers};
ghost use Rattle.order_sets.specs.Holds.{in_part, is_part_inside, Touch};

use crate::facts::At;
use crate::run::Run;
use crate::runs;
use std::alloc::AllocError;

/// Of each command of a run, the elements below `below`.
#[derive(Clone, Copy, Drop)]
pub(crate) struct Part {
    pub(crate) run: Run,
    pub(crate) below: u16,
}

/// The first elements of one command.
pub(crate) fn single(chain: u8, cmd: u32, below: u16) -> Part
    ensures { (at : At) → in_part at result ≡ covers (Elements chain cmd below) at }
{
    Part {
        run: runs::single(chain, cmd),
        below,
    }
}

/// Whether the step is of one of these elements.
pub(crate) fn has(parts: &[Part], at: At) -> bool
    ensures { result ≡ list_any (in_part at) parts.now }
{
    parts
        .iter()
        .any(|p| runs::is_in(&p.run, at) && at.elem < p.below)
}

/// Whether the first part has no element that the second one hasn't.
fn is_inside(inner: &Part, outer: &Part) -> bool
    ensures { result ≡ is_part_inside outer.now inner.now }
{
    inner.below <= outer.below && runs::is_inside(&inner.run, &outer.run)
}

/// Whether the two have as many elements of a command, and their runs overlap, or the one goes on from the other.
fn touch(a: &Part, b: &Part) -> bool
    ensures { IsTrue result ↔ (a.now.below ≡ b.now.below) × Touch a.now.run b.now.run }
{
    a.below == b.below && runs::touch(&a.run, &b.run)
}

/// The part that has what either of two has.
fn merged(a: &Part, b: &Part) -> Part
    requires { (a.now.below ≡ b.now.below) × Touch a.now.run b.now.run }
    ensures { (at : At) → in_part at result ≡ (in_part at a.now || in_part at b.now) }
{
    Part {
        run: runs::merged(&a.run, &b.run),
        below: a.below,
    }
}

/// The part together with those that it touches, one after the other.
fn grown(parts: &[Part], part: Part) -> Part
    ensures more { (at : At) → in_part at part ≡ true → in_part at result ≡ true }
    ensures only { (at : At) → in_part at result ≡ true → (list_any (in_part at) parts.now || in_part at part) ≡ true }
{
    let mut whole = part;
    for p in parts {
        if touch(p, &whole) {
            whole = merged(p, &whole);
        }
    }
    whole
}

/// Whether one of the parts has no element less than this one.
fn covers(parts: &[Part], part: &Part) -> bool
    ensures { IsTrue result → (at : At) → in_part at part.now ≡ true → list_any (in_part at) parts.now ≡ true }
{
    parts.iter().any(|p| is_inside(part, p))
}

/// Whether the part at the place has no element less than this one.
fn covers_at(parts: &[Part], i: usize, part: &Part) -> bool
    ensures { IsTrue result → (at : At) → in_part at part.now ≡ true → list_any (in_part at) parts.now ≡ true }
{
    i < parts.len() && is_inside(part, &parts[i])
}

/// Adds a part, if it has any element, which takes in those that it touches, and answers whether it was new. Only where there is no room it may fail, and then all stays as it is.
pub(crate) fn add(parts: &mut Vec<Part>, part: Part) -> Result<bool, AllocError>
    ensures ok { OnOk result ((at : At) → list_any (in_part at) parts.new.items ≡ (list_any (in_part at) parts.old.items || in_part at part)) }
    ensures err { OnErr result (parts.new.items ≡ parts.old.items) }
    ensures len { vec_len parts.new ≤ vec_len parts.old + 1 }
    ensures capacity { vec_capacity parts.old ≤ vec_capacity parts.new }
    ensures room { vec_len parts.old < vec_capacity parts.old → IsOk result }
{
    if part.below == 0 || covers(parts.as_slice(), &part) {
        return Ok(false);
    }
    let whole = grown(parts.as_slice(), part);
    parts.push(whole)?;
    parts.retain(|p| !is_inside(p, &whole) || is_inside(&whole, p));
    Ok(true)
}

/// The same for a part that is looked for at the place first.
pub(crate) fn add_near(parts: &mut Vec<Part>, i: usize, part: Part) -> Result<bool, AllocError>
    ensures ok { OnOk result ((at : At) → list_any (in_part at) parts.new.items ≡ (list_any (in_part at) parts.old.items || in_part at part)) }
    ensures err { OnErr result (parts.new.items ≡ parts.old.items) }
    ensures len { vec_len parts.new ≤ vec_len parts.old + 1 }
    ensures capacity { vec_capacity parts.old ≤ vec_capacity parts.new }
    ensures room { vec_len parts.old < vec_capacity parts.old → IsOk result }
{
    if covers_at(parts.as_slice(), i, &part) {
        return Ok(false);
    }
    add(parts, part)
}
