//! Runs of whole commands.

ghost use Rattle.std.specs.Prelude.{◌≡◌, ℕ, ◌||◌, true, IsTrue, ◌↔◌, ◌<◌, ◌≤◌, ◌+◌, vec_len, vec_capacity, IsOk, OnOk, OnErr};
ghost use Rattle.std.specs.List.{list_any};
ghost use Rattle.order_sets.specs.declared.facts.At.{At};
ghost use Rattle.order_sets.specs.declared.facts.Fact.TheVariants.{Whole};
ghost use Rattle.order_sets.specs.Facts.{covers};
ghost use Rattle.order_sets.specs.Holds.{in_run, is_inside, Touch};

use crate::facts::At;
use crate::run::Run;
use std::alloc::AllocError;

/// The run of one command.
pub(crate) fn single(chain: u8, cmd: u32) -> Run
    ensures { (at : At) → in_run at result ≡ covers (Whole chain cmd) at }
{
    Run {
        chain,
        first: cmd,
        last: cmd,
    }
}

/// Whether the run has the step's command.
pub(crate) fn is_in(run: &Run, at: At) -> bool
    ensures { result ≡ in_run at run.now }
{
    run.chain == at.chain && run.first <= at.cmd && at.cmd <= run.last
}

/// Whether a run has the step's command.
pub(crate) fn has(runs: &[Run], at: At) -> bool
    ensures { result ≡ list_any (in_run at) runs.now }
{
    runs.iter().any(|r| is_in(r, at))
}

/// Whether the two runs overlap, or the one goes on from the other.
pub(crate) fn touch(a: &Run, b: &Run) -> bool
    ensures { IsTrue result ↔ Touch a.now b.now }
{
    a.chain == b.chain
        && u64::from(a.first) <= u64::from(b.last) + 1
        && u64::from(b.first) <= u64::from(a.last) + 1
}

/// Whether the first run has no command that the second one hasn't.
pub(crate) fn is_inside(inner: &Run, outer: &Run) -> bool
    ensures { result ≡ is_inside outer.now inner.now }
{
    inner.chain == outer.chain && outer.first <= inner.first && inner.last <= outer.last
}

/// The run that has what either of two runs has.
pub(crate) fn merged(a: &Run, b: &Run) -> Run
    requires { Touch a.now b.now }
    ensures { (at : At) → in_run at result ≡ (in_run at a.now || in_run at b.now) }
{
    Run {
        chain: a.chain,
        first: a.first.min(b.first),
        last: a.last.max(b.last),
    }
}

/// The run together with those that it touches, one after the other.
fn grown(runs: &[Run], run: Run) -> Run
    ensures more { (at : At) → in_run at run ≡ true → in_run at result ≡ true }
    ensures only { (at : At) → in_run at result ≡ true → (list_any (in_run at) runs.now || in_run at run) ≡ true }
{
    let mut whole = run;
    for r in runs {
        if touch(r, &whole) {
            whole = merged(r, &whole);
        }
    }
    whole
}

/// Whether one of the runs has no command less than this one.
pub(crate) fn covers(runs: &[Run], run: &Run) -> bool
    ensures one { result ≡ list_any (λ r. is_inside r run.now) runs.now }
    ensures has { IsTrue result → (at : At) → in_run at run.now ≡ true → list_any (in_run at) runs.now ≡ true }
{
    runs.iter().any(|r| is_inside(run, r))
}

/// Whether the run at the place has no command less than this one.
fn covers_at(runs: &[Run], i: usize, run: &Run) -> bool
    ensures { IsTrue result → (at : At) → in_run at run.now ≡ true → list_any (in_run at) runs.now ≡ true }
{
    i < runs.len() && is_inside(run, &runs[i])
}

/// Adds a run, which takes in those that it touches, and answers whether it was new. Only where there is no room it may fail, and then all stays as it is.
pub(crate) fn add(runs: &mut Vec<Run>, run: Run) -> Result<bool, AllocError>
    ensures ok { OnOk result ((at : At) → list_any (in_run at) runs.new.items ≡ (list_any (in_run at) runs.old.items || in_run at run)) }
    ensures err { OnErr result (runs.new.items ≡ runs.old.items) }
    ensures len { vec_len runs.new ≤ vec_len runs.old + 1 }
    ensures capacity { vec_capacity runs.old ≤ vec_capacity runs.new }
    ensures room { vec_len runs.old < vec_capacity runs.old → IsOk result }
{
    if covers(runs.as_slice(), &run) {
        return Ok(false);
    }
    let whole = grown(runs.as_slice(), run);
    runs.push(whole)?;
    runs.retain(|r| !is_inside(r, &whole) || is_inside(&whole, r));
    Ok(true)
}

/// The same for a run that is looked for at the place first.
pub(crate) fn add_near(runs: &mut Vec<Run>, i: usize, run: Run) -> Result<bool, AllocError>
    ensures ok { OnOk result ((at : At) → list_any (in_run at) runs.new.items ≡ (list_any (in_run at) runs.old.items || in_run at run)) }
    ensures err { OnErr result (runs.new.items ≡ runs.old.items) }
    ensures len { vec_len runs.new ≤ vec_len runs.old + 1 }
    ensures capacity { vec_capacity runs.old ≤ vec_capacity runs.new }
    ensures room { vec_len runs.old < vec_capacity runs.old → IsOk result }
{
    if covers_at(runs.as_slice(), i, &run) {
        return Ok(false);
    }
    add(runs, run)
}
