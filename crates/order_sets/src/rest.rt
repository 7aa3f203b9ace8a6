//! Facts that are kept as they are: single steps, and chains that are known to the last place that there can be.

ghost use Rattle.std.specs.Prelude.{◌≡◌, ℕ, ◌||◌, true, IsTrue, ◌<◌, ◌≤◌, ◌+◌, vec_len, vec_capacity, IsOk, OnOk, OnErr};
ghost use Rattle.std.specs.List.{list_any};
ghost use Rattle.order_sets.specs.declared.facts.At.{At};
ghost use Rattle.order_sets.specs.Facts.{covers};

use crate::facts::{At, Fact};
use std::alloc::AllocError;

fn covers(f: &Fact, at: At) -> bool
    ensures { result ≡ covers f.now at }
{
    match *f {
        Fact::Upto { chain, place } => at.chain == chain && at.place <= place,
        Fact::Whole { chain, cmd } => at.chain == chain && at.cmd == cmd,
        Fact::Elements { chain, cmd, below } => {
            at.chain == chain && at.cmd == cmd && at.elem < below
        }
        Fact::One { at: one } => {
            one.chain == at.chain
                && one.cmd == at.cmd
                && one.elem == at.elem
                && one.place == at.place
        }
    }
}

/// Whether one of the facts covers the step.
pub(crate) fn has(rest: &[Fact], at: At) -> bool
    ensures { result ≡ list_any (λ f. covers f at) rest.now }
{
    rest.iter().any(|f| covers(f, at))
}

/// Whether this is one of the facts.
fn is_there(rest: &[Fact], fact: &Fact) -> bool
    ensures { IsTrue result → (at : At) → covers fact.now at ≡ true → list_any (λ f. covers f at) rest.now ≡ true }
{
    rest.iter().any(|f| f == fact)
}

/// Adds the fact where it isn't there, and answers whether it was new. Only where there is no room it may fail, and then all stays as it is.
pub(crate) fn add(rest: &mut Vec<Fact>, fact: Fact) -> Result<bool, AllocError>
    ensures ok { OnOk result ((at : At) → list_any (λ f. covers f at) rest.new.items ≡ (list_any (λ f. covers f at) rest.old.items || covers fact at)) }
    ensures err { OnErr result (rest.new.items ≡ rest.old.items) }
    ensures len { vec_len rest.new ≤ vec_len rest.old + 1 }
    ensures capacity { vec_capacity rest.old ≤ vec_capacity rest.new }
    ensures room { vec_len rest.old < vec_capacity rest.old → IsOk result }
{
    if is_there(rest.as_slice(), &fact) {
        return Ok(false);
    }
    rest.push(fact)?;
    Ok(true)
}
