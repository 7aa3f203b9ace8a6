//! Which steps wait for a step.

ghost use Rattle.std.specs.Prelude.{◌≡◌, ℕ, ◌<◌, ◌⊎◌, ◌↔◌, IfOk, length};
ghost use Rattle.run_permute.specs.SettledLists.{IsIn};
ghost use Rattle.run_permute.specs.Lists.{list_at, steps_in};

use crate::few::Few;
use std::alloc::{AllocError, Global};
use std::mem::replace;

/// An empty list for each of so many steps.
pub fn no_waiters(alloc: Global, count: usize) -> Result<Vec<Few>, AllocError>
    ensures long { IfOk result (λ waiting. length waiting.items ≡ count) }
    ensures none { IfOk result (λ waiting. (i j : ℕ) → IsIn j (list_at waiting.items i) → ⊥) }
{
    let mut waiting = Vec::with_capacity(alloc, count)?;
    for _ in 0..count {
        waiting.push(Few::none(alloc))?;
    }
    Ok(waiting)
}

/// Adds step `j` to those that wait for step `i`.
pub fn add_waiter(waiting: &mut [Few], i: u32, j: u32) -> Result<(), AllocError>
    requires { i < length waiting.old }
    ensures long { length waiting.new ≡ length waiting.old }
    ensures here { IfOk result (λ _. (k : ℕ) → IsIn k (list_at waiting.new i) ↔ (IsIn k (list_at waiting.old i) ⊎ (k ≡ j))) }
    ensures others { IfOk result (λ _. (a : ℕ) → (a ≡ i → ⊥) → list_at waiting.new a ≡ list_at waiting.old a) }
{
    waiting[i as usize].push(j)?;
    Ok(())
}

/// Those that wait for step `i`, whose list is empty then.
pub fn take_waiters(alloc: Global, waiting: &mut [Few], i: u32) -> Few
    requires { i < length waiting.old }
    ensures long { length waiting.new ≡ length waiting.old }
    ensures taken { steps_in result ≡ list_at waiting.old i }
    ensures kept { (a k : ℕ) → IsIn k (list_at waiting.new a) → IsIn k (list_at waiting.old a) }
    ensures others { (a : ℕ) → (a ≡ i → ⊥) → list_at waiting.new a ≡ list_at waiting.old a }
{
    replace(&mut waiting[i as usize], Few::none(alloc))
}
