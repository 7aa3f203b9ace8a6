//! The reordering of a number.

ghost use Rattle.std.specs.Prelude.{◌≡◌, ◌+◌, ◌*◌, ◌%◌, ◌<◌, ◌≤◌, IfOk, length};
ghost use Rattle.reorder_laws.specs.OrderedLaws.{IsOrdered};
ghost use Rattle.run_permute.specs.Nth.{IsNth};
ghost use Rattle.run_permute.specs.Needs.{AreNeeds};

use crate::few::Few;
use crate::order::Order;
use cell_machine::Machine;
use std::alloc::{AllocError, Global};

/// The position, of so many free steps, of the one that the number chooses where so many are taken.
fn position(number: u32, taken: u32, free: usize) -> usize
    requires { 0 < free }
    ensures chosen { result ≡ (number * (taken + 1)) % free }
    ensures within { result < free }
{
    let turn = u64::from(number) * (u64::from(taken) + 1);
    (turn % free as u64) as usize
}

/// The places of the steps of a machine's run in the order of the number; these tell what each step needs.
pub fn order_of_number(
    alloc: Global,
    whole: &Machine,
    needs: &[Few],
    number: u32,
) -> Result<Vec<u32>, AllocError>
    requires few { length needs.now ≤ 1000000 }
    requires needs { AreNeeds (IsOrdered whole.now) (length whole.now.steps) needs.now }
    ensures { IfOk result (λ order. IsNth whole.now number order.items) }
{
    let mut order = Order::new(alloc, needs)?;
    for taken in 0..needs.len() {
        let at = position(number, taken as u32, order.count());
        order.take(alloc, needs, at)?;
    }
    Ok(order.into_steps())
}
