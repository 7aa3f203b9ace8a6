//! A step of a run that is made again.

ghost use Rattle.std.specs.Prelude.{◌≡◌, ◌+◌, ◌*◌, ◌≤◌, [], ◌∷◌, ◌++◌, IfOk, IsSome, IsSomeAnd, slice_range};
ghost use Rattle.cell_machine.specs.Limits.{IsOpening};
ghost use Rattle.cell_machine.specs.Run.{Ran, next_of, state_of};
ghost use Rattle.run_progress.specs.Repeats.{IsRepeated};

use crate::changes::{is_seen, is_shared};
use cell_base::Step;
use cell_machine::{Effect, Machine, Span};
use std::alloc::{AllocError, Global};

/// A step that was made again.
#[derive(Clone, Copy)]
pub struct Repeated {
    pub step: Step,
    pub effect: Effect,
    /// Whether it changes what other actors can see.
    pub changes: bool,
}

/// The bytes of main memory in a span that lies in it.
fn shared_bytes(alloc: Global, machine: &Machine, span: Span) -> Result<Vec<u8>, AllocError>
    requires { span.at + span.len ≤ 128 * machine.now.setup.lines }
    ensures { IfOk result (λ bytes. IsSomeAnd (state_of machine.now) (λ M. bytes.items ≡ slice_range M.memory.bytes span.at (span.at + span.len))) }
{
    let mut bytes = vec![in alloc; 0u8; span.len as usize]?;
    machine.memory().copy_out(span.at, bytes.as_mut_slice());
    Ok(bytes)
}

/// Makes a step that is allowed.
fn make(again: &mut Machine, step: Step)
    requires { IsSome (next_of again.old step) }
    ensures { again.new ≡ record again.old { steps = again.old.steps ++ step ∷ [] } }
{
    let Ok(_) = again.step(step) else {
        unreachable!()
    };
}

/// Makes the next step of a run again. Out of memory is the only refusal.
pub fn repeat(alloc: Global, again: &mut Machine, step: Step) -> Result<Repeated, AllocError>
    requires opening { IsOpening again.old.setup }
    requires allowed { IsSome (next_of again.old step) }
    ensures run { IfOk result (λ _. again.new ≡ record again.old { steps = again.old.steps ++ step ∷ [] }) }
    ensures repeated { IfOk result (IsRepeated again.old again.new) }
{
    let effect = again.allowed_effect(step);
    if is_seen(step, effect.note) {
        make(again, step);
        return Ok(Repeated {
            step,
            effect,
            changes: true,
        });
    }
    if !is_shared(effect.writes) {
        make(again, step);
        return Ok(Repeated {
            step,
            effect,
            changes: false,
        });
    }
    let before = shared_bytes(alloc, again, effect.writes)?;
    make(again, step);
    let after = shared_bytes(alloc, again, effect.writes)?;
    let changes = before.as_slice() != after.as_slice();
    Ok(Repeated {
        step,
        effect,
        changes,
    })
}
