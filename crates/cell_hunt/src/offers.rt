//! Which of the allowed steps has the greatest key.

ghost use Rattle.std.specs.Prelude.{◌≡◌, ◌<◌, ◌∷◌, ◌++◌, [], List, length, option_to_list, IfNone, IfSome, IsSome};
ghost use Rattle.cell_machine.specs.Run.{next_of};
ghost use Rattle.cell_base.specs.declared.steps.Step.{Step as AStep};
ghost use Rattle.cell_base.specs.declared.steps.Step.TheVariants.{Exec, Atomic, Host};
ghost use Rattle.cell_hunt.specs.Bests.{IsBestOf, is_beaten};
ghost use Rattle.cell_hunt.specs.Choices.{IsBest, key_of};
ghost use Rattle.cell_hunt.specs.Ends.{IsOver};
ghost use Rattle.cell_machine.specs.Choices.{queued_of};
ghost use Rattle.cell_hunt.specs.Offers.{offered, offered_by, offered_by_queue, queue_length};

use crate::keys::{ABOVE_KEYS, Keys};
use crate::owners::place_of;
use crate::polls::is_poll;
use crate::strategy::Strategy;
use cell_base::{Actor, Step};
use cell_machine::Machine;

/// A step and its key.
#[derive(Clone, Copy)]
pub struct Keyed {
    pub key: u64,
    pub step: Step,
}

/// The key of a step.
fn key_of(machine: &Machine, strategy: Strategy, keys: &Keys, step: Step) -> u64
    ensures { result ≡ key_of machine.now strategy keys.now step }
{
    let key = keys.key(strategy, place_of(step));
    if strategy.polls_last && is_poll(machine, step) {
        key
    } else {
        ABOVE_KEYS + key
    }
}

/// Whether the best so far has a key that is at least as great.
fn is_beaten(key: u64, best: Option<Keyed>) -> bool
    ensures { result ≡ is_beaten key best }
{
    match best {
        Some(best) => key <= best.key,
        None => false,
    }
}

/// Of the best so far and one more step the better one; of equal ones the first.
fn with_step(
    machine: &Machine,
    strategy: Strategy,
    keys: &Keys,
    step: Step,
    best: Option<Keyed>,
) -> Option<Keyed>
    ensures { (steps : List AStep) → IsBestOf (key_of machine.now strategy keys.now) steps best → IsBestOf (key_of machine.now strategy keys.now) (steps ++ step ∷ []) result }
{
    let key = key_of(machine, strategy, keys, step);
    if is_beaten(key, best) {
        return best;
    }
    Some(Keyed { key, step })
}

/// The same of a processor's instruction, if it is allowed. That is asked only if its key is greater.
fn with_instruction(
    machine: &Machine,
    strategy: Strategy,
    keys: &Keys,
    spe: u8,
    best: Option<Keyed>,
) -> Option<Keyed>
    ensures { (steps : List AStep) → IsBestOf (key_of machine.now strategy keys.now) steps best → IsBestOf (key_of machine.now strategy keys.now) (steps ++ offered machine.now (Exec spe)) result }
{
    let step = Step::Exec { spe };
    let key = key_of(machine, strategy, keys, step);
    if is_beaten(key, best) {
        return best;
    }
    if machine.pick(Actor::Spu(spe), 0).is_none() {
        return best;
    }
    Some(Keyed { key, step })
}

/// The same of the command in a processor's atomic slot, if it can be done.
fn with_atomic(
    machine: &Machine,
    strategy: Strategy,
    keys: &Keys,
    spe: u8,
    best: Option<Keyed>,
) -> Option<Keyed>
    ensures { (steps : List AStep) → IsBestOf (key_of machine.now strategy keys.now) steps best → IsBestOf (key_of machine.now strategy keys.now) (steps ++ offered machine.now (Atomic spe)) result }
{
    if !machine.has_atomic_step(spe) {
        return best;
    }
    with_step(machine, strategy, keys, Step::Atomic { spe }, best)
}

/// The same of the command at an index of a processor's queue, if it has an allowed step. That is asked only if its key is greater.
fn with_command(
    machine: &Machine,
    strategy: Strategy,
    keys: &Keys,
    spe: u8,
    index: usize,
    word: u32,
    best: Option<Keyed>,
) -> Option<Keyed>
    requires { spe < length machine.now.setup.entries }
    ensures { (steps : List AStep) → IsBestOf (key_of machine.now strategy keys.now) steps best → IsBestOf (key_of machine.now strategy keys.now) (steps ++ option_to_list (queued_of machine.now spe index word)) result }
{
    let Some(cmd) = machine.queued_number(spe, index) else {
        return best;
    };
    // all steps of a command have one key
    let key = key_of(machine, strategy, keys, Step::Retire { spe, cmd });
    if is_beaten(key, best) {
        return best;
    }
    match machine.pick_queued(spe, index, u64::from(word)) {
        Some(step) => Some(Keyed { key, step }),
        None => best,
    }
}

/// The same of the commands in a processor's queue. A word picks among the steps of each.
fn with_queue(
    machine: &Machine,
    strategy: Strategy,
    keys: &Keys,
    spe: u8,
    word: u32,
    best: Option<Keyed>,
) -> Option<Keyed>
    requires { spe < length machine.now.setup.entries }
    ensures { (steps : List AStep) → IsBestOf (key_of machine.now strategy keys.now) steps best → IsBestOf (key_of machine.now strategy keys.now) (steps ++ offered_by_queue machine.now word spe (queue_length machine.now spe)) result }
{
    let mut best = best;
    for index in 0..machine.queued(spe) {
        best = with_command(machine, strategy, keys, spe, index as usize, word, best);
    }
    best
}

/// The same of the host's action, if it is allowed.
fn with_host(
    machine: &Machine,
    strategy: Strategy,
    keys: &Keys,
    best: Option<Keyed>,
) -> Option<Keyed>
    ensures { (steps : List AStep) → IsBestOf (key_of machine.now strategy keys.now) steps best → IsBestOf (key_of machine.now strategy keys.now) (steps ++ offered machine.now Host) result }
{
    if machine.pick(Actor::Host, 0).is_none() {
        return best;
    }
    with_step(machine, strategy, keys, Step::Host, best)
}

/// The same of all that a processor has.
fn with_processor(
    machine: &Machine,
    strategy: Strategy,
    keys: &Keys,
    spe: u8,
    word: u32,
    best: Option<Keyed>,
) -> Option<Keyed>
    requires { spe < length machine.now.setup.entries }
    ensures { (steps : List AStep) → IsBestOf (key_of machine.now strategy keys.now) steps best → IsBestOf (key_of machine.now strategy keys.now) (steps ++ offered_by machine.now word spe) result }
{
    let best = with_instruction(machine, strategy, keys, spe, best);
    let best = with_atomic(machine, strategy, keys, spe, best);
    with_queue(machine, strategy, keys, spe, word, best)
}

/// The allowed step with the greatest key, in which a word picks among the steps of each queued command. None exactly if the run is over.
pub fn best(machine: &Machine, strategy: Strategy, keys: &Keys, word: u32) -> Option<Step>
    ensures best { IfSome result (IsBest machine.now strategy word keys.now) }
    ensures allowed { IfSome result (λ s. IsSome (next_of machine.now s)) }
    ensures none { IfNone result (IsOver machine.now) }
{
    let mut best = None;
    for spe in 0..machine.setup().spes() {
        best = with_processor(machine, strategy, keys, spe, word, best);
    }
    let Some(best) = with_host(machine, strategy, keys, best) else {
        // no actor has a step, so this is None, and its contract says that the run is over
        return machine.any_step();
    };
    Some(best.step)
}
