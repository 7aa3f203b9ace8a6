//! Runs on one thread, by choices.

ghost use Rattle.std.specs.Prelude.{◌≡◌, ◌≤◌, ◌+◌, ◌*◌, ◌/◌, ◌%◌, false, IfNone, IfSome, IsSome, IsTrue, length};
ghost use Rattle.cell_base.specs.declared.steps.Step.{Step as AStep};
ghost use Rattle.cell_machine.specs.Run.{next_of};
ghost use Rattle.trace_commands.specs.Choices.{actor_of, chosen_in, start, with_choice, with_choices, TakesTurns};

use cell_base::{Actor, Step};
use cell_machine::Machine;

/// The actor of a number, of so many processors: these, their flow controllers, the host.
fn actor_of(spes: u8, number: u64) -> Actor
    requires { spes ≤ 16 }
    ensures { result ≡ actor_of spes number }
{
    if number < u64::from(spes) {
        Actor::Spu(number as u8)
    } else if number < 2 * u64::from(spes) {
        Actor::Mfc((number - u64::from(spes)) as u8)
    } else {
        Actor::Host
    }
}

/// What the number chooses, of so many processors: its remainder the actor, and the rest one of its steps.
fn choice_of(spes: u8, number: u64) -> (Actor, u64)
    requires { spes ≤ 16 }
    ensures { result ≡ (actor_of spes (number % (2 * spes + 1)), number / (2 * spes + 1)) }
{
    let actors = 2 * u64::from(spes) + 1;
    (actor_of(spes, number % actors), number / actors)
}

/// The step that the number chooses: its remainder the actor, and the rest one of its steps. Where the actor has none, the first that is allowed.
pub fn chosen(machine: &Machine, number: u64) -> Option<Step>
    ensures chosen { result ≡ chosen_in machine.now number }
    ensures allowed { IfSome result (λ s. IsSome (next_of machine.now s)) }
    ensures none { IfNone result ((s : AStep) → next_of machine.now s ≡ None) }
{
    let (actor, choice) = choice_of(machine.setup().spes(), number);
    let picked = machine.pick(actor, choice);
    if picked.is_some() {
        picked
    } else {
        machine.any_step()
    }
}

/// Makes the step that the number chooses, and says whether one is allowed.
fn make_chosen(machine: &mut Machine, number: u64) -> bool
    ensures made { machine.new ≡ with_choice machine.old number }
    ensures setup { machine.new.setup ≡ machine.old.setup }
    ensures longer { IsTrue result → length machine.new.steps ≡ length machine.old.steps + 1 }
    ensures same { result ≡ false → machine.new ≡ machine.old }
    ensures over { result ≡ false → (s : AStep) → next_of machine.old s ≡ None }
{
    let (actor, choice) = choice_of(machine.setup().spes(), number);
    machine.step_as(actor, choice).is_some() || machine.step_any().is_some()
}

/// Makes the step that each number chooses, where one is allowed.
pub fn run_chosen(machine: &mut Machine, numbers: &[u64])
    ensures { machine.new ≡ with_choices machine.old numbers.now }
{
    for number in numbers {
        make_chosen(machine, *number);
    }
}

/// Makes the run that the numbers from 0 on choose to its end: the actors take turns.
pub fn run_alone(machine: &mut Machine)
    requires { machine.old ≡ start machine.old.setup }
    ensures setup { machine.new.setup ≡ machine.old.setup }
    ensures turns { TakesTurns machine.new }
{
    for number in 0..u64::from(machine.setup().budget()) {
        if !make_chosen(machine, number) {
            return;
        }
    }
}
