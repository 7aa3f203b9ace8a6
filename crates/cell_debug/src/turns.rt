// Turns, each of which makes a step.

ghost use Rattle.std.specs.Prelude.{◌≡◌, ◌<◌, ◌≤◌, ◌+◌, ◌*◌, ◌%◌, Some, None, length, IfSome, IsSome, if◌then◌else◌};
ghost use Rattle.std.specs.Bool.{OnFalse};
ghost use Rattle.cell_machine.specs.Run.{next_of};
ghost use Rattle.cell_debug.specs.Turns.{actor_of, chosen, round_turn, runs_at, turn, turn_until, turns, turns_until};

use cell_base::{Actor, Step};
use cell_machine::{Machine, Status};

/// The step of a turn: the actor's own where it has one, and otherwise the first that is allowed.
fn chosen(m: &Machine, actor: Actor, choice: u32) -> Option<Step>
    ensures chosen { result ≡ chosen m.now actor choice }
    ensures allowed { IfSome result (λ s. IsSome (next_of m.now s)) }
{
    match m.pick(actor, u64::from(choice)) {
        Some(step) => Some(step),
        None => m.any_step(),
    }
}

/// Makes a turn; false, and nothing changes, where no step is allowed.
fn make_turn(m: &mut Machine, actor: Actor, choice: u32) -> bool
    ensures turn { turn m.old actor choice ≡ (if result then Some m.new else None) }
    ensures stays { OnFalse result (m.new ≡ m.old) }
{
    let Some(step) = chosen(m, actor, choice) else {
        return false;
    };
    let _ = m.step(step);
    true
}

/// Makes turns of an actor, at most so many.
pub(crate) fn make_turns(m: &mut Machine, actor: Actor, choice: u32, most: u32)
    ensures { m.new ≡ turns most actor choice m.old }
{
    for _turn in 0..most {
        if !make_turn(m, actor, choice) {
            return;
        }
    }
}

/// The actor of a number: the processors, their flow controllers, the host.
fn actor_of(spes: u8, n: u32) -> Actor
    requires { spes ≤ 16 }
    ensures { result ≡ actor_of spes n }
{
    let many = u32::from(spes);
    if n < many {
        Actor::Spu(n as u8)
    } else if n < 2 * many {
        Actor::Mfc((n - many) as u8)
    } else {
        Actor::Host
    }
}

/// Whether a processor runs, and is at this address.
fn runs_at(m: &Machine, spe: u8, at: u32) -> bool
    requires { spe < length m.now.setup.entries }
    ensures { result ≡ runs_at spe at m.now }
{
    matches!(m.status(spe), Status::Running) && m.pc(spe) == at
}

/// Makes turn `t`, where all actors take turns.
fn make_round_turn(m: &mut Machine, t: u32) -> bool
    ensures turn { round_turn t m.old ≡ (if result then Some m.new else None) }
    ensures stays { OnFalse result (m.new ≡ m.old) }
{
    let spes = m.setup().spes();
    let actor = actor_of(spes, t % (2 * u32::from(spes) + 1));
    make_turn(m, actor, t)
}

/// Makes turn `t`, unless a processor runs at an address; false, and nothing changes, where it does or no step is allowed.
fn make_turn_until(m: &mut Machine, t: u32, spe: u8, at: u32) -> bool
    requires { spe < length m.old.setup.entries }
    ensures turn { turn_until t spe at m.old ≡ (if result then Some m.new else None) }
    ensures stays { OnFalse result (m.new ≡ m.old) }
{
    !runs_at(m, spe, at) && make_round_turn(m, t)
}

/// Makes turns of all actors, at most so many, up to where a processor runs at an address.
pub(crate) fn make_turns_until(m: &mut Machine, spe: u8, at: u32, most: u32)
    requires { spe < length m.old.setup.entries }
    ensures { m.new ≡ turns_until most 0 spe at m.old }
{
    for t in 0..most {
        if !make_turn_until(m, t, spe, at) {
            return;
        }
    }
}
