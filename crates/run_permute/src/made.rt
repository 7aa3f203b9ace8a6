//! What a step does, and what it asks for.

ghost use Rattle.std.specs.Prelude.{◌≡◌, ℕ, ◌<◌, Some, IsSomeAnd, length};
ghost use Rattle.cell_base.specs.declared.steps.Step.TheVariants.{Exec};
ghost use Rattle.cell_machine.specs.Effects.{effect_in};
ghost use Rattle.cell_machine.specs.Exec.{asks};
ghost use Rattle.cell_machine.specs.Run.{spe_of};
ghost use Rattle.run_permute.specs.Walks.{IsMadeFrom};

use cell_base::{ChannelOp, Step};
use cell_machine::{Effect, Machine};

/// What a step does, and the channel operation that it asks for.
#[derive(Clone, Copy)]
pub struct Made {
    pub effect: Effect,
    pub operation: Option<ChannelOp>,
}

/// The channel operation that the step asks for.
fn asked(machine: &Machine, step: Step) -> Option<ChannelOp>
    requires { (p : ℕ) → step ≡ Exec p → p < length machine.now.setup.entries }
    ensures { (p : ℕ) → step ≡ Exec p → IsSomeAnd (spe_of machine.now p) (λ P. result ≡ asks P) }
{
    match step {
        Step::Exec { spe } => machine.asks(spe),
        _ => None,
    }
}

impl Made {
    /// What the next step of a machine, of which it tells this effect, does and asks for.
    pub fn of(machine: &Machine, step: Step, effect: Effect) -> Made
        requires { effect_in machine.now step ≡ Some effect }
        ensures { IsMadeFrom machine.now step result }
    {
        let _steps = machine.steps(); // which are a run, as its contract says
        Made {
            effect,
            operation: asked(machine, step),
        }
    }
}
