//! Steps of a machine that aren't told.

ghost use Rattle.cell_trace.specs.Effects.{Makes};

use cell_base::Step;
use cell_machine::Machine;

/// Makes steps, up to the first that isn't allowed, which it answers.
pub fn follow(m: &mut Machine, steps: &[Step]) -> Option<Step>
    ensures { Makes m.old steps.now m.new result }
{
    for step in steps {
        if m.step(*step).is_err() {
            return Some(*step);
        }
    }
    None
}
