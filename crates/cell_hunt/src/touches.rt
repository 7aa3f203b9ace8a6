//! What a step touches.

ghost use Rattle.std.specs.Prelude.{◌≡◌};
ghost use Rattle.cell_hunt.specs.Kinds.{actor_number, program_touch, value_touch, line_touch};

use cell_base::Step;
use cell_machine::{Effect, Note, Place, Span};
use main_memory::LINE_BYTES;

/// How many numbers what belongs to a processor has: its program, its mailboxes 0 to 2, and its signal registers 1 and 2.
const OF_SPE: u32 = 6;

/// How many numbers there are in front of those of the lines of main memory, for sixteen processors.
pub const BEFORE_LINES: u32 = 96;

/// The number of the host as one who touches; processors have the even numbers, and their flow controllers the odd ones.
const HOST: u32 = 32;

/// That something is touched, by its number, and who touches it: an actor by its number, or of a program the address that is executed.
#[derive(Clone, Copy)]
pub struct Touch {
    pub what: u32,
    pub who: u32,
}

/// The actor of a step.
pub fn actor_number(step: Step) -> u32
    ensures { result ≡ actor_number step }
{
    match step {
        Step::Exec { spe } => 2 * u32::from(spe),
        Step::Piece { spe, .. } => 2 * u32::from(spe) + 1,
        Step::Elem { spe, .. } => 2 * u32::from(spe) + 1,
        Step::Retire { spe, .. } => 2 * u32::from(spe) + 1,
        Step::Atomic { spe } => 2 * u32::from(spe) + 1,
        Step::Host => HOST,
    }
}

/// The touch of its program by an instruction.
pub fn program_touch(step: Step, effect: &Effect) -> Option<Touch>
    ensures { result ≡ program_touch step effect.now }
{
    match step {
        Step::Exec { spe } => Some(Touch {
            what: OF_SPE * u32::from(spe),
            who: effect.fetch.at,
        }),
        _ => None,
    }
}

/// The touch of the line that bytes of main memory lie in.
pub fn line_touch(who: u32, span: Span) -> Option<Touch>
    ensures { result ≡ line_touch who span }
{
    match span.place {
        Place::Memory if span.len > 0 => Some(Touch {
            what: BEFORE_LINES + span.at / LINE_BYTES,
            who,
        }),
        _ => None,
    }
}

/// The touch of a mailbox or a signal register through which a value goes.
pub fn value_touch(who: u32, note: Note) -> Option<Touch>
    ensures { result ≡ value_touch who note }
{
    match note {
        Note::Put { spe, mailbox } => Some(Touch {
            what: OF_SPE * u32::from(spe) + 1 + u32::from(mailbox),
            who,
        }),
        Note::Take { spe, mailbox } => Some(Touch {
            what: OF_SPE * u32::from(spe) + 1 + u32::from(mailbox),
            who,
        }),
        Note::Signal { spe, register } => Some(Touch {
            what: OF_SPE * u32::from(spe) + 3 + u32::from(register),
            who,
        }),
        _ => None,
    }
}
