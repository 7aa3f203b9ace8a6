//! How steps are named.

ghost use Rattle.std.specs.Prelude.{◌≡◌, ◌+◌, ◌*◌, ◌≤◌};
ghost use Rattle.race_order.specs.Stamps.{chain_of, cmd_of, elem_noted, elem_of, stamp, event_of};
ghost use Rattle.race_order.specs.Roles.{fact_in};
ghost use Rattle.race_order.specs.Orderly.{IsWithin};

use cell_base::Step;
use cell_machine::{Effect, Note};
use order_sets::{At, Fact};

fn chain(spes: u8, step: Step) -> u8
    requires spes { spes ≤ 16 }
    requires within { IsWithin spes step }
    ensures { result ≡ chain_of spes step }
{
    match step {
        Step::Exec { spe } => spe,
        Step::Piece { spe, .. } => 2 * spes + spe,
        Step::Elem { spe, .. } => 2 * spes + spe,
        Step::Retire { spe, .. } => 2 * spes + spe,
        Step::Atomic { spe } => spes + spe,
        Step::Host => 3 * spes,
    }
}

fn command(step: Step) -> u32
    ensures { result ≡ cmd_of step }
{
    match step {
        Step::Piece { cmd, .. } => cmd,
        Step::Elem { cmd, .. } => cmd,
        Step::Retire { cmd, .. } => cmd,
        _ => 0,
    }
}

fn noted(note: Note) -> u16
    ensures { result ≡ elem_noted note }
{
    match note {
        Note::Element { number, .. } => number,
        _ => 65535,
    }
}

fn element(step: Step, note: Note) -> u16
    ensures { result ≡ elem_of step note }
{
    match step {
        Step::Piece { elem, .. } => elem,
        Step::Elem { .. } => noted(note),
        _ => 0,
    }
}

/// The name of the step at the place.
pub(crate) fn name(spes: u8, place: u32, step: Step, effect: &Effect) -> At
    requires spes { spes ≤ 16 }
    requires within { IsWithin spes step }
    ensures { result ≡ stamp spes place (event_of step effect.now) }
{
    At {
        chain: chain(spes, step),
        cmd: command(step),
        elem: element(step, effect.note),
        place,
    }
}

/// What names the step in a set. The only step of a command is named by the command: the names of commands that follow one another take one
/// place together, those of steps one each.
pub(crate) fn fact(spes: u8, at: At, step: Step, only: bool) -> Fact
    requires spes { spes ≤ 16 }
    requires within { IsWithin spes step }
    ensures { result ≡ fact_in spes only at step }
{
    if only {
        return Fact::Whole {
            chain: at.chain,
            cmd: at.cmd,
        };
    }
    match step {
        Step::Exec { spe } => Fact::Upto {
            chain: spe,
            place: at.place,
        },
        Step::Atomic { spe } => Fact::Upto {
            chain: spes + spe,
            place: at.place,
        },
        Step::Host => Fact::Upto {
            chain: 3 * spes,
            place: at.place,
        },
        _ => Fact::One { at },
    }
}
