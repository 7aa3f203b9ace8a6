// How far an outstanding command has come, beside its parts.
ghost use Rattle.std.specs.Prelude.{◌≡◌, ℕ, ◌≤◌, if◌then◌else◌};
ghost use Rattle.mfc_command.specs.declared.command.Command.{Command};
ghost use Rattle.cell_machine.specs.Spe.{Moves};
ghost use Rattle.cell_machine.specs.Moves.{is_moved};
ghost use Rattle.cell_machine.specs.Transfers.{has_element};
ghost use Rattle.cell_machine.specs.MovesShown.{IsListOf, other_steps};

use mfc_lists::ListState;

/// How far a command has come.
#[derive(Clone, Copy)]
pub(crate) struct Progress {
    /// What was read of it, if it is a list.
    pub(crate) list: Option<ListState>,
    /// How many steps beside pieces it can make once it may start: the reading of its next element, or its retirement.
    pub(crate) others: u8,
}

/// Whether a command that is this list, or none, has a next element that may be read.
pub(crate) fn has_next(list: Option<ListState>) -> bool
    ensures { (m : Moves) (c : ℕ) (d : Command) → IsListOf list m c d → result ≡ has_element m c d }
{
    match list {
        Some(list) => list.next_at().is_some(),
        None => false,
    }
}

/// How many steps a step is that is allowed or not.
fn one_if(allowed: bool) -> u8
    ensures few { result ≤ 1 }
    ensures count { result ≡ (if allowed then 1 else 0) }
{
    if allowed { 1 } else { 0 }
}

impl Progress {
    /// That of a command that is this list, or none, and is moved or is to be retired.
    pub(crate) fn new(list: Option<ListState>, moves: bool) -> Progress
        ensures list { result.list ≡ list }
        ensures others { (m : Moves) (c : ℕ) (d : Command) → IsListOf list m c d → moves ≡ is_moved d → result.others ≡ other_steps m c d }
    {
        let element = one_if(has_next(list));
        let retirement = one_if(!moves);
        Progress {
            list,
            others: element + retirement,
        }
    }
}
