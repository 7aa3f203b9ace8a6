//! The least race of a run.

ghost use Rattle.std.specs.Prelude.{◌≡◌, [], IfOk};
ghost use Rattle.race_check.specs.Races.{IsVerdict};
ghost use Rattle.race_check.specs.Reorderings.{EveryReorderingAgrees};
ghost use Rattle.race_check.specs.Searches.{IsClear, run_of};

use crate::error::RaceError;
use crate::search::Search;
use cell_machine::Machine;
use std::alloc::Global;

/// What the check of a run says.
#[derive(Clone, Copy, Debug, PartialEq, Eq, Drop)]
pub enum Verdict {
    /// No two steps race.
    Accepted,
    /// These two steps race, by their places in the record, counted from 0. No race has a lower second place, and none with
    /// this one has a lower first.
    Race { first: u32, second: u32 },
}

/// Makes a machine's run again, until one of its steps races with an earlier one, and answers the verdict on the run.
fn search_again(search: &mut Search, m: &Machine) -> Result<Verdict, RaceError>
    requires begun { run_of search.old ≡ record m.now { steps = [] } }
    requires clear { IsClear search.old }
    ensures verdict { IfOk result (IsVerdict m.now) }
    ensures agree { IfOk result (λ v. v ≡ Verdict.Accepted → EveryReorderingAgrees m.now) }
{
    for step in m.steps() {
        let Some(effect) = search.machine().effect(*step) else {
            unreachable!()
        };
        let verdict = search.advance(*step, &effect)?;
        if let Verdict::Race { .. } = verdict {
            return Ok(verdict);
        }
    }
    Ok(Verdict::Accepted)
}

/// The least race of the machine's run: of the pairs of steps of which one writes a byte that the other fetches, reads or writes, and that
/// nothing orders, the one whose second step comes first, and with it the first step. `Accepted` where there is none: then the steps,
/// in any order that keeps the ordered pairs, fetch and read the same bytes, and leave the same.
///
/// The run is made again on a machine of its own. Want of memory is the only refusal.
pub fn check_races(alloc: Global, m: &Machine) -> Result<Verdict, RaceError>
    ensures verdict { IfOk result (IsVerdict m.now) }
    ensures agree { IfOk result (λ v. v ≡ Verdict.Accepted → EveryReorderingAgrees m.now) }
{
    let mut search = Search::new(alloc, m.setup(), m.steps().len())?;
    search_again(&mut search, m)
}
