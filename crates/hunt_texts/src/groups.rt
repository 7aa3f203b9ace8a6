//! The results of each ending.

ghost use Rattle.std.specs.Prelude.{[], IfOk};
ghost use Rattle.hunt_tally.specs.Tallies.{told_in};
ghost use Rattle.hunt_texts.specs.Groups.{AreGroups};

use hunt_tally::{Line, Tally};
use std::alloc::{AllocError, Global};

/// So many groups without results.
fn no_groups<'a>(alloc: Global, endings: &Tally) -> Result<Vec<Vec<Line<'a>>>, AllocError>
    ensures { IfOk result (λ v. AreGroups (told_in endings.now) [] v.items) }
{
    let mut groups = Vec::new(alloc);
    for _ in 0..endings.len() {
        groups.push(Vec::new(alloc))?;
    }
    Ok(groups)
}

/// The results of each ending, in the endings' order.
pub fn groups_of<'a>(
    alloc: Global,
    endings: &Tally,
    results: &'a Tally,
) -> Result<Vec<Vec<Line<'a>>>, AllocError>
    ensures { IfOk result (λ v. AreGroups (told_in endings.now) (told_in results.now) v.items) }
{
    let mut groups = no_groups(alloc, endings)?;
    for place in 0..results.len() {
        let line = results.get(place);
        if let Some(at) = endings.place_of(line.shown) {
            groups[at].push(line)?;
        }
    }
    Ok(groups)
}
