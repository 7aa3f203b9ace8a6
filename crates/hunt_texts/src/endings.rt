//! The results of all endings.

ghost use Rattle.std.specs.Prelude.{◌≡◌, ◌++◌, map, OnOk};
ghost use Rattle.hunt_tally.specs.Lines.{told_by};
ghost use Rattle.hunt_tally.specs.Tallies.{told_in};
ghost use Rattle.hunt_texts.specs.About.{facts};
ghost use Rattle.hunt_texts.specs.Results.{all_results, stopped_results};

use crate::about::About;
use crate::ends::is_stopped;
use crate::groups::groups_of;
use crate::results::put_results;
use hunt_tally::{Line, Tally};
use std::alloc::{AllocError, Global};

/// Writes the results of an ending if all processors stopped.
fn put_stopped(
    out: &mut Vec<u8>,
    about: &About,
    ending: Line<'_>,
    results: &[Line<'_>],
) -> Result<(), AllocError>
    ensures { OnOk result (out.new.items ≡ out.old.items ++ stopped_results (facts about.now) (told_by ending.entry) (map told_by results.now)) }
{
    if is_stopped(ending) {
        return put_results(out, about, ending.key, results);
    }
    Ok(())
}

/// Writes the results of each ending in which all processors stopped, if there is more than one.
pub fn put_all_results(
    out: &mut Vec<u8>,
    alloc: Global,
    about: &About,
    endings: &Tally,
    results: &Tally,
) -> Result<(), AllocError>
    ensures { OnOk result (out.new.items ≡ out.old.items ++ all_results (facts about.now) (told_in endings.now) (told_in results.now)) }
{
    let groups = groups_of(alloc, endings, results)?;
    for place in 0..endings.len() {
        put_stopped(out, about, endings.get(place), groups[place].as_slice())?;
    }
    Ok(())
}
