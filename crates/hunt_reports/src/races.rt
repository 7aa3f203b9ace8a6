//! The data races of a run.

ghost use Rattle.std.specs.Prelude.{◌≡◌, ◌++◌, ◌||◌, codes, OnOk, IfOk};
ghost use Rattle.hunt_tally.specs.Tallies.{has};
ghost use Rattle.hunt_reports.specs.Lists.{bytes_in};
ghost use Rattle.hunt_reports.specs.Places.{sites_text};
ghost use Rattle.hunt_reports.specs.RaceLines.{race_shown};
ghost use Rattle.hunt_reports.specs.Races.{is_passed, races_told, race_findings, leaves_out};
ghost use Rattle.hunt_reports.specs.Taking.{with_race};

use crate::origins::Places;
use crate::places::{put_key, put_sites};
use crate::race_lines::race_shown;
use cell_hunt::{Racing, Sites};
use hunt_tally::Telling;
use std::alloc::{AllocError, Global};

/// What is found in a run: one race of each key, the findings, and whether a race was left out that was passed.
#[derive(Drop)]
pub struct Found {
    pub races: Vec<Telling>,
    pub findings: Vec<Telling>,
    pub leaves_out: bool,
}

/// Whether one of the tellings has this key.
pub fn has_key(told: &[Telling], key: &[u8]) -> bool
    ensures { result ≡ has key.now told.now }
{
    for telling in told {
        if key == telling.key.as_slice() {
            return true;
        }
    }
    false
}

fn is_among(passed: &[Vec<u8>], key: &[u8]) -> bool
    ensures { result ≡ is_passed (bytes_in passed.now) key.now }
{
    for other in passed {
        if key == other.as_slice() {
            return true;
        }
    }
    false
}

/// A race with its key.
fn telling_of(alloc: Global, key: &[u8], sites: Sites) -> Result<Telling, AllocError>
    ensures { IfOk result (λ t. t ≡ record { key = key.now; shown = sites_text sites }) }
{
    let key = Vec::from_slice(alloc, key)?;
    let mut shown = Vec::new(alloc);
    put_sites(&mut shown, sites)?;
    Ok(Telling { key, shown })
}

/// The finding of a race with this key.
fn finding_of(
    alloc: Global,
    places: &Places,
    race: &[u8],
    sites: Sites,
) -> Result<Telling, AllocError>
    ensures { IfOk result (λ t. t ≡ record { key = codes "race" ++ race.now; shown = race_shown places.now sites }) }
{
    let mut key = Vec::from_slice(alloc, b"race")?;
    key.extend_from_slice(race)?;
    let shown = race_shown(alloc, places, sites)?;
    Ok(Telling { key, shown })
}

/// Takes in a race with its key.
fn take_race(
    alloc: Global,
    found: &mut Found,
    places: &Places,
    passed: &[Vec<u8>],
    key: &[u8],
    sites: Sites,
) -> Result<(), AllocError>
    ensures told { OnOk result (found.new.races.items ≡ with_race (is_passed (bytes_in passed.now) key.now) (has key.now found.old.races.items) (record { key = key.now; shown = sites_text sites }) found.old.races.items) }
    ensures findings { OnOk result (found.new.findings.items ≡ with_race (is_passed (bytes_in passed.now) key.now) (has key.now found.old.races.items) (record { key = codes "race" ++ key.now; shown = race_shown places.now sites }) found.old.findings.items) }
    ensures left { OnOk result (found.new.leaves_out ≡ (found.old.leaves_out || is_passed (bytes_in passed.now) key.now)) }
{
    if is_among(passed, key) {
        found.leaves_out = true;
        return Ok(());
    }
    if has_key(found.races.as_slice(), key) {
        return Ok(());
    }
    found.races.push(telling_of(alloc, key, sites)?)?;
    found.findings.push(finding_of(alloc, places, key, sites)?)?;
    Ok(())
}

/// What is found in a run that has these races, without the findings that are no races.
pub fn races_of(
    alloc: Global,
    races: &[Racing],
    places: &Places,
    passed: &[Vec<u8>],
) -> Result<Found, AllocError>
    ensures told { IfOk result (λ f. f.races.items ≡ races_told places.now (bytes_in passed.now) races.now) }
    ensures findings { IfOk result (λ f. f.findings.items ≡ race_findings places.now (bytes_in passed.now) races.now) }
    ensures left { IfOk result (λ f. f.leaves_out ≡ leaves_out places.now (bytes_in passed.now) races.now) }
{
    let mut found = Found {
        races: Vec::new(alloc),
        findings: Vec::new(alloc),
        leaves_out: false,
    };
    let mut key = Vec::new(alloc);
    for racing in races {
        key.clear();
        put_key(alloc, &mut key, places, racing.sites)?;
        take_race(
            alloc,
            &mut found,
            places,
            passed,
            key.as_slice(),
            racing.sites,
        )?;
    }
    Ok(found)
}
