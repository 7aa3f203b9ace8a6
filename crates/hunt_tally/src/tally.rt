//! The tally of what runs tell.

ghost use Rattle.std.specs.Prelude.{◌≡◌, ℕ, ◌+◌, ◌^◌, ◌<◌, List, [], ◌∷◌, ◌++◌, take, length, OnOk, OnErr, Some, slice_get};
ghost use Rattle.std.specs.List.{position};
ghost use Rattle.std.specs.Str.{bytes_eq};
ghost use Rattle.hunt_tally.specs.Tallies.{Tells, Entry, Took, entries_of, tallied, told_in};
ghost use Rattle.hunt_tally.specs.Takes.{took};
ghost use Rattle.hunt_tally.specs.Joins.{with_entry, joined, runs_telling, Fits, Joined};
ghost use Rattle.hunt_tally.specs.Views.{entry_in, entries_in};
ghost use Rattle.hunt_tally.specs.Lines.{told_by};

use crate::counted::Counted;
use crate::telling::Telling;
use indexmap::IndexMap;
use std::alloc::{AllocError, Global};
use std::marker::Model;
use std::mem::replace;

/// What is told: its key, what is printed of it, how many runs tell it, and the first of them, counted from 0.
#[derive(Clone, Copy)]
pub struct Line<'a> {
    pub key: &'a [u8],
    pub shown: &'a [u8],
    pub runs: u32,
    pub first: u32,
}

/// What runs told.
#[derive(Drop)]
pub struct Tally {
    /// How many were taken in.
    runs: u32,
    entries: IndexMap<Vec<u8>, Counted>,
}

impl Model for Tally {
    ghost use Rattle.std.specs.Prelude.{◌≡◌, List};
    ghost use Rattle.hunt_tally.specs.Tallies.{Tells, Tallied, tallied};

    ghost Value = { Tallied };

    ghost use Rattle.hunt_tally.specs.Views.{entries_in};

    ghost view = { λ t. record { runs = t.runs; entries = entries_in t.entries.entries } };

    ghost invariant = { λ t. (runs : List (List Tells)) × (record { runs = t.runs; entries = entries_in t.entries.entries } ≡ tallied runs) };
}

/// Takes in one telling of a run.
fn take_in(
    entries: &mut IndexMap<Vec<u8>, Counted>,
    run: u32,
    telling: Telling,
) -> Result<(), AllocError>
    requires { (i : ℕ) (e : Entry) → slice_get (entries_in entries.old.entries) i ≡ Some e → e.told.runs + 1 < 2 ^ 32 }
    ensures taken { OnOk result (entries_in entries.new.entries ≡ took run (entries_in entries.old.entries) telling) }
    ensures kept { OnErr result (entries_in entries.new.entries ≡ entries_in entries.old.entries) }
{
    let Telling { key, shown } = telling;
    match entries.get_index_of(key.as_slice()) {
        Some(place) => entries[place].count(run),
        None => {
            entries.insert(key, Counted::new(shown, run))?;
        }
    }
    Ok(())
}

/// Takes in the tellings of a run.
fn take_run(
    entries: &mut IndexMap<Vec<u8>, Counted>,
    run: u32,
    tellings: Vec<Telling>,
) -> Result<(), AllocError>
    requires room { run + 2 < 2 ^ 32 }
    requires runs { (runs : List (List Tells)) × (length runs ≡ run) × (entries_in entries.old.entries ≡ entries_of runs) }
    ensures taken { OnOk result ((runs : List (List Tells)) → length runs ≡ run → entries_in entries.old.entries ≡ entries_of runs → entries_in entries.new.entries ≡ entries_of (runs ++ tellings.items ∷ [])) }
    ensures part { OnErr result ((n : ℕ) × ((runs : List (List Tells)) → length runs ≡ run → entries_in entries.old.entries ≡ entries_of runs → entries_in entries.new.entries ≡ entries_of (runs ++ take n tellings.items ∷ []))) }
{
    for telling in tellings {
        take_in(entries, run, telling)?;
    }
    Ok(())
}

/// Takes in what runs tell of a key, before which so many others were made.
fn join_in(
    entries: &mut IndexMap<Vec<u8>, Counted>,
    before: u32,
    key: Vec<u8>,
    counted: Counted,
) -> Result<(), AllocError>
    requires runs { runs_telling key.items (entries_in entries.old.entries) + counted.runs < 2 ^ 32 }
    requires first { before + counted.first < 2 ^ 32 }
    requires last { before + counted.last < 2 ^ 32 }
    ensures { OnOk result (entries_in entries.new.entries ≡ with_entry before (entries_in entries.old.entries) (entry_in (key, counted))) }
{
    match entries.get_index_of(key.as_slice()) {
        Some(place) => entries[place].join(before, &counted),
        None => {
            entries.insert(key, counted.behind(before))?;
        }
    }
    Ok(())
}

/// Takes in what runs tell, before which so many others were made.
fn join_entries(
    entries: &mut IndexMap<Vec<u8>, Counted>,
    before: u32,
    behind: IndexMap<Vec<u8>, Counted>,
) -> Result<(), AllocError>
    requires { (runs : ℕ) × (before + runs < 2 ^ 32) × Fits before runs (entries_in entries.old.entries) (entries_in behind.entries) }
    ensures { OnOk result (entries_in entries.new.entries ≡ joined before (entries_in entries.old.entries) (entries_in behind.entries)) }
{
    for (key, counted) in behind {
        join_in(entries, before, key, counted)?;
    }
    Ok(())
}

impl Tally {
    /// Before the first run.
    pub fn new(alloc: Global) -> Tally
        ensures { result ≡ tallied [] }
    {
        Tally {
            runs: 0,
            entries: IndexMap::new(alloc),
        }
    }

    /// Takes in what the next run tells. Where there is no memory for all, the first tellings of the run are taken in.
    pub fn take(&mut self, tellings: Vec<Telling>) -> Result<(), AllocError>
        requires { self.old.runs + 2 < 2 ^ 32 }
        ensures runs { self.new.runs ≡ self.old.runs + 1 }
        ensures taken { OnOk result (Took tellings.items self.old self.new) }
        ensures part { OnErr result ((n : ℕ) × ((runs : List (List Tells)) → self.old ≡ tallied runs → self.new ≡ tallied (runs ++ take n tellings.items ∷ []))) }
    {
        let run = self.runs;
        self.runs += 1;
        take_run(&mut self.entries, run, tellings)
    }

    /// Takes in what the runs behind these tell. Where there is no memory for all, nothing is kept of what runs told.
    pub fn join(&mut self, alloc: Global, other: Tally) -> Result<(), AllocError>
        requires { self.old.runs + other.runs < 2 ^ 32 }
        ensures runs { self.new.runs ≡ self.old.runs + other.runs }
        ensures joined { OnOk result (Joined self.old other self.new) }
        ensures emptied { OnErr result (self.new.entries ≡ []) }
    {
        let before = self.runs;
        self.runs += other.runs;
        let mut entries = replace(&mut self.entries, IndexMap::new(alloc));
        join_entries(&mut entries, before, other.entries)?;
        self.entries = entries;
        Ok(())
    }

    /// How many different keys were told.
    pub fn len(&self) -> usize
        ensures { result ≡ length (told_in self.now) }
    {
        self.entries.len()
    }

    /// What is told at a place.
    pub fn get(&self, place: usize) -> Line<'_>
        requires { place < length (told_in self.now) }
        ensures { slice_get (told_in self.now) place ≡ Some (told_by result) }
    {
        let Some((key, counted)) = self.entries.get_index(place) else {
            unreachable!()
        };
        Line {
            key: key.as_slice(),
            shown: counted.shown.as_slice(),
            runs: counted.runs,
            first: counted.first,
        }
    }

    /// The place of a key.
    pub fn place_of(&self, key: &[u8]) -> Option<usize>
        ensures { result ≡ position (λ t. bytes_eq key.now t.key) (told_in self.now) }
    {
        self.entries.get_index_of(key)
    }
}
